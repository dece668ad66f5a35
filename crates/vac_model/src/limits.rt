//! The limits of the reservation system. Each number stands here alone, except `MOST_BLOCKS`,
//! which `tx_alloc` has too, and `KINDS`, which `vac_bookings` has. Code, contracts and definitions
//! cite each by its name.

/// Number of kinds of items.
pub const KINDS: u32 = 3;

/// Largest number of blocks of a manager, which is the largest number of entries of a state.
pub const MOST_BLOCKS: u32 = 262_144;

/// Largest id of an item or of a customer.
pub const MOST_ID: u32 = u32::MAX;

/// Largest count or price in a command.
pub const MOST_AMOUNT: u32 = 1_000_000;

/// Largest number of units of one reservation.
pub const MOST_UNITS_AT_ONCE: u32 = 100;

/// Largest number of units of one booking.
pub const MOST_UNITS: u64 = 10_000;

/// Largest number of units of an item, free and used together.
pub const MOST_TOTAL: u64 = 1_000_000_000;

/// Largest number of asks of a trip, and of changes of an update.
pub const MOST_PARTS: usize = 32;

/// Largest number of attempts that a call of a manager may be given.
pub const MOST_TRIES: u32 = 1_048_576;
