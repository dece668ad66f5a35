//! The places of the words of a booking in its block. The three words after them are spare.

/// 0 for a car, 1 for a flight and 2 for a room.
pub const KIND: u32 = 0;

/// The id of the booked item.
pub const ID: u32 = 1;

/// The sum of the prices of the units, each as it was when the unit was booked.
pub const SUM: u32 = 2;

/// The pointer to the next booking of the list.
pub const NEXT: u32 = 3;

/// Number of booked units.
pub const UNITS: u32 = 4;

/// Number of kinds. (`vac_model`, which this crate does not use, has the number too.)
pub const KINDS: u64 = 3;
