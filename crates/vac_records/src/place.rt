//! The places of the words of an item and of a customer in their blocks. The words between the key
//! and these words link the block into its table.

/// The key, which is the item's id.
pub const KEY: u32 = tx_tree::place::KEY;

/// Number of booked units.
pub const USED: u32 = 4;

/// Number of units that can be booked.
pub const FREE: u32 = 5;

/// Number of units, booked or not.
pub const TOTAL: u32 = 6;

/// The price of a unit that is booked from now on.
pub const PRICE: u32 = 7;

/// The pointer to the first of a customer's bookings.
pub const BOOKINGS: u32 = 4;
