//! The bound of a replay.

/// Largest number of clients that a replay numbers, gathered clients included.
pub const MOST_CLIENTS: u32 = 4_294_967_295;
