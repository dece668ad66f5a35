//! The notes of a walk.

use vac_bookings::Key;

/// Sums over the walked items and bookings.
#[derive(Clone, Copy, Debug, PartialEq, Eq)]
pub struct Tally {
    pub used: u64,
    pub free: u64,
    pub total: u64,
    pub bookings: u64,
    pub billed: u64,
}

/// An item that was walked.
#[derive(Clone, Copy)]
pub struct NotedItem {
    pub key: Key,
    /// The first word of the item's block.
    pub block: usize,
    /// Number of units that were found booked.
    pub booked: u64,
}

/// The walked items by ascending key, and the sums.
#[derive(Drop)]
pub struct Notes {
    pub items: Vec<NotedItem>,
    pub tally: Tally,
}
