//! The entries of the ring's records.

/// The entry of a transaction of the ring: its operation and its answer, as in its record.
pub enum Entry {
    /// A push; `room` says whether there was room for the value.
    Push { value: u64, room: bool },
    /// A pop that took out this value, the oldest.
    Pop { value: u64 },
    /// A pop that found no value.
    Empty,
    /// A count of the values.
    Len { count: u64 },
}
