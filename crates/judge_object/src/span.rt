//! Who did something, and when.

/// When what never ended ends: later than all times.
pub const NEVER: u128 = 1 << 64;

/// Who did something, and between which readings of the clock.
#[derive(Clone, Copy, Debug, PartialEq, Eq)]
pub struct Span {
    /// The client.
    pub client: u32,
    /// A reading of the clock before it began.
    pub begin: u64,
    /// A reading of the clock after it ended, or a later time.
    pub end: u128,
}

/// The fault of a span after those before it.
#[derive(Clone, Copy, Debug, PartialEq, Eq)]
pub enum Misplaced {
    /// The span ends before it begins, or begins before an earlier one of its client ends.
    Client,
    /// The span ends before an earlier one begins.
    Time,
}
