//! The amount of work of a thread.

/// Number of times that a thread issues its transaction.
pub(crate) const ROUNDS: u32 = 2_000;

/// Attempts of each call: more than two threads need.
pub(crate) const TRIES: u32 = 1 << 20;
