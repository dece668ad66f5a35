//! Completed calls and traced attempts, as a recorder notes them.

use stm_object::CommitPosition;
use tx_memory::Access;
use vac_model::{Reply, Task};

/// A traced attempt.
#[derive(Drop)]
pub struct TracedAttempt {
    /// Begin of the attempt, in nanoseconds of a clock that all clients share.
    pub begin: u64,
    /// End of the attempt, by the same clock.
    pub end: u64,
    /// True if the attempt committed.
    pub commits: bool,
    /// Commit position of the attempt's record. An aborted attempt has no record; its position is
    /// that of a reader's record at its read version.
    pub place: CommitPosition,
    /// Reads and writes of the attempt, in this order.
    pub accesses: Vec<Access>,
}

/// A completed call.
#[derive(Drop)]
pub struct CompletedCall {
    /// Begin of the call, in nanoseconds of a clock that all clients share.
    pub begin: u64,
    /// Time at which the call returned, by the same clock.
    pub end: u64,
    pub task: Task,
    pub reply: Reply,
    /// Commit position of the call's record.
    pub place: CommitPosition,
    /// The attempt that committed, if attempts are traced and there was room for this one.
    pub attempt: Option<Box<TracedAttempt>>,
}
