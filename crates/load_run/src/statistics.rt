//! The attempt statistics of a client's calls.

ghost use Rattle.std.specs.Prelude.{◌≡◌, ◌<◌, ◌≤◌, ◌+◌, ◌^◌};
ghost use Rattle.vac_manager.specs.Placed.{conflicts_of};
ghost use Rattle.load_run.specs.Attempted.{no_attempts, conflicts_in, lock_conflicts_in, with_call, both_statistics};

use crate::sums::added_up;
use vac_manager::CallStatistics;

/// Attempt statistics of several calls: the number of attempts, the number that aborted on each
/// kind of conflict, and the number of conflicts over the lock of each kind of word.
#[derive(Clone, Copy, Debug, PartialEq, Eq, Default)]
pub struct AttemptStatistics {
    /// Attempts begun.
    pub attempts: u64,
    /// Attempts that found a lock word held by another client.
    pub held: u64,
    /// Attempts that found a version above their read version.
    pub newer: u64,
    /// Attempts that saw a lock word change during a read.
    pub moved: u64,
    /// Attempts that lost the exchange that takes a lock.
    pub lost_lock: u64,
    /// Attempts that lost the last exchange that a tick tries.
    pub lost_tick: u64,
    /// Conflicts over the lock of a root.
    pub roots: u64,
    /// Conflicts over the lock of a free-list head.
    pub heads: u64,
    /// Conflicts over the lock of a tree node: one of the first four words of a block.
    pub nodes: u64,
    /// Conflicts over the lock of a usage counter: the fifth word of a block.
    pub uses: u64,
    /// Conflicts over the lock of a stock counter: one of the last three words of a block.
    pub stocks: u64,
}

impl AttemptStatistics {
    /// Returns the statistics of no attempt.
    pub(crate) fn new() -> AttemptStatistics
        ensures { result ≡ no_attempts }
    {
        AttemptStatistics::default()
    }

    /// Adds the attempt statistics of one call.
    pub(crate) fn add(&mut self, statistics: &CallStatistics)
        requires few { self.old.attempts < 2 ^ 62 }
        requires conflicts { conflicts_in self.old ≤ self.old.attempts }
        requires locks { lock_conflicts_in self.old ≤ conflicts_in self.old }
        requires fits { conflicts_of statistics.now ≤ statistics.now.attempts }
        ensures { self.new ≡ with_call statistics.now self.old }
    {
        self.attempts += u64::from(statistics.attempts);
        self.held += u64::from(statistics.held);
        self.newer += u64::from(statistics.newer);
        self.moved += u64::from(statistics.moved);
        self.lost_lock += u64::from(statistics.lost_lock);
        self.lost_tick += u64::from(statistics.lost_tick);
        self.roots += u64::from(statistics.roots);
        self.heads += u64::from(statistics.heads);
        self.nodes += u64::from(statistics.nodes);
        self.uses += u64::from(statistics.uses);
        self.stocks += u64::from(statistics.stocks);
    }

    /// Adds up both statistics.
    pub(crate) fn plus(self, other: AttemptStatistics) -> AttemptStatistics
        requires fits { self.attempts + other.attempts < 2 ^ 63 }
        requires conflicts { conflicts_in self ≤ self.attempts }
        requires others { conflicts_in other ≤ other.attempts }
        requires locks { lock_conflicts_in self ≤ conflicts_in self }
        requires others_locks { lock_conflicts_in other ≤ conflicts_in other }
        ensures { result ≡ both_statistics self other }
    {
        added_up!(
            AttemptStatistics: self + other;
            attempts, held, newer, moved, lost_lock, lost_tick, roots, heads, nodes, uses, stocks
        )
    }
}
