//! The commit position of a call's record, and the statistics of the call's attempts.

ghost use Rattle.std.specs.Prelude.{◌≡◌, ◌≤◌, ◌<◌, None};
ghost use Rattle.stm_object.specs.Tracing.{conflict_of};
ghost use Rattle.vac_model.specs.declared.limits.TheConstants.{MOST_TRIES};
ghost use Rattle.vac_manager.specs.Placed.{nothing_done, conflicts_of, locks_of};
ghost use Rattle.vac_manager.specs.Placed.{one_more_over, conflicted, counted};
ghost use Rattle.vac_manager.specs.Sites.{word_kind_of};

use crate::sites::{WordKind, word_kind_of};
use stm_attempt::{Conflict, Stop};
use stm_object::CommitPosition;
use vac_model::Reply;
use vac_model::limits::MOST_TRIES;

/// A reply, with the commit position of the call's record.
#[derive(Debug, PartialEq, Eq)]
pub struct PlacedReply {
    pub reply: Reply,
    pub place: CommitPosition,
}

/// Attempt statistics of one call: the number of attempts, the number that aborted on each kind of
/// conflict, and the number of conflicts over the lock of each kind of word.
#[derive(Clone, Copy, Debug, PartialEq, Eq, Default)]
pub struct CallStatistics {
    /// Attempts begun.
    pub attempts: u32,
    /// Attempts that found a lock word held by another client.
    pub held: u32,
    /// Attempts that found a version above their read version.
    pub newer: u32,
    /// Attempts that saw a lock word change during a read.
    pub moved: u32,
    /// Attempts that lost the exchange that takes a lock.
    pub lost_lock: u32,
    /// Attempts that lost the last exchange that a tick tries.
    pub lost_tick: u32,
    /// Conflicts over the lock of a root.
    pub roots: u32,
    /// Conflicts over the lock of a free-list head.
    pub heads: u32,
    /// Conflicts over the lock of a tree node: one of the first four words of a block.
    pub nodes: u32,
    /// Conflicts over the lock of a usage counter: the fifth word of a block.
    pub uses: u32,
    /// Conflicts over the lock of a stock counter: one of the last three words of a block.
    pub stocks: u32,
}

impl CallStatistics {
    /// Returns the statistics of no attempt.
    pub fn new() -> CallStatistics
        ensures { result ≡ nothing_done }
    {
        CallStatistics::default()
    }

    /// Counts a conflict by the kind of word that its lock guards.
    fn count_over(&mut self, lock: u32)
        requires few { locks_of self.old < MOST_TRIES }
        ensures { self.new ≡ one_more_over (word_kind_of lock) self.old }
    {
        match word_kind_of(lock) {
            WordKind::Root => self.roots += 1,
            WordKind::Head => self.heads += 1,
            WordKind::Node => self.nodes += 1,
            WordKind::Use => self.uses += 1,
            WordKind::Stock => self.stocks += 1,
        }
    }

    /// Counts an attempt that aborted on a conflict, by the kind of the conflict and by the kind
    /// of word that its lock guards.
    fn count_conflict(&mut self, conflict: Conflict)
        requires few { self.old.attempts < MOST_TRIES }
        requires conflicts { conflicts_of self.old ≤ self.old.attempts }
        requires locks { locks_of self.old ≤ self.old.attempts }
        ensures { self.new ≡ conflicted conflict self.old }
    {
        self.attempts += 1;
        match conflict {
            Conflict::Held { .. } => self.held += 1,
            Conflict::Newer { .. } => self.newer += 1,
            Conflict::Moved { .. } => self.moved += 1,
            Conflict::LostLock { .. } => self.lost_lock += 1,
            Conflict::LostTick { .. } => self.lost_tick += 1,
        }
        match conflict {
            Conflict::Held { lock, .. }
            | Conflict::Newer { lock, .. }
            | Conflict::Moved { lock, .. }
            | Conflict::LostLock { lock, .. } => self.count_over(lock),
            Conflict::LostTick { .. } => (),
        }
    }

    /// Counts an attempt that committed and returned a reply.
    pub(crate) fn count_answer(&mut self)
        requires conflicts { conflicts_of self.old ≤ self.old.attempts }
        requires locks { locks_of self.old ≤ self.old.attempts }
        ensures counted { self.new ≡ counted None self.old }
        ensures conflicts { conflicts_of self.new ≤ self.new.attempts }
        ensures locks { locks_of self.new ≤ self.new.attempts }
    {
        if self.attempts < MOST_TRIES {
            self.attempts += 1;
        }
    }

    /// Counts an attempt that stopped, and its conflict if the attempt met one.
    pub(crate) fn count_stop(&mut self, stop: &Stop)
        requires conflicts { conflicts_of self.old ≤ self.old.attempts }
        requires locks { locks_of self.old ≤ self.old.attempts }
        ensures counted { self.new ≡ counted (conflict_of stop.now) self.old }
        ensures conflicts { conflicts_of self.new ≤ self.new.attempts }
        ensures locks { locks_of self.new ≤ self.new.attempts }
    {
        if self.attempts < MOST_TRIES {
            match stop {
                Stop::Conflict(conflict) => self.count_conflict(*conflict),
                Stop::Memory | Stop::Spent { .. } => self.attempts += 1,
            }
        }
    }
}
