//! The events that the running core plays, and its results.

ghost use Rattle.std.specs.Prelude.{◌≡◌, IfOk};

use std::alloc::{AllocError, Allocator, Global};
use std::marker::Model;

/// The writes of a tick: pairs of address and value.
#[derive(Drop)]
pub struct Writes<A: Allocator + Copy = Global> {
    pairs: Vec<(u32, u64), A>,
}

impl<A: Allocator + Copy> Model for Writes<A> {
    ghost use Rattle.std.specs.Prelude.{List, ℕ};

    ghost Value = { List (ℕ × ℕ) };

    ghost view = { λ w. w.pairs.items };
}

impl<A: Allocator + Copy> Writes<A> {
    /// Returns a copy of the pairs, in their order.
    ///
    /// # Errors
    ///
    /// Returns an error if the memory for the pairs is refused.
    pub fn of(alloc: A, pairs: &[(u32, u64)]) -> Result<Writes<A>, AllocError>
        ensures { IfOk result (λ w. w ≡ pairs.now) }
    {
        Ok(Writes {
            pairs: Vec::from_slice(alloc, pairs)?,
        })
    }

    /// Returns the pairs as a slice.
    pub(crate) fn as_slice(&self) -> &[(u32, u64)]
        ensures { result.now ≡ self.now }
    {
        &self.pairs
    }

    /// Returns the pairs as a vector.
    pub(crate) fn into_pairs(self) -> Vec<(u32, u64), A>
        ensures { result.items ≡ self }
    {
        self.pairs
    }
}

/// An event of a region: an atomic step of one client, the split or the gathering of a client, or
/// a renewal of the clock. Clients are numbered from 1 in the order of opening and splitting, and
/// no number is used again.
#[derive(Drop)]
pub enum Event<A: Allocator + Copy = Global> {
    /// Loads the clock and begins an attempt; the value found is its read version.
    Begin {
        client: u32,
    },
    /// Loads a lock word.
    Probe {
        client: u32,
        lock: u32,
    },
    /// Loads a data word, after a probe that found its lock free, with a version of at most the
    /// read version.
    Fetch {
        client: u32,
        addr: u32,
    },
    /// Loads the lock word again; if the word has not changed, the value counts as read.
    Check {
        client: u32,
        addr: u32,
    },
    /// Exchanges a lock word that was found free for a held one.
    Lock {
        client: u32,
        lock: u32,
    },
    /// Exchanges the clock for its next value, which becomes the write version.
    Tick {
        client: u32,
        from: u64,
        tag: u64,
        writes: Writes<A>,
    },
    /// Loads the lock word of the next read address; the last validation that passes decides.
    Validate {
        client: u32,
        lock: u32,
    },
    /// Stores a value.
    Put {
        client: u32,
        addr: u32,
        value: u64,
    },
    /// Stores a free lock word of the write version.
    Release {
        client: u32,
        lock: u32,
    },
    /// Stores a free lock word of the old version.
    GiveBack {
        client: u32,
        lock: u32,
    },
    /// Loads the clock: the attempt ends as a reader.
    Finish {
        client: u32,
        tag: u64,
    },
    /// Splits off a new client, for one grant.
    Split {
        client: u32,
    },
    /// Takes over the records and grants of another client, which is no client any more.
    Gather {
        client: u32,
        other: u32,
    },
    /// Resets the clock to 0, with the same data words and every lock free at version 0. The
    /// client must be the only one that is out, and its attempt must have ended.
    Renew {
        client: u32,
        last: u64,
    },
}

/// A decided record: its client, its tag, its version, whether it is a writer's record, and the
/// number of renewals of the clock before it.
#[derive(Clone, Copy, Debug, PartialEq, Eq)]
pub struct Entry {
    pub client: u32,
    pub tag: u64,
    pub version: u64,
    pub writer: bool,
    pub renewal: u32,
}

/// The reason why an event was not played.
#[derive(Clone, Copy, Debug, PartialEq, Eq)]
pub enum NotAllowed {
    /// The event is not allowed in this state.
    Event = 1,
    /// The memory that the event needs was refused, or no more events can be counted.
    Memory = 2,
}
