//! Reasons why a transaction stopped.
ghost use Rattle.std.specs.Prelude.{◌≡◌};
ghost use Rattle.stm_attempt.specs.declared.conflict.Refusal.TheVariants.{Memory};

use std::alloc::AllocError;
use stm_core::Version;

/// A conflict with another client, with the word that one of the attempt's own steps found.
#[derive(Clone, Copy, Debug, PartialEq, Eq)]
pub enum Conflict {
    /// The lock word was held by another client.
    Held {
        lock: u32,
        word: u64,
    },
    /// The lock word had a version above the read version.
    Newer {
        lock: u32,
        version: Version,
        rv: Version,
    },
    /// The lock word changed while the data word was read.
    Moved {
        lock: u32,
        first: u64,
        second: u64,
    },
    /// The exchange that should take the lock lost.
    LostLock {
        lock: u32,
        found: u64,
    },
    /// The last allowed tick lost.
    LostTick {
        found: u64,
    },
}

/// The reason why a read or a write was refused. A refusal has one byte, so that a result travels
/// in registers.
#[derive(Clone, Copy, Debug, PartialEq, Eq)]
pub enum Refusal {
    /// A log could not grow. The attempt is unchanged and may go on.
    Memory,
    /// The attempt has met a conflict, which `stopped` returns, and can only abort.
    Stopped,
}

impl From<AllocError> for Refusal {
    ghost from_gives = { λ _ refusal. refusal ≡ Memory };

    fn from(_error: AllocError) -> Refusal {
        Refusal::Memory
    }
}

/// The reason why a read of an attempt that only reads was refused: the attempt has met a
/// conflict, which `stopped` returns, and can only abort.
#[derive(Clone, Copy, Debug, PartialEq, Eq)]
pub struct Stopped;

/// The reason why an attempt of a task stopped. A commit takes no memory and never returns
/// `Memory`; that case is for callers who run a task's body in an attempt.
#[derive(Clone, Copy, Debug, PartialEq, Eq)]
pub enum Stop {
    /// A log could not grow.
    Memory,
    /// The attempt met a conflict, and can only abort.
    Conflict(Conflict),
    /// The clock is at the last version, so that nothing more can be written.
    Spent { version: Version },
}
