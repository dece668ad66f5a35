//! The answer to a call, as far as a worked example states it.

use crate::calls::Answer;
use stm_attempt::Conflict;
use vac_manager::Fault;
use vac_model::Reply;

/// The answer to a call. Numbers of locks and of held words are left out.
#[derive(Clone, Copy, Debug, PartialEq, Eq)]
pub(crate) enum Outcome {
    Replied(Reply),
    Arguments,
    Memory,
    /// A lock was held.
    Held,
    /// A word had this version, which is above the read version.
    Newer { version: u64, rv: u64 },
    /// Another conflict.
    Lost,
    /// The clock is spent: it has reached this last version.
    Spent(u64),
}

impl Outcome {
    fn of_conflict(conflict: Conflict) -> Outcome {
        match conflict {
            Conflict::Held { .. } => Outcome::Held,
            Conflict::Newer { version, rv, .. } => Outcome::Newer {
                version: version.get(),
                rv: rv.get(),
            },
            Conflict::Moved { .. } | Conflict::LostLock { .. } | Conflict::LostTick { .. } => {
                Outcome::Lost
            }
        }
    }

    fn of_fault(fault: Fault) -> Outcome {
        match fault {
            Fault::Arguments => Outcome::Arguments,
            Fault::Memory => Outcome::Memory,
            Fault::Busy(conflict) => Self::of_conflict(conflict),
            Fault::Spent { version } => Outcome::Spent(version.get()),
        }
    }

    pub(crate) fn of(answer: Answer) -> Outcome {
        match answer {
            Ok(reply) => Outcome::Replied(reply),
            Err(fault) => Self::of_fault(fault),
        }
    }
}
