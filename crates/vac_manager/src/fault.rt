//! The reasons why a call of the manager returns no reply.
ghost use Rattle.std.specs.Prelude.{◌≡◌};
ghost use Rattle.vac_manager.specs.Faults.{fault_of};

use stm_attempt::{Conflict, Stop};
use stm_core::Version;
use thiserror::Error;

/// The reason why a call returned no reply. After any fault the call has left no trace: the call
/// added no record, stored nothing and holds no lock.
#[derive(Clone, Copy, Debug, PartialEq, Eq, Error)]
pub enum Fault {
    /// A number of the task, or the limit on attempts, is out of its range.
    #[error("a number is out of its range")]
    Arguments,
    /// Memory was refused.
    #[error("out of memory")]
    Memory,
    /// The last allowed attempt met this conflict with another client.
    #[error("the last try met a conflict")]
    Busy(Conflict),
    /// The clock is at its last version, so nothing more can be written.
    #[error("the clock is at its last version")]
    Spent { version: Version },
}

impl From<Stop> for Fault {
    ghost from_gives = { λ stop fault. fault ≡ fault_of stop };

    fn from(stop: Stop) -> Fault {
        match stop {
            Stop::Memory => Fault::Memory,
            Stop::Conflict(conflict) => Fault::Busy(conflict),
            Stop::Spent { version } => Fault::Spent { version },
        }
    }
}
