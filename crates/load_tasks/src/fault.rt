//! The reasons why the tasks of a load were not written to their end.

ghost use Rattle.std.specs.Prelude.{◌≡◌};

use std::alloc::AllocError;
use thiserror::Error;

/// The reason why the tasks of a load were not written to their end.
#[derive(Clone, Copy, Debug, PartialEq, Eq, Error)]
pub enum TasksFault {
    /// A setting is out of its range.
    #[error("a setting is out of its range")]
    Arguments,
    /// Memory was refused.
    #[error("out of memory")]
    Memory,
    /// The output could not be written, or a write wrote no byte.
    #[error("the output could not be written")]
    Write,
}

impl From<AllocError> for TasksFault {
    ghost use Rattle.load_tasks.specs.declared.fault.TasksFault.TheVariants.{Memory};

    ghost from_gives = { λ _ fault. fault ≡ Memory };

    fn from(_error: AllocError) -> TasksFault {
        TasksFault::Memory
    }
}
