//! The reasons why a text was not read or written to its end.

ghost use Rattle.std.specs.Prelude.{◌≡◌};

use crate::writing::NotWritten;
use std::alloc::AllocError;
use thiserror::Error;

/// The reason why a text was not read or written to its end.
#[derive(Clone, Copy, Debug, PartialEq, Eq, Error)]
pub enum StreamFault {
    /// The input could not be read.
    #[error("the input could not be read")]
    Read = 1,
    /// The output could not be written, or a write wrote no byte.
    #[error("the output could not be written")]
    Write = 2,
    /// Memory was refused.
    #[error("out of memory")]
    Memory = 3,
    /// The input needs more reads than may be made, or has more lines than can be counted.
    #[error("the input is too long")]
    Bound = 6,
}

impl From<AllocError> for StreamFault {
    ghost use Rattle.vac_lines.specs.declared.stream_fault.StreamFault.TheVariants.{Memory};

    ghost from_gives = { λ _ fault. fault ≡ Memory };

    fn from(_error: AllocError) -> StreamFault {
        StreamFault::Memory
    }
}

impl From<NotWritten> for StreamFault {
    ghost use Rattle.vac_lines.specs.declared.stream_fault.StreamFault.TheVariants.{Write};

    ghost from_gives = { λ _ fault. fault ≡ Write };

    fn from(_error: NotWritten) -> StreamFault {
        StreamFault::Write
    }
}
