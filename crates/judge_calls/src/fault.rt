//! Reasons why a line of a history is no call.

ghost use Rattle.std.specs.Prelude.{◌≡◌, ◌++◌, codes};
ghost use Rattle.judge_calls.specs.Verdict.{call_fault_text};

use thiserror::Error;
use vac_lines::LineFault;

/// The reason why a line of a history is no call.
#[derive(Clone, Copy, Debug, PartialEq, Eq, Error)]
pub enum CallFault {
    /// The first arrow does not have four words or more before it and one or more after it, or
    /// there is no arrow, or the call is completed and its reply is not known.
    #[error("the line has no task and reply with an arrow between them")]
    BadCall,
    /// The line is too long or has a bad byte, a word that should be a number is none, or the
    /// task's line has a fault.
    #[error("{0}")]
    Line(LineFault),
}

impl CallFault {
    /// Returns the name of the fault, as an output has it.
    pub(crate) fn name(self) -> &'static str
        ensures { call_fault_text self ≡ codes "fault " ++ result.now }
    {
        match self {
            CallFault::BadCall => "bad-call",
            CallFault::Line(fault) => fault.name(),
        }
    }
}

impl From<LineFault> for CallFault {
    ghost use Rattle.std.specs.Prelude.{◌≡◌};
    ghost use Rattle.judge_calls.specs.declared.fault.CallFault.TheVariants.{Line};

    ghost from_gives = { λ e fault. fault ≡ Line e };

    fn from(fault: LineFault) -> CallFault {
        CallFault::Line(fault)
    }
}
