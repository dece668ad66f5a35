//! The faults of a line.

ghost use Rattle.std.specs.Prelude.{◌≡◌};
ghost use Rattle.vac_lines.specs.Text.{fault_name};

use thiserror::Error;

/// The reason why a line has no task, in the order in which faults are looked for. No code reads
/// the numbers.
#[derive(Clone, Copy, Debug, PartialEq, Eq, Error)]
pub enum LineFault {
    /// The line has more than 1,024 bytes before its end.
    #[error("the line is too long")]
    LongLine = 1,
    /// The line has a byte below 32 or above 126.
    #[error("a byte of the line is not printable")]
    BadByte = 2,
    /// The first word is not the name of a line.
    #[error("the line names no command")]
    BadCommand = 3,
    /// The number of words is wrong for the command.
    #[error("the command takes another number of words")]
    BadCount = 4,
    /// A word that should be a kind of item is not one.
    #[error("a word is no kind of item")]
    BadKind = 5,
    /// A word that should be a number is not one, or the number is out of its range.
    #[error("a word is no number in its range")]
    BadNumber = 6,
    /// Memory was refused for reading the line, which is no fault of the line.
    #[error("out of memory")]
    Memory = 7,
}

impl LineFault {
    /// Returns the name of the fault, as an output has it.
    pub fn name(self) -> &'static str
        ensures { result.now ≡ fault_name self }
    {
        match self {
            LineFault::LongLine => "long-line",
            LineFault::BadByte => "bad-byte",
            LineFault::BadCommand => "bad-command",
            LineFault::BadCount => "bad-count",
            LineFault::BadKind => "bad-kind",
            LineFault::BadNumber => "bad-number",
            LineFault::Memory => "memory",
        }
    }
}
