//! The verdict on a text of attempts, and its text.

ghost use Rattle.std.specs.Prelude.{◌≡◌, Some};
ghost use Rattle.judge_opacity.specs.Verdict.{is_opaque, attempts_counts_text, verdict_text};

use judge_object::Misplaced;
use std::fmt;
use std::fmt::{Display, Formatter};
use vac_lines::LineFault;

/// The fault of an attempt, after the attempts that come before it.
#[derive(Clone, Copy, Debug, PartialEq, Eq)]
pub enum AttemptViolation {
    /// The position of the attempt in the order is wrong.
    Place(Misplaced),
    /// A read of this word should give this value: the last value that the attempt itself wrote to
    /// the word, or, if it wrote none before the read, the value that the committed attempts
    /// before it left.
    Read { word: u32, expected: u64 },
}

/// The counts of attempts that are opaque.
#[derive(Clone, Copy, Debug, PartialEq, Eq)]
pub struct Counts {
    /// Number of attempts.
    pub attempts: u64,
    /// Number of committed attempts.
    pub committed: u64,
    /// Number of clients that made the attempts.
    pub clients: u64,
}

/// The verdict on a text of attempts. Lines are numbered from 1.
#[derive(Clone, Copy, Debug, PartialEq, Eq)]
pub enum Finding {
    /// Each line is an attempt, and the order of the lines shows that the attempts are opaque.
    Opaque(Counts),
    /// The line is no attempt.
    Fault {
        line: u64,
        fault: LineFault,
    },
    /// The attempt of the line is wrong after the attempts before it.
    Illegal {
        line: u64,
        violation: AttemptViolation,
    },
}

impl Display for Counts {
    ghost output = { λ counts. Some (attempts_counts_text counts) };

    fn fmt<W: fmt::Write>(&self, f: &mut Formatter<W>) -> fmt::Result {
        let (attempts, committed, clients) = (self.attempts, self.committed, self.clients);
        write!(
            f,
            "attempts={attempts} committed={committed} clients={clients}"
        )
    }
}

/// The verdict, without a line end.
impl Display for Finding {
    ghost output = { λ finding. Some (verdict_text finding) };

    fn fmt<W: fmt::Write>(&self, f: &mut Formatter<W>) -> fmt::Result {
        match *self {
            Finding::Opaque(counts) => write!(f, "opaque {counts}"),
            Finding::Fault { line, fault } => write!(f, "fault {} {line}", fault.name()),
            Finding::Illegal { line, violation } => match violation {
                AttemptViolation::Place(Misplaced::Client) => write!(f, "illegal client {line}"),
                AttemptViolation::Place(Misplaced::Time) => write!(f, "illegal time {line}"),
                AttemptViolation::Read { word, expected } => {
                    write!(f, "illegal read {line} {word} {expected}")
                }
            },
        }
    }
}

/// Returns whether the verdict is that the attempts are opaque.
pub(crate) fn is_opaque(finding: &Finding) -> bool
    ensures { result ≡ is_opaque finding.now }
{
    matches!(finding, Finding::Opaque(_))
}
