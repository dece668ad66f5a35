//! The verdict on a history, and its text.

ghost use Rattle.std.specs.Prelude.{Some};
ghost use Rattle.judge_calls.specs.Verdict.{verdict_text};

use crate::fault::CallFault;
use std::fmt;
use std::fmt::{Display, Formatter};
use vac_model::{Reply, Report};

/// The fault of a call, after the calls that come before it.
#[derive(Clone, Copy, Debug, PartialEq, Eq)]
pub enum CallViolation {
    /// The call ends before it begins, or begins before an earlier call of its client ends.
    Client,
    /// The call ends before an earlier call of the order begins.
    Time,
    /// After the calls before it, the sequential manager gives this reply and not the reply of the
    /// call.
    Reply(Reply),
}

/// The summary of a legal history.
#[derive(Clone, Copy, Debug, PartialEq, Eq)]
pub struct Summary {
    /// Number of calls.
    pub calls: u64,
    /// Number of clients that made the calls.
    pub clients: u64,
    /// The report of the state that the calls leave.
    pub report: Report,
}

/// The verdict on a history. Lines are numbered from 1.
#[derive(Clone, Copy, Debug, PartialEq, Eq)]
pub enum Verdict {
    /// Each line is a call, and their order is a linearization.
    Legal(Summary),
    /// The line is no call.
    Fault { line: u64, fault: CallFault },
    /// The call of the line is wrong after the calls before it.
    Illegal { line: u64, wrong: CallViolation },
}

/// The verdict: two lines for a legal history, one line otherwise.
impl Display for Verdict {
    ghost output = { λ verdict. Some (verdict_text verdict) };

    fn fmt<W: fmt::Write>(&self, f: &mut Formatter<W>) -> fmt::Result {
        match self {
            Verdict::Legal(found) => write!(
                f,
                "legal calls={} clients={}\n{}\n",
                found.calls, found.clients, found.report
            ),
            Verdict::Fault { line, fault } => write!(f, "fault {} {line}\n", fault.name()),
            Verdict::Illegal { line, wrong } => match wrong {
                CallViolation::Client => write!(f, "illegal client {line}\n"),
                CallViolation::Time => write!(f, "illegal time {line}\n"),
                CallViolation::Reply(expected) => { write!(f, "illegal reply {line} {expected}\n") }
            },
        }
    }
}
