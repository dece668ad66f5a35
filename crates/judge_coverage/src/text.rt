//! The texts of the figures of a log, for standard error.

ghost use Rattle.std.specs.Prelude.{Some};
ghost use Rattle.judge_coverage.specs.Text.{calls_coverage_text, attempts_coverage_text, warning_of};
ghost use Rattle.judge_coverage.specs.Text.{calls_warning_text, attempts_warning_text, pending_warning_text};

use crate::attempts::AttemptCoverage;
use crate::coverage::Coverage;
use std::fmt;
use std::fmt::{Display, Formatter};

/// The figures of a log of calls, a line for each.
impl Display for Coverage {
    ghost output = { λ coverage. Some (calls_coverage_text coverage) };

    fn fmt<W: fmt::Write>(&self, f: &mut Formatter<W>) -> fmt::Result {
        writeln!(f, "calls: {}", self.calls)?;
        writeln!(f, "clients: {}", self.clients)?;
        writeln!(f, "pending calls: {}", self.pending)?;
        writeln!(
            f,
            "calls that began while another client's ran: {}",
            self.overlapped
        )?;
        writeln!(f, "most calls at one moment: {}", self.most_at_once)
    }
}

/// The figures of a log of attempts, a line for each.
impl Display for AttemptCoverage {
    ghost output = { λ coverage. Some (attempts_coverage_text coverage) };

    fn fmt<W: fmt::Write>(&self, f: &mut Formatter<W>) -> fmt::Result {
        let intervals = self.intervals;
        writeln!(f, "attempts: {}", intervals.calls)?;
        writeln!(f, "clients: {}", intervals.clients)?;
        writeln!(f, "aborted attempts: {}", self.aborted)?;
        writeln!(f, "attempts that wrote nothing: {}", self.read_only)?;
        writeln!(
            f,
            "attempts that began while another client's ran: {}",
            intervals.overlapped
        )?;
        writeln!(f, "most attempts at one moment: {}", intervals.most_at_once)
    }
}

/// A warning of one line that a log shows little: `none` if there is no call, `few` if fewer than
/// one call in ten began while a call of another client ran. Empty otherwise.
#[derive(Clone, Copy)]
struct Warning<'a> {
    coverage: &'a Coverage,
    none: &'static str,
    few: &'static str,
}

impl Display for Warning<'_> {
    ghost output = { λ warning.
        Some (warning_of warning.coverage.now warning.none.now warning.few.now) };

    fn fmt<W: fmt::Write>(&self, f: &mut Formatter<W>) -> fmt::Result {
        let coverage = self.coverage;
        if coverage.calls == 0 {
            return writeln!(f, "{}", self.none);
        }
        if u128::from(coverage.overlapped) * 10 < u128::from(coverage.calls) {
            return writeln!(f, "{}", self.few);
        }
        Ok(())
    }
}

/// A warning of one line that a log of calls shows little: there is no call, or fewer than one call
/// in ten began while a call of another client ran. Empty otherwise.
#[derive(Clone, Copy)]
pub struct CallsWarning<'a> {
    /// The figures of the log.
    pub coverage: &'a Coverage,
}

impl Display for CallsWarning<'_> {
    ghost output = { λ warning. Some (calls_warning_text warning.coverage.now) };

    fn fmt<W: fmt::Write>(&self, f: &mut Formatter<W>) -> fmt::Result {
        let warning = Warning {
            coverage: self.coverage,
            none: "warning: there is no call: legal says nothing",
            few: "warning: fewer than one call in ten began beside another: legal says little",
        };
        write!(f, "{warning}")
    }
}

/// A warning of one line with the number of calls that never ended. The tasks of a client behind
/// such a call do not count as missing. Empty if there is no such call.
#[derive(Clone, Copy)]
pub struct PendingWarning<'a> {
    /// The figures of the log.
    pub coverage: &'a Coverage,
}

impl Display for PendingWarning<'_> {
    ghost output = { λ warning. Some (pending_warning_text warning.coverage.now) };

    fn fmt<W: fmt::Write>(&self, f: &mut Formatter<W>) -> fmt::Result {
        if self.coverage.pending == 0 {
            return Ok(());
        }
        writeln!(
            f,
            "warning: tasks behind a call without END are not missing; such calls: {}",
            self.coverage.pending
        )
    }
}

/// A warning of one line that a log of attempts shows little: there is no attempt, or fewer than
/// one attempt in ten began while an attempt of another client ran. Empty otherwise.
#[derive(Clone, Copy)]
pub struct AttemptsWarning<'a> {
    /// The figures of the log.
    pub coverage: &'a AttemptCoverage,
}

impl Display for AttemptsWarning<'_> {
    ghost output = { λ warning. Some (attempts_warning_text warning.coverage.now) };

    fn fmt<W: fmt::Write>(&self, f: &mut Formatter<W>) -> fmt::Result {
        let warning = Warning {
            coverage: &self.coverage.intervals,
            none: "warning: there is no attempt: opaque says nothing",
            few: "warning: fewer than one attempt in ten began beside another: opaque says little",
        };
        write!(f, "{warning}")
    }
}
