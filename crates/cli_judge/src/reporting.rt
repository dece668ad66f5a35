//! The report of a judge on its log, for standard error.

ghost use Rattle.std.specs.Prelude.{Some};
ghost use Rattle.vac_lines.specs.Writing.{AppendsPrefix};
ghost use Rattle.cli_judge.specs.Reporting.{calls_report, attempts_report};

use cli_common::{DONE, write_text};
use judge_coverage::{
    AttemptCoverage, AttemptsWarning, CallsWarning, Coverage, MOST_ENTRIES, PendingWarning,
};
use std::alloc::Global;
use std::fmt;
use std::fmt::{Display, Formatter};
use std::io::Write;

/// Largest number of calls or attempts that are watched if no figures are asked for. Watching this
/// number of them takes less than two megabytes.
const MOST_UNASKED: usize = 1 << 14;

/// Returns the largest number of calls or attempts that are watched.
pub(crate) fn most_watched(stats: bool) -> usize {
    if stats { MOST_ENTRIES } else { MOST_UNASKED }
}

/// The line in the place of figures that could not be had.
const UNMEASURED: &str = "no figures: memory was refused, or there are over 4194304 lines\n";

/// The report on a log of calls: the figures if they are asked for, and the warnings if the status
/// is that of a positive verdict.
#[derive(Clone, Copy)]
struct CallsReport {
    stats: bool,
    /// True if the log is checked against a workload.
    has_workload: bool,
    status: u8,
    /// The figures, if they could be had.
    coverage: Option<Coverage>,
}

impl Display for CallsReport {
    ghost output = { λ report.
        Some (calls_report report.stats report.has_workload report.status report.coverage) };

    fn fmt<W: fmt::Write>(&self, f: &mut Formatter<W>) -> fmt::Result {
        let Some(coverage) = &self.coverage else {
            if self.stats {
                write!(f, "{UNMEASURED}")?;
            }
            return Ok(());
        };
        if self.stats {
            write!(f, "{coverage}")?;
        }
        if self.status == DONE {
            write!(f, "{}", CallsWarning { coverage })?;
            if self.has_workload {
                write!(f, "{}", PendingWarning { coverage })?;
            }
        }
        Ok(())
    }
}

/// The report on a log of attempts: the figures if they are asked for, and the warning if the
/// status is that of a positive verdict.
#[derive(Clone, Copy)]
struct AttemptsReport {
    stats: bool,
    status: u8,
    coverage: Option<AttemptCoverage>,
}

impl Display for AttemptsReport {
    ghost output = { λ report.
        Some (attempts_report report.stats report.status report.coverage) };

    fn fmt<W: fmt::Write>(&self, f: &mut Formatter<W>) -> fmt::Result {
        let Some(coverage) = &self.coverage else {
            if self.stats {
                write!(f, "{UNMEASURED}")?;
            }
            return Ok(());
        };
        if self.stats {
            write!(f, "{coverage}")?;
        }
        if self.status == DONE {
            write!(f, "{}", AttemptsWarning { coverage })?;
        }
        Ok(())
    }
}

/// Writes the report on a log of calls to `errors`: the figures if they are asked for, and the
/// warnings if the status is that of a positive verdict. Writes nothing if memory is refused; a
/// failed write changes nothing.
pub(crate) fn report_calls<E: Write>(
    alloc: Global,
    stats: bool,
    has_workload: bool,
    status: u8,
    coverage: Option<Coverage>,
    errors: &mut E,
)
    ensures { AppendsPrefix (E.contents errors.old) (E.contents errors.new)
        (calls_report stats has_workload status coverage) }
{
    let report = CallsReport {
        stats,
        has_workload,
        status,
        coverage,
    };
    write_text(alloc, report, errors);
}

/// Writes the report on a log of attempts to `errors`: the figures if they are asked for, and the
/// warning if the status is that of a positive verdict. Writes nothing if memory is refused; a
/// failed write changes nothing.
pub(crate) fn report_attempts<E: Write>(
    alloc: Global,
    stats: bool,
    status: u8,
    coverage: Option<AttemptCoverage>,
    errors: &mut E,
)
    ensures { AppendsPrefix (E.contents errors.old) (E.contents errors.new)
        (attempts_report stats status coverage) }
{
    let report = AttemptsReport {
        stats,
        status,
        coverage,
    };
    write_text(alloc, report, errors);
}
