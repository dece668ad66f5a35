//! The texts about a load that ran to its end: its two lines and its statistics.

ghost use Rattle.std.specs.Prelude.{◌≡◌, ◌*◌, Some};
ghost use Rattle.vac_model.specs.ReplyText.{field_text};
ghost use Rattle.load_run.specs.Summary.{counts_text, load_text, three_digits, seconds_text};
ghost use Rattle.load_run.specs.Summary.{statistics_text, attempts_per_task_text};
ghost use Rattle.load_run.specs.Summary.{quotient_or_zero, thousandths_of};
ghost use Rattle.load_run.specs.Summary.{timing_text, attempt_figures_text, stats_text};

use crate::load::LoadReport;
use crate::outcomes::Outcomes;
use crate::statistics::AttemptStatistics;
use std::fmt;
use std::fmt::{Display, Formatter};

/// Nanoseconds of a second.
const SECOND: u128 = 1_000_000_000;

/// Nanoseconds of a microsecond.
const MICROSECOND: u64 = 1_000;

/// The numbers of a load that ran to its end. Its `Display` is its statistics: the seconds that
/// its clients took, the completed tasks in a second, the attempts and conflicts, and the attempts
/// for each completed task.
#[derive(Clone, Copy)]
pub struct LoadSummary {
    /// The nanoseconds that its clients took.
    pub nanos: u64,
    /// The counts of its tasks, and the report of its last state.
    pub report: LoadReport,
    /// The statistics of its attempts.
    pub statistics: AttemptStatistics,
}

/// The counts, without a line end.
impl Display for Outcomes {
    ghost output = { λ outcomes. Some (counts_text outcomes) };

    fn fmt<W: fmt::Write>(&self, f: &mut Formatter<W>) -> fmt::Result {
        write!(f, "answered {} busy {}", self.answered, self.busy)?;
        write!(f, " memory {} spent {}", self.memory, self.spent)
    }
}

/// The two lines of a load: the counts of its tasks, and the report.
impl Display for LoadReport {
    ghost output = { λ load. Some (load_text load) };

    fn fmt<W: fmt::Write>(&self, f: &mut Formatter<W>) -> fmt::Result {
        write!(f, "{}\n{}\n", self.outcomes, self.report)
    }
}

/// A name and its number, whose text is the `field_text` of the contracts.
#[derive(Clone, Copy)]
struct Field<'a> {
    name: &'a str,
    number: u64,
}

impl Display for Field<'_> {
    ghost output = { λ field. Some (field_text field.name.now field.number) };

    fn fmt<W: fmt::Write>(&self, f: &mut Formatter<W>) -> fmt::Result {
        write!(f, "{}{}", self.name, self.number)
    }
}

/// Returns a number under its name.
fn named(name: &str, number: u64) -> Field<'_>
    ensures name { result.name.now ≡ name.now }
    ensures number { result.number ≡ number }
{
    Field { name, number }
}

/// The number of attempts, and the numbers of conflicts of each kind and over the lock of each
/// kind of word.
impl Display for AttemptStatistics {
    ghost output = { λ statistics. Some (statistics_text statistics) };

    fn fmt<W: fmt::Write>(&self, f: &mut Formatter<W>) -> fmt::Result {
        write!(
            f,
            "{}{}{}",
            named(" attempts ", self.attempts),
            named(" held ", self.held),
            named(" newer ", self.newer)
        )?;
        write!(
            f,
            "{}{}{}",
            named(" moved ", self.moved),
            named(" lost-lock ", self.lost_lock),
            named(" lost-tick ", self.lost_tick)
        )?;
        write!(
            f,
            "{}{}{}",
            named(" roots ", self.roots),
            named(" heads ", self.heads),
            named(" nodes ", self.nodes)
        )?;
        write!(
            f,
            "{}{}",
            named(" uses ", self.uses),
            named(" stocks ", self.stocks)
        )
    }
}

/// The last three digits of a number.
#[derive(Clone, Copy)]
struct ThreeDigits {
    number: u64,
}

impl Display for ThreeDigits {
    ghost output = { λ digits. Some (three_digits digits.number) };

    fn fmt<W: fmt::Write>(&self, f: &mut Formatter<W>) -> fmt::Result {
        let number = self.number;
        write!(
            f,
            "{}{}{}",
            number / 100 % 10,
            number / 10 % 10,
            number % 10
        )
    }
}

/// The words `seconds S.FFFFFF`, from microseconds.
#[derive(Clone, Copy)]
struct Seconds {
    micros: u64,
}

impl Display for Seconds {
    ghost output = { λ seconds. Some (seconds_text seconds.micros) };

    fn fmt<W: fmt::Write>(&self, f: &mut Formatter<W>) -> fmt::Result {
        let micros = self.micros;
        let millis = ThreeDigits {
            number: micros / 1_000,
        };
        let rest = ThreeDigits { number: micros };
        write!(f, "seconds {}.{millis}{rest}", micros / 1_000_000)
    }
}

/// The words ` attempts-per-task N.FFF`, with a space in front: the attempts for each completed
/// task, from thousandths.
#[derive(Clone, Copy)]
struct AttemptsPerTask {
    thousandths: u128,
}

impl Display for AttemptsPerTask {
    ghost output = { λ attempts. Some (attempts_per_task_text attempts.thousandths) };

    fn fmt<W: fmt::Write>(&self, f: &mut Formatter<W>) -> fmt::Result {
        let rest = ThreeDigits {
            number: (self.thousandths % 1_000) as u64,
        };
        write!(f, " attempts-per-task {}.{rest}", self.thousandths / 1_000)
    }
}

/// Returns `count / whole`, or zero if `whole` is zero.
fn quotient_or_zero(count: u128, whole: u64) -> u128
    ensures { result ≡ quotient_or_zero count whole }
{
    if whole == 0 {
        0
    } else {
        count / u128::from(whole)
    }
}

impl LoadSummary {
    /// Returns the number of thousandths of an attempt for each completed task.
    fn thousandths(&self) -> u128
        ensures { result ≡ thousandths_of self.now }
    {
        let attempts = u128::from(self.statistics.attempts);
        quotient_or_zero(attempts * 1_000, self.report.outcomes.answered)
    }

    /// Returns the number of completed tasks in a second.
    fn throughput(&self) -> u128
        ensures { result
            ≡ quotient_or_zero (self.now.report.outcomes.answered * SECOND) self.now.nanos }
    {
        let answered = u128::from(self.report.outcomes.answered);
        quotient_or_zero(answered * SECOND, self.nanos)
    }
}

/// The words `seconds S.FFFFFF tasks-per-second N`.
#[derive(Clone, Copy)]
struct Timing<'a> {
    summary: &'a LoadSummary,
}

impl Display for Timing<'_> {
    ghost output = { λ timing. Some (timing_text timing.summary.now) };

    fn fmt<W: fmt::Write>(&self, f: &mut Formatter<W>) -> fmt::Result {
        let seconds = Seconds {
            micros: self.summary.nanos / MICROSECOND,
        };
        write!(
            f,
            "{seconds} tasks-per-second {}",
            self.summary.throughput()
        )
    }
}

/// The statistics of a load's attempts, and the attempts for each completed task, with a space in
/// front.
#[derive(Clone, Copy)]
struct AttemptFigures<'a> {
    summary: &'a LoadSummary,
}

impl Display for AttemptFigures<'_> {
    ghost output = { λ figures. Some (attempt_figures_text figures.summary.now) };

    fn fmt<W: fmt::Write>(&self, f: &mut Formatter<W>) -> fmt::Result {
        let attempts = AttemptsPerTask {
            thousandths: self.summary.thousandths(),
        };
        write!(f, "{}{attempts}", self.summary.statistics)
    }
}

impl Display for LoadSummary {
    ghost output = { λ summary. Some (stats_text summary) };

    fn fmt<W: fmt::Write>(&self, f: &mut Formatter<W>) -> fmt::Result {
        let summary = self;
        write!(f, "{}{}", Timing { summary }, AttemptFigures { summary })
    }
}
