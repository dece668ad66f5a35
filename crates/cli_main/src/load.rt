//! A load from the command line, and the lines that the load writes.

ghost use Rattle.std.specs.Prelude.{◌≡◌, ◌≤◌, ◌⊎◌, Some};
ghost use Rattle.load_run.specs.Summary.{load_text};
ghost use Rattle.cli_main.specs.Statistics.{load_lines, statistics_line, summary_text};
ghost use Rattle.cli_main.specs.Load.{EndsLoad, WroteLoad, WroteLoadInPart};
ghost use Rattle.cli_main.specs.Program.{LoadsAs};
ghost use Rattle.std.specs.Io.KnownBytes.{Appends};
ghost use Rattle.vac_lines.specs.declared.stream_fault.StreamFault.TheVariants.{Memory};
ghost use Rattle.cli_common.specs.Ending.{fault_line};
ghost use Rattle.vac_lines.specs.Writing.{AppendsPrefix};

use crate::status::{FAULT, end_by, end_by_settings, end_load_by};
use crate::telling::run_with_progress;
use crate::timer::LoadTimer;
use cli_common::{refuse, write_done, write_text};
use cli_options::LoadOutput;
use load_run::{LoadFault, LoadReport, LoadSummary, no_recorders};
use load_tasks::Settings;
use std::alloc::Global;
use std::fmt;
use std::fmt::{Display, Formatter};
use std::io::Write;
use std::sync::Wait;
use std::thread::Threads;
use std::time::Clock;
use vac_lines::{StreamFault, print};

/// The refusal of a command line that asks for both the history and the attempts of a load.
const BOTH_OUTPUTS: &[u8] = b"error: --history and --attempts do not go together\n";

/// A load from the command line, with the runtime it runs on.
#[derive(Drop)]
pub(crate) struct LoadRequest<'a, T> {
    pub(crate) rt: &'a T,
    pub(crate) settings: &'a Settings,
    /// The outputs that the command line asks for.
    pub(crate) how: LoadOutput,
}

/// Runs a load, writes its two lines, the history of its calls or their attempts, and returns the
/// status. If the command line asks for them, writes progress lines to `errors`, and at the end
/// the time and the attempt statistics of the clients. If the history or the attempts are written,
/// the two lines go to `errors`.
pub(crate) fn load<T: Threads + Wait + Clock + Sync + AllocGlobal, W: Write, E: Write + Send>(
    rt: &T,
    settings: &Settings,
    how: LoadOutput,
    output: &mut W,
    errors: &mut E,
) -> u8
    ensures { LoadsAs how result settings.now (W.contents output.old) (W.contents output.new)
        (E.contents errors.old) (E.contents errors.new) }
{
    let asked = LoadRequest { rt, settings, how };
    match (how.history, how.attempts) {
        (true, true) => refuse(BOTH_OUTPUTS, errors),
        (true, false) => asked.note(output, errors),
        (false, true) => asked.trace(output, errors),
        (false, false) => asked.report(output, errors),
    }
}

impl<T: Threads + Wait + Clock + Sync + AllocGlobal> LoadRequest<'_, T> {
    /// Runs the load, writes its two lines, and returns the status.
    fn report<W: Write, E: Write + Send>(&self, output: &mut W, errors: &mut E) -> u8
        ensures { EndsLoad WroteLoad WroteLoadInPart self.now.how result self.now.settings.now
            (W.contents output.old) (W.contents output.new)
            (E.contents errors.old) (E.contents errors.new) }
    {
        if !self.settings.is_in_range() {
            return end_by_settings(self.rt.alloc(), self.settings, output, errors);
        }
        let Ok(recorders) = no_recorders(self.rt.alloc(), self.settings.clients) else {
            return end_load_by(LoadFault::Memory, output);
        };
        let timer = LoadTimer::new(self.rt, self.settings.clients);
        match run_with_progress(self.rt, self.settings, self.how, recorders, &timer, errors) {
            Ok((report, statistics, _kept)) => {
                let nanos = timer.nanos();
                let summary = LoadSummary {
                    nanos,
                    report,
                    statistics,
                };
                tell_summary(self.rt.alloc(), self.how, &summary, errors);
                write_load(self.rt.alloc(), &report, output)
            }
            Err(fault) => end_load_by(fault, output),
        }
    }
}

/// Writes the two lines of a load, and returns the status.
fn write_load<W: Write>(alloc: Global, report: &LoadReport, output: &mut W) -> u8
    ensures status { result ≤ 1 }
    ensures done { result ≡ 0 →
        Appends (W.contents output.old) (W.contents output.new) (load_text report.now) }
    ensures stopped { result ≡ 1 →
        AppendsPrefix (W.contents output.old) (W.contents output.new) (fault_line Memory)
        ⊎ AppendsPrefix (W.contents output.old) (W.contents output.new) (load_text report.now) }
{
    let mut text = Vec::new(alloc);
    if print(report, &mut text).is_err() {
        return end_by(StreamFault::Memory, output);
    }
    write_done(text.as_slice(), FAULT, output)
}

/// The statistics of a load as a line, if they are asked for.
#[derive(Clone, Copy)]
struct StatsLine<'a> {
    asked: bool,
    summary: &'a LoadSummary,
}

impl Display for StatsLine<'_> {
    ghost output = { λ line. Some (statistics_line line.asked line.summary.now) };

    fn fmt<W: fmt::Write>(&self, f: &mut Formatter<W>) -> fmt::Result {
        if self.asked {
            return writeln!(f, "{}", self.summary);
        }
        Ok(())
    }
}

/// The two lines of a load, if they are asked for.
#[derive(Clone, Copy)]
struct LoadLines<'a> {
    asked: bool,
    report: &'a LoadReport,
}

impl Display for LoadLines<'_> {
    ghost output = { λ lines. Some (load_lines lines.asked lines.report.now) };

    fn fmt<W: fmt::Write>(&self, f: &mut Formatter<W>) -> fmt::Result {
        if self.asked {
            return write!(f, "{}", self.report);
        }
        Ok(())
    }
}

/// Writes the lines about the end of a load to `errors`: its statistics if they are asked for, and
/// its two lines if its history or its attempts go to the output. If memory or the write is
/// refused, only these lines are lost.
pub(crate) fn tell_summary<E: Write>(
    alloc: Global,
    how: LoadOutput,
    summary: &LoadSummary,
    errors: &mut E,
)
    ensures { AppendsPrefix (E.contents errors.old) (E.contents errors.new)
        (summary_text how summary.now) }
{
    let stats = StatsLine {
        asked: how.stats,
        summary,
    };
    let lines = LoadLines {
        asked: how.history || how.attempts,
        report: &summary.report,
    };
    write_text(alloc, format_args!("{stats}{lines}"), errors);
}
