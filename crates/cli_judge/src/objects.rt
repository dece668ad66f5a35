//! Judging histories of objects that are written as text, and the resulting statuses.

ghost use Rattle.std.specs.Prelude.{◌≡◌, true, false};
ghost use Rattle.judge_coverage.specs.Watching.{inner_of};
ghost use Rattle.judge_text.specs.Program.{HasEnded};
ghost use Rattle.judge_text.specs.Starts.{start_of};
ghost use Rattle.cli_judge.specs.Objects.{JudgesQueue, settings_of};
ghost use Rattle.cli_judge.specs.Reporting.{ReportsBeside};

use crate::progress::ProgressWatcher;
use crate::reporting::{most_watched, report_calls};
use judge_coverage::Watched;
use judge_options::SearchSettings;
use judge_queue::Queue;
use judge_text::{Settings, Starts, TextObject, judge_input};
use std::io::{Read, Write};
use std::time::Clock;

/// Longest line whose call is counted in the figures of a log. A line of a key-value store has the
/// values of a call, and is as long as the text may be.
pub(crate) const LINE_BYTES: usize = 1 << 40;

/// Judges a history of objects, each of which begins in the state that is given for its name, and
/// returns the status: 0 if the history is legal. If the command line asks for progress, writes
/// progress lines to `errors` while it searches.
pub(crate) fn judge_objects<
    T: Clock + AllocGlobal,
    M: TextObject + Drop,
    R: Read,
    W: Write,
    E: Write,
>(
    rt: &T,
    starts: &Starts<M>,
    search: SearchSettings,
    input: &mut R,
    output: &mut W,
    errors: &mut E,
) -> u8
    ensures judged { HasEnded M.rules M.name M.naming M.language (start_of starts.now)
        (settings_of search) result (R.remaining input.old) (R.remaining input.new)
        (W.contents output.old) (W.contents output.new) }
    ensures untold { search.progress ≡ false → E.contents errors.new ≡ E.contents errors.old }
{
    let alloc = rt.alloc();
    let how = Settings {
        level: search.level,
        steps: search.steps,
    };
    if search.progress {
        let mut teller = ProgressWatcher::new(rt, errors);
        judge_input(alloc, starts, how, input, output, &mut teller)
    } else {
        judge_input(alloc, starts, how, input, output, &mut ())
    }
}

/// Judges a history of a queue that is empty at first, and returns the status.
fn judge_empty<T: Clock + AllocGlobal, R: Read, W: Write, E: Write>(
    rt: &T,
    search: SearchSettings,
    input: &mut R,
    output: &mut W,
    errors: &mut E,
) -> u8
    ensures judged { JudgesQueue (settings_of search) result
        (R.remaining input.old) (R.remaining input.new)
        (W.contents output.old) (W.contents output.new) }
    ensures untold { search.progress ≡ false → E.contents errors.new ≡ E.contents errors.old }
{
    let alloc = rt.alloc();
    let starts = Starts::new(alloc, Queue::new(alloc));
    judge_objects(rt, &starts, search, input, output, errors)
}

/// Judges a history of a queue as the command line asks, reports on it, and returns the status: 0
/// if the history is legal.
pub(crate) fn judge_queue<T: Clock + AllocGlobal, R: Read, W: Write, E: Write>(
    rt: &T,
    search: SearchSettings,
    input: &mut Watched<R>,
    output: &mut W,
    errors: &mut E,
) -> u8
    ensures judged { JudgesQueue (settings_of search) result
        (R.remaining (inner_of input.old)) (R.remaining (inner_of input.new))
        (W.contents output.old) (W.contents output.new) }
    ensures reported { ReportsBeside search.progress search.stats false result
        (E.contents errors.old) (E.contents errors.new) }
{
    input.watch(LINE_BYTES, most_watched(search.stats));
    let status = judge_empty(rt, search, input, output, errors);
    report_calls(
        rt.alloc(),
        search.stats,
        false,
        status,
        input.measure_calls(),
        errors,
    );
    status
}
