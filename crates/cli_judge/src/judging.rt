//! Judging histories and attempts, and the resulting statuses.

ghost use Rattle.std.specs.Prelude.{◌≡◌, true, false, option_map, is_some};
ghost use Rattle.vac_model.specs.Ranges.{is_block_count};
ghost use Rattle.cli_judge.specs.Judging.{Judges, JudgesWith};
ghost use Rattle.cli_judge.specs.Asking.{has_stray_settings, is_below, has_tasks_below, is_refused};
ghost use Rattle.cli_judge.specs.Asking.{JudgesAs, JudgesAsked};
ghost use Rattle.cli_judge.specs.Asking.{JudgesAttempts, PlacesAttempts, JudgesOpacity};
ghost use Rattle.cli_judge.specs.Reporting.{ReportsUnless, ReportsAttempts};
ghost use Rattle.judge_coverage.specs.Watching.{inner_of};

use crate::files::{Open, open_file};
use crate::reporting::{most_watched, report_attempts, report_calls};
use crate::searching::judge_any_telling;
use crate::status::end_judged;
use cli_common::refuse;
use judge_calls::{CALL_BYTES, judge_history, judge_with_workload};
use judge_coverage::Watched;
use judge_object::Level;
use judge_opacity::{ATTEMPT_BYTES, judge_attempts, place_attempts};
use judge_options::{JudgeSettings, OpacitySettings};
use std::alloc::Global;
use std::io::{Read, Write};
use std::time::Clock;

/// Judges a history in the order of its lines, and returns the status: 0 if the history is legal.
pub(crate) fn judge_alone<R: Read, W: Write>(
    alloc: Global,
    blocks: u32,
    input: &mut R,
    output: &mut W,
) -> u8
    requires { is_block_count blocks ≡ true }
    ensures { Judges blocks result (R.remaining input.old) (R.remaining input.new)
        (W.contents output.old) (W.contents output.new) }
{
    end_judged(judge_history(alloc, blocks, input, output), output)
}

/// Judges a history, checks it against these tasks if there are any, and returns the status: 0 if
/// the history is legal and has all tasks.
fn judge_with<F: Read + Drop, R: Read, W: Write>(
    alloc: Global,
    blocks: u32,
    tasks: Option<F>,
    input: &mut R,
    output: &mut W,
) -> u8
    requires { is_block_count blocks ≡ true }
    ensures { JudgesWith (option_map F.remaining tasks) blocks result
        (R.remaining input.old) (R.remaining input.new)
        (W.contents output.old) (W.contents output.new) }
{
    match tasks {
        None => judge_alone(alloc, blocks, input, output),
        Some(mut tasks) => {
            end_judged(
                judge_with_workload(alloc, blocks, &mut tasks, input, output),
                output,
            )
        }
    }
}

/// Judges a history in an order that is found or in that of its lines, against the tasks of a file
/// if the settings name one, and returns the status.
fn judge_as<T: Clock + AllocGlobal, F: Open, R: Read, W: Write, E: Write>(
    rt: &T,
    files: &F,
    how: JudgeSettings<'_>,
    input: &mut R,
    output: &mut W,
    errors: &mut E,
) -> u8
    requires { is_block_count how.blocks ≡ true }
    ensures judged { JudgesAs (F.holds files.now) how.entry.given_order how.entry.tasks
        how.entry.search.level how.entry.blocks how.entry.search.steps result
        (R.remaining input.old) (R.remaining input.new)
        (W.contents output.old) (W.contents output.new) }
    ensures untold { how.entry.search.progress ≡ false →
        E.contents errors.new ≡ E.contents errors.old }
{
    let tasks = match open_file(files, how.tasks, output) {
        Ok(tasks) => tasks,
        Err(status) => return status,
    };
    if how.given_order {
        judge_with(rt.alloc(), how.blocks, tasks, input, output)
    } else {
        judge_any_telling(rt, how, tasks, input, output, errors)
    }
}

/// Returns whether the command line gives settings of a search, and asks for the given order.
fn has_stray_settings(how: &JudgeSettings<'_>) -> bool
    ensures { result ≡ has_stray_settings how.now }
{
    how.names_search && how.given_order
}

/// Returns whether a level keeps less order than linearizability.
fn is_below(level: Level) -> bool
    ensures { result ≡ is_below level }
{
    match level {
        Level::Linearizable => false,
        Level::Sequential | Level::Serializable => true,
    }
}

/// Returns whether the command line names a file of tasks, and asks for a level below
/// linearizability.
fn has_tasks_below(how: &JudgeSettings<'_>) -> bool
    ensures { result ≡ has_tasks_below how.now }
{
    how.tasks.is_some() && is_below(how.search.level)
}

/// Returns why the command line is refused, if it is.
fn refusal_of(how: &JudgeSettings<'_>) -> Option<&'static [u8]>
    ensures { is_some result ≡ is_refused how.now }
{
    if has_stray_settings(how) {
        Some(b"error: --level, --steps and --progress do not go with --given-order\n")
    } else if has_tasks_below(how) {
        Some(b"error: --tasks needs the level linearizable\n")
    } else {
        None
    }
}

/// Judges a history as the command line asks, reports on it, and returns the status.
pub(crate) fn judge<T: Clock + AllocGlobal, F: Open, R: Read, W: Write, E: Write>(
    rt: &T,
    files: &F,
    how: JudgeSettings<'_>,
    input: &mut Watched<R>,
    output: &mut W,
    errors: &mut E,
) -> u8
    requires { is_block_count how.blocks ≡ true }
    ensures judged { JudgesAsked (F.holds files.now) how.entry result
        (R.remaining (inner_of input.old)) (R.remaining (inner_of input.new))
        (W.contents output.old) (W.contents output.new) }
    ensures reported { ReportsUnless (is_refused how.entry) how.entry result
        (E.contents errors.old) (E.contents errors.new) }
{
    if let Some(why) = refusal_of(&how) {
        return refuse(why, errors);
    }
    input.watch(CALL_BYTES, most_watched(how.search.stats));
    let status = judge_as(rt, files, how, input, output, errors);
    report_calls(
        rt.alloc(),
        how.search.stats,
        how.tasks.is_some(),
        status,
        input.measure_calls(),
        errors,
    );
    status
}

/// Judges attempts on `words` words in the order of their lines, and returns the status: 0 if they
/// are opaque.
fn judge_in_order<R: Read, W: Write>(alloc: Global, words: u32, input: &mut R, output: &mut W) -> u8
    ensures { JudgesAttempts words result (R.remaining input.old) (R.remaining input.new)
        (W.contents output.old) (W.contents output.new) }
{
    end_judged(judge_attempts(alloc, words, input, output), output)
}

/// Searches for places of attempts on `words` words, of which only the committed writers stand in
/// their order, and returns the status: 0 if the attempts are opaque with some places.
fn judge_placed<R: Read, W: Write>(alloc: Global, words: u32, input: &mut R, output: &mut W) -> u8
    ensures { PlacesAttempts words result (R.remaining input.old) (R.remaining input.new)
        (W.contents output.old) (W.contents output.new) }
{
    end_judged(place_attempts(alloc, words, input, output), output)
}

/// Judges attempts as the command line asks, and returns the status: 0 if they are opaque.
fn judge_opaque_as<R: Read, W: Write>(
    alloc: Global,
    how: OpacitySettings,
    input: &mut R,
    output: &mut W,
) -> u8
    ensures { JudgesOpacity how.place how.words result
        (R.remaining input.old) (R.remaining input.new)
        (W.contents output.old) (W.contents output.new) }
{
    if how.place {
        judge_placed(alloc, how.words, input, output)
    } else {
        judge_in_order(alloc, how.words, input, output)
    }
}

/// Judges attempts as the command line asks, reports on them, and returns the status: 0 if they are
/// opaque.
pub(crate) fn judge_opaque<R: Read, W: Write, E: Write>(
    alloc: Global,
    how: OpacitySettings,
    input: &mut Watched<R>,
    output: &mut W,
    errors: &mut E,
) -> u8
    ensures judged { JudgesOpacity how.place how.words result
        (R.remaining (inner_of input.old)) (R.remaining (inner_of input.new))
        (W.contents output.old) (W.contents output.new) }
    ensures reported { ReportsAttempts how.stats result
        (E.contents errors.old) (E.contents errors.new) }
{
    input.watch(ATTEMPT_BYTES, most_watched(how.stats));
    let status = judge_opaque_as(alloc, how, input, output);
    report_attempts(alloc, how.stats, status, input.measure_attempts(), errors);
    status
}
