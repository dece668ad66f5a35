//! Searching for an order of a history's calls at a level of consistency, with progress lines.

ghost use Rattle.std.specs.Prelude.{◌≡◌, ◌≢◌, ◌⊎◌, true, false, IfOk, IfErr, OnOk, option_map};
ghost use Rattle.std.specs.Io.KnownBytes.{Appends};
ghost use Rattle.vac_model.specs.Ranges.{is_block_count};
ghost use Rattle.vac_lines.specs.Writing.{AppendsPrefix};
ghost use Rattle.judge_linear.specs.declared.ordering.Outcome.TheVariants.{Ordered};
ghost use Rattle.judge_linear.specs.Ordering.{HasText};
ghost use Rattle.cli_judge.specs.Ordering.{Orders, FindsNone, HoldsOrder, JudgesAnyOrder};
ghost use Rattle.cli_judge.specs.Ordering.{JudgesText};
ghost use Rattle.cli_judge.specs.Ordering.{HoldsInAnyOrder, JudgesAnyHeld, JudgesAnyWith, status_of};
ghost use Rattle.cli_judge.specs.Reporting.{ReportsBeside};
ghost use Rattle.cli_judge.specs.declared.status.TheConstants.{FAULT};
ghost use Rattle.judge_coverage.specs.Watching.{inner_of};

use crate::judging::judge_alone;
use crate::progress::ProgressWatcher;
use crate::reporting::{most_watched, report_calls};
use crate::status::{FAULT, NO, UNDECIDED, end_by, end_judged};
use cli_common::{DONE, write_done};
use judge_calls::{CALL_BYTES, judge_order_with_workload, read_all};
use judge_coverage::Watched;
use judge_linear::{Outcome, Settings, order_history};
use judge_object::{Level, Watcher};
use judge_options::{JudgeSettings, SearchSettings};
use std::alloc::Global;
use std::io::{Read, Write};
use std::time::Clock;
use vac_lines::{StreamFault, write_and_flush};

/// Returns the status of an outcome.
fn status_of(outcome: Outcome) -> u8
    ensures { result ≡ status_of outcome }
{
    match outcome {
        Outcome::Ordered => DONE,
        Outcome::Illegal => NO,
        Outcome::Undecided => UNDECIDED,
    }
}

/// Writes the calls of a history in an order of a level, or writes that there is none, and returns
/// the status.
fn find_order<R: Read, W: Write, V: Watcher>(
    alloc: Global,
    how: Settings,
    input: &mut R,
    output: &mut W,
    watcher: &mut V,
) -> u8
    requires { is_block_count how.blocks ≡ true }
    ensures { Orders how.level how.blocks how.steps result
        (R.remaining input.old) (R.remaining input.new)
        (W.contents output.old) (W.contents output.new) }
{
    match order_history(alloc, how, input, output, watcher) {
        Ok(outcome) => status_of(outcome),
        Err(fault) => end_by(fault, output),
    }
}

/// Writes the calls of a history in an order of a level, or writes that there is none, and returns
/// the status. If the command line asks for progress, writes progress lines to `errors` while it
/// searches.
fn find_order_telling<T: Clock + AllocGlobal, R: Read, W: Write, E: Write>(
    rt: &T,
    blocks: u32,
    search: SearchSettings,
    input: &mut R,
    output: &mut W,
    errors: &mut E,
) -> u8
    requires { is_block_count blocks ≡ true }
    ensures ordered { Orders search.level blocks search.steps result
        (R.remaining input.old) (R.remaining input.new)
        (W.contents output.old) (W.contents output.new) }
    ensures untold { search.progress ≡ false → E.contents errors.new ≡ E.contents errors.old }
{
    let how = Settings {
        blocks,
        level: search.level,
        steps: search.steps,
    };
    if search.progress {
        let mut teller = ProgressWatcher::new(rt, errors);
        find_order(rt.alloc(), how, input, output, &mut teller)
    } else {
        find_order(rt.alloc(), how, input, output, &mut ())
    }
}

/// Writes the calls of a history in an order of a level, or writes that there is none, reports on
/// the history, and returns the status.
pub(crate) fn order<T: Clock + AllocGlobal, R: Read, W: Write, E: Write>(
    rt: &T,
    blocks: u32,
    search: SearchSettings,
    input: &mut Watched<R>,
    output: &mut W,
    errors: &mut E,
) -> u8
    requires { is_block_count blocks ≡ true }
    ensures ordered { Orders search.level blocks search.steps result
        (R.remaining (inner_of input.old)) (R.remaining (inner_of input.new))
        (W.contents output.old) (W.contents output.new) }
    ensures reported { ReportsBeside search.progress search.stats false result
        (E.contents errors.old) (E.contents errors.new) }
{
    input.watch(CALL_BYTES, most_watched(search.stats));
    let status = find_order_telling(rt, blocks, search, input, output, errors);
    report_calls(
        rt.alloc(),
        search.stats,
        false,
        status,
        input.measure_calls(),
        errors,
    );
    status
}

/// Writes the text of an outcome other than an order, and returns the status.
fn write_unordered<W: Write>(outcome: Outcome, text: &[u8], output: &mut W) -> u8
    ensures { (Appends (W.contents output.old) (W.contents output.new) text.now
        × (result ≡ status_of outcome))
        ⊎ (AppendsPrefix (W.contents output.old) (W.contents output.new) text.now
        × (result ≡ FAULT)) }
{
    match write_and_flush(output, text) {
        Ok(()) => status_of(outcome),
        Err(_) => FAULT,
    }
}

/// Returns the fault of a search that writes into memory. Such an output fails only if memory is
/// refused.
fn without_output(fault: StreamFault) -> StreamFault
    ensures { result ≢ StreamFault.Write }
{
    match fault {
        StreamFault::Write => StreamFault::Memory,
        StreamFault::Read => StreamFault::Read,
        StreamFault::Memory => StreamFault::Memory,
        StreamFault::Bound => StreamFault::Bound,
    }
}

/// Searches for an order of a history's calls at a level, and returns the lines in this order. If
/// no order is found, writes the outcome or the line of a fault; the error is the status.
#[tactic(auto, using(crate::proofs::Judgement::kept, crate::proofs::Judgement::unordered))]
fn order_in_memory<R: Read, W: Write, V: Watcher>(
    alloc: Global,
    how: Settings,
    input: &mut R,
    output: &mut W,
    watcher: &mut V,
) -> Result<Vec<u8>, u8>
    requires { is_block_count how.blocks ≡ true }
    ensures order { IfOk result (λ text. HasText how.level how.blocks how.steps
        (R.remaining input.old) (R.remaining input.new) Ordered text.items) }
    ensures unwritten { OnOk result (W.contents output.new ≡ W.contents output.old) }
    ensures none { IfErr result (λ status. FindsNone how.level how.blocks how.steps status
        (R.remaining input.old) (R.remaining input.new)
        (W.contents output.old) (W.contents output.new)) }
{
    let mut text = Vec::new(alloc);
    match order_history(alloc, how, input, &mut text, watcher) {
        Ok(Outcome::Ordered) => Ok(text),
        Ok(Outcome::Illegal) => Err(write_unordered(Outcome::Illegal, text.as_slice(), output)),
        Ok(Outcome::Undecided) => Err(write_unordered(Outcome::Undecided, text.as_slice(), output)),
        Err(fault) => Err(end_by(without_output(fault), output)),
    }
}

/// Judges the text of an order of a level that was found, and returns the status. A linearization
/// is judged as a history. Of another order the level is written: the state that the calls leave
/// depends on the order.
fn judge_found_text<W: Write>(alloc: Global, how: Settings, text: &[u8], output: &mut W) -> u8
    requires { is_block_count how.blocks ≡ true }
    ensures { JudgesText how.level how.blocks result text.now
        (W.contents output.old) (W.contents output.new) }
{
    match how.level {
        Level::Linearizable => {
            let mut order = text;
            judge_alone(alloc, how.blocks, &mut order, output)
        }
        Level::Sequential => write_done(b"legal sequential\n", FAULT, output),
        Level::Serializable => write_done(b"legal serializable\n", FAULT, output),
    }
}

/// Judges a history in an order of a level that is found, or writes that there is none, and returns
/// the status.
fn judge_found<R: Read, W: Write, V: Watcher>(
    alloc: Global,
    how: Settings,
    input: &mut R,
    output: &mut W,
    watcher: &mut V,
) -> u8
    requires { is_block_count how.blocks ≡ true }
    ensures { JudgesAnyOrder how.level how.blocks how.steps result
        (R.remaining input.old) (R.remaining input.new)
        (W.contents output.old) (W.contents output.new) }
{
    match order_in_memory(alloc, how, input, output, watcher) {
        Ok(text) => judge_found_text(alloc, how, text.as_slice(), output),
        Err(status) => status,
    }
}

/// Checks a history and the text of a linearization of its calls against a workload, and returns
/// the status: 0 if the linearization covers the workload.
fn check_found<V: Read, W: Write>(
    alloc: Global,
    blocks: u32,
    tasks: &mut V,
    history: &[u8],
    order: &[u8],
    output: &mut W,
) -> u8
    requires { is_block_count blocks ≡ true }
    ensures { HoldsOrder (V.remaining tasks.old) blocks result history.now order.now
        (W.contents output.old) (W.contents output.new) }
{
    end_judged(
        judge_order_with_workload(alloc, blocks, tasks, history, order, output),
        output,
    )
}

/// Searches for a linearization of the calls of a history, checks the history in this order against
/// these tasks, or writes that there is no linearization, and returns the status.
fn check_in_any_order<F: Read, W: Write, V: Watcher>(
    alloc: Global,
    how: &JudgeSettings<'_>,
    tasks: &mut F,
    history: &[u8],
    output: &mut W,
    watcher: &mut V,
) -> u8
    requires { is_block_count how.now.blocks ≡ true }
    ensures { HoldsInAnyOrder (F.remaining tasks.old) how.now.blocks how.now.search.steps result
        history.now (W.contents output.old) (W.contents output.new) }
{
    let search = Settings {
        blocks: how.blocks,
        level: Level::Linearizable,
        steps: how.search.steps,
    };
    let mut unread = history;
    match order_in_memory(alloc, search, &mut unread, output, watcher) {
        Ok(order) => check_found(alloc, how.blocks, tasks, history, order.as_slice(), output),
        Err(status) => status,
    }
}

/// Reads a history to its end, checks it against these tasks in a linearization that is found, or
/// writes that there is none, and returns the status.
fn judge_found_work<F: Read, R: Read, W: Write, V: Watcher>(
    alloc: Global,
    how: &JudgeSettings<'_>,
    tasks: &mut F,
    input: &mut R,
    output: &mut W,
    watcher: &mut V,
) -> u8
    requires { is_block_count how.now.blocks ≡ true }
    ensures { JudgesAnyHeld (F.remaining tasks.old) how.now.blocks how.now.search.steps result
        (R.remaining input.old) (R.remaining input.new)
        (W.contents output.old) (W.contents output.new) }
{
    match read_all(alloc, input) {
        Ok(history) => {
            check_in_any_order(alloc, how, tasks, history.as_slice(), output, watcher)
        }
        Err(fault) => end_by(fault, output),
    }
}

/// Judges a history in an order of a level that is found, or in a linearization that is checked
/// against these tasks if there are any, or writes that there is none, and returns the status.
fn judge_any_order<F: Read + Drop, R: Read, W: Write, V: Watcher>(
    alloc: Global,
    how: &JudgeSettings<'_>,
    tasks: Option<F>,
    input: &mut R,
    output: &mut W,
    watcher: &mut V,
) -> u8
    requires { is_block_count how.now.blocks ≡ true }
    ensures { JudgesAnyWith (option_map F.remaining tasks) how.now.search.level how.now.blocks
        how.now.search.steps result (R.remaining input.old) (R.remaining input.new)
        (W.contents output.old) (W.contents output.new) }
{
    let search = Settings {
        blocks: how.blocks,
        level: how.search.level,
        steps: how.search.steps,
    };
    match tasks {
        None => judge_found(alloc, search, input, output, watcher),
        Some(mut tasks) => judge_found_work(alloc, how, &mut tasks, input, output, watcher),
    }
}

/// Judges a history in an order of a level that is found, or in a linearization that is checked
/// against these tasks if there are any, or writes that there is none, and returns the status. If
/// the command line asks for progress, writes progress lines to `errors` while it searches.
pub(crate) fn judge_any_telling<
    T: Clock + AllocGlobal,
    F: Read + Drop,
    R: Read,
    W: Write,
    E: Write,
>(
    rt: &T,
    how: JudgeSettings<'_>,
    tasks: Option<F>,
    input: &mut R,
    output: &mut W,
    errors: &mut E,
) -> u8
    requires { is_block_count how.blocks ≡ true }
    ensures judged { JudgesAnyWith (option_map F.remaining tasks) how.entry.search.level
        how.entry.blocks how.entry.search.steps result
        (R.remaining input.old) (R.remaining input.new)
        (W.contents output.old) (W.contents output.new) }
    ensures untold { how.entry.search.progress ≡ false →
        E.contents errors.new ≡ E.contents errors.old }
{
    if how.search.progress {
        let mut teller = ProgressWatcher::new(rt, errors);
        judge_any_order(rt.alloc(), &how, tasks, input, output, &mut teller)
    } else {
        judge_any_order(rt.alloc(), &how, tasks, input, output, &mut ())
    }
}
