//! Judging histories of a key-value store, and the resulting statuses.

ghost use Rattle.std.specs.Prelude.{◌≡◌, ℕ, List, None, true, false, IfOk};
ghost use Rattle.judge_coverage.specs.Watching.{inner_of};
ghost use Rattle.judge_text.specs.Program.{HasRead};
ghost use Rattle.judge_kv.specs.Starting.{AreFirstValues};
ghost use Rattle.cli_judge.specs.Keys.{JudgesKeys, JudgesStore, ReadsStart, JudgesUnstarted};
ghost use Rattle.cli_judge.specs.Keys.{JudgesKeysOf, JudgesKeysAsked, NamesStartFault, lacks_whole};
ghost use Rattle.cli_judge.specs.Objects.{settings_of};
ghost use Rattle.cli_judge.specs.Reporting.{ReportsKeysUnless};

use crate::files::{Open, open_file};
use crate::objects::{LINE_BYTES, judge_objects};
use crate::reporting::{most_watched, report_calls};
use crate::status::{NO, end_by, end_with};
use cli_common::refuse;
use judge_coverage::Watched;
use judge_kv::{Cell, FirstValues, StartFault, StartValues, Store, read_first_values};
use judge_object::Level;
use judge_options::{KeysSettings, SearchSettings};
use judge_text::{Starts, read_all};
use std::alloc::Global;
use std::io::{Read, Write};
use std::time::Clock;
use vac_lines::{StreamFault, print};

/// The refusal of sequential consistency of keys that are judged by themselves.
const NO_WHOLE: &[u8] = b"error: --level sequential needs --whole\n";

/// Reads a start file to its end. The values go into a place in which no key has one.
fn read_start<F: StartValues, S: Read>(
    alloc: Global,
    empty: F,
    file: &mut S,
) -> Result<FirstValues<F>, StreamFault>
    requires none { (key : List ℕ) → F.held empty key ≡ None }
    ensures { IfOk result (λ read. (text : List ℕ)
        × HasRead (S.remaining file.old) (S.remaining file.new) text
        × AreFirstValues F.held text read) }
{
    let text = read_all(alloc, file)?;
    let read = read_first_values(alloc, empty, text.as_slice())?;
    Ok(read)
}

/// Names the fault of a line of a start file, and returns the status.
fn name_fault<W: Write>(alloc: Global, number: u64, fault: StartFault, output: &mut W) -> u8
    ensures { NamesStartFault number fault result (W.contents output.old) (W.contents output.new) }
{
    let mut text = Vec::new(alloc);
    match print(format_args!("fault {} {number}\n", fault.name()), &mut text) {
        Ok(()) => end_with(NO, text.as_slice(), output),
        Err(_) => end_by(StreamFault::Memory, output),
    }
}

/// Judges the keys of a history by themselves, none of which has a value at first.
fn judge_keys_alone<T: Clock + AllocGlobal, R: Read, W: Write, E: Write>(
    rt: &T,
    search: SearchSettings,
    input: &mut R,
    output: &mut W,
    errors: &mut E,
) -> u8
    ensures judged { JudgesKeys (λ key. None) (settings_of search) result
        (R.remaining input.old) (R.remaining input.new)
        (W.contents output.old) (W.contents output.new) }
    ensures untold { search.progress ≡ false → E.contents errors.new ≡ E.contents errors.old }
{
    let alloc = rt.alloc();
    let starts = Starts::new(alloc, Cell::new(alloc));
    judge_objects(rt, &starts, search, input, output, errors)
}

/// Judges the history of a whole store, which begins in this state.
fn judge_store<T: Clock + AllocGlobal, R: Read, W: Write, E: Write>(
    rt: &T,
    store: Store,
    search: SearchSettings,
    input: &mut R,
    output: &mut W,
    errors: &mut E,
) -> u8
    ensures judged { JudgesStore store (settings_of search) result
        (R.remaining input.old) (R.remaining input.new)
        (W.contents output.old) (W.contents output.new) }
    ensures untold { search.progress ≡ false → E.contents errors.new ≡ E.contents errors.old }
{
    let starts = Starts::new(rt.alloc(), store);
    judge_objects(rt, &starts, search, input, output, errors)
}

/// Reads a start file, and judges the keys of a history by themselves, each of which has its value
/// in the file at first.
fn judge_keys_from<T: Clock + AllocGlobal, S: Read, R: Read, W: Write, E: Write>(
    rt: &T,
    file: &mut S,
    search: SearchSettings,
    input: &mut R,
    output: &mut W,
    errors: &mut E,
) -> u8
    ensures judged { ReadsStart false (settings_of search) result (S.remaining file.old)
        (R.remaining input.old) (R.remaining input.new)
        (W.contents output.old) (W.contents output.new) }
    ensures untold { search.progress ≡ false → E.contents errors.new ≡ E.contents errors.old }
{
    let alloc = rt.alloc();
    let empty = Starts::new(alloc, Cell::new(alloc));
    match read_start(alloc, empty, file) {
        Ok(FirstValues::Given(starts)) => {
            judge_objects(rt, &starts, search, input, output, errors)
        }
        Ok(FirstValues::Fault(number, fault)) => name_fault(alloc, number, fault, output),
        Err(fault) => end_by(fault, output),
    }
}

/// Reads a start file, and judges the history of a whole store, in which each key has its value in
/// the file at first.
fn judge_store_from<T: Clock + AllocGlobal, S: Read, R: Read, W: Write, E: Write>(
    rt: &T,
    file: &mut S,
    search: SearchSettings,
    input: &mut R,
    output: &mut W,
    errors: &mut E,
) -> u8
    ensures judged { ReadsStart true (settings_of search) result (S.remaining file.old)
        (R.remaining input.old) (R.remaining input.new)
        (W.contents output.old) (W.contents output.new) }
    ensures untold { search.progress ≡ false → E.contents errors.new ≡ E.contents errors.old }
{
    let alloc = rt.alloc();
    match read_start(alloc, Store::new(alloc), file) {
        Ok(FirstValues::Given(store)) => judge_store(rt, store, search, input, output, errors),
        Ok(FirstValues::Fault(number, fault)) => name_fault(alloc, number, fault, output),
        Err(fault) => end_by(fault, output),
    }
}

/// Judges a history of a key-value store in which no key has a value at first: each key by itself,
/// or the whole store.
fn judge_unstarted<T: Clock + AllocGlobal, R: Read, W: Write, E: Write>(
    rt: &T,
    how: KeysSettings<'_>,
    input: &mut R,
    output: &mut W,
    errors: &mut E,
) -> u8
    ensures judged { JudgesUnstarted how.entry.whole (settings_of how.entry.search) result
        (R.remaining input.old) (R.remaining input.new)
        (W.contents output.old) (W.contents output.new) }
    ensures untold { how.entry.search.progress ≡ false →
        E.contents errors.new ≡ E.contents errors.old }
{
    if how.whole {
        let store = Store::new(rt.alloc());
        judge_store(rt, store, how.search, input, output, errors)
    } else {
        judge_keys_alone(rt, how.search, input, output, errors)
    }
}

/// Reads a start file, and judges a history of a key-value store in which keys have the values of
/// the file at first: each key by itself, or the whole store.
fn judge_started<T: Clock + AllocGlobal, S: Read, R: Read, W: Write, E: Write>(
    rt: &T,
    file: &mut S,
    how: KeysSettings<'_>,
    input: &mut R,
    output: &mut W,
    errors: &mut E,
) -> u8
    ensures judged { ReadsStart how.entry.whole (settings_of how.entry.search) result
        (S.remaining file.old) (R.remaining input.old) (R.remaining input.new)
        (W.contents output.old) (W.contents output.new) }
    ensures untold { how.entry.search.progress ≡ false →
        E.contents errors.new ≡ E.contents errors.old }
{
    if how.whole {
        judge_store_from(rt, file, how.search, input, output, errors)
    } else {
        judge_keys_from(rt, file, how.search, input, output, errors)
    }
}

/// Judges a history of a key-value store, with the start file opened if there is one, and returns
/// the status.
fn judge_keys_of<T: Clock + AllocGlobal, F: Open, R: Read, W: Write, E: Write>(
    rt: &T,
    files: &F,
    how: KeysSettings<'_>,
    input: &mut R,
    output: &mut W,
    errors: &mut E,
) -> u8
    ensures judged { JudgesKeysOf (F.holds files.now) how.entry.start how.entry.whole
        (settings_of how.entry.search) result (R.remaining input.old) (R.remaining input.new)
        (W.contents output.old) (W.contents output.new) }
    ensures untold { how.entry.search.progress ≡ false →
        E.contents errors.new ≡ E.contents errors.old }
{
    match open_file(files, how.start, output) {
        Ok(None) => judge_unstarted(rt, how, input, output, errors),
        Ok(Some(mut file)) => judge_started(rt, &mut file, how, input, output, errors),
        Err(status) => status,
    }
}

/// Returns whether the command line asks for sequential consistency of keys that are judged by
/// themselves. Sequential consistency is not local: that of each key does not show that of all.
fn lacks_whole(how: &KeysSettings<'_>) -> bool
    ensures { result ≡ lacks_whole how.now }
{
    match how.search.level {
        Level::Sequential => !how.whole,
        Level::Linearizable | Level::Serializable => false,
    }
}

/// Judges a history of a key-value store as the command line asks, reports on it, and returns the
/// status: 0 if the history is legal.
pub(crate) fn judge_keys<T: Clock + AllocGlobal, F: Open, R: Read, W: Write, E: Write>(
    rt: &T,
    files: &F,
    how: KeysSettings<'_>,
    input: &mut Watched<R>,
    output: &mut W,
    errors: &mut E,
) -> u8
    ensures judged { JudgesKeysAsked (F.holds files.now) how.entry result
        (R.remaining (inner_of input.old)) (R.remaining (inner_of input.new))
        (W.contents output.old) (W.contents output.new) }
    ensures reported { ReportsKeysUnless (lacks_whole how.entry) how.entry.search result
        (E.contents errors.old) (E.contents errors.new) }
{
    if lacks_whole(&how) {
        return refuse(NO_WHOLE, errors);
    }
    input.watch(LINE_BYTES, most_watched(how.search.stats));
    let status = judge_keys_of(rt, files, how, input, output, errors);
    report_calls(
        rt.alloc(),
        how.search.stats,
        false,
        status,
        input.measure_calls(),
        errors,
    );
    status
}
