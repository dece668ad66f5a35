//! The program: runs the command of a command line, and returns its status.

ghost use Rattle.std.specs.Prelude.{◌≡◌, true, List, map, string_bytes};
ghost use Rattle.clap.specs.Words.{kind_of};
ghost use Rattle.vac_model.specs.Ranges.{is_block_count};
ghost use Rattle.cli_common.specs.Showing.{ShowsError};
ghost use Rattle.cli_main.specs.declared.status.TheConstants.{FAULT};
ghost use Rattle.cli_main.specs.Program.{RunsScript, Dumps, Checks, ListsTasks, Serves};
ghost use Rattle.cli_main.specs.Program.{version_text};

use crate::load::load;
use crate::status::{FAULT, end_by, end_by_settings, end_checked, end_done};
use clap::Error;
use cli_common::{DONE, refuse, show};
use cli_options::{Request, VERSION, read_asked};
use cli_script::{check_words, dump_script, run_script};
use load_tasks::{Settings, TasksFault, write_tasks};
use std::alloc::Global;
use std::io::{Read, Write};
use std::sync::Wait;
use std::thread::Threads;
use std::time::Clock;
use vac_lines::StreamFault;

/// The refusal of a command line with a word that is no text.
const UNREADABLE_WORD: &[u8] = b"error: a word of the command line is not valid UTF-8\n";

/// Runs the program on a command line, whose first word is the program's name, and returns its
/// status. The status is 0 if the program did its work or showed its help or its version, 1 after a
/// fault or if `check` found no balanced state, and 2 if the command line was refused.
///
/// Help and the version go to `output`, the text of a refused command line to `errors`. A fault is
/// the last line of `output`, unless `output` failed. The lines that a load writes to `errors`
/// (its progress, its statistics, its two lines with `--history` or `--attempts`) change neither
/// `output` nor the status.
///
/// Not said: that the lines for `errors` are written at all. Tests look at that.
///
/// Not said: that the attempts and conflicts of `--stats` are those that were made, and its seconds
/// those that the clients took.
///
/// Not said: what `tasks` writes to `errors`; what is written there about a refused command line.
pub fn run_words<
    T: Threads + Wait + Clock + Sync + AllocGlobal,
    R: Read,
    W: Write,
    E: Write + Send,
>(rt: &T, words: &[String], input: &mut R, output: &mut W, errors: &mut E) -> u8
    ensures served { Serves (map string_bytes words.now) result
        (R.remaining input.old) (R.remaining input.new)
        (W.contents output.old) (W.contents output.new)
        (E.contents errors.old) (E.contents errors.new) }
{
    let alloc = rt.alloc();
    match read_asked(alloc, words) {
        Ok(Request::Run(blocks)) => run(alloc, blocks, input, output),
        Ok(Request::Dump(blocks)) => dump(alloc, blocks, input, output),
        Ok(Request::Check) => check(alloc, input, output),
        Ok(Request::Load(settings, how)) => load(rt, &settings, how, output, errors),
        Ok(Request::Tasks(settings)) => list_tasks(alloc, &settings, output, errors),
        Err(error) => explain(alloc, &error, output, errors),
    }
}

/// Writes that a word of the command line is no text, and returns the status of a refused command
/// line. A failed write changes nothing.
///
/// Not said: that `main` calls this function for words that are no text, and passes the words of
/// any other command line to `run_words`. Those three lines are read in the code.
pub fn refuse_words<E: Write>(errors: &mut E) -> u8
    ensures { result ≡ 2 }
{
    refuse(UNREADABLE_WORD, errors)
}

/// Runs a script and returns the status.
fn run<R: Read, W: Write>(alloc: Global, blocks: u32, input: &mut R, output: &mut W) -> u8
    requires { is_block_count blocks ≡ true }
    ensures { RunsScript blocks result (R.remaining input.old) (R.remaining input.new)
        (W.contents output.old) (W.contents output.new) }
{
    end_done(run_script(alloc, blocks, input, output), output)
}

/// Dumps the memory after a script, and returns the status.
fn dump<R: Read, W: Write>(alloc: Global, blocks: u32, input: &mut R, output: &mut W) -> u8
    requires { is_block_count blocks ≡ true }
    ensures { Dumps blocks result (R.remaining input.old) (R.remaining input.new)
        (W.contents output.old) (W.contents output.new) }
{
    end_done(dump_script(alloc, blocks, input, output), output)
}

/// Audits words, and returns the status: 0 if they represent a balanced state.
fn check<R: Read, W: Write>(alloc: Global, input: &mut R, output: &mut W) -> u8
    ensures { Checks result (R.remaining input.old) (R.remaining input.new)
        (W.contents output.old) (W.contents output.new) }
{
    end_checked(check_words(alloc, input, output), output)
}

/// Writes the tasks of a load, and returns the status.
#[tactic(auto, using(crate::proofs::Ending::nothing_then))]
fn list_tasks<W: Write, E: Write>(
    alloc: Global,
    settings: &Settings,
    output: &mut W,
    errors: &mut E,
) -> u8
    ensures { ListsTasks result settings.now (W.contents output.old) (W.contents output.new) }
{
    match write_tasks(alloc, settings, output) {
        Ok(()) => DONE,
        Err(TasksFault::Arguments) => end_by_settings(alloc, settings, output, errors),
        Err(TasksFault::Memory) => end_by(StreamFault::Memory, output),
        Err(TasksFault::Write) => end_by(StreamFault::Write, output),
    }
}

/// Shows the help, the version, or the reason why the command line was refused, and returns the
/// status.
fn explain<W: Write, E: Write>(alloc: Global, error: &Error, output: &mut W, errors: &mut E) -> u8
    ensures { ShowsError version_text FAULT (kind_of error.now) result
        (W.contents output.old) (W.contents output.new) }
{
    show(alloc, error, VERSION.as_bytes(), FAULT, output, errors)
}
