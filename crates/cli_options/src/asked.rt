//! The request that a command line makes.

ghost use Rattle.std.specs.Prelude.{◌≡◌, ◌≤◌, true, List, map, string_bytes, codes, IfOk};
ghost use Rattle.clap.specs.Words.{FailsBy, Text, fault_of, found_of, rows_of};
ghost use Rattle.clap.specs.Words.{subcommand_of, subcommand_rows_of};
ghost use Rattle.cli_common.specs.Values.{Gives};
ghost use Rattle.cli_options.specs.CommandLine.{vacation, HasDrawing, AreDrawn, HasLoad};
ghost use Rattle.cli_options.specs.CommandLine.{HasFlags, IsTold, IsFoundIn, AsksFor};

use crate::options::command_line;
use clap::{ArgMatches, Error};
use cli_common::{any_number_of, blocks_of, flag_of, named, number_of};
use load_tasks::{Settings, VERSION_LIMIT};
use std::alloc::Global;

/// Attempts of a task in the settings of a load that is only drawn and not run. The tasks are the
/// same for any number.
const DRAWN_TRIES: u32 = 1;

/// The output of a load besides its two lines.
#[derive(Clone, Copy)]
pub struct LoadOutput {
    /// True if the load reports its progress.
    pub progress: bool,
    /// True if the load reports its running time and the number of its attempts.
    pub stats: bool,
    /// True if the load writes the history of its calls to standard output, and its two lines to
    /// standard error.
    pub history: bool,
    /// True if the load writes the attempts of its calls to standard output, and its two lines to
    /// standard error.
    pub attempts: bool,
}

/// The request that a command line makes.
#[derive(Clone, Copy)]
pub enum Request {
    /// Runs a script on a system of this many blocks.
    Run(u32),
    /// Runs a script on a system of this many blocks and dumps the memory that the script leaves.
    Dump(u32),
    /// Audits the words of a memory.
    Check,
    /// Runs a load, with this output.
    Load(Settings, LoadOutput),
    /// Writes the tasks of a load.
    Tasks(Settings),
}

/// Parses a command line with clap.
fn read_words<'a>(alloc: Global, words: &'a [String]) -> Result<ArgMatches<'a>, Error>
    ensures fails { FailsBy (fault_of vacation (map string_bytes words.now)) result }
    ensures found { IfOk result (λ m.
        subcommand_rows_of m ≡ subcommand_of vacation (map string_bytes words.now)) }
{
    command_line(alloc)?.try_get_matches_from(words)
}

/// Returns the output settings of a load.
fn how_of(matches: &ArgMatches) -> LoadOutput
    requires { HasFlags (rows_of (found_of matches.now)) }
    ensures { IsTold (rows_of (found_of matches.now)) result }
{
    LoadOutput {
        progress: flag_of(matches, "progress"),
        stats: flag_of(matches, "stats"),
        history: flag_of(matches, "history"),
        attempts: flag_of(matches, "attempts"),
    }
}

/// Returns the settings of a load with this number of attempts of a task: the values of the other
/// options, or their defaults.
fn settings_of(matches: &ArgMatches, tries: u32) -> Settings
    requires { HasDrawing (rows_of (found_of matches.now)) }
    ensures drawn { AreDrawn (rows_of (found_of matches.now)) result }
    ensures tries { result.tries ≡ tries }
{
    Settings {
        clients: number_of(matches, "clients"),
        tasks: number_of(matches, "tasks"),
        items: number_of(matches, "items"),
        asks: number_of(matches, "asks"),
        reads: number_of(matches, "reads"),
        user: number_of(matches, "user"),
        seed: any_number_of(matches, "seed"),
        blocks: number_of(matches, "blocks"),
        tries,
        last: VERSION_LIMIT - 1,
        rounds: number_of(matches, "rounds"),
    }
}

/// Returns the number of attempts of a task that a load gives, or the default.
fn tries_of(matches: &ArgMatches) -> u32
    requires { HasLoad (rows_of (found_of matches.now)) }
    ensures { Gives (rows_of (found_of matches.now)) (codes "tries") result }
{
    number_of(matches, "tries")
}

/// Returns the request in words that clap has parsed.
fn asked_of(matches: &ArgMatches) -> Request
    requires { (words : List Text) × IsFoundIn words matches.now }
    ensures { (words : List Text) → IsFoundIn words matches.now → AsksFor words result }
{
    if let Some(run) = named(matches, "run") {
        return Request::Run(blocks_of(run));
    }
    if let Some(dump) = named(matches, "dump") {
        return Request::Dump(blocks_of(dump));
    }
    if named(matches, "check").is_some() {
        return Request::Check;
    }
    if let Some(tasks) = named(matches, "tasks") {
        return Request::Tasks(settings_of(tasks, DRAWN_TRIES));
    }
    match named(matches, "load") {
        Some(load) => Request::Load(settings_of(load, tries_of(load)), how_of(load)),
        None => unreachable!(),
    }
}

/// Returns the request that a command line makes. An error is the help that the words ask for, or
/// the reason why they are refused.
///
/// Not said: if clap could name two faults, which of them it names.
pub fn read_asked(alloc: Global, words: &[String]) -> Result<Request, Error>
    ensures fails { FailsBy (fault_of vacation (map string_bytes words.now)) result }
    ensures asked { IfOk result (λ asked. AsksFor (map string_bytes words.now) asked) }
{
    let matches = read_words(alloc, words)?;
    Ok(asked_of(&matches))
}
