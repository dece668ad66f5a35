//! The command line that the program takes, as clap reads it.

ghost use Rattle.std.specs.Prelude.{◌≡◌, ◌∷◌, codes, IfOk};
ghost use Rattle.clap.specs.Words.{app_of};
ghost use Rattle.cli_common.specs.Options.{blocks_option, flag, with_options, IsOption, IsCommand};
ghost use Rattle.cli_common.specs.Options.{GetsOptions};
ghost use Rattle.judge_options.specs.CommandLine.{file_option, history_options, attempts_options};
ghost use Rattle.judge_options.specs.CommandLine.{level_option, searching_options};
ghost use Rattle.judge_options.specs.CommandLine.{customer_option, item_option, until_option};
ghost use Rattle.judge_options.specs.CommandLine.{part_options, start_option, keys_options};
ghost use Rattle.judge_options.specs.CommandLine.{top_command, judge};

use clap::{Arg, ArgAction, Command, value_parser};
use cli_common::{
    Made, add_command, add_option, any_number_option, blocks_option, flag, number_option,
    valued_option,
};
use judge_opacity::MOST_WORDS;
use std::alloc::Global;

/// The output of `--version`: the program and its version, and the toolchain that proved and built
/// the program, as `rt version` names it.
pub const VERSION: &str = "judge 0.1.0\nrattle-kit-13f logic dac8208d650f15bf\n";

/// Help of the steps of a judge that searches more than once.
const EACH_SEARCH: &str =
    "Most steps of the exact search of all calls, and of each quick search of them";

/// Help of the steps of a judge that searches the calls of each object once.
const ALL_SEARCHES: &str = "Most steps of the searches of all objects together";

/// Names of the two values of an item in the help.
const ITEM_NAMES: [&str; 2] = ["KIND", "ID"];

/// Returns the option that names a file of tasks.
fn file_option<'a>(alloc: Global) -> Arg<'a>
    ensures { IsOption result file_option }
{
    Arg::new(alloc, "tasks")
        .long("tasks")
        .value_name("FILE")
        .help("Checks the history against the workload in this file, as vacation tasks writes it")
}

/// Returns the flag that asks for the figures of a log.
fn coverage_flag<'a>(alloc: Global) -> Arg<'a>
    ensures { IsOption result (flag (codes "stats")) }
{
    flag(alloc, "stats").help(
        "Reports on standard error how much overlapped, which says what the verdict is worth",
    )
}

/// Returns the option for a customer of a scope.
fn customer_option<'a>(alloc: Global) -> Arg<'a>
    ensures { IsOption result customer_option }
{
    valued_option(alloc, "customer")
        .action(ArgAction::Append)
        .help("Customer of the scope; up to 64 of them")
}

/// Returns the option for an item of a scope.
fn item_option<'a>(alloc: Global) -> Arg<'a>
    ensures { IsOption result item_option }
{
    Arg::new(alloc, "item")
        .long("item")
        .value_names(&ITEM_NAMES)
        .action(ArgAction::Append)
        .help("Item of the scope, of the kind car, flight or room; up to 64 of them")
}

/// Returns the option for the line at the end of whose call a history is cut.
fn until_option<'a>(alloc: Global) -> Arg<'a>
    ensures { IsOption result until_option }
{
    Arg::new(alloc, "until")
        .long("until")
        .value_name("LINE")
        .value_parser(value_parser!(u64).range(1..))
        .help("Cuts the history at the end of the call of this line; lines count from 1")
}

/// Returns the option that names a file of the values that keys have at first.
fn start_option<'a>(alloc: Global) -> Arg<'a>
    ensures { IsOption result start_option }
{
    Arg::new(alloc, "start")
        .long("start")
        .value_name("FILE")
        .help("Values that keys have at first, a line KEY VALUE for each; other keys have none")
}

/// Returns the option for the level of an order.
fn level_option<'a>(alloc: Global) -> Arg<'a>
    ensures { IsOption result level_option }
{
    Arg::new(alloc, "level")
        .long("level")
        .value_name("LEVEL")
        .default_value("linearizable")
        .help("Level of consistency of the order: linearizable, sequential or serializable")
}

/// Adds the options of a search for an order, and of the report on the log. The help says which
/// searches the steps are for.
fn add_searching_options<'a>(alloc: Global, command: Made<'a>, searches: &'a str) -> Made<'a>
    ensures { GetsOptions command.entry searching_options result }
{
    let steps = any_number_option(alloc, "steps", "10000000").help(searches);
    let progress = flag(alloc, "progress").help(
        "Reports the progress of the search on standard error, at most twice a second",
    );
    let command = add_option(add_option(command, level_option(alloc)), steps);
    add_option(add_option(command, progress), coverage_flag(alloc))
}

/// Returns the subcommand that finds an order.
fn order_command<'a>(alloc: Global) -> Made<'a>
    ensures { IfOk result (λ c.
        IsCommand c (with_options (codes "order") (blocks_option ∷ searching_options))) }
{
    let command = Command::new(alloc, "order")
        .about("Finds a legal order of the history on standard input, or shows that there is none")
        .after_help("Example:\n  echo '1 0 5 newcust 3 -> true' | judge order")
        .arg(blocks_option(alloc));
    add_searching_options(alloc, command, EACH_SEARCH)
}

/// Returns the subcommand that judges attempts.
fn attempts_command<'a>(alloc: Global) -> Made<'a>
    ensures { IfOk result (λ c. IsCommand c (with_options (codes "attempts") attempts_options)) }
{
    let words = number_option(alloc, "words", 1, MOST_WORDS, "65536").help(
        "Number of words of the memory, all 0 at the beginning",
    );
    let place = flag(alloc, "place").help(
        "Keeps the order of the committed writers alone, and searches for places of the others",
    );
    let command = Command::new(alloc, "attempts")
        .about("Judges the attempts on standard input: whether their order shows opacity")
        .after_help("Example:\n  echo '1 0 5 commit r 7 0 w 7 1' | judge attempts")
        .arg(words);
    add_option(add_option(command, place), coverage_flag(alloc))
}

/// Returns the subcommand that writes a part of a history.
fn part_command<'a>(alloc: Global) -> Made<'a>
    ensures { IfOk result (λ c. IsCommand c (with_options (codes "part") part_options)) }
{
    let command = Command::new(alloc, "part")
        .about("Writes what the history on standard input says of some customers and items")
        .after_help("Example:\n  echo '1 0 5 newcust 3 -> true' | judge part --customer 3")
        .arg(customer_option(alloc));
    add_option(add_option(command, item_option(alloc)), until_option(alloc))
}

/// Returns the subcommand that judges a history.
fn history_command<'a>(alloc: Global) -> Made<'a>
    ensures { IfOk result (λ c. IsCommand c (with_options (codes "history") history_options)) }
{
    let given_order = flag(alloc, "given-order").help(
        "Judges the order of the lines, and does not search; not with --level, --steps, --progress",
    );
    let command = Command::new(alloc, "history")
        .about("Judges whether the history on standard input has a linearization")
        .after_help("Example:\n  echo '1 0 5 newcust 3 -> true' | judge history")
        .arg(blocks_option(alloc));
    let command = add_option(add_option(command, file_option(alloc)), given_order);
    add_searching_options(alloc, command, EACH_SEARCH)
}

/// Returns the subcommand that judges a history of a key-value store.
fn keys_command<'a>(alloc: Global) -> Made<'a>
    ensures { IfOk result (λ c. IsCommand c (with_options (codes "keys") keys_options)) }
{
    let whole = flag(alloc, "whole").help(
        "Judges all keys at once, so that a transaction may have several keys",
    );
    let command = Command::new(alloc, "keys")
        .about(
            "Judges whether the history of a key-value store on standard input has a linearization",
        )
        .after_help("Example:\n  echo '1 0 5 put \"x\" \"1\" -> ok' | judge keys")
        .arg(whole);
    let command = add_option(command, start_option(alloc));
    add_searching_options(alloc, command, ALL_SEARCHES)
}

/// Returns the subcommand that judges a history of a bounded queue.
fn queue_command<'a>(alloc: Global) -> Made<'a>
    ensures { IfOk result (λ c. IsCommand c (with_options (codes "queue") searching_options)) }
{
    let command = Command::new(alloc, "queue")
        .about(
            "Judges whether the history of a queue of four numbers on standard input has a \
             linearization",
        )
        .after_help("Example:\n  echo '1 0 5 enqueue 3 -> true' | judge queue");
    add_searching_options(alloc, Ok(command), ALL_SEARCHES)
}

/// Returns the program before its subcommands are added.
fn top_command<'a>(alloc: Global) -> Command<'a>
    ensures { app_of result ≡ top_command }
{
    Command::new(alloc, "judge")
        .version(VERSION)
        .about("Proved judges of histories and of attempts; without a command as history")
        .after_help("Example:\n  echo '1 0 5 newcust 3 -> true' | judge")
}

/// Returns the command line that the program takes.
pub(crate) fn command_line<'a>(alloc: Global) -> Made<'a>
    ensures { IfOk result (λ c. app_of c ≡ judge) }
{
    let top = add_command(Ok(top_command(alloc)), history_command(alloc));
    let top = add_command(
        add_command(top, order_command(alloc)),
        attempts_command(alloc),
    );
    let top = add_command(add_command(top, part_command(alloc)), keys_command(alloc));
    add_command(top, queue_command(alloc))
}
