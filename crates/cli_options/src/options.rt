//! The command line that the program takes, as clap reads it.

ghost use Rattle.std.specs.Prelude.{◌≡◌, IfOk};
ghost use Rattle.clap.specs.Words.{app_of};
ghost use Rattle.cli_common.specs.Options.{GetsOptions, GetsCommands};
ghost use Rattle.cli_options.specs.CommandLine.{client_options, task_options, drawing_options};
ghost use Rattle.cli_options.specs.CommandLine.{running_options, load_options};
ghost use Rattle.cli_options.specs.CommandLine.{top_command, memory_commands, load_commands};
ghost use Rattle.cli_options.specs.CommandLine.{vacation};

use clap::Command;
use cli_common::{
    Made, add_command, add_option, any_number_option, blocks_option, flag, number_option,
};
use load_tasks::{MOST_CLIENTS, MOST_ITEMS, MOST_ROUNDS, MOST_TASKS, PERCENT};
use std::alloc::Global;
use vac_model::limits::{MOST_PARTS, MOST_TRIES};

/// The output of `--version`: the program and its version, and the toolchain that proved and built
/// the program, as `rt version` names it.
pub const VERSION: &str = "vacation 0.1.0\nrattle-kit-13f logic dac8208d650f15bf\n";

/// Adds the options for the clients of a load and the number of their tasks.
fn add_client_options<'a>(alloc: Global, command: Made<'a>) -> Made<'a>
    ensures { GetsOptions command.entry client_options result }
{
    let clients = number_option(alloc, "clients", 1, MOST_CLIENTS, "4")
        .short('c')
        .help("Clients, each in a thread of its own");
    let tasks = number_option(alloc, "tasks", 1, MOST_TASKS, "100")
        .short('t')
        .help("Tasks per client and round");
    let rounds = number_option(alloc, "rounds", 1, MOST_ROUNDS, "1").help(
        "Rounds, each with a new version clock",
    );
    add_option(add_option(add_option(command, clients), tasks), rounds)
}

/// Adds the options for the tasks that each client of a load draws.
fn add_task_options<'a>(alloc: Global, command: Made<'a>) -> Made<'a>
    ensures { GetsOptions command.entry task_options result }
{
    let items = number_option(alloc, "items", 1, MOST_ITEMS, "16")
        .short('r')
        .help("Items of each kind, and customers; at most a fourth of the blocks");
    let asks = number_option(alloc, "asks", 1, MOST_PARTS as u32, "4")
        .short('n')
        .help("Most items of a trip, most changes of an update");
    let reads = number_option(alloc, "reads", 0, PERCENT, "0").help(
        "Chance in percent that a task is a question",
    );
    let user = number_option(alloc, "user", 0, PERCENT, "80")
        .short('u')
        .help("Chance in percent that a task which is no question is a trip");
    let seed = any_number_option(alloc, "seed", "1")
        .short('s')
        .help("Seed of the pseudo-random generator");
    let command = add_option(add_option(command, items), asks);
    let command = add_option(add_option(command, reads), user);
    add_option(add_option(command, seed), blocks_option(alloc))
}

/// Adds all options that determine the tasks of a load.
fn add_drawing_options<'a>(alloc: Global, command: Made<'a>) -> Made<'a>
    ensures { GetsOptions command.entry drawing_options result }
{
    add_task_options(alloc, add_client_options(alloc, command))
}

/// Adds the options of a load that do not change its tasks.
fn add_running_options<'a>(alloc: Global, command: Made<'a>) -> Made<'a>
    ensures { GetsOptions command.entry running_options result }
{
    let tries = number_option(alloc, "tries", 1, MOST_TRIES, "64").help("Most attempts of a task");
    let progress = flag(alloc, "progress").help(
        "Reports completed tasks on standard error, at most twice a second",
    );
    let stats = flag(alloc, "stats").help("Reports time, attempts and conflicts on standard error");
    let history = flag(alloc, "history").help(
        "Writes the completed calls for judge; the two lines go to standard error",
    );
    let attempts = flag(alloc, "attempts").help(
        "Writes the attempts for judge attempts; the two lines go to standard error",
    );
    let command = add_option(add_option(command, tries), progress);
    add_option(add_option(add_option(command, stats), history), attempts)
}

/// Adds all options of a load.
fn add_load_options<'a>(alloc: Global, command: Made<'a>) -> Made<'a>
    ensures { GetsOptions command.entry load_options result }
{
    add_running_options(alloc, add_drawing_options(alloc, command))
}

/// Adds the subcommands that read a script or the words of a memory.
fn add_memory_commands<'a>(alloc: Global, top: Made<'a>) -> Made<'a>
    ensures { GetsCommands top.entry memory_commands result }
{
    let run = Command::new(alloc, "run")
        .about("Runs the commands on standard input and writes their replies")
        .after_help("Example:\n  printf 'add car 7 100 50\\nfree car 7\\n' | vacation run")
        .arg(blocks_option(alloc));
    let dump = Command::new(alloc, "dump")
        .about("Runs the commands on standard input, then writes the words of the memory")
        .after_help("Example:\n  echo 'add car 7 100 50' | vacation dump --blocks 1")
        .arg(blocks_option(alloc));
    let check = Command::new(alloc, "check")
        .about("Audits the words of a memory on standard input, as dump writes them")
        .after_help("Example:\n  echo 'add car 7 100 50' | vacation dump | vacation check");
    add_command(add_command(add_command(top, run), dump), Ok(check))
}

/// Adds the subcommands that run a load or write its tasks.
fn add_load_commands<'a>(alloc: Global, top: Made<'a>) -> Made<'a>
    ensures { GetsCommands top.entry load_commands result }
{
    let load = Command::new(alloc, "load")
        .about("Runs client threads that issue drawn tasks, and reports the state that they leave")
        .after_help("Example:\n  vacation load --clients 2 --tasks 1000");
    let tasks = Command::new(alloc, "tasks")
        .about("Writes the tasks that a load of these options draws, one a line, and runs nothing")
        .after_help("Example:\n  vacation tasks --clients 2 --tasks 3");
    let top = add_command(top, add_load_options(alloc, Ok(load)));
    add_command(top, add_drawing_options(alloc, Ok(tasks)))
}

/// Returns the program before its subcommands are added.
fn top_command<'a>(alloc: Global) -> Command<'a>
    ensures { app_of result ≡ top_command }
{
    Command::new(alloc, "vacation")
        .version(VERSION)
        .about("A proved travel reservation system")
        .subcommand_required(true)
}

/// Returns the command line that the program takes.
pub(crate) fn command_line<'a>(alloc: Global) -> Made<'a>
    ensures { IfOk result (λ c. app_of c ≡ vacation) }
{
    add_load_commands(alloc, add_memory_commands(alloc, Ok(top_command(alloc))))
}
