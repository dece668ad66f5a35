//! The options that command lines share, and the way to add options and subcommands to a command.

ghost use Rattle.std.specs.Prelude.{◌≡◌, IfOk, IsOkAnd};
ghost use Rattle.clap.specs.Words.{AddsArg, AddsSubcommand};
ghost use Rattle.cli_common.specs.Options.{valued_option, number_parser, number_option};
ghost use Rattle.cli_common.specs.Options.{any_number_option, blocks_option, flag, IsOption};

use clap::builder::ValueParser;
use clap::{Arg, ArgAction, Command, value_parser};
use std::alloc::{AllocError, Global};
use vac_model::limits::MOST_BLOCKS;

/// Default number of blocks of a system.
const DEFAULT_BLOCKS: &str = "1024";

/// A command under construction, or an error if memory was refused.
pub type Made<'a> = Result<Command<'a>, AllocError>;

/// Returns an option that takes a value.
pub fn valued_option<'a>(alloc: Global, name: &'a str) -> Arg<'a>
    ensures { IsOption result (valued_option name.now) }
{
    Arg::new(alloc, name).long(name).value_name("N")
}

/// Returns the parser of a number in a range.
fn number_parser<'a>(least: u32, most: u32) -> ValueParser<'a>
    ensures { result ≡ number_parser least most }
{
    value_parser!(u32).range(i64::from(least)..=i64::from(most))
}

/// Returns an option that takes a number in a range.
pub fn number_option<'a>(
    alloc: Global,
    name: &'a str,
    least: u32,
    most: u32,
    default: &'a str,
) -> Arg<'a>
    ensures { IsOption result (number_option name.now least most default.now) }
{
    valued_option(alloc, name)
        .value_parser(number_parser(least, most))
        .default_value(default)
}

/// Returns an option that takes any 64-bit number.
pub fn any_number_option<'a>(alloc: Global, name: &'a str, default: &'a str) -> Arg<'a>
    ensures { IsOption result (any_number_option name.now default.now) }
{
    valued_option(alloc, name)
        .value_parser(value_parser!(u64))
        .default_value(default)
}

/// Returns the option for the number of blocks of a system.
pub fn blocks_option<'a>(alloc: Global) -> Arg<'a>
    ensures { IsOption result blocks_option }
{
    number_option(alloc, "blocks", 1, MOST_BLOCKS, DEFAULT_BLOCKS).help(
        "Capacity: items, customers and bookings together",
    )
}

/// Returns a flag.
pub fn flag<'a>(alloc: Global, name: &'a str) -> Arg<'a>
    ensures { IsOption result (flag name.now) }
{
    Arg::new(alloc, name).long(name).action(ArgAction::SetTrue)
}

/// Adds an option to a command.
pub fn add_option<'a>(command: Made<'a>, option: Arg<'a>) -> Made<'a>
    ensures { IfOk result (λ after. IsOkAnd command.entry
        (λ before. AddsArg before option.entry after)) }
{
    command?.arg(option)
}

/// Adds a subcommand.
pub fn add_command<'a>(top: Made<'a>, sub: Made<'a>) -> Made<'a>
    ensures { IfOk result (λ after. IsOkAnd top.entry (λ before. IsOkAnd sub.entry
        (λ added. AddsSubcommand before added after))) }
{
    top?.subcommand(sub?)
}
