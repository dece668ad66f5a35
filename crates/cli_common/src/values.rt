//! The values that the words of a command line give to its options.

ghost use Rattle.std.specs.Prelude.{◌≡◌, ◌<◌, ◌^◌, ℕ, true, Some, List, map, codes};
ghost use Rattle.std.specs.Prelude.{IfOk, IfSome, IsSome};
ghost use Rattle.clap.specs.Words.{Row, found_of, rows_of, subcommand_rows_of};
ghost use Rattle.vac_model.specs.declared.limits.TheConstants.{MOST_BLOCKS};
ghost use Rattle.vac_model.specs.Ranges.{is_block_count};
ghost use Rattle.cli_common.specs.Values.{Gives, GivesIn, Says, IsFlag, is_given, is_of_words};
ghost use Rattle.cli_common.specs.Values.{values_of};

use clap::ArgMatches;
use clap::parser::ValueSource;
use std::alloc::{AllocError, Global};

/// Largest value of an option for any 64-bit number: the seed of a load, the steps of a search, or
/// the number of a line.
pub const MOST_NUMBER: u64 = u64::MAX;

/// Returns the matches of this subcommand if the command line names it.
pub fn named<'b, 'a>(matches: &'b ArgMatches<'a>, name: &str) -> Option<&'b ArgMatches<'a>>
    ensures some { IfSome result (λ m.
        subcommand_rows_of matches.now ≡ Some (name.now, rows_of (found_of m.now))) }
    ensures none { (rows : List Row) → subcommand_rows_of matches.now ≡ Some (name.now, rows)
        → IsSome result }
{
    matches.subcommand_matches(name)
}

/// Returns the number that an option gives, or its default. Every such option has a default, so
/// that clap always gives a number.
pub fn number_of(matches: &ArgMatches, option: &str) -> u32
    requires { (least : ℕ) × (most : ℕ) × (most < 2 ^ 32)
        × GivesIn (rows_of (found_of matches.now)) option.now least most }
    ensures { Gives (rows_of (found_of matches.now)) option.now result }
{
    match matches.get_one::<u32>(option) {
        Some(number) => number,
        None => unreachable!(),
    }
}

/// Returns the 64-bit number that an option gives, or its default. Every such option has a
/// default, so that clap always gives a number.
pub fn any_number_of(matches: &ArgMatches, option: &str) -> u64
    requires { GivesIn (rows_of (found_of matches.now)) option.now 0 MOST_NUMBER }
    ensures { Gives (rows_of (found_of matches.now)) option.now result }
{
    match matches.get_one::<u64>(option) {
        Some(number) => number,
        None => unreachable!(),
    }
}

/// Returns whether a flag is set.
pub fn flag_of(matches: &ArgMatches, name: &str) -> bool
    requires { IsFlag (rows_of (found_of matches.now)) name.now }
    ensures { Says (rows_of (found_of matches.now)) name.now result }
{
    matches.get_flag(name)
}

/// Returns the number of blocks that a subcommand gives, or the default.
pub fn blocks_of(matches: &ArgMatches) -> u32
    requires { GivesIn (rows_of (found_of matches.now)) (codes "blocks") 1 MOST_BLOCKS }
    ensures given { Gives (rows_of (found_of matches.now)) (codes "blocks") result }
    ensures range { is_block_count result ≡ true }
{
    number_of(matches, "blocks")
}

/// Returns whether a value stands in the words, and is no default.
fn is_of_words(source: Option<ValueSource>) -> bool
    ensures { result ≡ is_of_words source }
{
    match source {
        Some(ValueSource::CommandLine) => true,
        Some(ValueSource::DefaultValue) => false,
        None => false,
    }
}

/// Returns whether the words themselves give an option, so that its value is no default.
pub fn is_given(matches: &ArgMatches, option: &str) -> bool
    ensures { result ≡ is_given option.now (rows_of (found_of matches.now)) }
{
    is_of_words(matches.value_source(option))
}

/// Returns the values of all uses of an option, in their order.
pub fn values_of<'a>(
    alloc: Global,
    matches: &ArgMatches<'a>,
    option: &str,
) -> Result<Vec<&'a str>, AllocError>
    ensures { IfOk result (λ values. map (λ value. value.now) values.items
        ≡ values_of option.now (rows_of (found_of matches.now))) }
{
    match matches.get_strs(option) {
        Some(values) => Vec::from_slice(alloc, values),
        None => Ok(Vec::new(alloc)),
    }
}
