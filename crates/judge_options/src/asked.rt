//! The request that a command line makes.

ghost use Rattle.std.specs.Prelude.{◌≡◌, ◌≤◌, true, Some, List, map, string_bytes, codes, IfOk};
ghost use Rattle.clap.specs.Words.{FailsBy, Text, fault_of, found_of, rows_of};
ghost use Rattle.clap.specs.Words.{subcommand_of, subcommand_rows_of};
ghost use Rattle.vac_model.specs.declared.limits.TheConstants.{MOST_BLOCKS};
ghost use Rattle.vac_model.specs.Ranges.{is_block_count};
ghost use Rattle.judge_opacity.specs.declared.memory.TheConstants.{MOST_WORDS};
ghost use Rattle.cli_common.specs.declared.values.TheConstants.{MOST_NUMBER};
ghost use Rattle.cli_common.specs.Values.{Gives, GivesIn, GivesLine, MayGiveIn, NamesFile};
ghost use Rattle.judge_options.specs.CommandLine.{judge, Names, IsFoundIn, AsksFor};
ghost use Rattle.judge_options.specs.CommandLine.{HasSearch, IsSearchOfRows, HasJudging, IsJudging};
ghost use Rattle.judge_options.specs.CommandLine.{HasOpacity, IsOpacity, IsPartWords, IsDefault};
ghost use Rattle.judge_options.specs.CommandLine.{HasKeys, IsKeys};
ghost use Rattle.judge_options.specs.CommandLine.{level_named, level_given, names_search};

use crate::options::command_line;
use clap::{ArgMatches, Error};
use cli_common::{any_number_of, blocks_of, flag_of, is_given, named, number_of, values_of};
use judge_object::Level;
use std::alloc::{AllocError, Global};

/// Number of blocks of the system whose history is judged if the words name no command.
const DEFAULT_BLOCKS: u32 = 1_024;

/// Steps of the search if the words name no command.
const DEFAULT_STEPS: u64 = 10_000_000;

/// The settings of a search for an order of a level, and of the report on the log.
#[derive(Clone, Copy)]
pub struct SearchSettings {
    /// The level of consistency that the order shows.
    pub level: Level,
    /// Largest number of steps of the exact search of all calls, and of each quick search of them.
    /// At a level below linearizability the exact search of the history as it is given and the
    /// exact search at the level share the steps. The exact search of a part makes at most as many
    /// for each end that is tried.
    pub steps: u64,
    /// True if the search reports its progress.
    pub progress: bool,
    /// True if the figures of the log are reported, whether or not there is a search.
    pub stats: bool,
}

/// The settings of a judge of a history.
#[derive(Clone, Copy)]
pub struct JudgeSettings<'a> {
    /// Number of blocks of the system that was called.
    pub blocks: u32,
    /// The file of the tasks against which the history is checked.
    pub tasks: Option<&'a str>,
    /// True if the judge takes the order of the lines, and does not search for one.
    pub given_order: bool,
    /// The settings of the search.
    pub search: SearchSettings,
    /// True if the command line itself gives a setting of the search.
    pub names_search: bool,
}

/// The scope of a part, in the words of the command line.
#[derive(Drop)]
pub struct PartWords<'a> {
    /// The values of the customers.
    pub customers: Vec<&'a str>,
    /// The values of the items, a kind and an id for each.
    pub items: Vec<&'a str>,
    /// The number of the line at the end of whose call the history is cut, if the words give one.
    pub until: Option<u64>,
}

/// The settings of a judge of attempts.
#[derive(Clone, Copy)]
pub struct OpacitySettings {
    /// Number of words of the memory.
    pub words: u32,
    /// True if only the order of the committed writers is given, and the judge searches for places
    /// of the other attempts.
    pub place: bool,
    /// True if the figures of the log are reported.
    pub stats: bool,
}

/// The settings of a judge of a key-value store's history.
#[derive(Clone, Copy)]
pub struct KeysSettings<'a> {
    /// True if all keys are judged at once, so that a transaction may have several keys.
    pub whole: bool,
    /// The file of the values that keys have at first.
    pub start: Option<&'a str>,
    /// The settings of the search.
    pub search: SearchSettings,
}

/// The request that a command line makes.
#[derive(Drop)]
pub enum Request<'a> {
    /// Judges a history.
    History(JudgeSettings<'a>),
    /// Finds an order of a history of a system of this many blocks.
    Order(u32, SearchSettings),
    /// Refuses a subcommand that searches, because the word for the level names none.
    UnknownLevel,
    /// Judges attempts.
    Attempts(OpacitySettings),
    /// Writes the part of a history, or of its cut, on this scope.
    Part(PartWords<'a>),
    /// Judges a history of a key-value store.
    Keys(KeysSettings<'a>),
    /// Judges a history of a bounded queue.
    Queue(SearchSettings),
}

/// Parses a command line with clap.
fn read_words<'a>(alloc: Global, words: &'a [String]) -> Result<ArgMatches<'a>, Error>
    ensures fails { FailsBy (fault_of judge (map string_bytes words.now)) result }
    ensures found { IfOk result (λ m.
        subcommand_rows_of m ≡ subcommand_of judge (map string_bytes words.now)) }
{
    command_line(alloc)?.try_get_matches_from(words)
}

/// Returns the file of tasks that a judge names, if it names one.
fn file_of<'a>(matches: &ArgMatches<'a>) -> Option<&'a str>
    ensures { NamesFile (rows_of (found_of matches.now)) (codes "tasks") result }
{
    matches.get_str("tasks")
}

/// Returns the file of first values that a judge of a key-value store names, if it names one.
fn start_of<'a>(matches: &ArgMatches<'a>) -> Option<&'a str>
    ensures { NamesFile (rows_of (found_of matches.now)) (codes "start") result }
{
    matches.get_str("start")
}

/// Returns the level that a word names, if it names one.
fn level_named(word: &str) -> Option<Level>
    ensures { result ≡ level_named word.now }
{
    match word {
        "linearizable" => Some(Level::Linearizable),
        "sequential" => Some(Level::Sequential),
        "serializable" => Some(Level::Serializable),
        _ => None,
    }
}

/// Returns the level that a search gives or has by default, if the word is that of a level.
fn level_of(matches: &ArgMatches) -> Option<Level>
    ensures { result ≡ level_given (rows_of (found_of matches.now)) }
{
    match matches.get_str("level") {
        Some(word) => level_named(word),
        None => None,
    }
}

/// Returns the settings of a search at this level.
fn search_of(matches: &ArgMatches, level: Level) -> SearchSettings
    requires level { level_given (rows_of (found_of matches.now)) ≡ Some level }
    requires search { HasSearch (rows_of (found_of matches.now)) }
    ensures { IsSearchOfRows (rows_of (found_of matches.now)) result }
{
    SearchSettings {
        level,
        steps: any_number_of(matches, "steps"),
        progress: flag_of(matches, "progress"),
        stats: flag_of(matches, "stats"),
    }
}

/// Returns whether the words themselves give a setting of a search.
fn names_search(matches: &ArgMatches, search: SearchSettings) -> bool
    ensures { result ≡ names_search (rows_of (found_of matches.now)) search }
{
    is_given(matches, "steps") || is_given(matches, "level") || search.progress
}

/// Returns the settings of a judge of a history at this level.
fn judging_of<'a>(matches: &ArgMatches<'a>, level: Level) -> JudgeSettings<'a>
    requires level { level_given (rows_of (found_of matches.now)) ≡ Some level }
    requires judging { HasJudging (rows_of (found_of matches.now)) }
    ensures { IsJudging (rows_of (found_of matches.now)) result }
{
    let search = search_of(matches, level);
    JudgeSettings {
        blocks: blocks_of(matches),
        tasks: file_of(matches),
        given_order: flag_of(matches, "given-order"),
        search,
        names_search: names_search(matches, search),
    }
}

/// Returns the request of words that name `history`.
fn history_asked<'a>(matches: &ArgMatches<'a>) -> Request<'a>
    requires { HasJudging (rows_of (found_of matches.now)) }
    ensures { (words : List Text) → Names words (codes "history") (rows_of (found_of matches.now)) →
        AsksFor words result }
{
    match level_of(matches) {
        Some(level) => Request::History(judging_of(matches, level)),
        None => Request::UnknownLevel,
    }
}

/// Returns the request of words that name `order`.
fn order_asked<'a>(matches: &ArgMatches<'a>) -> Request<'a>
    requires blocks { GivesIn (rows_of (found_of matches.now)) (codes "blocks") 1 MOST_BLOCKS }
    requires search { HasSearch (rows_of (found_of matches.now)) }
    ensures { (words : List Text) → Names words (codes "order") (rows_of (found_of matches.now)) →
        AsksFor words result }
{
    match level_of(matches) {
        Some(level) => Request::Order(blocks_of(matches), search_of(matches, level)),
        None => Request::UnknownLevel,
    }
}

/// Returns the number of the line at the end of whose call a history is cut, if the words give one.
fn until_of(matches: &ArgMatches) -> Option<u64>
    requires { MayGiveIn (rows_of (found_of matches.now)) (codes "until") 1 MOST_NUMBER }
    ensures { GivesLine (rows_of (found_of matches.now)) (codes "until") result }
{
    matches.get_one::<u64>("until")
}

/// Returns the words for the scope of a part, and the line at the end of whose call the history is
/// cut.
fn part_words_of<'a>(alloc: Global, matches: &ArgMatches<'a>) -> Result<PartWords<'a>, AllocError>
    requires { MayGiveIn (rows_of (found_of matches.now)) (codes "until") 1 MOST_NUMBER }
    ensures { IfOk result (λ part. IsPartWords (rows_of (found_of matches.now)) part) }
{
    let customers = values_of(alloc, matches, "customer")?;
    let items = values_of(alloc, matches, "item")?;
    Ok(PartWords {
        customers,
        items,
        until: until_of(matches),
    })
}

/// Returns the number of words that a judge of attempts gives, or the default.
fn words_of(matches: &ArgMatches) -> u32
    requires { GivesIn (rows_of (found_of matches.now)) (codes "words") 1 MOST_WORDS }
    ensures given { Gives (rows_of (found_of matches.now)) (codes "words") result }
    ensures least { 1 ≤ result }
    ensures most { result ≤ MOST_WORDS }
{
    number_of(matches, "words")
}

/// Returns the settings of a judge of attempts.
fn opacity_of(matches: &ArgMatches) -> OpacitySettings
    requires { HasOpacity (rows_of (found_of matches.now)) }
    ensures { IsOpacity (rows_of (found_of matches.now)) result }
{
    OpacitySettings {
        words: words_of(matches),
        place: flag_of(matches, "place"),
        stats: flag_of(matches, "stats"),
    }
}

/// Returns the settings of a judge of a key-value store's history at this level.
fn keys_of<'a>(matches: &ArgMatches<'a>, level: Level) -> KeysSettings<'a>
    requires level { level_given (rows_of (found_of matches.now)) ≡ Some level }
    requires keys { HasKeys (rows_of (found_of matches.now)) }
    ensures { IsKeys (rows_of (found_of matches.now)) result }
{
    KeysSettings {
        whole: flag_of(matches, "whole"),
        start: start_of(matches),
        search: search_of(matches, level),
    }
}

/// Returns the request of words that name `keys`.
fn keys_asked<'a>(matches: &ArgMatches<'a>) -> Request<'a>
    requires { HasKeys (rows_of (found_of matches.now)) }
    ensures { (words : List Text) → Names words (codes "keys") (rows_of (found_of matches.now)) →
        AsksFor words result }
{
    match level_of(matches) {
        Some(level) => Request::Keys(keys_of(matches, level)),
        None => Request::UnknownLevel,
    }
}

/// Returns the request of words that name `queue`.
fn queue_asked<'a>(matches: &ArgMatches<'a>) -> Request<'a>
    requires { HasSearch (rows_of (found_of matches.now)) }
    ensures { (words : List Text) → Names words (codes "queue") (rows_of (found_of matches.now)) →
        AsksFor words result }
{
    match level_of(matches) {
        Some(level) => Request::Queue(search_of(matches, level)),
        None => Request::UnknownLevel,
    }
}

/// Returns the settings of a judge of a history if the words name no command.
fn default_settings<'a>() -> JudgeSettings<'a>
    ensures default { IsDefault result }
    ensures room { is_block_count result.blocks ≡ true }
{
    JudgeSettings {
        blocks: DEFAULT_BLOCKS,
        tasks: None,
        given_order: false,
        search: SearchSettings {
            level: Level::Linearizable,
            steps: DEFAULT_STEPS,
            progress: false,
            stats: false,
        },
        names_search: false,
    }
}

/// Returns the request in words that clap has parsed.
fn asked_of<'a>(alloc: Global, matches: &ArgMatches<'a>) -> Result<Request<'a>, AllocError>
    requires { (words : List Text) × IsFoundIn words matches.now }
    ensures { IfOk result (λ asked. (words : List Text) →
        IsFoundIn words matches.now → AsksFor words asked) }
{
    if let Some(history) = named(matches, "history") {
        return Ok(history_asked(history));
    }
    if let Some(order) = named(matches, "order") {
        return Ok(order_asked(order));
    }
    if let Some(attempts) = named(matches, "attempts") {
        return Ok(Request::Attempts(opacity_of(attempts)));
    }
    if let Some(part) = named(matches, "part") {
        return Ok(Request::Part(part_words_of(alloc, part)?));
    }
    if let Some(keys) = named(matches, "keys") {
        return Ok(keys_asked(keys));
    }
    match named(matches, "queue") {
        Some(queue) => Ok(queue_asked(queue)),
        None => Ok(Request::History(default_settings())),
    }
}

/// Returns the request that a command line makes. An error is the help that the words ask for, or
/// the reason why they are refused.
///
/// Not said: if clap could name two faults, which of them it names.
pub fn read_asked<'a>(alloc: Global, words: &'a [String]) -> Result<Request<'a>, Error>
    ensures fails { FailsBy (fault_of judge (map string_bytes words.now)) result }
    ensures asked { IfOk result (λ asked. AsksFor (map string_bytes words.now) asked) }
{
    let matches = read_words(alloc, words)?;
    Ok(asked_of(alloc, &matches)?)
}
