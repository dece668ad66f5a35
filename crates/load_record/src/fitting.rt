//! Attempts whose lines the judge of opacity can read.

ghost use Rattle.std.specs.Prelude.{◌≡◌, ◌≤◌, ◌<◌, ◌^◌, true, map};
ghost use Rattle.std.specs.List.{All, list_all};
ghost use Rattle.judge_opacity.specs.declared.memory.TheConstants.{MOST_WORDS};
ghost use Rattle.load_record.specs.Lines.{line_entry};
ghost use Rattle.load_record.specs.Entries.{FitsAccess, Fits, AllFit};
ghost use Rattle.load_record.specs.Entries.{is_at_word, is_short, are_short};

use crate::lines::Line;
use tx_memory::Access;

/// Largest number of reads and writes with which the line of an attempt is never too long,
/// whatever its numbers are.
pub const FITTING_ACCESSES: usize = 2_164_800;

/// Returns whether an access is at one of the words.
fn has_word(access: Access, words: u32) -> bool
    ensures word { result ≡ is_at_word words access }
    ensures fits { result ≡ true → FitsAccess words access }
{
    match access {
        Access::Read {
            addr,
            value: _value,
        } => addr.0 < words,
        Access::Write {
            addr,
            value: _value,
        } => addr.0 < words,
    }
}

/// Returns whether each access is at one of the words.
fn have_words(accesses: &[Access], words: u32) -> bool
    ensures words { result ≡ list_all (λ access. is_at_word words access) accesses.now }
    ensures fits { result ≡ true → All (λ access. FitsAccess words access) accesses.now }
{
    for access in accesses {
        if !has_word(*access, words) {
            return false;
        }
    }
    true
}

/// States that the numbers of a line fit their types, as the law on lines of attempts requires.
fn numbers_of(client: u32, begin: u64, end: u64)
    ensures client { client < 2 ^ 32 }
    ensures begin { begin < 2 ^ 64 }
    ensures end { end < 2 ^ 64 }
{}

/// Returns whether an attempt has few enough accesses, each at one of the words.
#[tactic(auto, using(crate::proofs::ShortLines::short_fits))]
fn is_short_line(line: Line<'_>, words: u32) -> bool
    requires few { words ≤ MOST_WORDS }
    ensures short { result ≡ is_short words (line_entry line.entry).attempt }
    ensures fits { result ≡ true → Fits words (line_entry line.entry) }
{
    numbers_of(line.client, line.attempt.begin, line.attempt.end);
    let accesses = line.attempt.accesses.as_slice();
    accesses.len() <= FITTING_ACCESSES && have_words(accesses, words)
}

/// Returns whether all attempts have few enough accesses, each at one of the words. The judge of
/// opacity can read the lines of such attempts.
pub(crate) fn are_short_lines(lines: &[Line<'_>], words: u32) -> bool
    requires few { words ≤ MOST_WORDS }
    ensures short { result ≡ are_short words (map line_entry lines.now) }
    ensures fits { result ≡ true → AllFit words (map line_entry lines.now) }
{
    for line in lines {
        if !is_short_line(*line, words) {
            return false;
        }
    }
    true
}
