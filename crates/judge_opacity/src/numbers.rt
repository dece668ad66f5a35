//! The values of the words of a line.

ghost use Rattle.std.specs.Prelude.{◌≡◌, ◌<◌, IfOk};
ghost use Rattle.judge_opacity.specs.Attempt.{at_attempt_client, at_memory_word, at_word, first_of_two, at_outcome, at_access_kind};

use vac_lines::{LineFault, read_client, read_memory_word};

/// Reads a word as the number of a client.
pub(crate) fn client_at(word: &[u8]) -> Result<u32, LineFault>
    ensures { result ≡ at_attempt_client word.now }
{
    read_client(word).ok_or(LineFault::BadNumber)
}

/// Reads a word as a reading of the clock or as a value.
pub(crate) fn number_at(word: &[u8]) -> Result<u64, LineFault>
    ensures { result ≡ at_memory_word word.now }
{
    read_memory_word(word).ok_or(LineFault::BadNumber)
}

/// Reads a text as the number of one of `words` words.
pub(crate) fn word_at(words: u32, text: &[u8]) -> Result<u32, LineFault>
    ensures word { result ≡ at_word words text.now }
    ensures among { IfOk result (λ word. word < words) }
{
    match read_memory_word(text) {
        Some(word) if word < u64::from(words) => Ok(word as u32),
        _ => Err(LineFault::BadNumber),
    }
}

/// Returns whether a word is the first of two names, or `None` if it is neither.
fn is_first_of(first: &[u8], second: &[u8], word: &[u8]) -> Option<bool>
    ensures { result ≡ first_of_two first.now second.now word.now }
{
    if word == first {
        Some(true)
    } else if word == second {
        Some(false)
    } else {
        None
    }
}

/// Reads an outcome: true if the attempt committed.
pub(crate) fn outcome_at(word: &[u8]) -> Result<bool, LineFault>
    ensures { result ≡ at_outcome word.now }
{
    is_first_of(b"commit", b"abort", word).ok_or(LineFault::BadCommand)
}

/// Reads the kind of an access: true for a read.
pub(crate) fn kind_at(word: &[u8]) -> Result<bool, LineFault>
    ensures { result ≡ at_access_kind word.now }
{
    is_first_of(b"r", b"w", word).ok_or(LineFault::BadKind)
}
