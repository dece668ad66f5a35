//! Reading a line: its attempt, or its first fault.

ghost use Rattle.std.specs.Prelude.{◌≡◌, ℕ, IfOk, MatchResult, Ok, Err};
ghost use Rattle.vac_lines.specs.Lines.{words_of};
ghost use Rattle.judge_opacity.specs.Attempt.{words_attempt, text_attempt, accesses_of};
ghost use Rattle.judge_opacity.specs.Parts.{words_left, AllAmong, attempt_of, with_accesses, read_span};

use crate::accesses::read_accesses;
use crate::numbers::{client_at, number_at, outcome_at};
use crate::words::take_word;
use judge_object::Span;
use std::alloc::AllocError;
use vac_lines::{LineFault, has_bad_byte};

/// Largest number of bytes of a line, without its line end: 64 MiB.
///
/// The largest reservation system has 2,097,168 words. An audit reads each word at most once, and a
/// read has at most 31 bytes, so the line of an audit has at most 65 million bytes.
pub const ATTEMPT_BYTES: usize = 67_108_864;

/// A read or a write of a word.
#[derive(Clone, Copy, Debug, PartialEq, Eq)]
pub enum Access {
    /// A read of the word, which gave this value.
    Read { word: u32, value: u64 },
    /// A write of this value to the word.
    Write { word: u32, value: u64 },
}

/// The part of a line before its reads and writes.
#[derive(Clone, Copy)]
pub(crate) struct Head {
    /// The client and the interval of the attempt.
    pub(crate) span: Span,
    /// True if the attempt committed.
    pub(crate) commits: bool,
}

/// Reads the client and the interval that three words write.
fn span_at(client: &[u8], begin: &[u8], end: &[u8]) -> Result<Span, LineFault>
    ensures { result ≡ read_span client.now begin.now end.now }
{
    let client = client_at(client)?;
    let begin = number_at(begin)?;
    let end = u128::from(number_at(end)?);
    Ok(Span { client, begin, end })
}

/// Reads the part of a line before its reads and writes, and returns the part and the rest of the
/// line.
fn read_head(line: &[u8]) -> Result<(Head, Option<&[u8]>), LineFault>
    ensures { MatchResult result
        (λ read. (words : ℕ) → words_attempt words (words_of line.now)
        ≡ with_accesses read.0 (accesses_of words (words_left read.1)))
        (λ fault. (words : ℕ) → words_attempt words (words_of line.now) ≡ Err fault) }
{
    let (client, rest) = take_word(Some(line))?;
    let (begin, rest) = take_word(rest)?;
    let (end, rest) = take_word(rest)?;
    let (outcome, rest) = take_word(rest)?;
    let span = span_at(client, begin, end)?;
    let commits = outcome_at(outcome)?;
    Ok((Head { span, commits }, rest))
}

/// Reads a line at `words` words. The line is given without its line end and is not too long.
/// Returns the head of the attempt and leaves the accesses in `accesses`, or returns the first
/// fault.
pub(crate) fn read_attempt(
    words: u32,
    line: &[u8],
    accesses: &mut Vec<Access>,
) -> Result<Result<Head, LineFault>, AllocError>
    ensures read { IfOk result (λ read. MatchResult read
        (λ head. text_attempt words line.now ≡ Ok (attempt_of head accesses.new.items))
        (λ fault. text_attempt words line.now ≡ Err fault)) }
    ensures among { IfOk result (λ read. IfOk read (λ _. AllAmong words accesses.new.items)) }
{
    if has_bad_byte(line) {
        return Ok(Err(LineFault::BadByte));
    }
    let (head, rest) = match read_head(line) {
        Ok(read) => read,
        Err(fault) => return Ok(Err(fault)),
    };
    match read_accesses(words, rest, accesses)? {
        Ok(()) => Ok(Ok(head)),
        Err(fault) => Ok(Err(fault)),
    }
}
