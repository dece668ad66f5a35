//! Cutting a line into words, and what its words say.

ghost use Rattle.std.specs.Prelude.{◌≡◌, IfOk};
ghost use Rattle.std.specs.Str.{bytes_eq};
ghost use Rattle.vac_lines.specs.Lines.{words_of, texts};
ghost use Rattle.judge_text.specs.Lines.{end_number, words_span, word_reply};

use crate::worded::TextObject;
use judge_object::{NEVER, Span};
use std::alloc::{AllocError, Global};
use vac_lines::{cut_at, read_client, read_memory_word};

/// Number of words for which a line's cutting takes memory at first.
const FIRST_WORDS: usize = 8;

/// Cuts a line at every space.
pub fn split_words(alloc: Global, line: &[u8]) -> Result<Vec<&[u8]>, AllocError>
    ensures { IfOk result (λ words. texts words.items ≡ words_of line.now) }
{
    let mut words = Vec::with_capacity(alloc, FIRST_WORDS)?;
    let mut rest = line;
    'words: while let Some((word, behind)) = cut_at(b' ', rest) {
        words.push(word)?;
        rest = behind;
    }
    words.push(rest)?;
    Ok(words)
}

/// Returns whether a word is this one.
pub(crate) fn is_word(word: &[u8], other: &[u8]) -> bool
    ensures { result ≡ bytes_eq word.now other.now }
{
    word == other
}

/// Returns the END that a word writes, which is later than all times in a pending call.
fn read_end(word: &[u8]) -> Option<u128>
    ensures { result ≡ end_number word.now }
{
    if is_word(word, b"-") {
        return Some(NEVER);
    }
    match read_memory_word(word) {
        Some(end) => Some(u128::from(end)),
        None => None,
    }
}

/// Returns who called, and when.
pub(crate) fn read_span(client: &[u8], begin: &[u8], end: &[u8]) -> Option<Span>
    ensures { result ≡ words_span client.now begin.now end.now }
{
    let client = read_client(client)?;
    let begin = read_memory_word(begin)?;
    let end = read_end(end)?;
    Some(Span { client, begin, end })
}

/// Returns the reply that a word writes. The reply of a pending call may be unknown.
pub(crate) fn read_reply<M: TextObject>(
    alloc: Global,
    reader: &mut M::Reader,
    word: &[u8],
) -> Result<Option<Option<M::Reply>>, AllocError>
    ensures { IfOk result (λ reply. word_reply M.language word.now ≡ reply) }
{
    if is_word(word, b"?") {
        return Ok(Some(None));
    }
    match M::read_reply(alloc, reader, word)? {
        Some(reply) => Ok(Some(Some(reply))),
        None => Ok(None),
    }
}
