//! Operations and replies as words of a line.

ghost use Rattle.std.specs.Prelude.{◌≡◌};
ghost use Rattle.std.specs.Str.{bytes_eq};
ghost use Rattle.judge_queue.specs.Words.{enqueue, word_op};

use crate::op::{Op, Reply};
use crate::queue::Queue;
use judge_text::TextObject;
use std::alloc::{AllocError, Global};
use vac_lines::read_memory_word;

/// Returns whether a word is this name.
fn is_name(word: &[u8], name: &[u8]) -> bool
    ensures { result ≡ bytes_eq word.now name.now }
{
    word == name
}

/// Returns the operation that a name and a number write.
fn enqueue(name: &[u8], number: &[u8]) -> Option<Op>
    ensures { result ≡ enqueue name.now number.now }
{
    if !is_name(name, b"enqueue") {
        return None;
    }
    match read_memory_word(number) {
        Some(number) => Some(Op::Enqueue(number)),
        None => None,
    }
}

/// Returns the operation that a name alone writes.
fn word_op(name: &[u8]) -> Option<Op>
    ensures { result ≡ word_op name.now }
{
    if is_name(name, b"dequeue") {
        Some(Op::Dequeue)
    } else {
        None
    }
}

impl TextObject for Queue {
    ghost use Rattle.judge_queue.specs.Words.{queue_language};

    type Reader = ();

    ghost language = { queue_language };

    fn reader(_alloc: Global) {}

    fn read_operation(
        _alloc: Global,
        _reader: &mut (),
        words: &[&[u8]],
    ) -> Result<Option<Op>, AllocError> {
        match words {
            [name] => Ok(word_op(name)),
            [name, number] => Ok(enqueue(name, number)),
            _ => Ok(None),
        }
    }

    fn read_reply(
        _alloc: Global,
        _reader: &mut (),
        word: &[u8],
    ) -> Result<Option<Reply>, AllocError> {
        if is_name(word, b"true") {
            return Ok(Some(Reply::Put(true)));
        }
        if is_name(word, b"false") {
            return Ok(Some(Reply::Put(false)));
        }
        if is_name(word, b"-") {
            return Ok(Some(Reply::Empty));
        }
        match read_memory_word(word) {
            Some(number) => Ok(Some(Reply::Taken(number))),
            None => Ok(None),
        }
    }
}
