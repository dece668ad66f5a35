//! Reading a line of a history.

ghost use Rattle.std.specs.Prelude.{◌≡◌, ◌≤◌, IfOk, length};
ghost use Rattle.vac_lines.specs.Lines.{texts};
ghost use Rattle.judge_text.specs.Lines.{reply_text, whole_call, parts_call, operation_words, arrow_call, words_call, line_call};
ghost use Rattle.judge_text.specs.Reading.{IsReadLine};
ghost use Rattle.judge_object.specs.Rules.{given_text};

use crate::fault::CallFault;
use crate::worded::TextObject;
use crate::words::{is_word, read_reply, read_span, split_words};
use judge_object::{Line, NEVER, Object, Span};
use std::alloc::{AllocError, Global};

/// Returns the text of a reply, if there is one.
fn reply_text<M: Object>(
    alloc: Global,
    reply: Option<M::Reply>,
) -> Result<Option<Vec<u8>>, AllocError>
    ensures { IfOk result (λ text. given_text text ≡ reply_text M.rules reply) }
{
    match reply {
        Some(reply) => {
            let mut text = Vec::new(alloc);
            M::print(&reply, &mut text)?;
            Ok(Some(text))
        }
        None => Ok(None),
    }
}

/// Returns the line of a call, unless the call is completed and has no reply.
fn line_of<M: Object>(
    alloc: Global,
    number: u64,
    span: Span,
    op: M::Op,
    reply: Option<M::Reply>,
) -> Result<Result<Line<M::Op>, CallFault>, AllocError>
    ensures { IfOk result (λ read. IsReadLine (whole_call M.rules span op reply) number read) }
{
    let reply = reply_text::<M>(alloc, reply)?;
    if span.end < NEVER && reply.is_none() {
        return Ok(Err(CallFault::HalfCall));
    }
    Ok(Ok(Line {
        number,
        text: Vec::new(alloc),
        client: span.client,
        begin: span.begin,
        end: span.end,
        op,
        reply,
        soonest: span.begin,
    }))
}

/// Returns the call of parts that were read, or the first fault.
fn read_parts<M: Object>(
    alloc: Global,
    number: u64,
    span: Option<Span>,
    op: Option<M::Op>,
    reply: Option<Option<M::Reply>>,
) -> Result<Result<Line<M::Op>, CallFault>, AllocError>
    ensures { IfOk result (λ read. IsReadLine (parts_call M.rules span op reply) number read) }
{
    let Some(span) = span else {
        return Ok(Err(CallFault::BadNumber));
    };
    let Some(op) = op else {
        return Ok(Err(CallFault::BadOperation));
    };
    let Some(reply) = reply else {
        return Ok(Err(CallFault::BadReply));
    };
    line_of::<M>(alloc, number, span, op, reply)
}

/// Returns the words between END and the arrow.
fn operation_words<'a, 'b>(words: &'b [&'a [u8]]) -> &'b [&'a [u8]]
    requires { 6 ≤ length words.now }
    ensures { texts result.now ≡ operation_words (texts words.now) }
{
    &words[3..words.len() - 2]
}

/// Reads the call of words in which the arrow is the last but one.
fn read_arrow_call<M: TextObject>(
    alloc: Global,
    reader: &mut M::Reader,
    number: u64,
    words: &[&[u8]],
) -> Result<Result<Line<M::Op>, CallFault>, AllocError>
    requires { 6 ≤ length words.now }
    ensures { IfOk result (λ read.
        IsReadLine (arrow_call M.rules M.language (texts words.now)) number read) }
{
    let span = read_span(words[0], words[1], words[2]);
    let op = M::read_operation(alloc, reader, operation_words(words))?;
    let reply = read_reply::<M>(alloc, reader, words[words.len() - 1])?;
    read_parts::<M>(alloc, number, span, op, reply)
}

/// Reads the call that these words stand for.
fn read_words<M: TextObject>(
    alloc: Global,
    reader: &mut M::Reader,
    number: u64,
    words: &[&[u8]],
) -> Result<Result<Line<M::Op>, CallFault>, AllocError>
    ensures { IfOk result (λ read.
        IsReadLine (words_call M.rules M.language (texts words.now)) number read) }
{
    let count = words.len();
    if count < 6 {
        return Ok(Err(CallFault::BadCall));
    }
    if !is_word(words[count - 2], b"->") {
        return Ok(Err(CallFault::BadCall));
    }
    read_arrow_call::<M>(alloc, reader, number, words)
}

/// Reads the call that a line stands for, which is given without its end.
pub(crate) fn read_call<M: TextObject>(
    alloc: Global,
    reader: &mut M::Reader,
    number: u64,
    line: &[u8],
) -> Result<Result<Line<M::Op>, CallFault>, AllocError>
    ensures { IfOk result (λ read. IsReadLine (line_call M.rules M.language line.now) number read) }
{
    let words = split_words(alloc, line)?;
    read_words::<M>(alloc, reader, number, words.as_slice())
}
