//! Reading a line of a history: its call, or its first fault.

ghost use Rattle.std.specs.Prelude.{◌≡◌, ◌≢◌, ◌<◌, ◌^◌, true, false, is_none, IfOk, IfErr, Ok, Err};
ghost use Rattle.std.specs.Option.{option_copied};
ghost use Rattle.vac_model.specs.Ranges.{is_task};
ghost use Rattle.judge_calls.specs.Call.{line_call, parts_call, whole_call, lacks_reply};
ghost use Rattle.judge_calls.specs.Call.{at_client, at_time, at_end, reply_at, is_no_end, is_no_reply};
ghost use Rattle.judge_object.specs.Call.{span_of, is_completed};
ghost use Rattle.judge_object.specs.Rules.{given_text};
ghost use Rattle.judge_reservations.specs.Lines.{call_of};
ghost use Rattle.judge_calls.specs.Parts.{shown_parts, shown_call, shown_end};

use crate::arrow::{CallParts, cut_parts};
use crate::call_line::CallLine;
use crate::fault::CallFault;
use judge_object::{Line, NEVER, Span};
use std::alloc::{AllocError, Global};
use vac_lines::{LineFault, has_bad_byte, read_client, read_line, read_memory_word};
use vac_model::ValidTask;

/// Largest number of bytes of a line of a history, without its line end.
pub const CALL_BYTES: usize = 4096;

/// The word in the place of END that marks a pending call.
const NO_END: &[u8] = b"-";

/// The text in the place of REPLY that marks a reply that is not known.
const NO_REPLY: &[u8] = b"?";

impl CallLine<'_> {
    /// Returns the end of the call, [`NEVER`] for a pending call.
    pub fn end_or_never(&self) -> u128
        ensures { result ≡ shown_end self.now.end }
    {
        match self.end {
            Some(end) => u128::from(end),
            None => NEVER,
        }
    }

    /// Returns whether the call is completed: pending calls, undetermined ones among them, are not.
    pub(crate) fn is_completed(&self) -> bool
        ensures { result ≡ is_completed (shown_call self.now) }
    {
        self.end_or_never() < NEVER
    }

    /// Returns the client and the interval of the call.
    pub(crate) fn span(&self) -> Span
        ensures { result ≡ span_of (shown_call self.now) }
    {
        Span {
            client: self.client,
            begin: self.begin,
            end: self.end_or_never(),
        }
    }

    /// Returns the call as a line of a history with this number and this text.
    pub fn into_line(
        self,
        alloc: Global,
        number: u64,
        text: &[u8],
    ) -> Result<Line<ValidTask>, AllocError>
        requires { is_task self.task ≡ true }
        ensures number { IfOk result (λ line. line.number ≡ number) }
        ensures text { IfOk result (λ line. line.text.items ≡ text.now) }
        ensures call { IfOk result (λ line. call_of line ≡ shown_call self.entry) }
        ensures begun { IfOk result (λ _. self.entry.begin < 2 ^ 64) }
    {
        let end = self.end_or_never();
        let reply = copied_reply(alloc, self.reply)?;
        Ok(Line {
            number,
            text: Vec::from_slice(alloc, text)?,
            client: self.client,
            begin: self.begin,
            end,
            op: ValidTask::new(self.task),
            reply,
            soonest: self.begin,
        })
    }
}

/// Returns a copy of the text of a reply, or `None` if the reply is not known.
fn copied_reply(alloc: Global, given: Option<&[u8]>) -> Result<Option<Vec<u8>>, AllocError>
    ensures { IfOk result (λ reply. given_text reply ≡ option_copied given.entry) }
{
    match given {
        Some(text) => Ok(Some(Vec::from_slice(alloc, text)?)),
        None => Ok(None),
    }
}

/// Reads a word as the number of a client.
pub(crate) fn client_at(word: &[u8]) -> Result<u32, CallFault>
    ensures { result ≡ at_client word.now }
{
    read_client(word).ok_or(CallFault::Line(LineFault::BadNumber))
}

/// Reads a word as a reading of the clock.
fn time_at(word: &[u8]) -> Result<u64, CallFault>
    ensures { result ≡ at_time word.now }
{
    read_memory_word(word).ok_or(CallFault::Line(LineFault::BadNumber))
}

/// Returns whether END is that of a completed call, and REPLY marks a reply that is not known.
fn lacks_reply(end: &[u8], reply: &[u8]) -> bool
    ensures { result ≡ lacks_reply end.now reply.now }
{
    end != NO_END && reply == NO_REPLY
}

/// Reads the end of a call. Returns `None` for a pending call.
fn end_at(word: &[u8]) -> Result<Option<u64>, CallFault>
    ensures end { IfOk result (λ end. at_end word.now ≡ Ok (shown_end end)) }
    ensures pending { IfOk result (λ end. is_none end ≡ is_no_end word.now) }
    ensures fault { IfErr result (λ fault. at_end word.now ≡ Err fault) }
{
    if word == NO_END {
        return Ok(None);
    }
    let end = time_at(word)?;
    Ok(Some(end))
}

/// Returns the text of a reply, or `None` if the reply is not known.
fn reply_at(text: &[u8]) -> Option<&[u8]>
    ensures reply { option_copied result ≡ reply_at text.now }
    ensures unknown { is_none result ≡ is_no_reply text.now }
{
    if text == NO_REPLY {
        return None;
    }
    Some(text)
}

/// Reads the call of the parts of a line, or finds the first fault, if a completed call has a
/// reply.
fn whole_call<'a>(alloc: Global, parts: CallParts<'a>) -> Result<CallLine<'a>, CallFault>
    requires whole { lacks_reply parts.end.now parts.reply.now ≡ false }
    ensures call { IfOk result (λ call.
        whole_call (shown_parts parts.entry) ≡ Ok (shown_call call)) }
    ensures fault { IfErr result (λ fault. fault ≢ CallFault.Line LineFault.Memory →
        whole_call (shown_parts parts.entry) ≡ Err fault) }
    ensures in_range { IfOk result (λ call. is_task call.task ≡ true) }
{
    let client = client_at(parts.client)?;
    let begin = time_at(parts.begin)?;
    let end = end_at(parts.end)?;
    let task = read_line(alloc, parts.line)?;
    Ok(CallLine {
        client,
        begin,
        end,
        task,
        reply: reply_at(parts.reply),
    })
}

/// Reads the call of the parts of a line, or finds the first fault.
fn parts_call<'a>(alloc: Global, parts: CallParts<'a>) -> Result<CallLine<'a>, CallFault>
    ensures call { IfOk result (λ call.
        parts_call (shown_parts parts.entry) ≡ Ok (shown_call call)) }
    ensures fault { IfErr result (λ fault. fault ≢ CallFault.Line LineFault.Memory →
        parts_call (shown_parts parts.entry) ≡ Err fault) }
    ensures in_range { IfOk result (λ call. is_task call.task ≡ true) }
{
    if lacks_reply(parts.end, parts.reply) {
        return Err(CallFault::BadCall);
    }
    whole_call(alloc, parts)
}

/// Reads a line of a history, which is given without its line end. Returns the call, or the first
/// fault of the line. If memory is refused for a task of many words, the fault is
/// [`LineFault::Memory`], which is no fault of the line.
pub fn read_call(alloc: Global, line: &[u8]) -> Result<CallLine<'_>, CallFault>
    ensures call { IfOk result (λ call. line_call line.now ≡ Ok (shown_call call)) }
    ensures fault { IfErr result (λ fault. fault ≢ CallFault.Line LineFault.Memory →
        line_call line.now ≡ Err fault) }
    ensures in_range { IfOk result (λ call. is_task call.task ≡ true) }
{
    if line.len() > CALL_BYTES {
        return Err(CallFault::Line(LineFault::LongLine));
    }
    if has_bad_byte(line) {
        return Err(CallFault::Line(LineFault::BadByte));
    }
    let parts = cut_parts(line).ok_or(CallFault::BadCall)?;
    parts_call(alloc, parts)
}
