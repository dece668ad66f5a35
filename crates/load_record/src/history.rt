//! One history of the calls of all clients.

ghost use Rattle.std.specs.Prelude.{◌≡◌, ◌⊎◌, ◌<◌, false, ◌^◌, ◌++◌, Some, [], length, OnOk, OnErr, IfOk, IfErr, IsErrOf};
ghost use Rattle.std.specs.List.{list_all};
ghost use Rattle.vac_lines.specs.Script.{as_line};
ghost use Rattle.judge_calls.specs.CallText.{call_text, end_text};
ghost use Rattle.vac_lines.specs.Writing.{AppendsPrefix};
ghost use Rattle.vac_lines.specs.declared.stream_fault.StreamFault.TheVariants.{Memory, Write};
ghost use Rattle.vac_lines.specs.Sent.{Sent};
ghost use Rattle.load_record.specs.Order.{entries_from};
ghost use Rattle.load_record.specs.Rests.{left_of, picked_entry};
ghost use Rattle.load_record.specs.History.{call_of_entry, kept_by, are_whole};
ghost use Rattle.load_record.specs.History.{WroteHistory, WroteHistoryPrefix};
ghost use Rattle.load_record.specs.Sending.{SentMerged, MergedPrefix};

use crate::journal::CallRecorder;
use crate::merging::{NextCall, RemainingCalls, take_least};
use crate::watch::StampClock;
use load_tasks::OPENING;
use std::alloc::{AllocError, Global};
use std::fmt;
use std::fmt::{Display, Formatter};
use std::io::Write;
use vac_lines::{StreamFault, print, send_chunk, send_rest};

impl Display for NextCall<'_> {
    ghost output = { λ picked. Some (call_text (call_of_entry (picked_entry picked))) };

    fn fmt<W: fmt::Write>(&self, f: &mut Formatter<W>) -> fmt::Result {
        let (client, begin) = (self.client, self.note.begin);
        let end = CompletedEnd { end: self.note.end };
        let (task, reply) = (&self.note.task, &self.note.reply);
        write!(f, "{client} {begin} {end} {task} -> {reply}")
    }
}

/// The end of a completed call. Its text is a number, since a call that ended has an end below
/// that of a pending call; the type lets the prover see that.
#[derive(Clone, Copy)]
struct CompletedEnd {
    end: u64,
}

impl Display for CompletedEnd {
    ghost output = { λ completed. Some (end_text completed.end) };

    fn fmt<W: fmt::Write>(&self, f: &mut Formatter<W>) -> fmt::Result {
        let end = self.end;
        write!(f, "{end}")
    }
}

/// Sends the line of a call.
fn send_line<W: Write>(
    output: &mut W,
    hand: &mut Vec<u8>,
    picked: NextCall<'_>,
) -> Result<(), StreamFault>
    ensures ok { OnOk result (Sent (W.contents output.old) (W.contents output.new)
        hand.old.items hand.new.items
        (as_line (call_text (call_of_entry (picked_entry picked.entry))))) }
    ensures err { OnErr result (AppendsPrefix (W.contents output.old) (W.contents output.new)
        (hand.old.items ++ as_line (call_text (call_of_entry (picked_entry picked.entry))))) }
    ensures fault { IfErr result (λ fault. (fault ≡ Memory) ⊎ (fault ≡ Write)) }
{
    print(format_args!("{picked}\n"), hand)?;
    send_chunk(output, hand)
}

/// Sends the lines of all remaining calls, in their order.
fn send_all<W: Write>(
    output: &mut W,
    hand: &mut Vec<u8>,
    rests: &mut [RemainingCalls<'_>],
) -> Result<(), StreamFault>
    requires empty { hand.old.items ≡ [] }
    ensures ok { OnOk result (SentMerged (left_of rests.old)
        (W.contents output.old) (W.contents output.new) hand.new.items) }
    ensures err { OnErr result (MergedPrefix (left_of rests.old)
        (W.contents output.old) (W.contents output.new)) }
    ensures fault { IfErr result (λ fault. (fault ≡ Memory) ⊎ (fault ≡ Write)) }
{
    'lines: while let Some(picked) = take_least(rests) {
        send_line(output, hand, picked)?;
    }
    Ok(())
}

/// Returns whether each call recorder had room for each call.
fn all_whole<J: StampClock>(clients: &[CallRecorder<J>]) -> bool
    ensures { result ≡ list_all (λ j. j.is_whole) clients.now }
{
    clients.iter().all(|journal| journal.is_whole())
}

/// Returns whether the call recorders of the setup phase and of the clients had room for each call.
pub fn are_whole<J: StampClock>(opening: &CallRecorder<J>, clients: &[CallRecorder<J>]) -> bool
    ensures { result ≡ are_whole opening.now clients.now }
{
    opening.is_whole() && all_whole(clients)
}

/// Returns the calls of each client, none of which is written yet.
fn rests_of<'j, J: StampClock>(
    alloc: Global,
    opening: &'j CallRecorder<J>,
    clients: &'j [CallRecorder<J>],
) -> Result<Vec<RemainingCalls<'j>>, AllocError>
    requires few { length clients.now < 2 ^ 32 }
    ensures { IfOk result (λ rests.
        left_of rests.items ≡ entries_from 0 (kept_by opening.now clients.now)) }
{
    let mut rests = Vec::new(alloc);
    rests.push(RemainingCalls {
        client: OPENING,
        notes: opening.notes(),
    })?;
    'clients: for place in 0..clients.len() {
        rests.push(RemainingCalls {
            client: place as u32 + 1,
            notes: clients[place].notes(),
        })?;
    }
    Ok(rests)
}

/// Writes the history of a system from its start, one line for each recorded call. The lines are
/// in the form that `vacation judge` reads. The calls of the setup phase are those of client 0,
/// and the clients are numbered from 1. The calls are ordered as their records are: by renewal,
/// then by version with the writer of a version before its readers, and the readers of one version
/// by the begin of their calls.
///
/// Allocates memory for one chunk of text, and a few words for each client. After a fault, the
/// output has nothing or a prefix of such a text. If a call recorder had no room for a call, the
/// call is missing. In this case nothing is written, and the fault is that memory was refused.
pub fn write_history<J: StampClock, W: Write>(
    alloc: Global,
    opening: &CallRecorder<J>,
    clients: &[CallRecorder<J>],
    output: &mut W,
) -> Result<(), StreamFault>
    requires few { length clients.now < 2 ^ 32 }
    ensures ok { OnOk result (WroteHistory (kept_by opening.now clients.now)
        (W.contents output.old) (W.contents output.new)) }
    ensures err { OnErr result (WroteHistoryPrefix (kept_by opening.now clients.now)
        (W.contents output.old) (W.contents output.new)) }
    ensures partial { are_whole opening.now clients.now ≡ false →
        IsErrOf result Memory × (W.contents output.new ≡ W.contents output.old) }
    ensures fault { IfErr result (λ fault. (fault ≡ Memory) ⊎ (fault ≡ Write)) }
{
    if !are_whole(opening, clients) {
        return Err(StreamFault::Memory);
    }
    let mut rests = rests_of(alloc, opening, clients)?;
    let mut hand = Vec::new(alloc);
    send_all(output, &mut hand, rests.as_mut_slice())?;
    send_rest(output, hand.as_slice())
}
