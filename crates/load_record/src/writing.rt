//! The text of all attempts.

ghost use Rattle.std.specs.Prelude.{◌≡◌, ◌⊎◌, ◌<◌, ◌^◌, ◌++◌, [], ℕ, true, false, length, map};
ghost use Rattle.std.specs.Prelude.{OnOk, OnErr, IfOk, IfErr, IsErrOf};
ghost use Rattle.std.specs.Io.KnownBytes.{Appends};
ghost use Rattle.std.specs.List.{list_all};
ghost use Rattle.vac_lines.specs.Writing.{AppendsPrefix};
ghost use Rattle.vac_model.specs.Ranges.{is_block_count};
ghost use Rattle.vac_lines.specs.declared.stream_fault.StreamFault.TheVariants.{Memory, Write};
ghost use Rattle.vac_lines.specs.Sent.{Sent};
ghost use Rattle.stm_object.specs.Places.{rank_of};
ghost use Rattle.load_record.specs.Laying.{Lays};
ghost use Rattle.load_record.specs.Known.{is_whole_ledger, are_whole_ledgers};
ghost use Rattle.load_record.specs.Lines.{line_entry, line_text, lines_text};
ghost use Rattle.load_record.specs.Pages.{pages_of};
ghost use Rattle.load_record.specs.Text.{AreAttempts, AreTooLong};
ghost use Rattle.load_record.specs.Text.{WroteAttempts, WroteAttemptsPrefix};

use crate::fitting::are_short_lines;
use crate::gathering::{add_all, add_attempts};
use crate::laying::lay;
use crate::ledger::AttemptRecorder;
use crate::lines::Line;
use crate::{StampClock, rank};
use load_tasks::OPENING;
use std::alloc::{AllocError, Global};
use std::io::Write;
use tx_alloc::place::{BLOCK_WORDS, FIRST_BLOCK};
use vac_lines::{StreamFault, print, send_chunk, send_rest};
use vac_manager::TracedAttempt;

/// Returns the sort key of an attempt: its renewal, its version with the writer of a version
/// before its readers, its begin, and its end.
fn key_of(attempt: &TracedAttempt) -> (u32, u64, u64, u64)
    ensures { result ≡ (
      attempt.now.place.renewal,
      rank_of attempt.now.place,
      attempt.now.begin,
      attempt.now.end,
    ) }
{
    (
        attempt.place.renewal,
        rank(attempt.place),
        attempt.begin,
        attempt.end,
    )
}

/// Sends the line of an attempt.
fn send_line<O: Write>(
    output: &mut O,
    hand: &mut Vec<u8>,
    line: Line<'_>,
) -> Result<(), StreamFault>
    ensures ok { OnOk result (Sent (O.contents output.old) (O.contents output.new)
        hand.old.items hand.new.items (line_text (line_entry line.entry))) }
    ensures err { OnErr result (AppendsPrefix (O.contents output.old) (O.contents output.new)
        (hand.old.items ++ line_text (line_entry line.entry))) }
    ensures fault { IfErr result (λ fault. (fault ≡ Memory) ⊎ (fault ≡ Write)) }
{
    print(format_args!("{line}\n"), hand)?;
    send_chunk(output, hand)
}

/// Sends lines, one after the other.
fn send_lines<O: Write>(
    output: &mut O,
    hand: &mut Vec<u8>,
    lines: &[Line<'_>],
) -> Result<(), StreamFault>
    requires empty { hand.old.items ≡ [] }
    ensures ok { OnOk result (Sent (O.contents output.old) (O.contents output.new)
        [] hand.new.items (lines_text (map line_entry lines.now))) }
    ensures err { OnErr result (AppendsPrefix (O.contents output.old) (O.contents output.new)
        (lines_text (map line_entry lines.now))) }
    ensures fault { IfErr result (λ fault. (fault ≡ Memory) ⊎ (fault ≡ Write)) }
{
    for line in lines {
        send_line(output, hand, *line)?;
    }
    Ok(())
}

/// Returns whether each attempt recorder had room for each call and each attempt.
fn all_whole<W: StampClock + Copy + Drop>(clients: &[AttemptRecorder<W>]) -> bool
    ensures { result ≡ list_all is_whole_ledger clients.now }
{
    clients.iter().all(|ledger| ledger.is_whole())
}

/// Returns whether the attempt recorders of the setup phase and of the clients had room for each
/// call and each attempt.
pub fn are_whole_attempts<W: StampClock + Copy + Drop>(
    opening: &AttemptRecorder<W>,
    clients: &[AttemptRecorder<W>],
) -> bool
    ensures { result ≡ are_whole_ledgers opening.now clients.now }
{
    opening.is_whole() && all_whole(clients)
}

/// Sends lines, one after the other, and flushes the output.
fn send_text<O: Write>(alloc: Global, lines: &[Line<'_>], output: &mut O) -> Result<(), StreamFault>
    ensures ok { OnOk result (Appends (O.contents output.old) (O.contents output.new)
        (lines_text (map line_entry lines.now))) }
    ensures err { OnErr result (AppendsPrefix (O.contents output.old) (O.contents output.new)
        (lines_text (map line_entry lines.now))) }
    ensures fault { IfErr result (λ fault. (fault ≡ Memory) ⊎ (fault ≡ Write)) }
{
    let mut hand = Vec::new(alloc);
    send_lines(output, &mut hand, lines)?;
    send_rest(output, hand.as_slice())
}

/// Returns the lines of the attempts that write the initial words, and of the attempts of a load,
/// sorted by commit position.
fn sorted_lines<'a, W: StampClock + Copy + Drop>(
    alloc: Global,
    laid: &'a [TracedAttempt],
    opening: &'a AttemptRecorder<W>,
    clients: &'a [AttemptRecorder<W>],
) -> Result<Vec<Line<'a>>, AllocError>
    requires few { length clients.now < 2 ^ 32 }
    ensures { (blocks : ℕ) → Lays blocks laid.now → IfOk result (λ lines.
        AreAttempts blocks (pages_of opening.now clients.now) (map line_entry lines.items)) }
{
    let mut lines = Vec::new(alloc);
    add_attempts(&mut lines, OPENING, laid)?;
    add_all(&mut lines, opening, clients)?;
    lines.sort_by_key(|line| key_of(line.attempt))?;
    Ok(lines)
}

/// Writes the attempts of a load on a system with this number of blocks, one line each as
/// `vacation opaque` reads them at as many words as the heap has, and returns whether all of them
/// can be read. The initial words come first, as attempts of client 0. They are followed by the
/// attempts of the setup phase, as those of client 0, and of the clients, numbered from 1. The
/// attempts are sorted by renewal, by version with the writer of a version before its readers, by
/// begin, and by end.
///
/// Returns false, and writes nothing, if an attempt has more than 2,164,800 reads and writes, so
/// that its line may be too long for the judge, or if one of them is at no word of the heap.
///
/// Allocates a few words for each attempt, and memory for one chunk of text. After a fault, the
/// output has nothing or a prefix of such a text. If an attempt recorder had no room for a call or
/// for an attempt, nothing is written, and the fault is that memory was refused.
pub fn write_attempts<W: StampClock + Copy + Drop, O: Write>(
    alloc: Global,
    blocks: u32,
    opening: &AttemptRecorder<W>,
    clients: &[AttemptRecorder<W>],
    output: &mut O,
) -> Result<bool, StreamFault>
    requires blocks { is_block_count blocks ≡ true }
    requires few { length clients.now < 2 ^ 32 }
    ensures ok { IfOk result (λ fit. fit ≡ true →
        WroteAttempts blocks (pages_of opening.now clients.now)
        (O.contents output.old) (O.contents output.new)) }
    ensures unfit { IfOk result (λ fit. fit ≡ false →
        AreTooLong blocks (pages_of opening.now clients.now)
        × (O.contents output.new ≡ O.contents output.old)) }
    ensures err { OnErr result (WroteAttemptsPrefix blocks (pages_of opening.now clients.now)
        (O.contents output.old) (O.contents output.new)) }
    ensures partial { are_whole_ledgers opening.now clients.now ≡ false →
        IsErrOf result Memory × (O.contents output.new ≡ O.contents output.old) }
    ensures fault { IfErr result (λ fault. (fault ≡ Memory) ⊎ (fault ≡ Write)) }
{
    if !are_whole_attempts(opening, clients) {
        return Err(StreamFault::Memory);
    }
    let laid = lay(alloc, blocks)?;
    let lines = sorted_lines(alloc, laid.as_slice(), opening, clients)?;
    let all = lines.as_slice();
    if !are_short_lines(all, FIRST_BLOCK + BLOCK_WORDS * blocks) {
        return Ok(false);
    }
    send_text(alloc, all, output)?;
    Ok(true)
}
