//! Judging a history that is read, for any object.

ghost use Rattle.std.specs.Prelude.{◌≡◌, ◌≢◌, IfOk, IfErr};
ghost use Rattle.vac_lines.specs.Writing.{AppendsPrefix};
ghost use Rattle.judge_text.specs.Starts.{start_of};
ghost use Rattle.judge_text.specs.Program as spec;
ghost use Rattle.judge_text.specs.Program.{HasRead, JudgesText, HasJudged, HasStopped, HasEnded};

use crate::judging::judge_text;
use crate::settings::Settings;
use crate::starts::Starts;
use crate::verdict::{Outcome, print_verdict};
use crate::worded::TextObject;
use judge_object::Watcher;
use std::alloc::{AllocError, Global};
use std::io::{ErrorKind, Read, Write};
use vac_lines::{CHUNK_BYTES, MOST_READS, StreamFault, write_and_flush};

/// Status of a program whose history is legal.
const LEGAL: u8 = 0;

/// Status of a program whose history is not legal.
const ILLEGAL: u8 = 1;

/// Status of a program that did not decide.
const UNDECIDED: u8 = 3;

/// Status of a program that was stopped by a fault.
const STOPPED: u8 = 4;

/// Reads all bytes of the input. An interrupted read is retried.
///
/// # Errors
/// Returns `Read` if a read failed; `Bound` if the input did not end within `MOST_READS` reads;
/// `Memory` if memory was refused.
///
/// Not said: which of these faults it is.
pub fn read_all<R: Read>(alloc: Global, input: &mut R) -> Result<Vec<u8>, StreamFault>
    ensures ok { IfOk result (λ text.
        HasRead (R.remaining input.old) (R.remaining input.new) text.items) }
    ensures err { IfErr result (λ fault. fault ≢ StreamFault.Write) }
{
    let mut text = Vec::new(alloc);
    let mut buffer = vec![in alloc; 0; CHUNK_BYTES]?;
    let chunk = buffer.as_mut_slice();
    'reads: for _ in 0..MOST_READS {
        match input.read(chunk) {
            Ok(0) => return Ok(text),
            Ok(count) => text.extend_from_slice(&chunk[..count])?,
            Err(error) => {
                if error.kind() != ErrorKind::Interrupted {
                    return Err(StreamFault::Read);
                }
            }
        }
    }
    Err(StreamFault::Bound)
}

/// Judges a text, and returns the kind and the text of the verdict.
fn find_text<M: TextObject + Drop, P: Watcher>(
    alloc: Global,
    starts: &Starts<M>,
    how: Settings,
    text: &[u8],
    watcher: &mut P,
) -> Result<(Outcome, Vec<u8>), AllocError>
    ensures { IfOk result (λ found.
        JudgesText M.rules M.name M.naming M.language (start_of starts.now) how
        text.now found.0 found.1.items) }
{
    let verdict = judge_text(alloc, text, starts, how, watcher)?;
    print_verdict::<M>(alloc, &verdict)
}

/// Reads the input to its end, judges it as a history of objects, each of which begins in the state
/// that is given for its name, as the settings say, and writes the text of the verdict.
/// Returns its kind.
///
/// After a fault of the output a prefix of the text was written, after any other fault nothing.
///
/// Not said: the reports to the watcher.
pub fn judge_history<M: TextObject + Drop, R: Read, W: Write, P: Watcher>(
    alloc: Global,
    starts: &Starts<M>,
    how: Settings,
    input: &mut R,
    output: &mut W,
    watcher: &mut P,
) -> Result<Outcome, StreamFault>
    ensures ok { IfOk result (λ outcome.
        HasJudged M.rules M.name M.naming M.language (start_of starts.now) how outcome
        (R.remaining input.old) (R.remaining input.new)
        (W.contents output.old) (W.contents output.new)) }
    ensures err { IfErr result (λ fault.
        HasStopped M.rules M.name M.naming M.language (start_of starts.now) how fault
        (R.remaining input.old) (R.remaining input.new)
        (W.contents output.old) (W.contents output.new)) }
{
    let bytes = read_all(alloc, input)?;
    let (outcome, text) = find_text(alloc, starts, how, bytes.as_slice(), watcher)?;
    write_and_flush(output, text.as_slice())?;
    Ok(outcome)
}

/// Returns the status of a program after a verdict.
fn status_of(outcome: Outcome) -> u8
    ensures { result ≡ spec.status_of outcome }
{
    match outcome {
        Outcome::Legal => LEGAL,
        Outcome::Illegal => ILLEGAL,
        Outcome::Undecided => UNDECIDED,
    }
}

/// Returns the last line of a program that was stopped by a fault; there is none if the output
/// failed.
fn fault_line(fault: StreamFault) -> &'static [u8]
    ensures { result.now ≡ spec.fault_line fault }
{
    match fault {
        StreamFault::Read => b"fault read\n",
        StreamFault::Write => b"",
        StreamFault::Memory => b"fault memory\n",
        StreamFault::Bound => b"fault bound\n",
    }
}

/// Writes the line of a fault, and returns the status of a program that a fault stopped. A failed
/// write changes nothing.
#[tactic(auto, using(crate::proofs::Ending::either_way))]
fn end_by_fault<W: Write>(fault: StreamFault, output: &mut W) -> u8
    ensures status { result ≡ 4 }
    ensures line { AppendsPrefix (W.contents output.old) (W.contents output.new)
        (spec.fault_line fault) }
{
    let _ = write_and_flush(output, fault_line(fault));
    STOPPED
}

/// Judges the input as a history of objects, each of which begins in the state that is given for
/// its name, as the settings say, and writes the text of the verdict, or after a fault its line.
/// Returns the status of a program: 0 if the history is legal, 1 if it is not or a line is no
/// call, 3 if neither is known, 4 after a fault.
///
/// Not said: the reports to the watcher.
pub fn judge_input<M: TextObject + Drop, R: Read, W: Write, P: Watcher>(
    alloc: Global,
    starts: &Starts<M>,
    how: Settings,
    input: &mut R,
    output: &mut W,
    watcher: &mut P,
) -> u8
    ensures { HasEnded M.rules M.name M.naming M.language (start_of starts.now) how result
        (R.remaining input.old) (R.remaining input.new)
        (W.contents output.old) (W.contents output.new) }
{
    match judge_history(alloc, starts, how, input, output, watcher) {
        Ok(outcome) => status_of(outcome),
        Err(fault) => end_by_fault(fault, output),
    }
}
