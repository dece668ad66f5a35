//! Writing a whole text.

ghost use Rattle.std.specs.Prelude.{OnOk, OnErr};
ghost use Rattle.std.specs.Io.KnownBytes.{Appends};
ghost use Rattle.vac_lines.specs.Writing.{AppendsPrefix};

use std::io::{ErrorKind, Write};

/// A failed write: a write failed or wrote no byte, or the output could not be flushed.
#[derive(Clone, Copy, Debug, PartialEq, Eq)]
pub struct NotWritten;

/// Writes the whole text. Stops if a write fails or writes no byte; an interrupted write is
/// retried. Bounded loop: the prover needs a measure; no run makes 2^64 - 1 writes.
///
/// # Errors
/// Returns an error if the output could not be written; a prefix of the text was written then.
///
/// Not said: that the call fails only if the output does.
pub fn write_all<W: Write>(output: &mut W, text: &[u8]) -> Result<(), NotWritten>
    ensures ok { OnOk result (Appends (W.contents output.old) (W.contents output.new) text.now) }
    ensures err { OnErr result
        (AppendsPrefix (W.contents output.old) (W.contents output.new) text.now) }
{
    let mut sent = 0;
    'writes: for _ in 0..u64::MAX {
        if sent >= text.len() {
            return Ok(());
        }
        match output.write(&text[sent..]) {
            Ok(0) => return Err(NotWritten),
            Ok(taken) => sent += taken,
            Err(error) => {
                if error.kind() != ErrorKind::Interrupted {
                    return Err(NotWritten);
                }
            }
        }
    }
    Err(NotWritten)
}

/// Writes the whole text, and flushes the output.
///
/// # Errors
/// Returns an error if the output could not be written or flushed; a prefix of the text was
/// written then.
///
/// Not said: that the output is flushed, which no contract names; that the call fails only if the
/// output does.
pub fn write_and_flush<W: Write>(output: &mut W, text: &[u8]) -> Result<(), NotWritten>
    ensures ok { OnOk result (Appends (W.contents output.old) (W.contents output.new) text.now) }
    ensures err { OnErr result
        (AppendsPrefix (W.contents output.old) (W.contents output.new) text.now) }
{
    write_all(output, text)?;
    output.flush().map_err(|_| NotWritten)
}
