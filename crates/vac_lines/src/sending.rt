//! Writing text that is gathered first.

ghost use Rattle.std.specs.Prelude.{◌≡◌, ◌<◌, [], length, OnOk, OnErr, IfErr};
ghost use Rattle.std.specs.Io.KnownBytes.{Appends};
ghost use Rattle.vac_lines.specs.declared.stream_fault.StreamFault.TheVariants.{Write};
ghost use Rattle.vac_lines.specs.Writing.{AppendsPrefix};
ghost use Rattle.vac_lines.specs.Sent.{Sent};

use crate::limits::CHUNK_BYTES;
use crate::stream_fault::StreamFault;
use crate::writing::{write_all, write_and_flush};
use std::io::Write;

/// Writes the buffered text if it is a chunk or more.
pub fn send_chunk<W: Write>(output: &mut W, hand: &mut Vec<u8>) -> Result<(), StreamFault>
    ensures ok { OnOk result (Sent (W.contents output.old) (W.contents output.new)
        hand.old.items hand.new.items []) }
    ensures short { OnOk result (length hand.new.items < CHUNK_BYTES) }
    ensures err { OnErr result
        (AppendsPrefix (W.contents output.old) (W.contents output.new) hand.old.items) }
    ensures fault { IfErr result (λ fault. fault ≡ Write) }
{
    if hand.len() >= CHUNK_BYTES {
        write_all(output, hand.as_slice())?;
        hand.clear();
    }
    Ok(())
}

/// Writes the buffered text, however little it is.
pub fn send_all<W: Write>(output: &mut W, hand: &mut Vec<u8>) -> Result<(), StreamFault>
    ensures ok { OnOk result
        (Appends (W.contents output.old) (W.contents output.new) hand.old.items) }
    ensures empty { OnOk result (hand.new.items ≡ []) }
    ensures err { OnErr result
        (AppendsPrefix (W.contents output.old) (W.contents output.new) hand.old.items) }
    ensures fault { IfErr result (λ fault. fault ≡ Write) }
{
    write_all(output, hand.as_slice())?;
    hand.clear();
    Ok(())
}

/// Writes the rest, and flushes the output.
pub fn send_rest<W: Write>(output: &mut W, hand: &[u8]) -> Result<(), StreamFault>
    ensures ok { OnOk result (Appends (W.contents output.old) (W.contents output.new) hand.now) }
    ensures err { OnErr result
        (AppendsPrefix (W.contents output.old) (W.contents output.new) hand.now) }
    ensures fault { IfErr result (λ fault. fault ≡ Write) }
{
    Ok(write_and_flush(output, hand)?)
}
