//! Dumps: the words of the memory after a script, one word a line.

ghost use Rattle.std.specs.Prelude.{◌≡◌, true, OnOk, OnErr};
ghost use Rattle.std.specs.Io.KnownBytes.{Appends};
ghost use Rattle.vac_model.specs.Ranges.{is_block_count};
ghost use Rattle.vac_lines.specs.Memory.{dump_text};
ghost use Rattle.vac_lines.specs.Writing.{AppendsPrefix};
ghost use Rattle.cli_script.specs.Dump.{Dumped, DumpStopped};

use crate::script::run_input;
use crate::system::{close, open};
use std::alloc::Global;
use std::io;
use std::io::{Read, Write};
use vac_lines::{StreamFault, print, send_chunk, send_rest};

/// Runs a script for a system of `blocks` blocks, 1 to 262,144, and dumps its memory. Reads the
/// lines to the end of the input, writes no reply, closes the system, and writes its words in
/// order, each in decimal on a line of its own.
///
/// After a fault, the output has nothing or a prefix of the whole dump.
pub fn dump_script<R: Read, W: Write>(
    alloc: Global,
    blocks: u32,
    input: &mut R,
    output: &mut W,
) -> Result<(), StreamFault>
    requires { is_block_count blocks ≡ true }
    ensures ok { OnOk result (Dumped blocks (R.remaining input.old) (R.remaining input.new)
        (W.contents output.old) (W.contents output.new)) }
    ensures err { OnErr result (DumpStopped blocks
        (R.remaining input.old) (R.remaining input.new)
        (W.contents output.old) (W.contents output.new)) }
{
    let mut replies = io::sink();
    let (manager, client) = open(alloc, blocks)?;
    let client = run_input(alloc, manager.caller(client), input, &mut replies)?;
    let words = close(manager, client)?;
    write_words(alloc, words.as_slice(), output)
}

/// Writes words in order, each in decimal on a line of its own.
fn write_words<W: Write>(alloc: Global, words: &[u64], output: &mut W) -> Result<(), StreamFault>
    ensures ok { OnOk result
        (Appends (W.contents output.old) (W.contents output.new) (dump_text words.now)) }
    ensures err { OnErr result
        (AppendsPrefix (W.contents output.old) (W.contents output.new) (dump_text words.now)) }
{
    let mut text = Vec::new(alloc);
    for word in words {
        print(format_args!("{word}\n"), &mut text)?;
        send_chunk(output, &mut text)?;
    }
    send_rest(output, text.as_slice())
}
