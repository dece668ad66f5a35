//! Texts that may be lost: the last line after a fault, reports, progress, and why a command line
//! is refused.

ghost use Rattle.std.specs.Prelude.{◌≡◌, IfSome};
ghost use Rattle.vac_lines.specs.Writing.{AppendsPrefix};
ghost use Rattle.std.specs.Io.KnownBytes.{Appends};
ghost use Rattle.cli_common.specs.Ending.{EndsBy, fault_line};

use std::alloc::Global;
use std::fmt::Display;
use std::io::Write;
use vac_lines::{StreamFault, print, write_and_flush};

/// Status of a program that did its work, gave a positive verdict, or showed its help or version.
pub const DONE: u8 = 0;

/// Status of a program whose command line was refused.
pub const REFUSED: u8 = 2;

/// Writes a text to one of the program's outputs. If the write fails, the rest of the text is lost.
#[tactic(auto, using(crate::proofs::LastLines::either_way))]
pub fn write_last<W: Write>(line: &[u8], output: &mut W)
    ensures { AppendsPrefix (W.contents output.old) (W.contents output.new) line.now }
{
    let _ = write_and_flush(output, line);
}

/// Writes the text of a value to one of the program's outputs. If memory is refused, or the write
/// fails, only this text is lost.
///
/// Not said: the text of a value whose type states no output.
#[tactic(auto, using(crate::proofs::Reported::none_of, crate::proofs::Reported::shown))]
pub fn write_text<D: Display + Drop, W: Write>(alloc: Global, value: D, output: &mut W)
    ensures { IfSome (D.output value)
        (AppendsPrefix (W.contents output.old) (W.contents output.new)) }
{
    let mut text = Vec::new(alloc);
    if print(value, &mut text).is_ok() {
        write_last(text.as_slice(), output);
    }
}

/// Writes to `errors` why a command line is refused, and returns the status. A failed write changes
/// nothing.
pub fn refuse<E: Write>(why: &[u8], errors: &mut E) -> u8
    ensures { result ≡ 2 }
{
    let _ = write_and_flush(errors, why);
    REFUSED
}

/// Writes the last line after a fault. If the output failed, there is no such line. A failed write
/// of the line changes nothing.
#[tactic(auto, using(crate::proofs::LastLines::nothing))]
pub fn write_fault<W: Write>(fault: StreamFault, output: &mut W)
    ensures { AppendsPrefix (W.contents output.old) (W.contents output.new) (fault_line fault) }
{
    match fault {
        StreamFault::Read => write_last(b"fault read\n", output),
        StreamFault::Write => {}
        StreamFault::Memory => write_last(b"fault memory\n", output),
        StreamFault::Bound => write_last(b"fault bound\n", output),
    }
}

/// Writes a text, and returns the status: 0 if the text was written, and `fault` otherwise.
pub fn write_done<W: Write>(text: &[u8], fault: u8, output: &mut W) -> u8
    ensures { EndsBy fault result
        (Appends (W.contents output.old) (W.contents output.new) text.now)
        (AppendsPrefix (W.contents output.old) (W.contents output.new) text.now) }
{
    match write_and_flush(output, text) {
        Ok(()) => DONE,
        Err(_) => fault,
    }
}
