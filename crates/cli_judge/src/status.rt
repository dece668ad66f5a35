//! The statuses of the judge, and its last line after a fault.

ghost use Rattle.std.specs.Prelude.{◌≡◌};
ghost use Rattle.vac_lines.specs.Writing.{AppendsPrefix};
ghost use Rattle.cli_common.specs.Ending.{fault_line};
ghost use Rattle.cli_judge.specs.Ending.{EndsJudged, EndsWith, unopened_line};

use cli_common::{DONE, write_fault, write_last};
use std::io::Write;
use vac_lines::{StreamFault, write_and_flush};

/// Status of a negative verdict.
pub(crate) const NO: u8 = 1;

/// Status of a search that did not decide within its steps.
pub(crate) const UNDECIDED: u8 = 3;

/// Status of a judge that a fault of a stream or of memory stopped.
pub(crate) const FAULT: u8 = 4;

/// Writes the last line of a judge that met a fault, and returns the status. If the output failed,
/// there is no such line. A failed write of the line changes nothing.
pub(crate) fn end_by<W: Write>(fault: StreamFault, output: &mut W) -> u8
    ensures status { result ≡ FAULT }
    ensures line { AppendsPrefix (W.contents output.old) (W.contents output.new)
        (fault_line fault) }
{
    write_fault(fault, output);
    FAULT
}

/// Writes the last line after a fault, and returns the status: 0 if the verdict is positive.
pub(crate) fn end_judged<W: Write>(judged: Result<bool, StreamFault>, output: &mut W) -> u8
    ensures { EndsJudged judged result (W.contents output.old) (W.contents output.new) }
{
    match judged {
        Ok(true) => DONE,
        Ok(false) => NO,
        Err(fault) => end_by(fault, output),
    }
}

/// Writes the last line of a judge that could not open a file, and returns the status.
pub(crate) fn end_unopened<W: Write>(output: &mut W) -> u8
    ensures status { result ≡ FAULT }
    ensures line { AppendsPrefix (W.contents output.old) (W.contents output.new)
        unopened_line }
{
    write_last(b"fault open\n", output);
    FAULT
}

/// Writes a text, and returns this status, or that of a fault if the output failed.
pub(crate) fn end_with<W: Write>(status: u8, text: &[u8], output: &mut W) -> u8
    ensures { EndsWith status text.now result (W.contents output.old) (W.contents output.new) }
{
    match write_and_flush(output, text) {
        Ok(()) => status,
        Err(_) => FAULT,
    }
}
