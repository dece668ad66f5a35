//! The text that a program shows instead of its work: its help, its version, or the refusal of a
//! command line.

ghost use Rattle.std.specs.Prelude.{◌≡◌, ◌⊎◌, ℕ, List};
ghost use Rattle.std.specs.Io.KnownBytes.{Appends};
ghost use Rattle.clap.specs.Words.{kind_of};
ghost use Rattle.cli_common.specs.Showing.{ShowsError};

use crate::ending::{REFUSED, write_done, write_fault};
use clap::Error;
use clap::error::ErrorKind;
use std::alloc::Global;
use std::io::Write;
use vac_lines::StreamFault;

/// Shows the help, this text of the version, or the reason why the command line was refused, and
/// returns the status. `fault` is the status of a fault.
pub fn show<W: Write, E: Write>(
    alloc: Global,
    error: &Error,
    version: &[u8],
    fault: u8,
    output: &mut W,
    errors: &mut E,
) -> u8
    ensures { ShowsError version.now fault (kind_of error.now) result
        (W.contents output.old) (W.contents output.new) }
{
    match error.kind() {
        ErrorKind::OutOfMemory => {
            write_fault(StreamFault::Memory, output);
            fault
        }
        ErrorKind::DisplayHelp => show_help(alloc, error, fault, output),
        ErrorKind::DisplayVersion => write_done(version, fault, output),
        _ => {
            let _ = write!(errors, "{error}");
            REFUSED
        }
    }
}

/// Writes the help, and returns the status.
fn show_help<W: Write>(alloc: Global, help: &Error, fault: u8, output: &mut W) -> u8
    ensures status { (result ≡ 0) ⊎ (result ≡ fault) }
    ensures text { (text : List ℕ) × Appends (W.contents output.old) (W.contents output.new) text }
{
    let Ok(text) = format!(in alloc; "{help}") else {
        write_fault(StreamFault::Memory, output);
        return fault;
    };
    write_done(text.as_bytes(), fault, output)
}
