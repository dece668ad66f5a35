//! The statuses of the program, and its last line after a fault.

ghost use Rattle.std.specs.Prelude.{◌≡◌, ◌≤◌, ◌↔◌};
ghost use Rattle.vac_lines.specs.Writing.{AppendsPrefix};
ghost use Rattle.cli_common.specs.Ending.{fault_line};
ghost use Rattle.cli_main.specs.Ending.{long_attempt_line, load_fault_line};
ghost use Rattle.cli_main.specs.Ending.{EndsDone, EndsChecked};

use cli_common::{DONE, REFUSED, write_fault, write_last, write_text};
use load_run::LoadFault;
use load_tasks::{BLOCKS_OF_ITEM, Settings};
use std::alloc::Global;
use std::io::Write;
use vac_lines::StreamFault;

/// Status of a program that met a fault, or whose audit found a flaw.
pub(crate) const FAULT: u8 = 1;

/// Writes this line as the last line of a program that met a fault, and returns the status.
fn end_with<W: Write>(line: &[u8], output: &mut W) -> u8
    ensures status { result ≡ 1 }
    ensures line { AppendsPrefix (W.contents output.old) (W.contents output.new) line.now }
{
    write_last(line, output);
    FAULT
}

/// Writes the last line of a program that met a fault, and returns the status. If the output
/// failed, there is no such line. A failed write of the line changes nothing.
pub(crate) fn end_by<W: Write>(fault: StreamFault, output: &mut W) -> u8
    ensures status { result ≡ 1 }
    ensures line { AppendsPrefix (W.contents output.old) (W.contents output.new)
        (fault_line fault) }
{
    write_fault(fault, output);
    FAULT
}

/// Writes the last line after a fault, and returns the status: 0 if the work was done.
pub(crate) fn end_done<W: Write>(done: Result<(), StreamFault>, output: &mut W) -> u8
    ensures { EndsDone done result (W.contents output.old) (W.contents output.new) }
{
    match done {
        Ok(()) => DONE,
        Err(fault) => end_by(fault, output),
    }
}

/// Writes the last line after a fault, and returns the status: 0 if no flaw was found.
pub(crate) fn end_checked<W: Write>(checked: Result<bool, StreamFault>, output: &mut W) -> u8
    ensures { EndsChecked checked result (W.contents output.old) (W.contents output.new) }
{
    match checked {
        Ok(true) => DONE,
        Ok(false) => FAULT,
        Err(fault) => end_by(fault, output),
    }
}

/// Writes the last line of a load with an attempt that is too long to be written, and returns the
/// status.
pub(crate) fn end_long_attempt<W: Write>(output: &mut W) -> u8
    ensures status { result ≡ 1 }
    ensures line { AppendsPrefix (W.contents output.old) (W.contents output.new)
        long_attempt_line }
{
    end_with(b"fault long-attempt\n", output)
}

/// Writes the last line of a load that met a fault, and returns the status. Settings that do not
/// fit each other count as a refused command line.
pub(crate) fn end_load_by<W: Write>(fault: LoadFault, output: &mut W) -> u8
    ensures low { 1 ≤ result }
    ensures high { result ≤ 2 }
    ensures refused { (result ≡ 2) ↔ (fault ≡ LoadFault.Arguments) }
    ensures line { AppendsPrefix (W.contents output.old) (W.contents output.new)
        (load_fault_line fault) }
{
    match fault {
        LoadFault::Arguments => {
            write_last(b"fault arguments\n", output);
            REFUSED
        }
        LoadFault::Memory => end_with(b"fault memory\n", output),
        LoadFault::Spawn => end_with(b"fault spawn\n", output),
        LoadFault::Opening(_) => end_with(b"fault opening\n", output),
    }
}

/// Writes to `errors` which settings of a load do not fit each other. Nothing else can be wrong
/// once each setting is in its range. A failed write changes nothing.
fn tell_settings<E: Write>(alloc: Global, settings: &Settings, errors: &mut E) {
    let (items, blocks) = (settings.items, settings.blocks);
    let least = u64::from(BLOCKS_OF_ITEM) * u64::from(items);
    write_text(
        alloc,
        format_args!(
            "error: --items {items} needs --blocks {least} at least, and --blocks is {blocks}\n"
        ),
        errors,
    );
}

/// Writes the last line of a load whose settings do not fit each other, writes to `errors` which of
/// them, and returns the status of a refused command line.
pub(crate) fn end_by_settings<W: Write, E: Write>(
    alloc: Global,
    settings: &Settings,
    output: &mut W,
    errors: &mut E,
) -> u8
    ensures status { result ≡ 2 }
    ensures line { AppendsPrefix (W.contents output.old) (W.contents output.new)
        (load_fault_line LoadFault.Arguments) }
{
    tell_settings(alloc, settings, errors);
    end_load_by(LoadFault::Arguments, output)
}
