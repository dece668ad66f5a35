//! Opening the files that a command line names.

ghost use Rattle.std.specs.Prelude.{◌≡◌, IfOk, IfErr, OnOk, IsSome, ℕ, List, Option, None, option_map};
ghost use Rattle.cli_judge.specs.Judging.{NotOpened};

use crate::status::{end_by, end_unopened};
use std::fs::File;
use std::io;
use std::io::{ErrorKind, Read, Write};
use vac_lines::StreamFault;

/// A way to open files for reading.
pub trait Open {
    /// An opened file.
    type File: Read + Drop;

    /// The bytes of the file of this name, if they are known.
    ghost holds: { Self → List ℕ → Option (List ℕ) } = { λ _ _. None };

    /// Opens the file of this name.
    ///
    /// Not said: which files can be opened.
    fn open(&self, name: &str) -> io::Result<Self::File>
        ensures { IfOk result (λ file. Self.File.remaining file ≡ holds self.now name.now) };
}

impl Open for HostRuntime {
    type File = File;

    fn open(&self, name: &str) -> io::Result<File> {
        File::open(self, name)
    }
}

/// Writes the last line after an error in opening a file, and returns the status.
fn end_unopened_by<W: Write>(error: &io::Error, output: &mut W) -> u8
    ensures { NotOpened result (W.contents output.old) (W.contents output.new) }
{
    if error.kind() == ErrorKind::OutOfMemory {
        end_by(StreamFault::Memory, output)
    } else {
        end_unopened(output)
    }
}

/// Opens the file of this name, if there is a name. If the file was not opened, the error is the
/// status.
pub(crate) fn open_file<F: Open, W: Write>(
    files: &F,
    name: Option<&str>,
    output: &mut W,
) -> Result<Option<F::File>, u8>
    ensures opened { IfOk result (λ file. option_map F.File.remaining file
        ≡ option_map (λ n. F.holds files.now n.now) name.entry) }
    ensures unwritten { OnOk result (W.contents output.new ≡ W.contents output.old) }
    ensures named { IfErr result (λ _. IsSome name.entry) }
    ensures refused { IfErr result (λ status.
        NotOpened status (W.contents output.old) (W.contents output.new)) }
{
    let Some(name) = name else {
        return Ok(None);
    };
    match files.open(name) {
        Ok(file) => Ok(Some(file)),
        Err(error) => Err(end_unopened_by(&error, output)),
    }
}
