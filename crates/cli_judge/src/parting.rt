//! Writing the part of a history or of its cut, and the resulting statuses.

ghost use Rattle.std.specs.Prelude.{◌≡◌};
ghost use Rattle.judge_part_text.specs.Naming.{shown};
ghost use Rattle.cli_judge.specs.Parting.{WritesPart, WritesPartOf};

use crate::status::{end_by, end_judged};
use cli_common::refuse;
use judge_options::PartWords;
use judge_part_text::{read_names, write_part, write_part_until};
use judge_reservations::Names;
use std::alloc::Global;
use std::io::{Read, Write};
use vac_lines::StreamFault;

/// The refusal of a command line whose words name no scope.
const UNKNOWN_SCOPE: &[u8] = b"error: part needs --customer N or --item KIND ID, \
each at most 64 times; N and ID are from 1 to 4294967295, KIND is car, flight or room\n";

/// Writes the part of a history on the scope of these customers and items, or the part of its cut
/// at the end of the call of a line, and returns the status: 0 if the part was written.
fn part_on<R: Read, W: Write>(
    alloc: Global,
    names: &Names,
    until: Option<u64>,
    input: &mut R,
    output: &mut W,
) -> u8
    ensures { WritesPart (shown names.now) until result
        (R.remaining input.old) (R.remaining input.new)
        (W.contents output.old) (W.contents output.new) }
{
    match until {
        Some(line) => end_judged(write_part_until(alloc, names, line, input, output), output),
        None => end_judged(write_part(alloc, names, input, output), output),
    }
}

/// Writes the part of a history on the scope that words name, or the part of its cut if they give a
/// line, and returns the status: 0 if the part was written.
pub(crate) fn part<R: Read, W: Write, E: Write>(
    alloc: Global,
    words: &PartWords<'_>,
    input: &mut R,
    output: &mut W,
    errors: &mut E,
) -> u8
    ensures { WritesPartOf words.now result (R.remaining input.old) (R.remaining input.new)
        (W.contents output.old) (W.contents output.new) }
{
    match read_names(alloc, words.customers.as_slice(), words.items.as_slice()) {
        Ok(Some(names)) => part_on(alloc, &names, words.until, input, output),
        Ok(None) => refuse(UNKNOWN_SCOPE, errors),
        Err(_) => end_by(StreamFault::Memory, output),
    }
}
