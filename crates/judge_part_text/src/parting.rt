//! Finding the part of a history, and writing its text.

ghost use Rattle.std.specs.Prelude.{◌≡◌, not, IfOk, IfErr};
ghost use Rattle.std.specs.List.{position};
ghost use Rattle.judge_reservations.specs.Largest.{HasNoScope};
ghost use Rattle.judge_reservations.specs.Lines as spec;
ghost use Rattle.judge_part_text.specs.Naming as naming;
ghost use Rattle.judge_part_text.specs.Parting.{IsFirstWithout};
ghost use Rattle.judge_part_text.specs.Parting.{IsTextOfCalls, IsTextFor, HasParted};
ghost use Rattle.judge_part_text.specs.Parting.{HasStoppedParting};

use crate::printing::print_calls;
use crate::reading::{Reading, read_history};
use judge_calls::{Verdict, read_all};
use judge_object::Line;
use judge_reservations::{Names, Scope, has_part, part_of_history, scope_of};
use std::alloc::{AllocError, Global};
use std::io::{Read, Write};
use vac_lines::{StreamFault, print, write_and_flush};
use vac_model::ValidTask;

/// Returns the position of the first line whose call has no part on a scope.
fn first_without(scope: &Scope, lines: &[Line<ValidTask>]) -> Option<usize>
    ensures { result
        ≡ position (λ line. not (spec.has_part scope.now (spec.call_of line))) lines.now }
{
    lines.iter().position(|line| !has_part(scope, line))
}

/// Returns the number of the first line whose call has no part on any scope of some names.
fn line_without(alloc: Global, names: &Names, lines: &[Line<ValidTask>]) -> Result<u64, AllocError>
    requires { HasNoScope names.now.customers.items names.now.items.items
        (spec.calls_of lines.now) }
    ensures { IfOk result (IsFirstWithout names.now.customers.items names.now.items.items
        (spec.calls_of lines.now)) }
{
    let scope = Scope::open(alloc, names)?;
    match first_without(&scope, lines) {
        Some(place) => Ok(place as u64 + 1),
        None => unreachable!(),
    }
}

/// Returns the text for the calls of a history, and whether it is the text of their part.
fn text_of_calls(
    alloc: Global,
    names: &Names,
    lines: &[Line<ValidTask>],
) -> Result<(bool, Vec<u8>), AllocError>
    ensures { IfOk result (λ found. IsTextOfCalls names.now.customers.items names.now.items.items
        (spec.calls_of lines.now) found.0 found.1.items) }
{
    let mut text = Vec::new(alloc);
    let (customers, items) = (names.customers.as_slice(), names.items.as_slice());
    let found = scope_of(alloc, customers, items, lines)?;
    match found {
        Some(scope) => {
            let part = part_of_history(alloc, &scope, lines)?;
            print_calls(part.as_slice(), &mut text)?;
            Ok((true, text))
        }
        None => {
            let line = line_without(alloc, names, lines)?;
            print(format_args!("fault no-part {line}\n"), &mut text)?;
            Ok((false, text))
        }
    }
}

/// Returns the text for a history, and whether it is the text of its part.
fn find_text(alloc: Global, names: &Names, bytes: &[u8]) -> Result<(bool, Vec<u8>), AllocError>
    ensures { IfOk result (λ found. IsTextFor names.now.customers.items names.now.items.items
        bytes.now found.0 found.1.items) }
{
    let reading = read_history(alloc, bytes)?;
    match reading {
        Reading::Whole(lines) => text_of_calls(alloc, names, lines.as_slice()),
        Reading::Damaged(line, fault) => {
            let mut text = Vec::new(alloc);
            print(Verdict::Fault { line, fault }, &mut text)?;
            Ok((false, text))
        }
    }
}

/// Reads a history to the end of the input, and writes its part on the scope of some customers and
/// items: one line for each call that has a part, in the order of the history, with the client and
/// the times of the call. If a line is no call, writes the fault of the first such line. If some
/// call has no part, writes the first such call. Returns whether the part was written.
///
/// After a fault of the output a prefix of the text was written, after any other fault nothing.
pub fn write_part<R: Read, W: Write>(
    alloc: Global,
    names: &Names,
    input: &mut R,
    output: &mut W,
) -> Result<bool, StreamFault>
    ensures ok { IfOk result (λ is_part. HasParted (naming.shown names.now) is_part
        (R.remaining input.old) (R.remaining input.new)
        (W.contents output.old) (W.contents output.new)) }
    ensures err { IfErr result (λ fault. HasStoppedParting (naming.shown names.now) fault
        (R.remaining input.old) (R.remaining input.new)
        (W.contents output.old) (W.contents output.new)) }
{
    let bytes = read_all(alloc, input)?;
    let (is_part, text) = find_text(alloc, names, bytes.as_slice())?;
    write_and_flush(output, text.as_slice())?;
    Ok(is_part)
}
