//! Writing the part of a history as it stood at the end of a call.

ghost use Rattle.std.specs.Prelude.{◌≡◌, ◌<◌, not, is_some, IfOk, IfErr, IfSome, MatchOption};
ghost use Rattle.std.specs.List.{position};
ghost use Rattle.judge_object.specs.declared.span.TheConstants.{NEVER};
ghost use Rattle.judge_object.specs.Cut.{cut_call};
ghost use Rattle.judge_reservations.specs.Largest.{HasNoScope};
ghost use Rattle.judge_reservations.specs.Lines as spec;
ghost use Rattle.judge_part_text.specs.Naming as naming;
ghost use Rattle.judge_part_text.specs.Parting.{IsPartOfCalls};
ghost use Rattle.judge_part_text.specs.Until.{end_at, had_part, IsTextThen};
ghost use Rattle.judge_part_text.specs.Until.{IsTextUntil, IsCutTextFor};
ghost use Rattle.judge_part_text.specs.Until.{HasPartedUntil, HasStoppedPartingUntil};

use crate::printing::print_calls;
use crate::reading::{Reading, read_history};
use judge_calls::{Verdict, read_all};
use judge_object::{Line, NEVER, cut_lines};
use judge_reservations::{Names, Scope, has_part, part_of_history, scope_of};
use std::alloc::{AllocError, Global};
use std::io::{Read, Write};
use vac_lines::{StreamFault, print, write_and_flush};
use vac_model::ValidTask;

/// Returns END of the call of the line with this number, counted from 1, if there is such a line
/// and its call is completed.
fn end_at(lines: &[Line<ValidTask>], line: u64) -> Option<u64>
    ensures end { result ≡ end_at (spec.calls_of lines.now) line }
    ensures early { IfSome result (λ moment. moment < NEVER) }
{
    if line < 1 {
        return None;
    }
    let line = lines.get((line - 1) as usize)?;
    if line.end < NEVER {
        return Some(line.end as u64);
    }
    None
}

/// Returns whether the call of a line had begun by a moment.
fn had_begun(moment: u64, line: &Line<ValidTask>) -> bool
    ensures { result ≡ is_some (cut_call moment (spec.call_of line.now)) }
{
    line.end <= u128::from(moment) || line.begin <= moment
}

/// Returns whether the call of a line, as it stood at a moment, has a part and is timed, or had not
/// begun then. A running call keeps its reply if it is known, so that the part of a running call is
/// the part of the call, but for its end.
fn had_part(scope: &Scope, moment: u64, line: &Line<ValidTask>) -> bool
    ensures { result ≡ had_part scope.now moment (spec.call_of line.now) }
{
    if had_begun(moment, line) {
        return has_part(scope, line);
    }
    true
}

/// Returns the position of the first line whose call, as it stood at a moment, had no part on a
/// scope.
fn first_without(scope: &Scope, moment: u64, lines: &[Line<ValidTask>]) -> Option<usize>
    ensures { result ≡ position
        (λ line. not (had_part scope.now moment (spec.call_of line))) lines.now }
{
    lines.iter().position(|line| !had_part(scope, moment, line))
}

/// Returns the text of the part of the calls of these lines on a scope of some names, or `None` if
/// no scope of these names has parts of all calls.
fn text_of_part(
    alloc: Global,
    names: &Names,
    lines: &[Line<ValidTask>],
) -> Result<Option<Vec<u8>>, AllocError>
    ensures { IfOk result (λ found. MatchOption found
        (HasNoScope names.now.customers.items names.now.items.items (spec.calls_of lines.now))
        (λ text. IsPartOfCalls names.now.customers.items names.now.items.items
        (spec.calls_of lines.now) text.items)) }
{
    let (customers, items) = (names.customers.as_slice(), names.items.as_slice());
    let Some(scope) = scope_of(alloc, customers, items, lines)? else {
        return Ok(None);
    };
    let part = part_of_history(alloc, &scope, lines)?;
    let mut text = Vec::new(alloc);
    print_calls(part.as_slice(), &mut text)?;
    Ok(Some(text))
}

/// Returns the text for the calls of these lines as they stood at a moment, and whether it is the
/// text of their part.
fn text_then(
    alloc: Global,
    names: &Names,
    moment: u64,
    lines: Vec<Line<ValidTask>>,
) -> Result<(bool, Vec<u8>), AllocError>
    ensures { IfOk result (λ found. IsTextThen names.now.customers.items names.now.items.items
        moment (spec.calls_of lines.items) found.0 found.1.items) }
{
    let scope = Scope::open(alloc, names)?;
    let first = first_without(&scope, moment, lines.as_slice());
    let cut = cut_lines(alloc, moment, lines)?;
    if let Some(text) = text_of_part(alloc, names, cut.as_slice())? {
        return Ok((true, text));
    }
    let mut text = Vec::new(alloc);
    match first {
        Some(place) => {
            let line = place as u64 + 1;
            print(format_args!("fault no-part {line}\n"), &mut text)?;
        }
        None => unreachable!(),
    }
    Ok((false, text))
}

/// Returns the text for the calls of these lines, cut at the end of the call of a line, and whether
/// it is the text of a part.
fn text_until(
    alloc: Global,
    names: &Names,
    line: u64,
    lines: Vec<Line<ValidTask>>,
) -> Result<(bool, Vec<u8>), AllocError>
    ensures { IfOk result (λ found. IsTextUntil names.now.customers.items names.now.items.items
        (spec.calls_of lines.items) line found.0 found.1.items) }
{
    match end_at(lines.as_slice(), line) {
        Some(moment) => text_then(alloc, names, moment, lines),
        None => {
            let mut text = Vec::new(alloc);
            print(format_args!("fault no-end {line}\n"), &mut text)?;
            Ok((false, text))
        }
    }
}

/// Returns the text for a history, cut at the end of the call of a line, and whether it is the text
/// of a part.
fn find_text(
    alloc: Global,
    names: &Names,
    line: u64,
    bytes: &[u8],
) -> Result<(bool, Vec<u8>), AllocError>
    ensures { IfOk result (λ found. IsCutTextFor names.now.customers.items names.now.items.items
        line bytes.now found.0 found.1.items) }
{
    match read_history(alloc, bytes)? {
        Reading::Whole(lines) => text_until(alloc, names, line, lines),
        Reading::Damaged(line, fault) => {
            let mut text = Vec::new(alloc);
            print(Verdict::Fault { line, fault }, &mut text)?;
            Ok((false, text))
        }
    }
}

/// Reads a history to the end of the input, and writes the part of its cut at the end of the call
/// of a line, on the scope of some customers and items: one line for each call that had begun by
/// then and has a part, in the order of the history, with the client and the times of the call. A
/// call that was running then is written as a pending call: as an undetermined one if its reply is
/// known. Lines are counted from 1. If a line is no call, writes the fault of the first such line;
/// if the given line has no completed call, this fault; and if some call, as it stood then, has no
/// part, the first such call. Returns whether the part was written.
///
/// After a fault of the output a prefix of the text was written, after any other fault nothing.
pub fn write_part_until<R: Read, W: Write>(
    alloc: Global,
    names: &Names,
    line: u64,
    input: &mut R,
    output: &mut W,
) -> Result<bool, StreamFault>
    ensures ok { IfOk result (λ is_part. HasPartedUntil (naming.shown names.now) line is_part
        (R.remaining input.old) (R.remaining input.new)
        (W.contents output.old) (W.contents output.new)) }
    ensures err { IfErr result (λ fault. HasStoppedPartingUntil (naming.shown names.now) line fault
        (R.remaining input.old) (R.remaining input.new)
        (W.contents output.old) (W.contents output.new)) }
{
    let bytes = read_all(alloc, input)?;
    let (is_part, text) = find_text(alloc, names, line, bytes.as_slice())?;
    write_and_flush(output, text.as_slice())?;
    Ok(is_part)
}
