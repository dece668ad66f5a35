//! Reading the calls of a history, in whatever order.

ghost use Rattle.std.specs.Prelude.{◌≡◌, ◌∷◌, ◌<◌, [], IfOk, MatchOption, length};
ghost use Rattle.vac_lines.specs.Lines.{lines_of};
ghost use Rattle.judge_part_text.specs.Reading.{IsReadLine, IsReadingOf};

use judge_calls::{CallFault, read_call};
use judge_object::Line;
use std::alloc::{AllocError, Global};
use vac_lines::{LineFault, cut_at};
use vac_model::ValidTask;

/// A text that was read as a history.
#[derive(Drop)]
pub(crate) enum Reading {
    /// The calls of all lines.
    Whole(Vec<Line<ValidTask>>),
    /// The number of the first line that is no call, and the fault of the line.
    Damaged(u64, CallFault),
}

/// Reads the line with this number as a call, or finds its first fault. The line that is returned
/// has no text.
fn read_line(
    alloc: Global,
    number: u64,
    text: &[u8],
) -> Result<Result<Line<ValidTask>, CallFault>, AllocError>
    ensures { IfOk result (λ read. IsReadLine text.now read) }
{
    match read_call(alloc, text) {
        Ok(call) => Ok(Ok(call.into_line(alloc, number, b"")?)),
        Err(CallFault::Line(LineFault::Memory)) => Err(AllocError),
        Err(fault) => Ok(Err(fault)),
    }
}

/// Returns the first line of a text, without its end, and the text after the line. Returns `None`
/// if there is no line.
fn next_line(text: &[u8]) -> Option<(&[u8], &[u8])>
    ensures lines { MatchOption result (lines_of text.now ≡ [])
        (λ cut. lines_of text.now ≡ cut.0.now ∷ lines_of cut.1.now) }
    ensures less { MatchOption result (length text.now ≡ 0)
        (λ cut. length cut.1.now < length text.now) }
{
    if text.is_empty() {
        return None;
    }
    if let Some((line, behind)) = cut_at(b'\n', text) {
        return Some((line, behind));
    }
    Some((text, &[]))
}

/// Reads the calls of a text, or finds its first line that is no call.
pub(crate) fn read_history(alloc: Global, text: &[u8]) -> Result<Reading, AllocError>
    ensures { IfOk result (λ reading. IsReadingOf text.now reading) }
{
    let mut lines = Vec::new(alloc);
    let mut rest = text;
    'lines: while let Some((line, behind)) = next_line(rest) {
        let number = lines.len() as u64 + 1;
        match read_line(alloc, number, line)? {
            Ok(line) => lines.push(line)?,
            Err(fault) => return Ok(Reading::Damaged(number, fault)),
        }
        rest = behind;
    }
    Ok(Reading::Whole(lines))
}
