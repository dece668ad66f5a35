//! Reading the attempts of a text, which are kept until they have their places.

ghost use Rattle.std.specs.Prelude.{◌≡◌, ◌∷◌, ◌<◌, [], MatchOption, MatchResult, IfOk, Ok, Err, length};
ghost use Rattle.vac_lines.specs.Lines.{lines_of};
ghost use Rattle.judge_opacity.specs.Attempt.{line_attempt};
ghost use Rattle.judge_opacity.specs.Parts.{AllAmong};
ghost use Rattle.judge_opacity.specs.Logs.{logged_attempt, IsLogOf};

use crate::attempt::{ATTEMPT_BYTES, read_attempt};
use crate::logged::{Logged, has_write};
use std::alloc::{AllocError, Global};
use vac_lines::{LineFault, cut_at};

/// The attempts of a text in the order of its lines, or its first line that is no attempt.
#[derive(Drop)]
pub(crate) enum Log {
    /// Each line is an attempt.
    Attempts(Vec<Logged>),
    /// The line is no attempt.
    Fault { line: u64, fault: LineFault },
}

/// Reads a line, given without its end, as an attempt at one of `words` words, or returns the
/// first fault of the line.
fn read_logged(
    alloc: Global,
    words: u32,
    line: &[u8],
) -> Result<Result<Logged, LineFault>, AllocError>
    ensures read { IfOk result (λ read. MatchResult read
        (λ logged. line_attempt words line.now ≡ Ok (logged_attempt logged))
        (λ fault. line_attempt words line.now ≡ Err fault)) }
    ensures among { IfOk result (λ read. IfOk read (λ logged.
        AllAmong words logged.accesses.items)) }
{
    if line.len() > ATTEMPT_BYTES {
        return Ok(Err(LineFault::LongLine));
    }
    let mut accesses = Vec::new(alloc);
    match read_attempt(words, line, &mut accesses)? {
        Ok(head) => {
            let writer = head.commits && has_write(accesses.as_slice());
            Ok(Ok(Logged {
                head,
                accesses,
                writer,
            }))
        }
        Err(fault) => Ok(Err(fault)),
    }
}

/// Returns the first line of a text, without its end, and the text after the line. Returns `None`
/// if there is no line.
fn next_line(text: &[u8]) -> Option<(&[u8], &[u8])>
    ensures lines { MatchOption result (lines_of text.now ≡ [])
        (λ cut. lines_of text.now ≡ cut.0.now ∷ lines_of cut.1.now) }
    ensures less { MatchOption result (length text.now ≡ 0)
        (λ cut. length cut.1.now < length text.now) }
{
    if text.is_empty() {
        return None;
    }
    if let Some((line, behind)) = cut_at(b'\n', text) {
        return Some((line, behind));
    }
    Some((text, &[]))
}

/// Reads the lines of a text as attempts at `words` words.
pub(crate) fn read_log(alloc: Global, words: u32, text: &[u8]) -> Result<Log, AllocError>
    ensures { IfOk result (λ log. IsLogOf words text.now log) }
{
    let mut attempts = Vec::new(alloc);
    let mut rest = text;
    'lines: while let Some((line, behind)) = next_line(rest) {
        let number = attempts.len() as u64 + 1;
        match read_logged(alloc, words, line)? {
            Ok(logged) => attempts.push(logged)?,
            Err(fault) => return Ok(Log::Fault {
                line: number,
                fault,
            }),
        }
        rest = behind;
    }
    Ok(Log::Attempts(attempts))
}
