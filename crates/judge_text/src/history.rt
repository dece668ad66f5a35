//! Reading a history.

ghost use Rattle.std.specs.Prelude.{◌≡◌, ◌+◌, ◌++◌, ◌∷◌, MatchOption, IfOk, length};
ghost use Rattle.vac_lines.specs.Lines.{HasNo};
ghost use Rattle.judge_text.specs.Reading.{IsReadingOf};

use crate::fault::CallFault;
use crate::line::read_call;
use crate::worded::TextObject;
use judge_object::Line;
use memchr::memchr;
use std::alloc::{AllocError, Global};

/// The history or the fault as which a text is read.
#[derive(Drop)]
pub enum Reading<O> {
    /// The calls of its lines.
    History(Vec<Line<O>>),
    /// The number of its first line that is no call, from 1 on, and why it is none.
    Fault(u64, CallFault),
}

/// Splits a text behind its first line end, and returns the line without its end and the text
/// behind it. Returns `None` if the text has no line end.
fn cut_line(text: &[u8]) -> Option<(&[u8], &[u8])>
    ensures { MatchOption result (HasNo 10 text.now)
        (λ cut. HasNo 10 cut.0.now × (text.now ≡ cut.0.now ++ 10 ∷ cut.1.now)) }
{
    let end = memchr(b'\n', text)?;
    Some((&text[..end], &text[end + 1..]))
}

/// Reads a text as a history: a line ends at the byte 10, and what follows the last of them is a
/// line if it has a byte.
pub fn read_history<M: TextObject>(alloc: Global, text: &[u8]) -> Result<Reading<M::Op>, AllocError>
    ensures { IfOk result (λ reading. IsReadingOf M.rules M.language text.now reading) }
{
    let mut lines = Vec::new(alloc);
    let mut reader = M::reader(alloc);
    let mut rest = text;
    'lines: while let Some((line, behind)) = cut_line(rest) {
        let number = lines.len() as u64 + 1;
        match read_call::<M>(alloc, &mut reader, number, line)? {
            Ok(call) => lines.push(call)?,
            Err(fault) => return Ok(Reading::Fault(number, fault)),
        }
        rest = behind;
    }
    if rest.is_empty() {
        return Ok(Reading::History(lines));
    }
    let number = lines.len() as u64 + 1;
    match read_call::<M>(alloc, &mut reader, number, rest)? {
        Ok(call) => {
            lines.push(call)?;
            Ok(Reading::History(lines))
        }
        Err(fault) => Ok(Reading::Fault(number, fault)),
    }
}
