//! The audit of words that are read as text.

ghost use Rattle.std.specs.Prelude.{◌≡◌, Some, OnErr, IfOk};
ghost use Rattle.cli_script.specs.Check.{check_text, is_sound};
ghost use Rattle.cli_script.specs.Check.{Judged, IsVerdict, Checked, CheckStopped};

use crate::memory::read_memory;
use std::alloc::Global;
use std::fmt;
use std::fmt::{Display, Formatter};
use std::io::{Read, Write};
use vac_audit::{AuditFault, Flaw, audit_words};
use vac_lines::{StreamFault, print, write_and_flush};
use vac_model::Report;

/// The verdict on a text of words.
#[derive(Clone, Copy)]
enum Verdict {
    /// The words represent a balanced state with this report.
    Sound(Report),
    /// The words have this flaw.
    Flawed(Flaw),
    /// The text is not that of a memory's words, or their number is not that of a memory.
    BadWords,
}

impl Display for Verdict {
    ghost output = { λ verdict. Some (check_text verdict) };

    fn fmt<W: fmt::Write>(&self, f: &mut Formatter<W>) -> fmt::Result {
        match self {
            Verdict::Sound(report) => write!(f, "{report}"),
            Verdict::Flawed(Flaw::Pointer(word)) => write!(f, "flaw pointer {word}"),
            Verdict::Flawed(Flaw::Shared(word)) => write!(f, "flaw shared {word}"),
            Verdict::Flawed(Flaw::Lost(word)) => write!(f, "flaw lost {word}"),
            Verdict::Flawed(Flaw::Order(word)) => write!(f, "flaw order {word}"),
            Verdict::Flawed(Flaw::Colour(word)) => write!(f, "flaw colour {word}"),
            Verdict::Flawed(Flaw::Counts(word)) => write!(f, "flaw counts {word}"),
            Verdict::Flawed(Flaw::Bookings(word)) => write!(f, "flaw bookings {word}"),
            Verdict::BadWords => write!(f, "fault bad-words"),
        }
    }
}

/// Returns whether a verdict is that of a balanced state.
fn is_sound(verdict: Verdict) -> bool
    ensures { result ≡ is_sound verdict }
{
    matches!(verdict, Verdict::Sound(_))
}

/// Audits words.
fn judge(alloc: Global, words: &[u64]) -> Result<Verdict, StreamFault>
    ensures { IfOk result (λ verdict. Judged words.now verdict) }
{
    match audit_words(alloc, words) {
        Ok(report) => Ok(Verdict::Sound(report)),
        Err(AuditFault::Flaw(flaw)) => Ok(Verdict::Flawed(flaw)),
        Err(AuditFault::Size) => Ok(Verdict::BadWords),
        Err(AuditFault::Memory) => Err(StreamFault::Memory),
    }
}

/// Reads words and audits them.
#[tactic(auto, using(crate::proofs::Checking::no_words, crate::proofs::Checking::verdict_of))]
fn read_verdict<R: Read>(alloc: Global, input: &mut R) -> Result<Verdict, StreamFault>
    ensures { IfOk result (λ verdict.
        IsVerdict (R.remaining input.old) (R.remaining input.new) verdict) }
{
    match read_memory(alloc, input)? {
        None => Ok(Verdict::BadWords),
        Some(words) => judge(alloc, words.as_slice()),
    }
}

/// Audits the words of a memory, as `dump_script` writes them. Reads the lines to the end of the
/// input, or to the first line that shows that no memory has these words, and writes one line.
///
/// Returns true and writes the report if the words represent a balanced state. Otherwise returns
/// false and writes either `flaw NAME WORD`, the first flaw and the word at which it was met, or
/// `fault bad-words` if the lines are not the words of 1 to 262,144 blocks.
///
/// After a fault, the output has nothing or a prefix of the line.
pub fn check_words<R: Read, W: Write>(
    alloc: Global,
    input: &mut R,
    output: &mut W,
) -> Result<bool, StreamFault>
    ensures ok { IfOk result (λ sound. Checked sound
        (R.remaining input.old) (R.remaining input.new)
        (W.contents output.old) (W.contents output.new)) }
    ensures err { OnErr result (CheckStopped (R.remaining input.old) (R.remaining input.new)
        (W.contents output.old) (W.contents output.new)) }
{
    let verdict = read_verdict(alloc, input)?;
    let mut line = Vec::new(alloc);
    print(format_args!("{verdict}\n"), &mut line)?;
    write_and_flush(output, line.as_slice())?;
    Ok(is_sound(verdict))
}
