//! Reading a text of attempts, and writing the verdict on it.

ghost use Rattle.std.specs.Prelude.{◌≢◌, IfOk, IfErr};
ghost use Rattle.vac_lines.specs.declared.stream_fault.StreamFault.TheVariants.{Write};
ghost use Rattle.judge_opacity.specs.Reading.{HasFinding, HasJudgedAttempts, HasStoppedOnAttempts};

use crate::attempt::ATTEMPT_BYTES;
use crate::finding::{Finding, is_opaque};
use crate::judge::Judge;
use std::alloc::{AllocError, Global};
use std::io::{Read, Write};
use vac_lines::{Next, Sink, StreamFault, print, read_lines, write_and_flush};

/// A text of attempts that is being read.
#[derive(Drop)]
struct Attempts {
    judge: Judge,
    /// The verdict, if a line has decided it.
    found: Option<Finding>,
}

impl Sink<()> for Attempts {
    ghost use Rattle.vac_lines.specs.declared.reading.TheConstants.{MOST_LINES};
    ghost use Rattle.judge_opacity.specs.Hearing.{AttemptsHear};

    ghost room = { λ _. MOST_LINES };

    ghost hears = { λ x _ told answer y _. AttemptsHear x told answer y };

    fn line(&mut self, line: &[u8], _output: &mut ()) -> Result<Next, StreamFault> {
        match self.judge.judge_line(line)? {
            None => Ok(Next::GoOn),
            Some(finding) => {
                self.found = Some(finding);
                Ok(Next::Stop)
            }
        }
    }

    fn long_line(&mut self, _output: &mut ()) -> Result<Next, StreamFault> {
        let finding = self.judge.long_line()?;
        self.found = Some(finding);
        Ok(Next::Stop)
    }

    fn pause(&mut self, _output: &mut ()) -> Result<Next, StreamFault> {
        Ok(Next::GoOn)
    }
}

/// Judges a text of attempts at `words` words: reads its lines to the end of the input, or to the
/// first wrong line.
fn find_in<R: Read>(alloc: Global, words: u32, input: &mut R) -> Result<Finding, StreamFault>
    ensures found { IfOk result (λ finding.
        HasFinding words (R.remaining input.old) (R.remaining input.new) finding) }
    ensures refused { IfErr result (λ fault. fault ≢ StreamFault.Write) }
{
    let mut attempts = Attempts {
        judge: Judge::new(alloc, words)?,
        found: None,
    };
    match read_lines(alloc, ATTEMPT_BYTES, input, &mut attempts, &mut ())? {
        Next::GoOn => Ok(Finding::Opaque(attempts.judge.counts())),
        Next::Stop => match attempts.found {
            Some(finding) => Ok(finding),
            None => unreachable!(),
        },
    }
}

/// Judges a text of attempts at `words` words: reads its lines to the end of the input, or to the
/// first wrong line, and writes the verdict. Returns whether the attempts are opaque.
///
/// The judge keeps the words, one number for each client, one line, and the reads and writes of
/// that line.
///
/// # Errors
/// After a fault of the output a prefix of the verdict's text was written, after any other fault
/// nothing.
///
/// Not said: how much memory the function takes, and that a line takes no more memory once the
/// buffers have grown.
pub fn judge_attempts<R: Read, W: Write>(
    alloc: Global,
    words: u32,
    input: &mut R,
    output: &mut W,
) -> Result<bool, StreamFault>
    ensures ok { IfOk result (λ opaque. HasJudgedAttempts words opaque
        (R.remaining input.old) (R.remaining input.new)
        (W.contents output.old) (W.contents output.new)) }
    ensures err { IfErr result (λ fault. HasStoppedOnAttempts words fault
        (R.remaining input.old) (R.remaining input.new)
        (W.contents output.old) (W.contents output.new)) }
{
    let finding = find_in(alloc, words, input)?;
    let mut text = Vec::new(alloc);
    print(format_args!("{finding}\n"), &mut text)?;
    write_and_flush(output, text.as_slice())?;
    Ok(is_opaque(&finding))
}
