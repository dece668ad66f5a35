//! Reading a history, and writing the verdict on it.

ghost use Rattle.std.specs.Prelude.{◌≡◌, ◌≢◌, ◌≤◌, IfOk, IfErr};
ghost use Rattle.judge_calls.specs.Verdict.{is_legal};
ghost use Rattle.judge_calls.specs.Reading.{HasVerdict, HasJudged, HasStoppedJudging};

use crate::call::CALL_BYTES;
use crate::judge::Judge;
use crate::verdict::Verdict;
use std::alloc::Global;
use std::io::{Read, Write};
use vac_lines::{Next, Sink, StreamFault, print, read_lines, write_and_flush};
use vac_model::limits::MOST_BLOCKS;

/// A history that is being read.
#[derive(Drop)]
struct History {
    alloc: Global,
    judge: Judge,
    /// The verdict, if a line has decided it.
    found: Option<Verdict>,
}

impl Sink<()> for History {
    ghost use Rattle.vac_lines.specs.declared.reading.TheConstants.{MOST_LINES};
    ghost use Rattle.judge_calls.specs.Hearing.{HearsCall};

    ghost room = { λ _. MOST_LINES };

    ghost hears = { λ x _ told answer y _. HearsCall x told answer y };

    fn line(&mut self, line: &[u8], _output: &mut ()) -> Result<Next, StreamFault> {
        match self.judge.judge_line(self.alloc, line)? {
            None => Ok(Next::GoOn),
            Some(verdict) => {
                self.found = Some(verdict);
                Ok(Next::Stop)
            }
        }
    }

    fn long_line(&mut self, _output: &mut ()) -> Result<Next, StreamFault> {
        let verdict = self.judge.long_line()?;
        self.found = Some(verdict);
        Ok(Next::Stop)
    }

    fn pause(&mut self, _output: &mut ()) -> Result<Next, StreamFault> {
        Ok(Next::GoOn)
    }
}

/// Judges a history: reads its lines to the end of the input, or to the first wrong line.
pub(crate) fn judge_input<R: Read>(
    alloc: Global,
    blocks: u32,
    input: &mut R,
) -> Result<Verdict, StreamFault>
    requires some { 1 ≤ blocks }
    requires most { blocks ≤ MOST_BLOCKS }
    ensures judged { IfOk result (λ verdict.
        HasVerdict blocks (R.remaining input.old) (R.remaining input.new) verdict) }
    ensures refused { IfErr result (λ fault. fault ≢ StreamFault.Write) }
{
    let mut history = History {
        alloc,
        judge: Judge::new(alloc, blocks),
        found: None,
    };
    match read_lines(alloc, CALL_BYTES, input, &mut history, &mut ())? {
        Next::GoOn => Ok(Verdict::Legal(history.judge.summary())),
        Next::Stop => match history.found {
            Some(verdict) => Ok(verdict),
            None => unreachable!(),
        },
    }
}

/// Returns whether the verdict is that the history is legal.
fn is_legal(verdict: &Verdict) -> bool
    ensures { result ≡ is_legal verdict.now }
{
    matches!(verdict, Verdict::Legal(_))
}

/// Judges a history of a system of `blocks` blocks: reads its lines to the end of the input, or to
/// the first wrong line, and writes the verdict. Returns whether the history is legal.
///
/// After a fault of the output a prefix of the verdict's text was written, after any other fault
/// nothing.
pub fn judge_history<R: Read, W: Write>(
    alloc: Global,
    blocks: u32,
    input: &mut R,
    output: &mut W,
) -> Result<bool, StreamFault>
    requires some { 1 ≤ blocks }
    requires most { blocks ≤ MOST_BLOCKS }
    ensures ok { IfOk result (λ legal. HasJudged blocks legal
        (R.remaining input.old) (R.remaining input.new)
        (W.contents output.old) (W.contents output.new)) }
    ensures err { IfErr result (λ fault. HasStoppedJudging blocks fault
        (R.remaining input.old) (R.remaining input.new)
        (W.contents output.old) (W.contents output.new)) }
{
    let verdict = judge_input(alloc, blocks, input)?;
    let mut text = Vec::new(alloc);
    print(verdict, &mut text)?;
    write_and_flush(output, text.as_slice())?;
    Ok(is_legal(&verdict))
}
