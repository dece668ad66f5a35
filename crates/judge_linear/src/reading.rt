//! Reading a history of which only each client's own order is known.

ghost use Rattle.std.specs.Prelude.{◌≡◌, ◌≢◌, Some, IfOk, IfErr};
ghost use Rattle.judge_calls.specs.declared.verdict.Verdict.TheVariants.{Fault};
ghost use Rattle.vac_lines.specs.declared.next.Next.TheVariants.{Stop};
ghost use Rattle.vac_lines.specs.Told.{Line};
ghost use Rattle.vac_lines.specs.declared.stream_fault.StreamFault.TheVariants.{Write};
ghost use Rattle.judge_linear.specs.Reading.{WasReadAs, HistoryHearsLine, next_line};

use crate::history::History;
use judge_calls::{CALL_BYTES, CallFault, CallViolation, Verdict, read_call};
use std::alloc::Global;
use std::io::Read;
use vac_lines::{LineFault, MOST_LINES, Next, Sink, StreamFault, read_lines};

/// A text that is being read as a history: the calls so far, and the verdict on the line after
/// them if that line is wrong.
#[derive(Drop)]
pub(crate) struct HistoryText {
    alloc: Global,
    pub(crate) history: History,
    pub(crate) wrong: Option<Verdict>,
}

/// The result of reading a text.
#[derive(Drop)]
pub(crate) enum Reading {
    /// All lines are calls, and the calls of each client are in turn.
    Whole(History),
    /// The verdict on the first line that is no call or not in turn.
    Wrong(Verdict),
}

impl HistoryText {
    /// Returns the number of the next line.
    fn number(&self) -> u64
        ensures { result ≡ next_line self.now }
    {
        self.history.lines.len() as u64 + 1
    }

    /// Stops at the next line, which has this fault.
    fn stop_at(&mut self, fault: CallFault) -> Next
        ensures stops { result ≡ Stop }
        ensures wrong { self.new.wrong ≡ Some (Fault (next_line self.old) fault) }
    {
        self.wrong = Some(Verdict::Fault {
            line: self.number(),
            fault,
        });
        Next::Stop
    }

    /// Takes a line as one more call, or stops at the line if it is wrong.
    fn take_line(&mut self, line: &[u8]) -> Result<Next, StreamFault>
        ensures { HistoryHearsLine self.old (Line line.now) result self.new }
    {
        let call = match read_call(self.alloc, line) {
            Ok(call) => call,
            Err(CallFault::Line(LineFault::Memory)) => return Err(StreamFault::Memory),
            Err(fault) => return Ok(self.stop_at(fault)),
        };
        let number = self.number();
        if self.history.take(self.alloc, line, call)? {
            return Ok(Next::GoOn);
        }
        self.wrong = Some(Verdict::Illegal {
            line: number,
            wrong: CallViolation::Client,
        });
        Ok(Next::Stop)
    }
}

impl Sink<()> for HistoryText {
    ghost use Rattle.vac_lines.specs.declared.reading.TheConstants.{MOST_LINES};

    ghost room = { λ _. MOST_LINES };

    ghost hears = { λ x _ told answer y _. HistoryHearsLine x told answer y };

    fn line(&mut self, line: &[u8], _output: &mut ()) -> Result<Next, StreamFault> {
        self.take_line(line)
    }

    fn long_line(&mut self, _output: &mut ()) -> Result<Next, StreamFault> {
        Ok(self.stop_at(CallFault::Line(LineFault::LongLine)))
    }

    fn pause(&mut self, _output: &mut ()) -> Result<Next, StreamFault> {
        Ok(Next::GoOn)
    }
}

/// Reads a history to the end of the input, or to the first line that is no call or not in turn.
pub(crate) fn read_history<R: Read>(alloc: Global, input: &mut R) -> Result<Reading, StreamFault>
    ensures read { IfOk result (λ reading.
        WasReadAs (R.remaining input.old) (R.remaining input.new) reading) }
    ensures refused { IfErr result (λ fault. fault ≢ Write) }
{
    let mut text = HistoryText {
        alloc,
        history: History::new(alloc),
        wrong: None,
    };
    match read_lines(alloc, CALL_BYTES, input, &mut text, &mut ())? {
        Next::GoOn => Ok(Reading::Whole(text.history)),
        Next::Stop => match text.wrong {
            Some(verdict) => Ok(Reading::Wrong(verdict)),
            None => unreachable!(),
        },
    }
}
