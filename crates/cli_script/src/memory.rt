//! Reading the words of a memory, one word a line.

ghost use Rattle.std.specs.Prelude.{MatchBool, MatchOption, IfOk};
ghost use Rattle.cli_script.specs.Reading.{TookWord, RefusedLine, ReadWords, ReadNone};

use std::alloc::{AllocError, Global};
use std::io::Read;
use vac_audit::MOST_HEAP_WORDS;
use vac_lines::{LINE_BYTES, MOST_LINES, Next, Sink, StreamFault, read_lines, read_memory_word};

/// A text that is read as the words of a memory.
#[derive(Drop)]
struct MemoryText {
    /// The words of the lines that were read.
    words: Vec<u64>,
}

/// Reads a line as one more word. Returns false if the line is no word or if a memory has no room
/// for the word.
fn take_line(words: &mut Vec<u64>, line: &[u8]) -> Result<bool, AllocError>
    ensures { IfOk result (λ taken. MatchBool taken
        (TookWord words.old.items words.new.items line.now)
        (RefusedLine words.old.items line.now)) }
{
    let Some(word) = read_memory_word(line) else {
        return Ok(false);
    };
    if words.len() >= MOST_HEAP_WORDS {
        return Ok(false);
    }
    words.push(word)?;
    Ok(true)
}

impl Sink<()> for MemoryText {
    ghost use Rattle.vac_lines.specs.declared.reading.TheConstants.{MOST_LINES};
    ghost use Rattle.cli_script.specs.Reading.{HearsWord};

    ghost room = { λ _. MOST_LINES };

    ghost hears = { λ x _ told answer y _. HearsWord x.words.items told answer y.words.items };

    fn line(&mut self, line: &[u8], _output: &mut ()) -> Result<Next, StreamFault> {
        if take_line(&mut self.words, line)? {
            Ok(Next::GoOn)
        } else {
            Ok(Next::Stop)
        }
    }

    fn long_line(&mut self, _output: &mut ()) -> Result<Next, StreamFault> {
        Ok(Next::Stop)
    }

    fn pause(&mut self, _output: &mut ()) -> Result<Next, StreamFault> {
        Ok(Next::GoOn)
    }
}

/// Reads the words of a memory, as a dump writes them: one word a line, in decimal. Returns `None`
/// if the text has another line or more words than a memory has. The text may then not be read to
/// its end.
pub fn read_memory<R: Read>(alloc: Global, input: &mut R) -> Result<Option<Vec<u64>>, StreamFault>
    ensures { IfOk result (λ found. MatchOption found
        (ReadNone (R.remaining input.old) (R.remaining input.new))
        (λ words. ReadWords (R.remaining input.old) (R.remaining input.new) words.items)) }
{
    let mut text = MemoryText {
        words: Vec::new(alloc),
    };
    match read_lines(alloc, LINE_BYTES, input, &mut text, &mut ())? {
        Next::GoOn => Ok(Some(text.words)),
        Next::Stop => Ok(None),
    }
}
