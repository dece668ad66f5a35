//! The words, and the effect of an attempt on them.

ghost use Rattle.std.specs.Prelude.{◌≡◌, ◌<◌, length, IfOk, OnOk, None, [], slice_set};
ghost use Rattle.judge_opacity.specs.Words.{zeros, words_after, wrong_read};
ghost use Rattle.judge_opacity.specs.Parts.{AllAmong};
ghost use Rattle.judge_opacity.specs.Covered.{image_of, uncovered};

use crate::attempt::Access;
use crate::finding::AttemptViolation;
use std::alloc::{AllocError, Global};

/// Number of words if the command line gives none.
pub const USUAL_WORDS: u32 = 65_536;

/// Largest number of words that the command takes.
pub const MOST_WORDS: u32 = 4_194_304;

/// The value that a word had before a write.
#[derive(Clone, Copy)]
pub(crate) struct Covered {
    word: u32,
    value: u64,
}

/// The words, and the values that the writes of the current attempt have covered, in the order of
/// the writes.
#[derive(Drop)]
pub(crate) struct Memory {
    size: u32,
    words: Vec<u64>,
    covered: Vec<Covered>,
    ghost sized: { length words.items ≡ size },
}

/// Returns the value of a word, 0 if there is no such word.
fn word_of(words: &[u64], word: u32) -> u64
    ensures { result ≡ image_of words.now word }
{
    match words.get(word as usize) {
        Some(value) => *value,
        None => 0,
    }
}

/// Sets the value of a word, if there is such a word.
fn set_word(words: &mut Vec<u64>, word: u32, value: u64)
    ensures { words.new.items ≡ slice_set words.old.items word value }
{
    let place = word as usize;
    if place < words.len() {
        words[place] = value;
    }
}

impl Memory {
    /// Creates `size` words, all 0.
    pub(crate) fn new(alloc: Global, size: u32) -> Result<Memory, AllocError>
        ensures zeros { IfOk result (λ memory. image_of memory.words.items ≡ zeros) }
        ensures size { IfOk result (λ memory. length memory.words.items ≡ size) }
    {
        let count = size as usize;
        let words = vec![in alloc; 0; count]?;
        Ok(Memory {
            size,
            words,
            covered: Vec::new(alloc),
        })
    }

    /// Returns the number of words.
    pub(crate) fn size(&self) -> u32
        ensures { result ≡ length self.now.words.items }
    {
        self.size
    }

    /// Forgets the covered values, so that the writes so far stay.
    pub(crate) fn keep(&mut self)
        ensures words { self.new.words.items ≡ self.old.words.items }
        ensures covered { self.new.covered.items ≡ [] }
    {
        self.covered.clear();
    }

    /// Writes a value to a word, and records the value that it covers.
    fn write(&mut self, word: u32, value: u64) -> Result<(), AllocError>
        ensures words { OnOk result
            (self.new.words.items ≡ slice_set self.old.words.items word value) }
        ensures covered { OnOk result (uncovered self.new.covered.items self.new.words.items
            ≡ uncovered self.old.covered.items self.old.words.items) }
    {
        let covered = word_of(self.words.as_slice(), word);
        self.covered.push(Covered {
            word,
            value: covered,
        })?;
        set_word(&mut self.words, word, value);
        Ok(())
    }

    /// Applies the accesses of an attempt, and returns the first wrong read, if there is one.
    /// Nothing is applied after a wrong read.
    pub(crate) fn run(
        &mut self,
        accesses: &[Access],
    ) -> Result<Option<AttemptViolation>, AllocError>
        requires among { AllAmong (length self.old.words.items) accesses.now }
        ensures found { IfOk result (λ found.
            wrong_read (image_of self.old.words.items) accesses.now ≡ found) }
        ensures words { IfOk result (λ found. found ≡ None → image_of self.new.words.items
            ≡ words_after (image_of self.old.words.items) accesses.now) }
        ensures size { OnOk result
            (length self.new.words.items ≡ length self.old.words.items) }
        ensures covered { OnOk result (uncovered self.new.covered.items self.new.words.items
            ≡ uncovered self.old.covered.items self.old.words.items) }
    {
        let mut rest = accesses;
        while let Some((access, behind)) = rest.split_first() {
            match *access {
                Access::Read { word, value } => {
                    let expected = word_of(self.words.as_slice(), word);
                    if value != expected {
                        return Ok(Some(AttemptViolation::Read { word, expected }));
                    }
                }
                Access::Write { word, value } => self.write(word, value)?,
            }
            rest = behind;
        }
        Ok(None)
    }

    /// Undoes the recorded writes, the latest first.
    pub(crate) fn undo(&mut self)
        ensures { self.new.words.items ≡ uncovered self.old.covered.items self.old.words.items }
    {
        while let Some(covered) = self.covered.pop() {
            set_word(&mut self.words, covered.word, covered.value);
        }
    }
}
