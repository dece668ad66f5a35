//! Reading the values that keys have at first.

ghost use Rattle.std.specs.Prelude.{◌≡◌, ◌∷◌, ◌<◌, ℕ, List, Some, None, IfOk, OnOk, is_some, length};
ghost use Rattle.vac_lines.specs.Lines.{lines_of, texts};
ghost use Rattle.judge_text.specs.Many.{changed};
ghost use Rattle.judge_text.specs.Starts.{start_of};
ghost use Rattle.judge_text.specs.Quoting.{unquoted};
ghost use Rattle.judge_kv.specs.Rules.{Held};
ghost use Rattle.judge_kv.specs.Starting as spec;
ghost use Rattle.judge_kv.specs.Starting.{First, BeginWith, IsFirstRead, AreFirstValues};

use crate::cell::Cell;
use crate::words::is_name;
use judge_text::{Starts, read_quoted, split_words};
use std::alloc::{AllocError, Global};
use vac_lines::cut_at;

/// Why a line of a start file gives no key its first value.
#[derive(Clone, Copy, Debug, PartialEq, Eq)]
pub enum StartFault {
    /// The line is not KEY and VALUE, both quoted words.
    BadStart,
    /// The line has a key without a value.
    MissingValue,
    /// An earlier line gives the key a value.
    KeyTwice,
}

impl StartFault {
    /// The name of the fault.
    pub fn name(self) -> &'static str
        ensures { result.now ≡ spec.fault_name self }
    {
        match self {
            StartFault::BadStart => "bad-start",
            StartFault::MissingValue => "missing-value",
            StartFault::KeyTwice => "key-twice",
        }
    }
}

/// A place for the values that keys have at first.
pub trait StartValues: Drop {
    /// The value that each key has, or none.
    ghost held: { Self → List ℕ → Held };

    /// Returns whether a key has a value.
    fn has_value(&self, key: &[u8]) -> Result<bool, AllocError>
        ensures { IfOk result (λ has. has ≡ is_some (held self.now key.now)) };

    /// Sets the value of a key.
    fn set_value(&mut self, alloc: Global, key: Vec<u8>, value: Vec<u8>) -> Result<(), AllocError>
        ensures { OnOk result ((other : List ℕ) → held self.new other
            ≡ changed (held self.old) key.items (Some value.items) other) };
}

/// The keys by themselves, each of which begins in a state of its own.
impl StartValues for Starts<Cell> {
    ghost held = { λ starts. start_of starts };

    fn has_value(&self, key: &[u8]) -> Result<bool, AllocError> {
        Ok(self.get(key)?.has_value())
    }

    fn set_value(&mut self, alloc: Global, key: Vec<u8>, value: Vec<u8>) -> Result<(), AllocError> {
        self.set(key, Cell::with(alloc, value)?)
    }
}

/// The first values of keys, or the fault as which a text is read.
#[derive(Drop)]
pub enum FirstValues<F> {
    /// The keys have their values.
    Given(F),
    /// The number of the first line that has a fault, from 1 on, and its fault.
    Fault(u64, StartFault),
}

/// Reads the key and the value that two words write.
fn read_pair(
    alloc: Global,
    key: &[u8],
    value: &[u8],
) -> Result<Result<(Vec<u8>, Vec<u8>), StartFault>, AllocError>
    ensures { IfOk result (λ read.
        IsFirstRead (spec.key_first (unquoted key.now) value.now) read) }
{
    let Some(key) = read_quoted(alloc, key)? else {
        return Ok(Err(StartFault::BadStart));
    };
    if is_name(value, b"-") {
        return Ok(Err(StartFault::MissingValue));
    }
    match read_quoted(alloc, value)? {
        Some(value) => Ok(Ok((key, value))),
        None => Ok(Err(StartFault::BadStart)),
    }
}

/// Reads the key and the value that the words of a line write.
fn read_words(
    alloc: Global,
    words: &[&[u8]],
) -> Result<Result<(Vec<u8>, Vec<u8>), StartFault>, AllocError>
    ensures { IfOk result (λ read. IsFirstRead (spec.words_first (texts words.now)) read) }
{
    match words {
        [key] => match read_quoted(alloc, key)? {
            Some(_) => Ok(Err(StartFault::MissingValue)),
            None => Ok(Err(StartFault::BadStart)),
        },
        [key, value] => read_pair(alloc, key, value),
        _ => Ok(Err(StartFault::BadStart)),
    }
}

/// Reads the key and the value of a line, where keys have these values by the lines before.
fn read_line<F: StartValues>(
    alloc: Global,
    firsts: &F,
    line: &[u8],
) -> Result<Result<(Vec<u8>, Vec<u8>), StartFault>, AllocError>
    ensures { IfOk result (λ read. (before : List First) → BeginWith before (F.held firsts.now) →
        IsFirstRead (spec.line_first before line.now) read) }
{
    let words = split_words(alloc, line)?;
    match read_words(alloc, words.as_slice())? {
        Ok((key, value)) => {
            if firsts.has_value(key.as_slice())? {
                return Ok(Err(StartFault::KeyTwice));
            }
            Ok(Ok((key, value)))
        }
        Err(fault) => Ok(Err(fault)),
    }
}

/// Cuts the first line off a text that has a byte, and returns the line and the text behind it.
fn first_line(text: &[u8]) -> (&[u8], &[u8])
    requires { 0 < length text.now }
    ensures lines { lines_of text.now ≡ result.0.now ∷ lines_of result.1.now }
    ensures less { length result.1.now < length text.now }
{
    match cut_at(b'\n', text) {
        Some((line, behind)) => (line, behind),
        None => (text, b""),
    }
}

/// Reads a text as the first values of keys: a line `KEY VALUE` for each key that has one. They go
/// into a place in which no key has a value.
pub fn read_first_values<F: StartValues>(
    alloc: Global,
    empty: F,
    text: &[u8],
) -> Result<FirstValues<F>, AllocError>
    requires none { (key : List ℕ) → F.held empty key ≡ None }
    ensures { IfOk result (λ read. AreFirstValues F.held text.now read) }
{
    let mut firsts = empty;
    let mut number = 0u64;
    let mut rest = text;
    'lines: while !rest.is_empty() {
        let (line, behind) = first_line(rest);
        number += 1;
        match read_line(alloc, &firsts, line)? {
            Ok((key, value)) => firsts.set_value(alloc, key, value)?,
            Err(fault) => return Ok(FirstValues::Fault(number, fault)),
        }
        rest = behind;
    }
    Ok(FirstValues::Given(firsts))
}
