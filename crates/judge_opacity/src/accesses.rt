//! Reading the accesses of a line.

ghost use Rattle.std.specs.Prelude.{◌≡◌, ◌<◌, ◌∷◌, length, IfOk, IfErr, MatchResult, Ok, Err};
ghost use Rattle.judge_opacity.specs.Attempt.{at_access, accesses_of, onto_accesses};
ghost use Rattle.judge_opacity.specs.Parts.{words_left, IsAmong, AllAmong};

use crate::attempt::Access;
use crate::numbers::{kind_at, number_at, word_at};
use crate::words::{next_word, take_word};
use std::alloc::AllocError;
use vac_lines::LineFault;

/// Reads the access that three words write.
fn access_at(words: u32, kind: &[u8], word: &[u8], value: &[u8]) -> Result<Access, LineFault>
    ensures access { result ≡ at_access words kind.now word.now value.now }
    ensures among { IfOk result (λ access. IsAmong words access) }
{
    let reads = kind_at(kind)?;
    let word = word_at(words, word)?;
    let value = number_at(value)?;
    if reads {
        Ok(Access::Read { word, value })
    } else {
        Ok(Access::Write { word, value })
    }
}

/// Reads the access that a word and the following words write, and returns the access and the rest
/// of the line.
fn read_access<'a>(
    words: u32,
    kind: &[u8],
    rest: Option<&'a [u8]>,
) -> Result<(Access, Option<&'a [u8]>), LineFault>
    ensures ok { IfOk result (λ read. accesses_of words (kind.now ∷ words_left rest.entry)
        ≡ onto_accesses read.0 (accesses_of words (words_left read.1))) }
    ensures err { IfErr result (λ fault.
        accesses_of words (kind.now ∷ words_left rest.entry) ≡ Err fault) }
    ensures among { IfOk result (λ read. IsAmong words read.0) }
    ensures less { IfOk result (λ read.
        length (words_left read.1) < length (words_left rest.entry)) }
{
    let (word, rest) = take_word(rest)?;
    let (value, rest) = take_word(rest)?;
    let access = access_at(words, kind, word, value)?;
    Ok((access, rest))
}

/// Reads the accesses in the rest of a line. The vector is cleared first; its room is used again.
pub(crate) fn read_accesses(
    words: u32,
    text: Option<&[u8]>,
    accesses: &mut Vec<Access>,
) -> Result<Result<(), LineFault>, AllocError>
    ensures read { IfOk result (λ read. MatchResult read
        (λ _. accesses_of words (words_left text.entry) ≡ Ok accesses.new.items)
        (λ fault. accesses_of words (words_left text.entry) ≡ Err fault)) }
    ensures among { IfOk result (λ read. IfOk read (λ _. AllAmong words accesses.new.items)) }
{
    accesses.clear();
    let mut left = text;
    while let Some((kind, rest)) = next_word(left) {
        match read_access(words, kind, rest) {
            Ok((access, behind)) => {
                accesses.push(access)?;
                left = behind;
            }
            Err(fault) => return Ok(Err(fault)),
        }
    }
    Ok(Ok(()))
}
