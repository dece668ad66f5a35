//! Cutting a line into words.

ghost use Rattle.std.specs.Prelude.{◌≡◌, ◌≤◌, ◌∷◌, ◌++◌, length, IsOk, IfOk, MatchOption};
ghost use Rattle.vac_lines.specs.Lines.{words_of, texts, HasNo};

use smallvec::SmallVec;
use std::alloc::{AllocError, Global};

/// The words of a line. Lines of up to eight words need no allocation.
pub(crate) type Words<'a> = SmallVec<&'a [u8], 8>;

/// Splits bytes at the first occurrence of a byte, and returns the bytes before and after it.
/// Returns `None` if the byte does not occur.
pub fn cut_at(byte: u8, bytes: &[u8]) -> Option<(&[u8], &[u8])>
    ensures { MatchOption result (HasNo byte bytes.now)
        (λ cut. HasNo byte cut.0.now × (bytes.now ≡ cut.0.now ++ byte ∷ cut.1.now)) }
{
    let end = bytes.iter().position(|other| *other == byte)?;
    Some((&bytes[..end], &bytes[end + 1..]))
}

/// Splits a line at every space.
pub(crate) fn split_words<'a>(alloc: Global, line: &'a [u8]) -> Result<Words<'a>, AllocError>
    ensures words { IfOk result (λ words. texts words.items ≡ words_of line.now) }
    ensures inline { length (words_of line.now) ≤ 8 → IsOk result }
{
    let mut words = SmallVec::new(alloc);
    let mut rest = line;
    while let Some((word, behind)) = cut_at(b' ', rest) {
        words.push(word)?;
        rest = behind;
    }
    words.push(rest)?;
    Ok(words)
}
