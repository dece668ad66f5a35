//! The words of a line, one after the other.

ghost use Rattle.std.specs.Prelude.{◌≡◌, ◌∷◌, [], MatchOption, MatchResult};
ghost use Rattle.judge_opacity.specs.Parts.{words_left};

use vac_lines::{LineFault, cut_at};

/// Returns the first word of the rest of a line, and the text after that word. Returns `None` if
/// no word is left.
pub(crate) fn next_word(left: Option<&[u8]>) -> Option<(&[u8], Option<&[u8]>)>
    ensures { MatchOption result (words_left left.entry ≡ [])
        (λ cut. words_left left.entry ≡ cut.0.now ∷ words_left cut.1) }
{
    let text = left?;
    match cut_at(b' ', text) {
        Some((word, behind)) => Some((word, Some(behind))),
        None => Some((text, None)),
    }
}

/// Takes the first word of the rest of a line, and returns the word and the text after it. A line
/// without a further word is a fault.
pub(crate) fn take_word(left: Option<&[u8]>) -> Result<(&[u8], Option<&[u8]>), LineFault>
    ensures { MatchResult result
        (λ cut. words_left left.entry ≡ cut.0.now ∷ words_left cut.1)
        (λ fault. (fault ≡ LineFault.BadCount) × (words_left left.entry ≡ [])) }
{
    match next_word(left) {
        Some(cut) => Ok(cut),
        None => Err(LineFault::BadCount),
    }
}
