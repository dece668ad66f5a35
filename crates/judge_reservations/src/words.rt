//! Words of replies.

ghost use Rattle.std.specs.Prelude.{◌≡◌, ◌++◌, IfOk};
ghost use Rattle.vac_lines.specs.Lines.{words_of, texts};
ghost use Rattle.vac_model.specs.TaskText.{spaced};

use std::alloc::{AllocError, Global};

/// Splits a text at every space.
pub(crate) fn split_words(alloc: Global, text: &[u8]) -> Result<Vec<&[u8]>, AllocError>
    ensures { IfOk result (λ words. texts words.items ≡ words_of text.now) }
{
    text.split(|byte| *byte == b' ').collect(alloc)
}

/// Returns a word and, each after a space, the words that follow.
pub(crate) fn join_words(alloc: Global, first: &[u8], rest: &[&[u8]]) -> Result<Vec<u8>, AllocError>
    ensures { IfOk result (λ text. text.items ≡ first.now ++ spaced (texts rest.now)) }
{
    let mut text = Vec::from_slice(alloc, first)?;
    for word in rest {
        text.push(b' ')?;
        text.extend_from_slice(word)?;
    }
    Ok(text)
}
