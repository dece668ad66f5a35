//! Objects whose histories are written as text.

ghost use Rattle.std.specs.Prelude.{◌≡◌, IfOk};
ghost use Rattle.vac_lines.specs.Lines.{texts};
ghost use Rattle.judge_text.specs.Language.{Language};

use crate::named::Named;
use std::alloc::{AllocError, Global};

/// An object whose operations and replies are words of a line.
pub trait TextObject: Named {
    /// The state of reading: what equal words of later lines may share with earlier ones.
    type Reader: Drop;

    ghost language: { Language Self.Op Self.Reply };

    /// Returns the state of reading before the first line.
    fn reader(alloc: Global) -> Self::Reader;

    /// Returns the operation that these words write.
    fn read_operation(
        alloc: Global,
        reader: &mut Self::Reader,
        words: &[&[u8]],
    ) -> Result<Option<Self::Op>, AllocError>
        ensures { IfOk result (λ read. language.operation (texts words.now) ≡ read) };

    /// Returns the reply that a word writes.
    fn read_reply(
        alloc: Global,
        reader: &mut Self::Reader,
        word: &[u8],
    ) -> Result<Option<Self::Reply>, AllocError>
        ensures { IfOk result (λ read. language.reply word.now ≡ read) };
}
