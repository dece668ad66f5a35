//! Objects with names.

ghost use Rattle.std.specs.Prelude.{◌≡◌, ℕ, List, IfOk};
ghost use Rattle.judge_object.specs.Call.{Call};
ghost use Rattle.judge_search.specs.Calls.{calls_of};
ghost use Rattle.judge_text.specs.Classing.{object_of};

use crate::names::Names;
use judge_object::{Line, Object};
use std::alloc::{AllocError, Global};

/// An object of which there are many: each operation has the name of one of them.
pub trait Named: Object {
    ghost name: { Self.Op → List ℕ };

    ghost naming: { List (Call Self.Op) → (List ℕ → List ℕ) → Type 0 };

    /// The name that an operation has.
    fn name(op: &Self::Op) -> &[u8]
        ensures { result.now ≡ name op.now };

    /// Returns which objects the names of a history's operations stand for.
    fn names(alloc: Global, lines: &[Line<Self::Op>]) -> Result<Names, AllocError>
        ensures { IfOk result (λ names. naming (calls_of lines.now) (object_of names)) };
}
