//! An attempt of a text, which is kept until it has its place.

ghost use Rattle.std.specs.Prelude.{◌≡◌};
ghost use Rattle.std.specs.List.{list_any};
ghost use Rattle.judge_opacity.specs.Parts.{attempt_of};
ghost use Rattle.judge_opacity.specs.Placing as spec;

use crate::attempt::{Access, Head};

/// An attempt of a text.
#[derive(Drop)]
pub(crate) struct Logged {
    pub(crate) head: Head,
    pub(crate) accesses: Vec<Access>,
    /// True if the attempt committed and wrote a word.
    pub(crate) writer: bool,
    ghost known: { writer ≡ spec.is_writer (attempt_of head accesses.items) },
}

/// Returns whether an access is a write.
fn is_write(access: &Access) -> bool
    ensures { result ≡ spec.is_write access.now }
{
    match access {
        Access::Read { .. } => false,
        Access::Write { .. } => true,
    }
}

/// Returns whether one of the accesses is a write.
pub(crate) fn has_write(accesses: &[Access]) -> bool
    ensures { result ≡ list_any spec.is_write accesses.now }
{
    'accesses: for place in 0..accesses.len() {
        if is_write(&accesses[place]) {
            return true;
        }
    }
    false
}
