//! A sequential object.

ghost use Rattle.std.specs.Prelude.{◌≡◌, ◌++◌, true, IfOk, OnOk};
ghost use Rattle.judge_object.specs.Rules.{Rules, is_right, given_text};

use std::alloc::AllocError;

/// A sequential object in one of its states. Contracts see the state.
pub trait Object: Sized {
    type Op: Drop;

    type Reply: Drop;

    ghost rules: { Rules Self Self.Op Self.Reply };

    /// Returns a copy of the state.
    fn copy(&self) -> Result<Self, AllocError>
        ensures { IfOk result (λ copy. copy ≡ self.now) };

    /// Returns the state after an operation and the reply, and consumes the state before.
    fn made(self, op: &Self::Op) -> Result<(Self, Self::Reply), AllocError>
        ensures { IfOk result (λ made. rules.run self op.now ≡ (made.0, made.1)) };

    /// Returns the state after an operation and the reply, and keeps the state before.
    fn make(&self, op: &Self::Op) -> Result<(Self, Self::Reply), AllocError>
        ensures { IfOk result (λ made. rules.run self.now op.now ≡ (made.0, made.1)) }
    {
        self.copy()?.made(op)
    }

    /// Returns true only if both states are equal.
    ///
    /// Not said: that equal states are found equal.
    fn is_same(&self, other: &Self) -> bool
        ensures { result ≡ true → self.now ≡ other.now };

    /// Returns a hash of the state, which is meant to be the same for equal states.
    ///
    /// Not said: anything about the hash.
    fn hash(&self) -> u64;

    /// Returns true only if no call with this operation and this reply changes a state in which it
    /// gives the reply, as a read does.
    ///
    /// Not said: that each such call is recognized.
    fn is_read_only(_op: &Self::Op, _reply: &Option<Vec<u8>>) -> bool
        ensures { result ≡ true → (s : Self) →
            is_right rules (given_text _reply.now) (rules.run s _op.now).1 ≡ true →
            (rules.run s _op.now).0 ≡ s }
    {
        false
    }

    /// Appends the text of a reply to a buffer.
    fn print(reply: &Self::Reply, out: &mut Vec<u8>) -> Result<(), AllocError>
        ensures { OnOk result (out.new.items ≡ out.old.items ++ rules.text reply.now) };
}

/// Returns whether a reply has the text that the history gives. If none is given, any is right.
///
/// Not said: the contents of the buffer afterwards.
pub fn is_right<M: Object>(
    buffer: &mut Vec<u8>,
    given: &Option<Vec<u8>>,
    reply: &M::Reply,
) -> Result<bool, AllocError>
    ensures { IfOk result (λ right. right ≡ is_right M.rules (given_text given.now) reply.now) }
{
    match given {
        Some(given) => {
            buffer.clear();
            M::print(reply, buffer)?;
            Ok(given.as_slice() == buffer.as_slice())
        }
        None => Ok(true),
    }
}
