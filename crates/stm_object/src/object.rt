//! Shared objects, by their sequential specifications.

ghost use Rattle.stm_object.specs.Object.{Specification, IsLocal, IsDetermined};

use std::marker::PhantomData;
use stm_core::Law;

/// A state that each user of an object keeps for itself, outside the shared words.
pub trait UserState: Drop {
    /// The relation between a state before a split, the state after the split, and the state of
    /// the new user.
    ghost splits: { Self → Self → Self → Type 0 };

    /// Makes the state of a user that is split off.
    fn split(&mut self) -> Self
        ensures { splits self.old self.new result };
}

/// The state of users that keep nothing for themselves.
impl UserState for () {
    ghost splits = { λ _ _ _. Unit {0} };

    #[inline]
    fn split(&mut self) {}
}

/// A shared object by its sequential specification: its values, the words that hold them, and for
/// each operation with its answer the statement about the value before and the value after. An
/// object has two laws. Whether words hold a value depends only on these words. The code of an
/// entry, which a record carries, is the code of no other entry.
pub trait Object {
    /// An operation with its answer, which a record carries as its tag. No code makes a value of
    /// this type.
    type Entry;

    /// The state that each user keeps for itself.
    type UserState: UserState;

    ghost is: { Specification Self.Entry };

    ghost local: { IsLocal is };

    ghost determined: { IsDetermined is };
}

/// The law of an object. An image fits if it holds a value. A record is lawful if it does what its
/// entry says on every image that agrees with its reads.
pub struct ObjectLaw<S> {
    of: PhantomData<S>,
}

impl<S: Object> Law for ObjectLaw<S> {
    ghost use Rattle.stm_object.specs.Object.{IsFitting, IsLawfulEntry, keeps_fitting};

    ghost fits = { λ image. IsFitting S.is image };

    ghost lawful = { λ tag reads writes. IsLawfulEntry S.is tag reads writes };

    ghost keeps = { λ tag image reads writes f a l.
        keeps_fitting S.is tag image reads writes f a l };
}
