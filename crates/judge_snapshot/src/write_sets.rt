//! Sequential objects with write sets.

ghost use Rattle.std.specs.Prelude.{◌≡◌, IfOk};
ghost use Rattle.judge_snapshot.specs.WriteSets.{WriteSets, AreWriteSets};

use judge_object::Object;
use std::alloc::AllocError;

/// A sequential object whose operations have write sets.
pub trait WriteSetObject: Object {
    type Written: Drop;

    ghost write_sets: { WriteSets Self Self.Op Self.Written };

    /// Returns the write set and the reply of an operation that reads this state.
    fn read(&self, op: &Self::Op) -> Result<(Self::Written, Self::Reply), AllocError>
        ensures written { IfOk result (λ read. read.0 ≡ write_sets.writes self.now op.now) }
        ensures reply { IfOk result (λ read. read.1 ≡ (Self.rules.run self.now op.now).1) };

    /// Returns the state after the writes of a set are installed.
    fn install(self, written: &Self::Written) -> Result<Self, AllocError>
        ensures { IfOk result (λ made. made ≡ write_sets.install written.now self) };

    /// Returns whether two write sets have a key in common.
    fn conflicts(written: &Self::Written, other: &Self::Written) -> bool
        ensures { result ≡ write_sets.conflicts written.now other.now };

    /// Returns whether two write sets are recognized as equal.
    fn is_same_written(written: &Self::Written, other: &Self::Written) -> bool
        ensures { result ≡ write_sets.same written.now other.now };

    ghost laws: { AreWriteSets Self.rules write_sets };
}
