//! Tracers of the attempts of a call.

ghost use Rattle.std.specs.Prelude.{◌≡◌, ◌≤◌, ℕ, List, Option, None, IfOk, IfErr, true, false};
ghost use Rattle.tx_memory.specs.declared.access.Access.{Access};
ghost use Rattle.tx_memory.specs.Accesses.{IsTracked};
ghost use Rattle.stm_attempt.specs.declared.conflict.Conflict.{Conflict as ConflictMet};
ghost use Rattle.stm_object.specs.Bodies.{HasValue, HasEffect};
ghost use Rattle.stm_object.specs.declared.place.CommitPosition.{CommitPosition as CommitPositionShown};
ghost use Rattle.stm_object.specs.Tracing.{Trace, HasNoAccess, HasTracedCommit, HasTracedAbort};
ghost use Rattle.stm_object.specs.Tracing.{IsReaderAt, conflict_of};

use crate::body::Body;
use crate::object::Object;
use crate::place::CommitPosition;
use stm_attempt::Stop;
use stm_core::Version;
use tx_memory::{TxMem, TxRead};

/// A tracer of the attempts of a call, which may also trace nothing. A tracer runs the bodies, so
/// that it can observe their reads and writes.
pub trait Tracer {
    /// The part of the tracer that no method changes.
    ghost Frame: { Type 0 };

    ghost frame: { Self → Frame };

    /// The counts of the tracer.
    ghost Tally: { Type 0 };

    ghost tally: { Self → Tally };

    /// The counts with one more attempt, which ended with this conflict if there is one.
    ghost more: { Option ConflictMet → Tally → Tally };

    /// The attempts that have ended, in their order; None if no attempts are traced, or if there
    /// was no room for all of them.
    ghost ended: { Self → Option (List Trace) };

    /// The reads and writes of the running attempt, in their order; None as for `ended`.
    ghost accesses: { Self → Option (List Access) };

    /// The commit position at which the running attempt is traced if it aborts; None if no
    /// attempts are traced.
    ghost position: { Self → Option CommitPositionShown };

    /// The time at which the running attempt began, or at which the last attempt ended.
    ghost latest: { Self → ℕ };

    /// Prepares for an attempt that is about to begin.
    fn prepare(&mut self)
        ensures frame { frame self.new ≡ frame self.old }
        ensures ended { ended self.new ≡ ended self.old }
        ensures tally { tally self.new ≡ tally self.old }
        ensures fresh { HasNoAccess (accesses self.new) }
        ensures time { latest self.old ≤ latest self.new };

    /// Receives the renewal and the read version of the attempt, which has just begun. If the
    /// attempt aborts, the attempt is traced as a reader in this renewal at this version.
    fn begun(&mut self, renewal: u32, version: Version)
        ensures frame { frame self.new ≡ frame self.old }
        ensures ended { ended self.new ≡ ended self.old }
        ensures tally { tally self.new ≡ tally self.old }
        ensures accesses { accesses self.new ≡ accesses self.old }
        ensures position { IsReaderAt renewal version (position self.new) }
        ensures time { latest self.new ≡ latest self.old };

    /// Runs the body of the attempt.
    fn run<S: Object, B: Body<S>, M: TxMem>(
        &mut self,
        memory: &mut M,
        body: &B,
    ) -> Result<B::Answer, M::Stop>
        requires writes { B.reads body.now ≡ false }
        requires value { HasValue S.is (M.view memory.old) }
        requires tracked { IsTracked (accesses self.old)
            (M.view memory.old).reads (M.view memory.old).writes }
        ensures origin { M.origin memory.new ≡ M.origin memory.old }
        ensures answer { IfOk result (λ a. HasEffect S.is (M.view memory.old) (M.view memory.new)
            (B.entry_of body.now a)) }
        ensures wrote { IfOk result (λ a. B.changes body.now a ≡ false →
            (M.view memory.new).writes ≡ (M.view memory.old).writes) }
        ensures frame { frame self.new ≡ frame self.old }
        ensures ended { ended self.new ≡ ended self.old }
        ensures tally { tally self.new ≡ tally self.old }
        ensures position { position self.new ≡ position self.old }
        ensures tracked { IsTracked (accesses self.new)
            (M.view memory.new).reads (M.view memory.new).writes }
        ensures time { latest self.new ≡ latest self.old };

    /// Runs the body of the attempt, which only reads.
    fn read<S: Object, B: Body<S>, M: TxRead>(
        &mut self,
        memory: &mut M,
        body: &B,
    ) -> Result<B::Answer, M::Stop>
        requires reads { B.reads body.now ≡ true }
        requires value { HasValue S.is (M.view memory.old) }
        requires tracked { IsTracked (accesses self.old)
            (M.view memory.old).reads (M.view memory.old).writes }
        ensures origin { M.origin memory.new ≡ M.origin memory.old }
        ensures answer { IfOk result (λ a. HasEffect S.is (M.view memory.old) (M.view memory.new)
            (B.entry_of body.now a)) }
        ensures stopped { IfErr result (λ stop. M.stopped_for memory.new stop) }
        ensures frame { frame self.new ≡ frame self.old }
        ensures ended { ended self.new ≡ ended self.old }
        ensures tally { tally self.new ≡ tally self.old }
        ensures position { position self.new ≡ position self.old }
        ensures tracked { IsTracked (accesses self.new)
            (M.view memory.new).reads (M.view memory.new).writes }
        ensures time { latest self.new ≡ latest self.old };

    /// Receives the commit position of the attempt's record, after the attempt has committed or
    /// finished as a reader.
    fn commit(&mut self, place: &CommitPosition)
        ensures frame { frame self.new ≡ frame self.old }
        ensures ended { HasTracedCommit place.now (accesses self.old) (latest self.old)
            (latest self.new) (ended self.old) (ended self.new) }
        ensures tally { tally self.new ≡ more None (tally self.old) }
        ensures time { latest self.old ≤ latest self.new };

    /// Receives the reason for which the attempt has aborted. An aborted attempt has left no
    /// record, and is traced at the position that was passed to `begun`.
    fn give_up(&mut self, stop: &Stop)
        ensures frame { frame self.new ≡ frame self.old }
        ensures ended { HasTracedAbort (position self.old) (accesses self.old) (latest self.old)
            (latest self.new) (ended self.old) (ended self.new) }
        ensures tally { tally self.new ≡ more (conflict_of stop.now) (tally self.old) }
        ensures time { latest self.old ≤ latest self.new };
}

/// A tracer that traces nothing.
#[derive(Clone, Copy, Drop)]
pub struct Untraced;

impl Tracer for Untraced {
    ghost use Rattle.std.specs.Prelude.{None};

    ghost Frame = { Unit {0} };

    ghost frame = { λ _. tt };

    ghost Tally = { Unit {0} };

    ghost tally = { λ _. tt };

    ghost more = { λ _ t. t };

    ghost ended = { λ _. None };

    ghost accesses = { λ _. None };

    ghost position = { λ _. None };

    ghost latest = { λ _. 0 };

    #[inline]
    fn prepare(&mut self) {}

    #[inline]
    fn begun(&mut self, _renewal: u32, _version: Version) {}

    #[inline]
    fn run<S: Object, B: Body<S>, M: TxMem>(
        &mut self,
        memory: &mut M,
        body: &B,
    ) -> Result<B::Answer, M::Stop> {
        let Some(answer) = body.run(memory) else {
            unreachable!();
        };
        answer
    }

    #[inline]
    fn read<S: Object, B: Body<S>, M: TxRead>(
        &mut self,
        memory: &mut M,
        body: &B,
    ) -> Result<B::Answer, M::Stop> {
        let Some(answer) = body.read(memory) else {
            unreachable!();
        };
        answer
    }

    #[inline]
    fn commit(&mut self, _place: &CommitPosition) {}

    #[inline]
    fn give_up(&mut self, _stop: &Stop) {}
}
