//! Recorders of a client's completed calls.

ghost use Rattle.std.specs.Prelude.{◌≡◌, ℕ, List, Option, None, OnOk};
ghost use Rattle.vac_manager.specs.declared.note.CompletedCall.{CompletedCall};
ghost use Rattle.vac_manager.specs.Tracing.{Trace};
ghost use Rattle.vac_manager.specs.Keeping.{HasKept, HasTakenOut};

use crate::placed::PlacedReply;
use std::alloc::AllocError;
use stm_object::{Tracer, Untraced};
use vac_model::Task;

/// A recorder of a client's completed calls, which may also record nothing.
pub trait Recorder {
    /// The tracer of the attempts of the client's calls.
    type Tracing: Tracer + Drop;

    /// The recorded calls in their order; None if nothing is recorded.
    ghost notes: { Self → Option (List CompletedCall) };

    /// The traced attempts; None if no attempts are traced, or if there was no room for all of
    /// them.
    ghost traced: { Self → Option (List Trace) };

    /// The last time of the recorder's tracer (`latest` of `Tracer`).
    ghost latest: { Self → ℕ };

    /// The recorder has room for one more call.
    ghost ready: { Self → Type 0 };

    /// Reserves room for a call that is about to begin.
    ///
    /// Not said: in which cases a recorder has no room.
    fn begin(&mut self) -> Result<(), AllocError>
        ensures same { notes self.new ≡ notes self.old }
        ensures traced { traced self.new ≡ traced self.old }
        ensures room { OnOk result (ready self.new) }
        ensures time { latest self.new ≡ latest self.old };

    /// Lends the tracer for the attempts of the call that is about to begin.
    fn lend(&mut self) -> Self::Tracing
        ensures same { notes self.new ≡ notes self.old }
        ensures traced { Self.Tracing.ended result ≡ traced self.old }
        ensures room { ready self.old → ready self.new }
        ensures time { Self.Tracing.latest result ≡ latest self.old };

    /// Takes the tracer back after the call has ended.
    fn take_back(&mut self, tracer: Self::Tracing)
        ensures same { notes self.new ≡ notes self.old }
        ensures traced { traced self.new ≡ Self.Tracing.ended tracer }
        ensures room { ready self.old → ready self.new }
        ensures time { latest self.new ≡ Self.Tracing.latest tracer };

    /// Appends a completed call to the recorded calls. The call's attempt is the last one that was
    /// traced; the other traced attempts stay.
    fn keep(&mut self, task: Task, placed: PlacedReply)
        requires { ready self.old }
        ensures kept { HasKept task placed (traced self.old) (notes self.old) (notes self.new) }
        ensures taken { HasTakenOut (traced self.old) (traced self.new) }
        ensures time { latest self.new ≡ latest self.old };
}

/// A recorder that records nothing.
#[derive(Clone, Copy, Drop)]
pub struct NoRecorder;

impl Recorder for NoRecorder {
    ghost use Rattle.std.specs.Prelude.{None};

    type Tracing = Untraced;

    ghost notes = { λ _. None };

    ghost traced = { λ _. None };

    ghost latest = { λ _. 0 };

    ghost ready = { λ _. Unit {0} };

    fn begin(&mut self) -> Result<(), AllocError> {
        Ok(())
    }

    fn lend(&mut self) -> Untraced {
        Untraced
    }

    fn take_back(&mut self, tracer: Untraced) {
        let Untraced = tracer;
    }

    fn keep(&mut self, _task: Task, placed: PlacedReply) {
        let PlacedReply { reply: _, place: _ } = placed;
    }
}
