//! The recorder of a client's completed calls with their attempts.

ghost use Rattle.std.specs.Prelude.{◌≡◌, true};
ghost use Rattle.load_record.specs.Noted.{all_noted};

use crate::trail::AttemptTracer;
use crate::{CallRecorder, StampClock};
use std::alloc::{AllocError, Global};
use vac_manager::{PlacedReply, Recorder};
use vac_model::Task;

/// A recorder of a client's completed calls, each with the attempt that committed, and of the
/// aborted attempts.
#[derive(Drop)]
pub struct AttemptRecorder<W> {
    journal: CallRecorder<W>,
    trail: AttemptTracer<W>,
    /// True if each recorded call has its attempt.
    is_whole: bool,
    ghost noted: { is_whole ≡ true → all_noted journal.notes.items ≡ true },
}

impl<W: StampClock + Copy + Drop> AttemptRecorder<W> {
    ghost use Rattle.std.specs.Prelude.{[], Some};
    ghost use Rattle.load_record.specs.Known.{ended_by, is_whole_ledger};

    /// Returns an empty attempt recorder, whose times are read from this clock.
    pub fn new(alloc: Global, watch: W) -> AttemptRecorder<W>
        ensures no_calls { result.journal.notes.items ≡ [] }
        ensures none_given_up { result.trail.given_up.items ≡ [] }
        ensures no_traces { ended_by result.trail ≡ Some [] }
        ensures whole { is_whole_ledger result ≡ true }
    {
        AttemptRecorder {
            journal: CallRecorder::new(alloc, watch),
            trail: AttemptTracer::new(alloc, watch),
            is_whole: true,
        }
    }

    /// Returns whether there was room for each call and each attempt.
    pub(crate) fn is_whole(&self) -> bool
        ensures { result ≡ is_whole_ledger self.now }
    {
        self.is_whole && self.journal.is_whole() && self.trail.is_whole()
    }

    /// Returns the call recorder of the recorded calls.
    pub(crate) fn journal(&self) -> &CallRecorder<W>
        ensures { result.now ≡ self.now.journal }
    {
        &self.journal
    }

    /// Returns the tracer of the traced attempts.
    pub(crate) fn trail(&self) -> &AttemptTracer<W>
        ensures { result.now ≡ self.now.trail }
    {
        &self.trail
    }
}

impl<W: StampClock + Copy + Drop> Recorder for AttemptRecorder<W> {
    ghost use Rattle.std.specs.Prelude.{◌<◌, Some, vec_len, vec_capacity};
    ghost use Rattle.load_record.specs.Known.{ended_by};

    type Tracing = AttemptTracer<W>;

    ghost notes = { λ ledger. Some ledger.journal.notes.items };

    ghost traced = { λ ledger. ended_by ledger.trail };

    ghost latest = { λ ledger. ledger.trail.latest };

    ghost ready = { λ ledger. vec_len ledger.journal.notes < vec_capacity ledger.journal.notes };

    fn begin(&mut self) -> Result<(), AllocError> {
        self.journal.begin()
    }

    fn lend(&mut self) -> AttemptTracer<W> {
        self.trail.take()
    }

    fn take_back(&mut self, tracer: AttemptTracer<W>) {
        self.trail = tracer;
    }

    fn keep(&mut self, task: Task, placed: PlacedReply) {
        let attempt = self.trail.take_committed();
        self.is_whole = self.is_whole && attempt.is_some();
        self.journal.keep_with(task, placed, attempt);
    }
}
