//! The call recorder of a client's completed calls.

ghost use Rattle.std.specs.Prelude.{◌≡◌, ◌≤◌, [], true};
ghost use Rattle.std.specs.List.{All};
ghost use Rattle.load_record.specs.Turns.{NotesTakeTime, AreInTurn};
ghost use Rattle.load_record.specs.Numbers.{EndInTime, HaveReplies, HaveReplies-prop};
ghost use Rattle.load_record.specs.Stamps.{IsStamp};

use crate::watch::StampClock;
use judge_calls::numbers_of_a_reply;
use std::alloc::{AllocError, Global};
use vac_manager::{CommitPosition, CompletedCall, PlacedReply, Recorder, TracedAttempt, Untraced};
use vac_model::Task;

/// A recorder of a client's completed calls, which reads a clock before and after each call.
#[derive(Drop)]
pub struct CallRecorder<W> {
    watch: W,
    notes: Vec<CompletedCall>,
    /// The last stamp.
    latest: u64,
    /// True if there was room for each call that was about to begin.
    is_whole: bool,
    ghost timed: { NotesTakeTime notes.items },
    ghost in_turn: { AreInTurn notes.items },
    ghost over: { All (λ n. n.end ≤ latest) notes.items },
    ghost ends: { EndInTime notes.items },
    ghost replies: { HaveReplies notes.items } by { HaveReplies-prop notes.items },
}

/// Reads the clock and returns a stamp that is not before the last one.
pub fn stamp<W: StampClock>(watch: &mut W, last: u64) -> u64
    ensures read { IsStamp W.shows watch.old watch.new last result }
    ensures later { last ≤ result }
{
    watch.read().max(last)
}

impl<W: StampClock> CallRecorder<W> {
    ghost use Rattle.std.specs.Prelude.{◌≡◌, ◌<◌, vec_len, vec_capacity};
    ghost use Rattle.load_record.specs.Stamped.{HasStamped, KeepsWith};

    /// Returns an empty call recorder, whose times are read from this clock.
    pub fn new(alloc: Global, watch: W) -> CallRecorder<W>
        ensures empty { result.notes.items ≡ [] }
        ensures watch { result.watch ≡ watch }
        ensures fresh { result.latest ≡ 0 }
        ensures whole { result.is_whole ≡ true }
    {
        CallRecorder {
            watch,
            notes: Vec::new(alloc),
            latest: 0,
            is_whole: true,
        }
    }

    /// Returns whether there was room for each call.
    pub fn is_whole(&self) -> bool
        ensures { result ≡ self.now.is_whole }
    {
        self.is_whole
    }

    /// Returns the recorded calls.
    pub fn notes(&self) -> &[CompletedCall]
        ensures { result.now ≡ self.now.notes.items }
    {
        self.notes.as_slice()
    }

    /// Records a completed call as `keep` does, together with the attempt that committed.
    pub fn keep_with(
        &mut self,
        task: Task,
        placed: PlacedReply,
        attempt: Option<Box<TracedAttempt>>,
    )
        requires { vec_len self.old.notes < vec_capacity self.old.notes }
        ensures kept { KeepsWith task placed attempt
            self.old.notes.items self.new.notes.items }
        ensures whole { self.new.is_whole ≡ self.old.is_whole }
        ensures stamped { HasStamped W.shows self.old self.new }
    {
        let begin = self.latest;
        let end = stamp(&mut self.watch, begin);
        let PlacedReply { reply, place } = placed;
        numbers_of_a_reply(&reply);
        self.latest = end;
        self.notes.push_reserved(CompletedCall {
            begin,
            end,
            task,
            reply,
            place,
            attempt,
        });
    }
}

impl<W: StampClock> Recorder for CallRecorder<W> {
    ghost use Rattle.std.specs.Prelude.{◌≡◌, ◌<◌, Some, None, OnOk, OnErr, false, vec_len, vec_capacity};
    ghost use Rattle.vac_manager.specs.Keeping.{HasKept};
    ghost use Rattle.load_record.specs.Stamps.{IsStamp};
    ghost use Rattle.load_record.specs.Stamped.{HasStamped};

    ghost notes = { λ journal. Some journal.notes.items };

    ghost traced = { λ _. None };

    ghost latest = { λ _. 0 };

    ghost ready = { λ journal. vec_len journal.notes < vec_capacity journal.notes };

    type Tracing = Untraced;

    /// Reserves room for a call and reads the clock once. If room is refused, the clock is not
    /// read, and the call recorder is incomplete from then on.
    ///
    /// Not said: that the call begins right after this reading.
    fn begin(&mut self) -> Result<(), AllocError>
        ensures same { self.new.notes.items ≡ self.old.notes.items }
        ensures room { OnOk result (vec_len self.new.notes < vec_capacity self.new.notes) }
        ensures whole { OnOk result (self.new.is_whole ≡ self.old.is_whole) }
        ensures partial { OnErr result (self.new.is_whole ≡ false) }
        ensures read { OnOk result (IsStamp W.shows self.old.watch self.new.watch
            self.old.latest self.new.latest) }
        ensures unread { OnErr result
            ((self.new.watch ≡ self.old.watch) × (self.new.latest ≡ self.old.latest)) }
    {
        if self.notes.reserve(1).is_err() {
            self.is_whole = false;
            return Err(AllocError);
        }
        self.latest = stamp(&mut self.watch, self.latest);
        Ok(())
    }

    fn lend(&mut self) -> Untraced
        ensures { self.new ≡ self.old }
    {
        Untraced
    }

    fn take_back(&mut self, tracer: Untraced)
        ensures { self.new ≡ self.old }
    {
        let Untraced = tracer;
    }

    /// Records a completed call, which ends at the next reading of the clock.
    ///
    /// Not said: that `begin` was called since the last call was recorded, and that the call ended
    /// right before this one; that a call without room is not issued. The caller guarantees all
    /// three.
    fn keep(&mut self, task: Task, placed: PlacedReply)
        requires { vec_len self.old.notes < vec_capacity self.old.notes }
        ensures kept { HasKept task placed None
            (Some self.old.notes.items) (Some self.new.notes.items) }
        ensures whole { self.new.is_whole ≡ self.old.is_whole }
        ensures stamped { HasStamped W.shows self.old self.new }
    {
        self.keep_with(task, placed, None);
    }
}
