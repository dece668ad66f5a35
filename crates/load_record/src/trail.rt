//! The tracer of the attempts of a client's calls.

ghost use Rattle.std.specs.Prelude.{◌≡◌, ◌≤◌, true};
ghost use Rattle.load_record.specs.Noted.{none_committed, has_committed};

use crate::accesses::Accesses;
use crate::observed::Observed;
use crate::places::first_place;
use crate::{StampClock, stamp};
use std::alloc::{AllocError, Global};
use std::mem;
use stm_attempt::Stop;
use stm_core::Version;
use tx_memory::{TxMem, TxRead};
use vac_manager::{Body, CommitPosition, Object, TracedAttempt, Tracer};

/// A tracer of the attempts of a client's calls, which reads a clock before and after each
/// attempt. Aborted attempts are collected in the tracer. The attempt that committed stays in the
/// tracer until it is taken.
#[derive(Drop)]
pub struct AttemptTracer<W> {
    alloc: Global,
    watch: W,
    /// The last stamp: the begin of the running attempt, or the end of the last one.
    latest: u64,
    /// The commit position of a record that reads at the running attempt's read version.
    place: CommitPosition,
    accesses: Accesses,
    given_up: Vec<TracedAttempt>,
    committed: Option<TracedAttempt>,
    /// True if there was room for each attempt.
    is_whole: bool,
    ghost aborted: { none_committed given_up.items ≡ true },
    ghost commits: { has_committed committed ≡ true },
}

impl<W: StampClock> AttemptTracer<W> {
    ghost use Rattle.std.specs.Prelude.{[], None, IfSome, IfOk};
    ghost use Rattle.vac_manager.specs.Tracing.{trace_of, IsLastTraced};
    ghost use Rattle.load_record.specs.Known.{ended_by, is_whole_trail};
    ghost use Rattle.load_record.specs.StampedAttempts.{IsStamped};

    /// Returns an empty tracer, whose times are read from this clock.
    pub(crate) fn new(alloc: Global, watch: W) -> AttemptTracer<W>
        ensures given_up { result.given_up.items ≡ [] }
        ensures committed { result.committed ≡ None }
        ensures whole { is_whole_trail result ≡ true }
        ensures fresh { result.latest ≡ 0 }
        ensures watch { result.watch ≡ watch }
    {
        AttemptTracer {
            alloc,
            watch,
            latest: 0,
            place: first_place(false),
            accesses: Accesses::new(alloc),
            given_up: Vec::new(alloc),
            committed: None,
            is_whole: true,
        }
    }

    /// Returns whether there was room for each attempt and for its reads and writes.
    pub(crate) fn is_whole(&self) -> bool
        ensures { result ≡ is_whole_trail self.now }
    {
        self.is_whole && self.accesses.is_whole()
    }

    /// Returns the aborted attempts.
    pub(crate) fn given_up(&self) -> &[TracedAttempt]
        ensures { result.now ≡ self.now.given_up.items }
    {
        self.given_up.as_slice()
    }

    /// Takes out the attempt that committed, and returns it if there was room for all attempts.
    pub(crate) fn take_committed(&mut self) -> Option<Box<TracedAttempt>>
        ensures last { IfSome result (λ a. IsLastTraced (ended_by self.old) (trace_of a.value)) }
        ensures taken { self.new.committed ≡ None }
        ensures given_up { self.new.given_up.items ≡ self.old.given_up.items }
        ensures whole { self.new.is_whole ≡ self.old.is_whole }
        ensures time { self.new.latest ≡ self.old.latest }
    {
        let note = self.committed.take()?;
        if !self.is_whole {
            return None;
        }
        Box::new(self.alloc, note).ok()
    }

    /// Returns the attempt that has ended, with all its reads and writes.
    fn end(&mut self, commits: bool, place: CommitPosition) -> Result<TracedAttempt, AllocError>
        ensures trace { IfOk result (λ a. trace_of a ≡ record {
          commits = commits;
          place = place;
          accesses = self.old.accesses.items.items;
          begin = self.old.latest;
          end = self.new.latest;
        }) }
        ensures all { IfOk result (λ _. self.old.accesses.is_whole ≡ true) }
        ensures accesses { self.new.accesses ≡ self.old.accesses }
        ensures given_up { self.new.given_up ≡ self.old.given_up }
        ensures committed { self.new.committed ≡ self.old.committed }
        ensures whole { self.new.is_whole ≡ self.old.is_whole }
        ensures stamped { IfOk result (λ a. IsStamped W.shows self.old self.new a) }
        ensures time { self.old.latest ≤ self.new.latest }
    {
        let begin = self.latest;
        let end = stamp(&mut self.watch, begin);
        self.latest = end;
        if !self.accesses.is_whole() {
            return Err(AllocError);
        }
        let accesses = self.accesses.copied()?;
        Ok(TracedAttempt {
            begin,
            end,
            commits,
            place,
            accesses,
        })
    }
}

impl<W: StampClock + Copy> AttemptTracer<W> {
    ghost use Rattle.std.specs.Prelude.{[], Some};
    ghost use Rattle.load_record.specs.Known.{ended_by};

    /// Takes the tracer, and leaves an empty one with the same clock.
    pub(crate) fn take(&mut self) -> AttemptTracer<W>
        ensures taken { result ≡ self.old }
        ensures empty { ended_by self.new ≡ Some [] }
        ensures watch { self.new.watch ≡ self.old.watch }
    {
        let empty = AttemptTracer::new(self.alloc, self.watch);
        mem::replace(self, empty)
    }
}

impl<W: StampClock> Tracer for AttemptTracer<W> {
    ghost use Rattle.std.specs.Prelude.{◌≡◌, ◌≤◌, ◌∷◌, ◌++◌, [], false, None, Some, IfSome};
    ghost use Rattle.vac_manager.specs.declared.note.TracedAttempt.{TracedAttempt};
    ghost use Rattle.vac_manager.specs.Tracing.{HasNoAccess, HasTracedCommit, HasTracedAbort};
    ghost use Rattle.load_record.specs.Stamps.{IsStamp};
    ghost use Rattle.load_record.specs.Known.{known, ended_by};
    ghost use Rattle.load_record.specs.StampedAttempts.{IsStamped};

    ghost Frame = { Unit {0} };

    ghost frame = { λ _. tt };

    ghost Tally = { Unit {0} };

    ghost tally = { λ _. tt };

    ghost more = { λ _ t. t };

    ghost ended = { λ t. ended_by t };

    ghost accesses = { λ t. known t.accesses.is_whole t.accesses.items.items };

    ghost position = { λ t. Some t.place };

    ghost latest = { λ t. t.latest };

    /// Reads the clock once.
    ///
    /// Not said: that the attempt begins right after this reading.
    fn prepare(&mut self)
        ensures ended { ended_by self.new ≡ ended_by self.old }
        ensures fresh { HasNoAccess
            (known self.new.accesses.is_whole self.new.accesses.items.items) }
        ensures read { IsStamp W.shows self.old.watch self.new.watch
            self.old.latest self.new.latest }
    {
        self.accesses.clear();
        self.latest = stamp(&mut self.watch, self.latest);
    }

    fn begun(&mut self, renewal: u32, version: Version)
        ensures ended { ended_by self.new ≡ ended_by self.old }
        ensures accesses { known self.new.accesses.is_whole self.new.accesses.items.items
            ≡ known self.old.accesses.is_whole self.old.accesses.items.items }
        ensures place { self.new.place ≡ record {
          renewal = renewal;
          version = version;
          wrote = false;
        } }
        ensures time { self.new.latest ≡ self.old.latest }
    {
        self.place = CommitPosition {
            renewal,
            version,
            wrote: false,
        };
    }

    fn run<S: Object, B: Body<S>, M: TxMem>(
        &mut self,
        memory: &mut M,
        body: &B,
    ) -> Result<B::Answer, M::Stop> {
        let mut observed = Observed::new(memory, &mut self.accesses);
        let Some(answer) = body.run(&mut observed) else {
            unreachable!();
        };
        answer
    }

    fn read<S: Object, B: Body<S>, M: TxRead>(
        &mut self,
        memory: &mut M,
        body: &B,
    ) -> Result<B::Answer, M::Stop> {
        let mut observed = Observed::new(memory, &mut self.accesses);
        let Some(answer) = body.read(&mut observed) else {
            unreachable!();
        };
        answer
    }

    /// Records the attempt that committed, with its commit position.
    ///
    /// Not said: that `prepare` was called since the last attempt ended, and that this attempt
    /// ended right before the call. The caller guarantees both.
    fn commit(&mut self, place: &CommitPosition)
        ensures ended { HasTracedCommit place.now
            (known self.old.accesses.is_whole self.old.accesses.items.items)
            self.old.latest self.new.latest (ended_by self.old) (ended_by self.new) }
        ensures stamped { self.old.committed ≡ None →
            IfSome self.new.committed (λ a. IsStamped W.shows self.old self.new a) }
        ensures time { self.old.latest ≤ self.new.latest }
    {
        match self.end(true, *place) {
            Ok(note) if self.committed.is_none() => self.committed = Some(note),
            _ => self.is_whole = false,
        }
    }

    /// Records an aborted attempt, with the commit position of a reader at the attempt's read
    /// version.
    ///
    /// Not said: as for `commit`.
    fn give_up(&mut self, _stop: &Stop)
        ensures ended { HasTracedAbort (Some self.old.place)
            (known self.old.accesses.is_whole self.old.accesses.items.items)
            self.old.latest self.new.latest (ended_by self.old) (ended_by self.new) }
        ensures stamped { (a : TracedAttempt) →
            self.new.given_up.items ≡ self.old.given_up.items ++ (a ∷ []) →
            IsStamped W.shows self.old self.new a }
        ensures placed { (a : TracedAttempt) →
            self.new.given_up.items ≡ self.old.given_up.items ++ (a ∷ []) →
            a.place ≡ self.old.place }
        ensures time { self.old.latest ≤ self.new.latest }
    {
        let Ok(note) = self.end(false, self.place) else {
            self.is_whole = false;
            return;
        };
        if self.committed.is_some() || self.given_up.push(note).is_err() {
            self.is_whole = false;
        }
    }
}
