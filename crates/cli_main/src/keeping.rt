//! Loads that record the calls of their clients, and write them.

ghost use Rattle.std.specs.Prelude.{◌≡◌, ◌<◌, ◌^◌, true, [], Some, ℕ, Bool, List, Option, length};
ghost use Rattle.std.specs.Prelude.{vec_len, All, IfOk};
ghost use Rattle.load_tasks.specs.declared.settings.Settings.{Settings};
ghost use Rattle.load_tasks.specs.Setting.{is_settings};
ghost use Rattle.load_run.specs.declared.slots.Recorders.{Recorders};
ghost use Rattle.cli_main.specs.Ending.{EndsWithStatus};
ghost use Rattle.load_run.specs.declared.summary.LoadSummary.{LoadSummary};
ghost use Rattle.cli_main.specs.Load.{AreNoted, EndsLoad, IsEmpty, StoppedKept};
ghost use Rattle.cli_main.specs.Load.{WroteCalls, WroteCallsInPart, WroteLoadAttempts};
ghost use Rattle.cli_main.specs.Load.{StoppedAttempts};
ghost use Rattle.load_run.specs.Keeping.{contents};

use crate::load::{LoadRequest, tell_summary};
use crate::status::{end_by, end_by_settings, end_done, end_load_by, end_long_attempt};
use crate::telling::run_with_progress;
use crate::timer::LoadTimer;
use cli_common::DONE;
use load_record::{
    AttemptRecorder, CallRecorder, ElapsedClock, StampClock, write_attempts, write_history,
};
use load_run::{LoadFault, LoadSummary, Recorders};
use load_tasks::Settings;
use std::alloc::{AllocError, Global};
use std::io::Write;
use std::sync::Wait;
use std::thread::Threads;
use std::time::{Clock, Instant};
use vac_manager::Recorder;

/// A load that ran to its end, and its recorders.
#[derive(Drop)]
pub(crate) struct KeptLoad<'a, K> {
    alloc: Global,
    settings: &'a Settings,
    summary: LoadSummary,
    recorders: Recorders<K>,
}

/// A recorder of a client's calls that reads times from a clock, and writes the calls of a whole
/// load.
pub(crate) trait Transcript<W>: Recorder + Sized {
    /// The calls of a load of these settings, which ended with this summary, were written.
    ghost wrote: { Settings → LoadSummary → Option (List ℕ) → Option (List ℕ) → Type 0 };

    /// The calls of such a load were not all written, and a fault was named.
    ghost stopped: { Settings → LoadSummary → Option (List ℕ) → Option (List ℕ) → Type 0 };

    /// The recorders had room for all calls.
    ghost are_whole: { Recorders Self → Bool };

    /// Returns a recorder without calls.
    fn empty(alloc: Global, watch: W) -> Self
        ensures { IsEmpty (contents Self.notes Self.traced Self.latest result) };

    /// Returns whether the recorders had room for all calls.
    fn are_whole(recorders: &Recorders<Self>) -> bool
        ensures { result ≡ are_whole recorders.now };

    /// Writes the calls of a load, or the last line after a fault, and returns the status.
    fn write<O: Write>(load: &KeptLoad<'_, Self>, output: &mut O) -> u8
        requires fits { is_settings load.now.settings.now ≡ true }
        requires noted { AreNoted (contents Self.notes Self.traced Self.latest)
            load.now.settings.now load.now.summary load.now.recorders }
        requires whole { are_whole load.now.recorders ≡ true }
        requires few { length load.now.recorders.clients.items < 2 ^ 32 }
        ensures { EndsWithStatus result
            (wrote load.now.settings.now load.now.summary
            (O.contents output.old) (O.contents output.new))
            (stopped load.now.settings.now load.now.summary
            (O.contents output.old) (O.contents output.new)) };
}

impl<W: StampClock> Transcript<W> for CallRecorder<W> {
    ghost use Rattle.load_record.specs.History as history;
    ghost use Rattle.cli_main.specs.Load.{WroteCalls, WroteCallsInPart, StoppedKept};

    ghost wrote = { WroteCalls };

    ghost stopped = { StoppedKept WroteCallsInPart };

    ghost are_whole = { λ k. history.are_whole k.opening k.clients.items };

    fn empty(alloc: Global, watch: W) -> CallRecorder<W> {
        CallRecorder::new(alloc, watch)
    }

    fn are_whole(recorders: &Recorders<CallRecorder<W>>) -> bool {
        load_record::are_whole(&recorders.opening, recorders.clients.as_slice())
    }

    fn write<O: Write>(load: &KeptLoad<'_, CallRecorder<W>>, output: &mut O) -> u8 {
        let Recorders { opening, clients } = &load.recorders;
        let written = write_history(load.alloc, opening, clients.as_slice(), output);
        end_done(written, output)
    }
}

impl<W: StampClock + Copy + Drop> Transcript<W> for AttemptRecorder<W> {
    ghost use Rattle.load_record.specs.Known.{are_whole_ledgers};
    ghost use Rattle.cli_main.specs.Load.{WroteLoadAttempts, StoppedAttempts};

    ghost wrote = { WroteLoadAttempts };

    ghost stopped = { StoppedAttempts };

    ghost are_whole = { λ k. are_whole_ledgers k.opening k.clients.items };

    fn empty(alloc: Global, watch: W) -> AttemptRecorder<W> {
        AttemptRecorder::new(alloc, watch)
    }

    fn are_whole(recorders: &Recorders<AttemptRecorder<W>>) -> bool {
        load_record::are_whole_attempts(&recorders.opening, recorders.clients.as_slice())
    }

    fn write<O: Write>(load: &KeptLoad<'_, AttemptRecorder<W>>, output: &mut O) -> u8 {
        let Recorders { opening, clients } = &load.recorders;
        let (blocks, clients) = (load.settings.blocks, clients.as_slice());
        match write_attempts(load.alloc, blocks, opening, clients, output) {
            Ok(true) => DONE,
            Ok(false) => end_long_attempt(output),
            Err(fault) => end_by(fault, output),
        }
    }
}

/// Returns the empty recorders of a load of `count` clients, with one clock and one start.
fn empty_recorders<'a, T: Clock, K: Transcript<ElapsedClock<'a, T>> + Drop>(
    alloc: Global,
    clock: &'a T,
    count: u32,
) -> Result<Recorders<K>, AllocError>
    ensures number { IfOk result (λ recorders. vec_len recorders.clients ≡ count) }
    ensures opening { IfOk result (λ recorders.
        IsEmpty (contents K.notes K.traced K.latest recorders.opening)) }
    ensures clients { IfOk result (λ recorders.
        All (λ x. IsEmpty (contents K.notes K.traced K.latest x)) recorders.clients.items) }
{
    let start = Instant::now(clock).ok();
    let mut clients = Vec::with_capacity(alloc, count as usize)?;
    for number in 0..count {
        clients.push(K::empty(alloc, ElapsedClock::new(clock, start)))?;
    }
    let opening = K::empty(alloc, ElapsedClock::new(clock, start));
    Ok(Recorders { opening, clients })
}

impl<'a, T: Threads + Wait + Clock + Sync + AllocGlobal> LoadRequest<'a, T> {
    /// Runs the load, writes the history of its calls, writes its two lines to `errors`, and
    /// returns the status. A call for which a call recorder had no room was not issued, and the
    /// load then ends with the fault of refused memory.
    pub(crate) fn note<W: Write, E: Write + Send>(&self, output: &mut W, errors: &mut E) -> u8
        ensures { EndsLoad WroteCalls (StoppedKept WroteCallsInPart) self.now.how result
            self.now.settings.now (W.contents output.old) (W.contents output.new)
            (E.contents errors.old) (E.contents errors.new) }
    {
        let (clock, count) = (self.rt, self.settings.clients);
        let recorders = empty_recorders::<T, CallRecorder<ElapsedClock<'a, T>>>(
            clock.alloc(),
            clock,
            count,
        );
        self.keep(recorders, output, errors)
    }

    /// Runs the load, writes the attempts of its calls, writes its two lines to `errors`, and
    /// returns the status. If there was no room for a call, for an attempt, or for the reads and
    /// writes of an attempt, the load ends with the fault of refused memory. If the judge of
    /// opacity may not be able to read the line of an attempt, no attempt is written, and the load
    /// ends with a fault of its own.
    pub(crate) fn trace<W: Write, E: Write + Send>(&self, output: &mut W, errors: &mut E) -> u8
        ensures { EndsLoad WroteLoadAttempts StoppedAttempts self.now.how result
            self.now.settings.now (W.contents output.old) (W.contents output.new)
            (E.contents errors.old) (E.contents errors.new) }
    {
        let (clock, count) = (self.rt, self.settings.clients);
        let recorders = empty_recorders::<T, AttemptRecorder<ElapsedClock<'a, T>>>(
            clock.alloc(),
            clock,
            count,
        );
        self.keep(recorders, output, errors)
    }

    /// Runs the load with these recorders, writes the recorded calls, writes the load's two lines
    /// to `errors`, and returns the status. If a recorder had no room, the load ends with the
    /// fault of refused memory.
    fn keep<K: Transcript<ElapsedClock<'a, T>> + Send + Drop, W: Write, E: Write + Send>(
        &self,
        recorders: Result<Recorders<K>, AllocError>,
        output: &mut W,
        errors: &mut E,
    ) -> u8
    where
        K::Tracing: Send,
        requires number { IfOk recorders (λ k. vec_len k.clients ≡ self.now.settings.now.clients) }
        requires opening { IfOk recorders (λ k.
            IsEmpty (contents K.notes K.traced K.latest k.opening)) }
        requires clients { IfOk recorders (λ k.
            All (λ x. IsEmpty (contents K.notes K.traced K.latest x)) k.clients.items) }
        ensures { EndsLoad K.wrote K.stopped self.now.how result self.now.settings.now
            (W.contents output.old) (W.contents output.new)
            (E.contents errors.old) (E.contents errors.new) }
    {
        if !self.settings.is_in_range() {
            return end_by_settings(self.rt.alloc(), self.settings, output, errors);
        }
        let alloc = self.rt.alloc();
        let Ok(empty) = recorders else {
            return end_load_by(LoadFault::Memory, output);
        };
        let timer = LoadTimer::new(self.rt, self.settings.clients);
        let (report, statistics, recorders) = match run_with_progress(
            self.rt,
            self.settings,
            self.how,
            empty,
            &timer,
            errors,
        ) {
            Ok(loaded) => loaded,
            Err(fault) => return end_load_by(fault, output),
        };
        if !K::are_whole(&recorders) {
            return end_load_by(LoadFault::Memory, output);
        }
        let (settings, nanos) = (self.settings, timer.nanos());
        let summary = LoadSummary {
            nanos,
            report,
            statistics,
        };
        tell_summary(alloc, self.how, &summary, errors);
        let load = KeptLoad {
            alloc,
            settings,
            summary,
            recorders,
        };
        K::write(&load, output)
    }
}
