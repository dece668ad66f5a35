//! Loads that write progress lines while they run.

ghost use Rattle.std.specs.Prelude.{◌≡◌, IfSome};
ghost use Rattle.load_run.specs.Keeping.{contents};
ghost use Rattle.vac_lines.specs.Writing.{AppendsPrefix};
ghost use Rattle.cli_main.specs.Load.{HasRun, RunsKept, ReportsProgress};
ghost use Rattle.cli_main.specs.Statistics.{WritesProgress, progress_line, task_count};

use crate::timer::LoadTimer;
use cli_common::{has_passed, pause, write_text};
use cli_options::LoadOutput;
use load_run::{AttemptStatistics, Load, LoadFault, LoadReport, Recorders};
use load_tasks::{PcgDraws, Settings};
use std::alloc::Global;
use std::io::Write;
use std::sync::Wait;
use std::sync::atomic::{AtomicBool, AtomicU64, Ordering};
use std::thread;
use std::thread::{Parker, Threads};
use std::time::{Clock, Instant};
use stm_attempt::{Gate, Point};
use vac_manager::Recorder;

/// The gate of a client that counts completed tasks and passes each event on to another gate.
#[derive(Clone, Copy, Drop)]
struct Counter<'a, G> {
    answered: &'a AtomicU64,
    gate: G,
}

impl<G: Gate> Gate for Counter<'_, G> {
    fn at(&mut self, point: Point) {
        if point == Point::Answered {
            self.answered.fetch_add(1, Ordering::SeqCst);
        }
        self.gate.at(point);
    }

    fn ready(&mut self) {
        self.gate.ready();
    }

    fn done(&mut self) {
        self.gate.done();
    }
}

/// State that a load shares with the thread that writes its progress lines.
#[derive(Drop)]
struct Progress {
    answered: AtomicU64,
    has_ended: AtomicBool,
    teller: Parker,
}

impl Progress {
    fn new() -> Progress {
        Progress {
            answered: AtomicU64::new(0),
            has_ended: AtomicBool::new(false),
            teller: Parker::new(),
        }
    }

    /// Runs the load, and then ends the thread that writes progress lines.
    fn run<T: Threads + Wait, G: Gate + Send + Drop, K: Recorder + Send + Drop>(
        &self,
        rt: &T,
        load: Load<PcgDraws, G, K>,
    ) -> Result<(LoadReport, AttemptStatistics, Recorders<K>), LoadFault>
    where
        K::Tracing: Send,
        ensures { HasRun (contents K.notes K.traced K.latest) load result }
    {
        let loaded = load.run(rt);
        self.has_ended.store(true, Ordering::SeqCst);
        self.teller.unpark();
        loaded
    }

    /// Writes a line each time the pause has passed, until the load has ended. If the time cannot
    /// be read, nothing is written.
    fn tell<T: Wait + Clock + AllocGlobal, E: Write>(&self, rt: &T, all: u64, errors: &mut E)
        ensures { WritesProgress all (E.contents errors.old) (E.contents errors.new) }
    {
        let mut last = Instant::now(rt).ok();
        for _ in rt.forever() {
            self.teller.park_timeout(rt, pause());
            if self.has_ended.load(Ordering::SeqCst) {
                return;
            }
            if has_passed(rt, last) {
                let answered = self.answered.load(Ordering::SeqCst);
                write_progress(rt.alloc(), answered, all, errors);
                last = Instant::now(rt).ok();
            }
        }
    }
}

/// Writes a line of progress: the number of completed tasks and the number of all tasks. If memory
/// or the write is refused, only the line is lost.
fn write_progress<E: Write>(alloc: Global, answered: u64, all: u64, errors: &mut E)
    ensures { AppendsPrefix (E.contents errors.old) (E.contents errors.new)
        (progress_line answered all) }
{
    write_text(
        alloc,
        format_args!("answered {answered} of {all}\n"),
        errors,
    );
}

/// Returns the number of tasks of a load, or the largest number of 64 bits if it is less.
fn all_tasks(settings: &Settings) -> u64
    ensures { result ≡ task_count settings.now }
{
    let of_one = u64::from(settings.rounds) * u64::from(settings.tasks);
    of_one.saturating_mul(u64::from(settings.clients))
}

/// Runs the load of a seed with these recorders, and with the timer as the gate of each client. If
/// the command line asks for progress, writes the number of completed tasks to `errors` while the
/// load runs, at most twice a second.
///
/// If no thread can be started for the progress lines, the load runs and no line is written:
/// `join_mut` then runs the load first, and the writer of the lines finds that the load has ended.
pub(crate) fn run_with_progress<
    T: Threads + Wait + Clock + Sync + AllocGlobal,
    K: Recorder + Send + Drop,
    E: Write + Send,
>(
    rt: &T,
    settings: &Settings,
    how: LoadOutput,
    recorders: Recorders<K>,
    timer: &LoadTimer<T>,
    errors: &mut E,
) -> Result<(LoadReport, AttemptStatistics, Recorders<K>), LoadFault>
where
    K::Tracing: Send,
    ensures kept { RunsKept (contents K.notes K.traced K.latest) settings.now recorders result }
    ensures progress { ReportsProgress how.progress settings.now
        (E.contents errors.old) (E.contents errors.new) }
{
    if !how.progress {
        let load = Load::by_seed(rt.alloc(), settings, timer, recorders)?;
        return load.run(rt);
    }
    let progress = Progress::new();
    let shared = &progress;
    let counter = Counter {
        answered: &shared.answered,
        gate: timer,
    };
    let load = Load::by_seed(rt.alloc(), settings, counter, recorders)?;
    run_telling(rt, shared, load, all_tasks(settings), errors)
}

/// Runs the load, and writes progress lines meanwhile.
fn run_telling<
    T: Threads + Wait + Clock + Sync + AllocGlobal,
    G: Gate + Send + Drop,
    K: Recorder + Send + Drop,
    E: Write + Send,
>(
    rt: &T,
    progress: &Progress,
    load: Load<PcgDraws, G, K>,
    all: u64,
    errors: &mut E,
) -> Result<(LoadReport, AttemptStatistics, Recorders<K>), LoadFault>
where
    K::Tracing: Send,
    ensures run { HasRun (contents K.notes K.traced K.latest) load result }
    ensures lines { WritesProgress all (E.contents errors.old) (E.contents errors.new) }
{
    let mut waiting = Some(load);
    let mut tell = ||
        ensures { WritesProgress all (E.contents errors.entry.now) (E.contents errors.exit.now) }
    { progress.tell(rt, all, errors) };
    // Called once; a closure that moved the load out of itself could not be lent.
    let mut run = || -> Result<(LoadReport, AttemptStatistics, Recorders<K>), LoadFault>
        ensures { IfSome waiting.entry (λ load.
            HasRun (contents K.notes K.traced K.latest) load result) }
    {
        match waiting.take() {
            Some(load) => progress.run(rt, load),
            None => Err(LoadFault::Memory),
        }
    };
    let ((), loaded) = thread::join_mut(rt, &mut tell, &mut run);
    loaded
}
