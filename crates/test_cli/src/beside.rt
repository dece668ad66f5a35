//! Loops of a load's clients in threads, beside one more client that asks for reports.
ghost use Rattle.std.specs.Prelude.{◌≡◌, ◌*◌};

use crate::loading::opened;
use crate::same::{holds, same};
use crate::small_load::SETTINGS;
use load_run::{Outcomes, count_loop};
use load_tasks::{FixedDraws, PcgDraws, Settings};
use std::alloc::Global;
use std::process::Abort;
use std::sync::atomic::{AtomicU32, Ordering};
use std::test::Fail;
use std::thread;
use std::thread::Threads;
use stm_attempt::{Gate, Point};
use vac_audit::{AuditFault, audit_words};
use vac_manager::{Client, Manager, NoRecorder, call};
use vac_model::{Command, Reply, Report, Task};

/// Number of loops.
const LOOPS: u32 = 4;

/// Settings in which each task is a trip with one ask. The item has more units than there are asks
/// for it, so each completed trip books one unit.
const TRIPS: Settings = Settings {
    clients: LOOPS,
    tasks: 1_000,
    items: 4,
    asks: 1,
    user: 100,
    tries: 10_000,
    ..SETTINGS
};

/// The drawn word of the setup phase: it gives each item 500 units, at 90 each.
const STOCK: u32 = 4;

/// Largest number of reports that are issued.
const MOST_REPORTS: u32 = 1_000_000;

/// Attempts that each report may make at most.
const TRIES: u32 = 1_000;

/// Returns the report of the state after the setup phase and `trips` trips.
fn after(trips: u64) -> Report {
    Report {
        cars: 4,
        flights: 4,
        rooms: 4,
        customers: 4,
        bookings: trips,
        used: trips,
        free: 6_000u64.wrapping_sub(trips),
        total: 6_000,
        billed: trips.wrapping_mul(90),
    }
}

/// Counters that the threads share.
#[derive(Drop)]
struct Shown {
    /// Completed reports.
    reports: AtomicU32,
    /// Loops that have ended.
    over: AtomicU32,
}

impl Shown {
    /// Waits until one more report completed. Bounded loop: a test must end.
    fn wait_for_a_report(&self) {
        let seen = self.reports.load(Ordering::SeqCst);
        for _ in 0..1_000_000u32 {
            if self.reports.load(Ordering::SeqCst) != seen {
                return;
            }
            thread::yield_now();
        }
    }
}

/// A gate that waits for a report after each sixteenth completed call.
#[derive(Drop)]
struct Paced<'a> {
    shown: &'a Shown,
    answers: u32,
}

impl<'a> Gate for Paced<'a> {
    fn at(&mut self, point: Point) {
        if point != Point::Answered {
            return;
        }
        self.answers = self.answers.wrapping_add(1);
        if self.answers % 16 == 0 {
            self.shown.wait_for_a_report();
        }
    }
}

/// A client whose loop has ended, with the counts of its tasks.
type Looped = (Client, Outcomes);

/// Runs the loop of a client.
fn run_loop(alloc: Global, manager: &Manager, client: Client, shown: &Shown, stream: u64) -> Looped
    requires { client.table ≡ manager.now.table }
    ensures { result.0.table ≡ manager.now.table }
{
    let mut caller = manager.caller(client);
    let mut draws = PcgDraws::new(TRIPS.seed, stream);
    let mut gate = Paced { shown, answers: 0 };
    let keep = &mut NoRecorder;
    let counts = count_loop(alloc, &mut caller, &mut draws, &TRIPS, &mut gate, keep);
    let (outcomes, _efforts) = counts.apart();
    shown.over.fetch_add(1, Ordering::SeqCst);
    (caller.into_user(), outcomes)
}

/// Counts of the completed reports.
#[derive(Clone, Copy, Debug, PartialEq, Eq)]
struct Reports {
    /// Reports of the state after the setup phase and some trips, no fewer trips than in the
    /// report before.
    sound: u32,
    others: u32,
    /// Number of trips in the last report.
    trips: u64,
}

impl Reports {
    fn count(&mut self, report: &Report) {
        if *report == after(report.used) && self.trips <= report.used {
            self.sound = self.sound.wrapping_add(1);
        } else {
            self.others = self.others.wrapping_add(1);
        }
        self.trips = report.used;
    }
}

/// Asks for reports until all loops have ended.
fn ask_for_reports(manager: &Manager, client: Client, shown: &Shown) -> (Client, Reports)
    requires { client.table ≡ manager.now.table }
    ensures { result.0.table ≡ manager.now.table }
{
    let mut caller = manager.caller(client);
    let mut reports = Reports {
        sound: 0,
        others: 0,
        trips: 0,
    };
    for _ in 0..MOST_REPORTS {
        if shown.over.load(Ordering::SeqCst) == LOOPS {
            break;
        }
        if let Ok(Reply::Report(report)) = call(&mut caller, &Task::One(Command::Audit), TRIES) {
            reports.count(&report);
            shown.reports.fetch_add(1, Ordering::SeqCst);
        }
    }
    (caller.into_user(), reports)
}

/// Runs the loops of two clients in threads.
fn two_loops<R: Threads + Sync>(
    rt: &R,
    alloc: Global,
    manager: &Manager,
    clients: (Client, Client),
    shown: &Shown,
    stream: u64,
) -> (Looped, Looped)
    requires { (clients.0.table ≡ manager.now.table) × (clients.1.table ≡ manager.now.table) }
    ensures { (result.0.0.table ≡ manager.now.table) × (result.1.0.table ≡ manager.now.table) }
{
    let (first, second) = clients;
    let next = stream.wrapping_add(1);
    thread::join(
        rt,
        move || -> Looped
            requires { first.table ≡ manager.now.table }
            ensures { result.0.table ≡ manager.entry.now.table }
        { run_loop(alloc, manager, first, shown, stream) },
        move || -> Looped
            requires { second.table ≡ manager.now.table }
            ensures { result.0.table ≡ manager.entry.now.table }
        { run_loop(alloc, manager, second, shown, next) },
    )
}

/// Runs the loops of two clients in threads, while another client asks for reports.
fn two_loops_and_reports<R: Threads + Sync>(
    rt: &R,
    alloc: Global,
    manager: &Manager,
    clients: (Client, Client),
    other: Client,
    shown: &Shown,
) -> ((Looped, Looped), (Client, Reports))
    requires clients { (clients.0.table ≡ manager.now.table)
        × (clients.1.table ≡ manager.now.table) }
    requires other { other.table ≡ manager.now.table }
    ensures clients { (result.0.0.0.table ≡ manager.now.table)
        × (result.0.1.0.table ≡ manager.now.table) }
    ensures other { result.1.0.table ≡ manager.now.table }
{
    thread::join(
        rt,
        move || -> (Looped, Looped)
            requires { (clients.0.table ≡ manager.now.table)
                × (clients.1.table ≡ manager.now.table) }
            ensures { (result.0.0.table ≡ manager.entry.now.table)
                × (result.1.0.table ≡ manager.entry.now.table) }
        { two_loops(rt, alloc, manager, clients, shown, 3) },
        move || -> (Client, Reports)
            requires { other.table ≡ manager.now.table }
            ensures { result.0.table ≡ manager.entry.now.table }
        { ask_for_reports(manager, other, shown) },
    )
}

/// The results of all threads: the client that gathered the others, the counts of each loop, and
/// the reports.
#[derive(Drop)]
struct Left {
    client: Client,
    tallies: [Outcomes; 4],
    reports: Reports,
}

/// Splits off a client. Returns the client from which it was split off, and the new client.
fn split(rt: &impl Abort, manager: &Manager, client: Client) -> (Client, Client)
    requires { client.table ≡ manager.now.table }
    ensures { (result.0.table ≡ manager.now.table) × (result.1.table ≡ manager.now.table) }
{
    let mut caller = manager.caller(client);
    let other = caller.split().expect(rt, "there are grants");
    (caller.into_user(), other.into_user())
}

/// Gathers another client. Returns the client that gathered it.
fn gather(manager: &Manager, client: Client, other: Client) -> Client
    requires { (client.table ≡ manager.now.table) × (other.table ≡ manager.now.table) }
    ensures { result.table ≡ manager.now.table }
{
    let mut caller = manager.caller(client);
    caller.gather(manager.caller(other));
    caller.into_user()
}

/// Runs the loops of four clients in threads, while a fifth client asks for reports.
fn four_loops_and_reports<R: Threads + Sync + Abort>(
    rt: &R,
    alloc: Global,
    manager: &Manager,
    a: Client,
    shown: &Shown,
) -> Left
    requires { a.table ≡ manager.now.table }
    ensures { result.client.table ≡ manager.now.table }
{
    let (a, b) = split(rt, manager, a);
    let (a, c) = split(rt, manager, a);
    let (a, d) = split(rt, manager, a);
    let (a, e) = split(rt, manager, a);
    let ((first, second), ((third, fourth), (e, reports))) = thread::join(
        rt,
        move || -> (Looped, Looped)
            requires { (a.table ≡ manager.now.table) × (b.table ≡ manager.now.table) }
            ensures { (result.0.0.table ≡ manager.entry.now.table)
                × (result.1.0.table ≡ manager.entry.now.table) }
        { two_loops(rt, alloc, manager, (a, b), shown, 1) },
        move || -> ((Looped, Looped), (Client, Reports))
            requires { (c.table ≡ manager.now.table) × (d.table ≡ manager.now.table)
                × (e.table ≡ manager.now.table) }
            ensures { (result.0.0.0.table ≡ manager.entry.now.table)
                × (result.0.1.0.table ≡ manager.entry.now.table)
                × (result.1.0.table ≡ manager.entry.now.table) }
        { two_loops_and_reports(rt, alloc, manager, (c, d), e, shown) },
    );
    let (client, outcomes) = first;
    let client = gather(manager, client, second.0);
    let client = gather(manager, client, third.0);
    let client = gather(manager, client, fourth.0);
    Left {
        client: gather(manager, client, e),
        tallies: [outcomes, second.1, third.1, fourth.1],
        reports,
    }
}

/// Returns the report of the words of a closed manager.
fn audited(
    rt: &impl Abort,
    alloc: Global,
    manager: Manager,
    client: Client,
) -> Result<Report, AuditFault>
    requires { client.table ≡ manager.table }
{
    let Ok((words, _)) = manager.close(client) else {
        panic!(rt; "it stayed open")
    };
    audit_words(alloc, words.as_slice())
}

/// Returns the number of tasks that ended.
fn ended(outcomes: Outcomes) -> u64 {
    outcomes
        .answered
        .wrapping_add(outcomes.busy)
        .wrapping_add(outcomes.memory)
        .wrapping_add(outcomes.spent)
}

/// Fails if a report mixes numbers from before a trip with numbers from after the trip: such a
/// report is not that of any number of trips.
#[test]
fn loops_beside_reports(rt: HostRuntime) -> Result<(), Fail> {
    let alloc = rt.alloc();
    let shown = Shown {
        reports: AtomicU32::new(0),
        over: AtomicU32::new(0),
    };
    let (manager, client) = opened(alloc, &TRIPS, &mut FixedDraws(STOCK))?;
    let Left {
        client,
        tallies,
        reports,
    } = four_loops_and_reports(&rt, alloc, &manager, client, &shown);
    let audited = audited(&rt, alloc, manager, client);
    same(&rt, &tallies.map(ended), &[u64::from(TRIPS.tasks); 4]);
    let [a, b, c, d] = tallies.map(|outcomes| outcomes.answered);
    let answered = a.wrapping_add(b).wrapping_add(c).wrapping_add(d);
    same(&rt, &audited, &Ok(after(answered)));
    same(&rt, &reports.others, &0);
    holds(&rt, reports.sound >= 24);
    Ok(())
}
