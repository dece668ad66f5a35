//! Clients in threads, and one client that audits at the same time.
ghost use Rattle.std.specs.Prelude.{◌≡◌};

use crate::draws::{BLOCKS, draw_task};
use crate::managers::{gather, open, split};
use crate::same::{holds, same};
use crate::scripts::LAST;
use rand_pcg::Pcg32;
use std::alloc::Global;
use std::process::Abort;
use std::thread;
use std::thread::Threads;
use vac_audit::audit_words;
use vac_manager::{Client, Manager, call};
use vac_model::{Command, Reply, Report, Task};

/// Number of random tasks of each client, and number of reports that the auditing client requests.
const TASKS: u32 = 2_000;

/// Largest number of attempts of each call.
const TRIES: u32 = 1_000;

/// Counts of the reports that calls returned.
#[derive(Clone, Copy, Debug, PartialEq, Eq)]
struct Reports {
    /// Reports in which the used units are the booked ones, and used and free units make the
    /// total.
    sound: u32,
    others: u32,
}

fn is_sound(report: &Report) -> bool {
    report.used == report.bookings && report.used.wrapping_add(report.free) == report.total
}

/// Runs random tasks.
fn run_tasks(alloc: Global, manager: &Manager, client: Client, seed: u64) -> Client
    requires { client.table ≡ manager.now.table }
    ensures { result.table ≡ manager.now.table }
{
    let mut caller = manager.caller(client);
    let mut draws = Pcg32::new(seed, 5);
    for _ in 0..TASKS {
        if let Ok(task) = draw_task(alloc, &mut draws) {
            let _ = call(&mut caller, &task, TRIES);
        }
    }
    caller.into_user()
}

/// Requests reports, and counts those that are sound.
fn audit(manager: &Manager, client: Client) -> (Client, Reports)
    requires { client.table ≡ manager.now.table }
    ensures { result.0.table ≡ manager.now.table }
{
    let mut caller = manager.caller(client);
    let mut reports = Reports {
        sound: 0,
        others: 0,
    };
    for _ in 0..TASKS {
        if let Ok(Reply::Report(report)) = call(&mut caller, &Task::One(Command::Audit), TRIES) {
            if is_sound(&report) {
                reports.sound = reports.sound.wrapping_add(1);
            } else {
                reports.others = reports.others.wrapping_add(1);
            }
        }
    }
    (caller.into_user(), reports)
}

/// Runs random tasks of two clients, each in a thread.
fn two_clients<R: Threads + Sync>(
    rt: &R,
    alloc: Global,
    manager: &Manager,
    first: Client,
    second: Client,
    seed: u64,
) -> (Client, Client)
    requires { (first.table ≡ manager.now.table) × (second.table ≡ manager.now.table) }
    ensures { (result.0.table ≡ manager.now.table) × (result.1.table ≡ manager.now.table) }
{
    let next = seed.wrapping_add(1);
    thread::join(
        rt,
        move || -> Client
            requires { first.table ≡ manager.now.table }
            ensures { result.table ≡ manager.entry.now.table }
        { run_tasks(alloc, manager, first, seed) },
        move || -> Client
            requires { second.table ≡ manager.now.table }
            ensures { result.table ≡ manager.entry.now.table }
        { run_tasks(alloc, manager, second, next) },
    )
}

/// Runs random tasks of two clients, while another client requests reports.
fn two_and_another<R: Threads + Sync>(
    rt: &R,
    alloc: Global,
    manager: &Manager,
    clients: (Client, Client),
    other: Client,
) -> ((Client, Client), (Client, Reports))
    requires clients { (clients.0.table ≡ manager.now.table)
        × (clients.1.table ≡ manager.now.table) }
    requires other { other.table ≡ manager.now.table }
    ensures clients { (result.0.0.table ≡ manager.now.table)
        × (result.0.1.table ≡ manager.now.table) }
    ensures other { result.1.0.table ≡ manager.now.table }
{
    let (first, second) = clients;
    thread::join(
        rt,
        move || -> (Client, Client)
            requires { (first.table ≡ manager.now.table) × (second.table ≡ manager.now.table) }
            ensures { (result.0.table ≡ manager.entry.now.table)
                × (result.1.table ≡ manager.entry.now.table) }
        { two_clients(rt, alloc, manager, first, second, 3) },
        move || -> (Client, Reports)
            requires { other.table ≡ manager.now.table }
            ensures { result.0.table ≡ manager.entry.now.table }
        { audit(manager, other) },
    )
}

/// Runs random tasks of four clients, while a fifth client requests reports. Returns the first
/// client, which gathered the others, and the counts of the reports.
fn four_and_another<R: Threads + Sync + Abort>(
    rt: &R,
    alloc: Global,
    manager: &Manager,
    a: Client,
) -> (Client, Reports)
    requires { a.table ≡ manager.now.table }
    ensures { result.0.table ≡ manager.now.table }
{
    let (a, b) = split(rt, manager, a);
    let (a, c) = split(rt, manager, a);
    let (a, d) = split(rt, manager, a);
    let (a, e) = split(rt, manager, a);
    let ((a, b), ((c, d), (e, reports))) = thread::join(
        rt,
        move || -> (Client, Client)
            requires { (a.table ≡ manager.now.table) × (b.table ≡ manager.now.table) }
            ensures { (result.0.table ≡ manager.entry.now.table)
                × (result.1.table ≡ manager.entry.now.table) }
        { two_clients(rt, alloc, manager, a, b, 1) },
        move || -> ((Client, Client), (Client, Reports))
            requires { (c.table ≡ manager.now.table) × (d.table ≡ manager.now.table)
                × (e.table ≡ manager.now.table) }
            ensures { (result.0.0.table ≡ manager.entry.now.table)
                × (result.0.1.table ≡ manager.entry.now.table)
                × (result.1.0.table ≡ manager.entry.now.table) }
        { two_and_another(rt, alloc, manager, (c, d), e) },
    );
    let (a, c) = (gather(manager, a, b), gather(manager, c, d));
    (gather(manager, gather(manager, a, c), e), reports)
}

/// A report with one number from before a reservation and one from after it would not be sound.
#[test]
fn reports_amid_random_tasks(rt: HostRuntime) {
    let alloc = rt.alloc();
    let (manager, client) = open(&rt, alloc, BLOCKS, LAST);
    let (client, reports) = four_and_another(&rt, alloc, &manager, client);
    let Ok((words, _)) = manager.close(client) else {
        panic!(rt; "it stayed open")
    };
    holds(&rt, reports.sound > 0);
    same(&rt, &reports.others, &0);
    holds(&rt, audit_words(alloc, words.as_slice()).is_ok());
}
