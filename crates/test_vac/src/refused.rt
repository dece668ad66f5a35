//! Memory refused to a call: the state is as before, and the repeated call returns its proper
//! reply. The script `tests/refused_calls.sh` runs this test with each allocation refused in turn,
//! and reads the lines that it prints; in any other run no memory is refused. Another client is
//! out while the calls are made, and each call has two attempts: a call that is refused memory
//! does not make the second.
ghost use Rattle.std.specs.Prelude.{◌≡◌, ◌*◌, IfOk};

use crate::calls::{Answer, call_gated};
use crate::points::Points;
use crate::same::{holds, same};
use crate::scripts::{
    Answered, LAST, Line, add, add_command, audit, cancel, free, new_customer, number, pick,
    report, reserve, task_of, trip,
};
use std::alloc::Global;
use std::process::Abort;
use stm_region::RegionFault;
use vac_audit::{AuditFault, audit_words};
use vac_manager::{Caller, Client, Fault, Manager, RenewFault, call};
use vac_model::Kind::{Car, Room};
use vac_model::Refusal::Exists;
use vac_model::Reply::Done;
use vac_model::{Command, CustomerOutcome, Reply, Report, Task, UpdateReply};

/// Number of blocks: room for all entries of the script, and no more.
const BLOCKS: u32 = 102;

const AUDIT: Task = Task::One(Command::Audit);

/// Prints which call was refused memory.
fn note(rt: &(impl Abort + Print), call: &str) {
    println!(rt; "refused: {call}").expect(rt, "the line is written");
}

fn open(rt: &(impl Abort + Print), alloc: Global) -> (Manager, Client)
    ensures { result.1.table ≡ result.0.table }
{
    match Manager::new(alloc, BLOCKS, LAST) {
        Ok(opened) => opened,
        Err(fault) => {
            same(rt, &fault, &Fault::Memory);
            note(rt, "new");
            Manager::new(alloc, BLOCKS, LAST).expect(rt, "it opens")
        }
    }
}

/// Opens a manager with one lock word, which is not used.
fn open_with_one_lock_word(rt: &(impl Abort + Print), alloc: Global) {
    if let Err(fault) = Manager::with_stripes(alloc, BLOCKS, LAST, 1) {
        same(rt, &fault, &Fault::Memory);
        note(rt, "with stripes");
        holds(rt, Manager::with_stripes(alloc, BLOCKS, LAST, 1).is_ok());
    }
}

fn make(rt: &(impl Abort + Print), alloc: Global, line: &Line<'_>) -> Task {
    if let Ok(task) = task_of(alloc, line) {
        return task;
    }
    note(rt, "task");
    task_of(alloc, line).expect(rt, "there is memory")
}

/// Calls a task and returns the answer. If memory was refused, asserts that the report is as
/// before, and calls again.
fn answer(rt: &(impl Abort + Print), caller: &mut Caller<'_>, task: &Task) -> Answer
    ensures { caller.new.shared ≡ caller.old.shared }
{
    let before = call(caller, &AUDIT, 1);
    let mut told = Points::none();
    let answer = call_gated(caller, task, 2, &mut told);
    if answer != Err(Fault::Memory) {
        return answer;
    }
    note(rt, "call");
    same(rt, &told, &Points::none());
    same(rt, &call(caller, &AUDIT, 1), &before);
    call(caller, task, 1)
}

fn expect(
    rt: &(impl Abort + Print),
    alloc: Global,
    caller: &mut Caller<'_>,
    script: &[(Line<'_>, Reply)],
)
    ensures { caller.new.shared ≡ caller.old.shared }
{
    for (at, (line, want)) in script.iter().enumerate() {
        let task = make(rt, alloc, line);
        assert_eq!(rt; answer(rt, caller, &task), Ok(*want), "at line {at}");
    }
}

/// Returns an update that adds 32 rooms, from this id on, with the prices 1 to 32.
fn thirty_two_rooms(first: u32) -> [Command; 32] {
    let mut changes = [Command::Audit; 32];
    for (at, change) in changes.iter_mut().enumerate() {
        let price = 1 + at as u32;
        *change = add_command!(Room, first.wrapping_add(price), 1, Some(price));
    }
    changes
}

/// The reply to an update of 32 changes of which none was refused.
const ALL_DONE: Reply = Reply::Update(UpdateReply {
    len: 32,
    refused: [None; 32],
});

/// Adds 32 rooms, from this id on.
fn enter_rooms(rt: &(impl Abort + Print), alloc: Global, caller: &mut Caller<'_>, first: u32)
    ensures { caller.new.shared ≡ caller.old.shared }
{
    let changes = thirty_two_rooms(first);
    let script = [(Line::Update(&changes), ALL_DONE)];
    expect(rt, alloc, caller, &script);
}

/// Makes a trip to the first 32 rooms.
fn ask_for_rooms(rt: &(impl Abort + Print), alloc: Global, caller: &mut Caller<'_>)
    ensures { caller.new.shared ≡ caller.old.shared }
{
    let mut asks = [(Room, 1); 32];
    for (at, ask) in asks.iter_mut().enumerate() {
        *ask = (Room, 1 + at as u32);
    }
    let picks = [None, None, pick!(32, 32, None)];
    let script = [(
        Line::Trip(3, &asks),
        trip!(CustomerOutcome::Refused(Exists), picks),
    )];
    expect(rt, alloc, caller, &script);
}

const A_CAR: [Answered; 4] = [
    (add!(Car, 1, 5, Some(10)), Done),
    (new_customer!(3), Done),
    (reserve!(3, Car, 1, 2), Done),
    (free!(Car, 1), number!(3)),
];

/// The report of all entries of the script.
const COUNTS: Reply = report!([1, 0, 96, 1], 3, 98, 52);

/// Adds rooms and a car, and reserves some.
fn fill(rt: &(impl Abort + Print), alloc: Global, caller: &mut Caller<'_>)
    ensures { caller.new.shared ≡ caller.old.shared }
{
    expect(rt, alloc, caller, &A_CAR);
    enter_rooms(rt, alloc, caller, 0);
    enter_rooms(rt, alloc, caller, 32);
    enter_rooms(rt, alloc, caller, 64);
    ask_for_rooms(rt, alloc, caller);
    expect(rt, alloc, caller, &[(audit!(), COUNTS)]);
}

const COME_AND_GO: [Answered; 5] = [
    (new_customer!(4), Done),
    (reserve!(4, Room, 96, 1), Done),
    (cancel!(4, Room, 96), Done),
    (Line::Leave(4), number!(0)),
    (audit!(), COUNTS),
];

/// Lets another client reserve and cancel, and create a customer who leaves.
fn come_and_go(rt: &(impl Abort + Print), alloc: Global, caller: &mut Caller<'_>)
    ensures { caller.new.shared ≡ caller.old.shared }
{
    expect(rt, alloc, caller, &COME_AND_GO);
}

/// Lets the first client fill the manager while a second client is out, which then comes and goes.
fn two_clients(rt: &(impl Abort + Print), alloc: Global, caller: &mut Caller<'_>)
    ensures { caller.new.shared ≡ caller.old.shared }
{
    let mut other = caller.split().expect(rt, "there are grants");
    fill(rt, alloc, caller);
    come_and_go(rt, alloc, &mut other);
    caller.gather(other);
}

/// Asserts that nothing has changed.
fn unchanged(rt: &impl Abort, mut caller: Caller<'_>) -> Client
    ensures { result.table ≡ caller.entry.shared.table }
{
    same(rt, &call(&mut caller, &AUDIT, 1), &Ok(COUNTS));
    caller.into_user()
}

/// Renews the manager. If the memory for the new words is refused, the manager is closed, and its
/// words are returned.
fn renew(
    rt: &(impl Abort + Print),
    manager: Manager,
    client: Client,
) -> Result<(Manager, Client), Vec<u64>>
    requires { client.table ≡ manager.table }
    ensures { IfOk result (λ renewed. renewed.1.table ≡ renewed.0.table) }
{
    match manager.renew(client, LAST) {
        Ok(renewed) => Ok(renewed),
        Err(RenewFault::Closed(words, _)) => {
            note(rt, "renew, closed");
            Err(words)
        }
        Err(RenewFault::Kept(manager, client, fault)) => {
            same(rt, &fault, &RegionFault::Memory);
            note(rt, "renew, kept");
            let client = unchanged(rt, manager.caller(client));
            let Ok(renewed) = manager.renew(client, LAST) else {
                panic!(rt; "it was not renewed")
            };
            Ok(renewed)
        }
    }
}

/// Closes the manager. Returns its words.
fn close(rt: &(impl Abort + Print), manager: Manager, client: Client) -> Vec<u64>
    requires { client.table ≡ manager.table }
{
    match manager.close(client) {
        Ok((words, _)) => words,
        Err((manager, client, fault)) => {
            same(rt, &fault, &RegionFault::Memory);
            note(rt, "close");
            let client = unchanged(rt, manager.caller(client));
            let Ok((words, _)) = manager.close(client) else {
                panic!(rt; "it stayed open")
            };
            words
        }
    }
}

/// Returns the result of the audit of words.
fn audited(rt: &(impl Abort + Print), alloc: Global, words: &[u64]) -> Result<Report, AuditFault> {
    let found = audit_words(alloc, words);
    if found != Err(AuditFault::Memory) {
        return found;
    }
    note(rt, "audit");
    audit_words(alloc, words)
}

#[test]
fn refused_calls_are_made_again(rt: HostRuntime) {
    let alloc = rt.alloc();
    open_with_one_lock_word(&rt, alloc);
    let (manager, client) = open(&rt, alloc);
    let mut caller = manager.caller(client);
    two_clients(&rt, alloc, &mut caller);
    let client = caller.into_user();
    let words = match renew(&rt, manager, client) {
        Err(words) => words,
        Ok((manager, client)) => {
            let mut caller = manager.caller(client);
            come_and_go(&rt, alloc, &mut caller);
            let client = caller.into_user();
            close(&rt, manager, client)
        }
    };
    let found = audited(&rt, alloc, words.as_slice());
    holds(&rt, found.is_ok_and(|found| Reply::Report(found) == COUNTS));
}
