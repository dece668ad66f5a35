//! A clock that is at its last version, over a region.

use crate::calls::{Called, expect};
use crate::managers::{open, open_striped};
use crate::outcome::Outcome;
use crate::points::{Points, call_with_points};
use crate::same::same;
use crate::scripts::{add, free, new_customer, number, reserve, reserve_command};
use std::alloc::Global;
use std::process::Abort;
use stm_attempt::Point;
use vac_manager::{Caller, call};
use vac_model::Kind::Car;
use vac_model::Refusal::NoCustomer;
use vac_model::Reply::{Done, No};
use vac_model::Task;

const SPENDING: [Called; 2] = [
    (add!(Car, 1, 1, Some(10)), Ok(Done)),
    (new_customer!(3), Ok(Done)),
];

const READING: [Called; 2] = [
    (free!(Car, 1), Ok(number!(1))),
    (reserve!(4, Car, 1, 1), Ok(No(NoCustomer))),
];

/// Uses the only two versions for two calls; a task that only reads still gets its reply.
fn spend(rt: &impl Abort, alloc: Global, caller: &mut Caller<'_>) {
    expect(rt, alloc, caller, 1, &SPENDING);
    let task = Task::One(reserve_command!(3, Car, 1, 1));
    same(rt, &Outcome::of(call(caller, &task, 1)), &Outcome::Spent(2));
    expect(rt, alloc, caller, 1, &READING);
}

/// The call ends at once when it finds the clock spent, though another client is out and attempts
/// are left. Its gate is told that the first attempt has its locks, and nothing more.
#[test]
fn a_spent_clock_ends_a_call_of_one_of_two_clients(rt: HostRuntime) {
    let alloc = rt.alloc();
    let (manager, client) = open(&rt, alloc, 8, 2);
    let mut caller = manager.caller(client);
    let mut other = caller.split().expect(&rt, "there are grants");
    spend(&rt, alloc, &mut other);
    let line = reserve!(3, Car, 1, 1);
    let (answer, told) = call_with_points(&rt, alloc, &mut caller, 3, &line);
    same(&rt, &Outcome::of(answer), &Outcome::Spent(2));
    same(&rt, &told, &Points::of(&[Point::ReadsDone, Point::Locked]));
}

#[test]
fn a_clock_that_ends_at_two(rt: HostRuntime) {
    let alloc = rt.alloc();
    let (manager, client) = open(&rt, alloc, 8, 2);
    spend(&rt, alloc, &mut manager.caller(client));
}

#[test]
fn a_clock_that_ends_at_two_with_four_lock_words(rt: HostRuntime) {
    let alloc = rt.alloc();
    let (manager, client) = open_striped(&rt, alloc, 8, 2, 4);
    spend(&rt, alloc, &mut manager.caller(client));
}
