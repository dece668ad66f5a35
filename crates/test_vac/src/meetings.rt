//! Two clients whose calls conflict over a region: one stops at a point of its commit, which its
//! gate is told, while the other one calls.

use crate::calls::call_gated;
use crate::managers::{open, open_striped};
use crate::outcome::Outcome;
use crate::same::same;
use crate::scripts::{LAST, add_command};
use std::process::Abort;
use stm_attempt::{Gate, Point};
use vac_manager::{Caller, call};
use vac_model::Kind::{Car, Room};
use vac_model::Refusal::SoldOut;
use vac_model::Reply::{Done, No, Number};
use vac_model::{Command, Task};

const FREE_CAR: Task = Task::One(Command::Free { kind: Car, id: 7 });

const FREE_ROOM: Task = Task::One(Command::Free { kind: Room, id: 9 });

const fn enter(customer: u32) -> Task {
    Task::One(Command::NewCustomer { id: customer })
}

const fn reserve_car(customer: u32) -> Task {
    Task::One(Command::Reserve {
        customer,
        kind: Car,
        id: 7,
        num: 1,
    })
}

/// The answers to the client that called meanwhile.
#[derive(Clone, Copy, Debug, PartialEq, Eq)]
struct Answers {
    room: Outcome,
    car: Outcome,
}

/// A gate at which another client asks for a room and reserves a car, once, at one point.
#[derive(Drop)]
struct Meanwhile<'a> {
    when: Point,
    other: Caller<'a>,
    told: Option<Answers>,
}

impl<'a> Gate for Meanwhile<'a> {
    fn at(&mut self, point: Point) {
        if point == self.when && self.told.is_none() {
            let room = Outcome::of(call(&mut self.other, &FREE_ROOM, 1));
            let car = Outcome::of(call(&mut self.other, &reserve_car(4), 1));
            self.told = Some(Answers { room, car });
        }
    }
}

/// The answers to two clients with conflicting reservations, and the number of free cars
/// afterwards.
#[derive(Clone, Copy, Debug, PartialEq, Eq)]
struct Met {
    mine: Outcome,
    told: Option<Answers>,
    free: Outcome,
}

/// Creates cars and two customers.
fn fill(caller: &mut Caller<'_>, cars: u32) {
    let car = Task::One(add_command!(Car, 7, cars, Some(50)));
    let _ = call(caller, &car, 1);
    let _ = call(caller, &enter(3), 1);
    let _ = call(caller, &enter(4), 1);
}

/// Reserves a car with at most `tries` attempts, while the other client reserves a car at this
/// point.
fn meet<'a>(
    caller: &mut Caller<'_>,
    other: Caller<'a>,
    when: Point,
    tries: u32,
) -> (Met, Caller<'a>) {
    let mut gate = Meanwhile {
        when,
        other,
        told: None,
    };
    let mine = Outcome::of(call_gated(caller, &reserve_car(3), tries, &mut gate));
    let Meanwhile {
        when: _,
        other,
        told,
    } = gate;
    let free = Outcome::of(call(caller, &FREE_CAR, 1));
    (Met { mine, told, free }, other)
}

/// Lets two clients reserve the last car, the first with at most `tries` attempts.
fn last_car(rt: &impl Abort, mut caller: Caller<'_>, tries: u32) -> Met {
    let other = caller.split().expect(rt, "there are grants");
    fill(&mut caller, 1);
    let (met, _) = meet(&mut caller, other, Point::ReadsDone, tries);
    met
}

/// Returns the outcome if the other client had the last car: its answers, and this answer to the
/// first client.
fn lost_it(mine: Outcome) -> Met {
    let told = Answers {
        room: Outcome::Replied(Number(None)),
        car: Outcome::Replied(Done),
    };
    Met {
        mine,
        told: Some(told),
        free: Outcome::Replied(Number(Some(0))),
    }
}

#[test]
fn the_last_car_by_two_tries(rt: HostRuntime) {
    let (manager, client) = open(&rt, rt.alloc(), 8, LAST);
    let met = last_car(&rt, manager.caller(client), 2);
    same(&rt, &met, &lost_it(Outcome::Replied(No(SoldOut))));
}

#[test]
fn the_last_car_by_one_try(rt: HostRuntime) {
    let (manager, client) = open(&rt, rt.alloc(), 8, LAST);
    let met = last_car(&rt, manager.caller(client), 1);
    same(&rt, &met, &lost_it(Outcome::Newer { version: 4, rv: 3 }));
}

#[test]
fn the_last_car_with_one_lock_word(rt: HostRuntime) {
    let (manager, client) = open_striped(&rt, rt.alloc(), 8, LAST, 1);
    let met = last_car(&rt, manager.caller(client), 2);
    same(&rt, &met, &lost_it(Outcome::Replied(No(SoldOut))));
}

#[test]
fn the_last_car_takes_the_last_version(rt: HostRuntime) {
    let (manager, client) = open(&rt, rt.alloc(), 8, 4);
    let met = last_car(&rt, manager.caller(client), 2);
    same(&rt, &met, &lost_it(Outcome::Spent(4)));
}

/// Lets two clients reserve one of two cars each; the client that was busy calls again.
fn two_cars(rt: &impl Abort, mut caller: Caller<'_>, when: Point) -> (Met, Outcome) {
    let other = caller.split().expect(rt, "there are grants");
    fill(&mut caller, 2);
    let (met, mut other) = meet(&mut caller, other, when, 1);
    let again = if met.mine == Outcome::Replied(Done) {
        call(&mut other, &reserve_car(4), 1)
    } else {
        call(&mut caller, &reserve_car(3), 1)
    };
    (met, Outcome::of(again))
}

/// Points, each with the answer to the first client, and the answer to the other client about the
/// car.
const POINTS: [(Point, Outcome, Outcome); 5] = [
    (Point::ReadsDone, Outcome::Newer { version: 4, rv: 3 }, DONE),
    (Point::Locked, DONE, Outcome::Held),
    (Point::Ticked, DONE, Outcome::Held),
    (Point::Decided, DONE, Outcome::Held),
    (Point::Written, DONE, Outcome::Held),
];

const DONE: Outcome = Outcome::Replied(Done);

#[test]
fn at_each_point_one_of_two_clients_is_busy(rt: HostRuntime) {
    for (when, mine, car) in POINTS {
        let (manager, client) = open(&rt, rt.alloc(), 8, LAST);
        let (met, again) = two_cars(&rt, manager.caller(client), when);
        let told = Answers {
            room: Outcome::Replied(Number(None)),
            car,
        };
        let want = Met {
            mine,
            told: Some(told),
            free: Outcome::Replied(Number(Some(1))),
        };
        assert_eq!(rt; met, want, "at {when:?}");
        assert_eq!(rt; again, DONE, "at {when:?}");
    }
}
