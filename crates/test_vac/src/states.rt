//! Copies of the plain manager's state, and the equality of two states.

use crate::same::{holds, same};
use crate::scripts::{
    Line, add, cancel, delete, drop_customer, new_customer, report, reserve, task_of,
};
use std::alloc::Global;
use std::process::Abort;
use vac_model::Kind::{Car, Room};
use vac_model::Reply;
use vac_sequential::Sequential;

/// Returns a plain manager of `blocks` blocks after a script.
fn after(rt: &impl Abort, alloc: Global, blocks: u32, script: &[Line<'_>]) -> Sequential {
    let mut manager = Sequential::new(alloc, blocks).expect(rt, "the blocks are in range");
    run_all(rt, alloc, &mut manager, script);
    manager
}

fn run_all(rt: &impl Abort, alloc: Global, manager: &mut Sequential, script: &[Line<'_>]) {
    for line in script {
        let task = task_of(alloc, line).expect(rt, "there is memory");
        manager.run(&task).expect(rt, "the task is in range");
    }
}

type Script = &'static [Line<'static>];

const CARS: Line<'static> = add!(Car, 7, 2, Some(50));

const CUSTOMER: Line<'static> = new_customer!(3);

const RESERVED: Line<'static> = reserve!(3, Car, 7, 1);

/// Customer 3 reserves one of two cars at 50.
const ONE_CAR_OF_TWO: Script = &[CARS, CUSTOMER, RESERVED];

fn one_car_of_two(rt: &impl Abort, alloc: Global) -> Sequential {
    after(rt, alloc, 8, ONE_CAR_OF_TWO)
}

const ANOTHER_HISTORY: Script = &[
    new_customer!(4),
    new_customer!(3),
    add!(Room, 9, 1, Some(10)),
    add!(Car, 7, 1, Some(40)),
    reserve!(3, Car, 7, 1),
    reserve!(4, Room, 9, 1),
    cancel!(3, Car, 7),
    add!(Car, 7, 1, Some(50)),
    drop_customer!(4),
    reserve!(3, Car, 7, 1),
    delete!(Room, 9, 1),
];

/// Another history leads to the same state, with a customer and a room that came and went.
#[test]
fn two_histories_of_one_state(rt: HostRuntime) {
    let one = one_car_of_two(&rt, rt.alloc());
    let other = after(&rt, rt.alloc(), 8, ANOTHER_HISTORY);
    holds(&rt, one.is_same(&other) && other.is_same(&one));
    same(&rt, &other.hash(), &one.hash());
}

/// Returns whether the state after this script, in a manager of `blocks` blocks, is that of one
/// car of two.
fn is_one_car_of_two(rt: &impl Abort, alloc: Global, blocks: u32, script: &[Line<'_>]) -> bool {
    let one = one_car_of_two(rt, alloc);
    let other = after(rt, alloc, blocks, script);
    same(rt, &other.is_same(&one), &one.is_same(&other));
    one.is_same(&other)
}

/// Scripts with their numbers of blocks.
const IN_ONE_NUMBER: [(u32, Script); 7] = [
    (9, ONE_CAR_OF_TWO),
    (8, &[CARS, CUSTOMER, RESERVED, add!(Car, 7, 0, Some(51))]),
    (8, &[CARS, CUSTOMER, RESERVED, add!(Car, 7, 1, None)]),
    (8, &[CARS, CUSTOMER, reserve!(3, Car, 7, 2)]),
    (
        8,
        &[
            add!(Car, 7, 2, Some(40)),
            CUSTOMER,
            RESERVED,
            add!(Car, 7, 0, Some(50)),
        ],
    ),
    (8, &[CARS, new_customer!(4), reserve!(4, Car, 7, 1)]),
    (
        8,
        &[add!(Car, 8, 2, Some(50)), CUSTOMER, reserve!(3, Car, 8, 1)],
    ),
];

/// Each script differs in one number from one car of two: the capacity, the price, the total
/// units, the booked units, their cost, the customer's id, the item's id.
#[test]
fn states_that_differ_in_one_number(rt: HostRuntime) {
    holds(&rt, is_one_car_of_two(&rt, rt.alloc(), 8, ONE_CAR_OF_TWO));
    for (at, (blocks, script)) in IN_ONE_NUMBER.iter().enumerate() {
        let is_same = is_one_car_of_two(&rt, rt.alloc(), *blocks, script);
        assert!(rt; !is_same, "at {at}");
    }
}

const CANCELLED: Script = &[cancel!(3, Car, 7), new_customer!(4)];

const RESERVED_AGAIN: Script = &[drop_customer!(4), RESERVED];

/// A copy stays as it was, whatever happens to the original.
#[test]
fn a_copy_keeps_its_state(rt: HostRuntime) {
    let mut one = one_car_of_two(&rt, rt.alloc());
    let copy = one.copy().expect(&rt, "there is memory");
    let was_same = copy.is_same(&one);
    run_all(&rt, rt.alloc(), &mut one, CANCELLED);
    let again = one.copy().expect(&rt, "there is memory");
    run_all(&rt, rt.alloc(), &mut one, RESERVED_AGAIN);
    let found = [was_same, copy.is_same(&again), copy.is_same(&one)];
    same(&rt, &found, &[true, false, true]);
    let report_of_copy = Reply::Report(copy.report());
    same(&rt, &report_of_copy, &report!([1, 0, 0, 1], 1, 1, 50));
}
