//! The printed lines of tasks.
ghost use Rattle.std.specs.Prelude.{◌≤◌};

use crate::same::{holds, same};
use crate::scripts::add_command;
use std::alloc::Global;
use std::process::Abort;
use vac_lines::{LINE_BYTES, LineFault, print, read_line};
use vac_model::{Kind, Task};

/// Returns the line of a task.
fn line_of(rt: &impl Abort, alloc: Global, task: &Task) -> Vec<u8> {
    let mut line = Vec::new(alloc);
    print(task, &mut line).expect(rt, "there is memory");
    line
}

/// Lines, and the printed lines of their tasks.
const PRINTED: &[(&str, &str)] = &[
    ("add car 1 100 -", "add car 1 100 -"),
    ("add flight 0000000007 0005 007", "add flight 7 5 7"),
    (
        "add room 4294967295 1000000 0",
        "add room 4294967295 1000000 0",
    ),
    ("del car 3 0", "del car 3 0"),
    ("del room 03 0001", "del room 3 1"),
    ("del flight 9", "del flight 9"),
    ("newcust 10", "newcust 10"),
    ("dropcust 4294967295", "dropcust 4294967295"),
    ("free car 1", "free car 1"),
    ("price flight 02", "price flight 2"),
    ("bill 3", "bill 3"),
    ("reserve 3 car 7", "reserve 3 car 7"),
    ("reserve 3 flight 7 01", "reserve 3 flight 7"),
    ("reserve 3 room 7 100", "reserve 3 room 7 100"),
    ("cancel 3 room 7", "cancel 3 room 7"),
    ("audit", "audit"),
    ("trip 3 car 1", "trip 3 car 1"),
    (
        "trip 3 room 01 car 20 flight 300",
        "trip 3 room 1 car 20 flight 300",
    ),
    ("leave 005", "leave 5"),
    ("update del flight 2", "update del flight 2"),
    (
        "update add car 01 100 - ; del flight 2 ; del room 3 0100",
        "update add car 1 100 - ; del flight 2 ; del room 3 100",
    ),
];

#[test]
fn tasks_are_printed_plainly(rt: HostRuntime) {
    for (line, plain) in PRINTED.iter() {
        let task = read_line(rt.alloc(), line.as_bytes()).expect(&rt, "the line is a task");
        let printed = line_of(&rt, rt.alloc(), &task);
        assert!(rt; printed.as_slice() == plain.as_bytes(), "at {line}");
    }
}

/// Returns the number of bytes of the line of an update that adds a flight with these numbers
/// `changes` times. Asserts that the line is read as the same update, unless it is longer than a
/// line may be.
fn flights_added(rt: &impl Abort, alloc: Global, changes: usize, id: u32, num: u32) -> usize
    requires { changes ≤ 32 }
{
    let added = [add_command!(Kind::Flight, id, num, Some(num)); 32];
    let task = Task::update(alloc, &added[..changes]).expect(rt, "there is memory");
    let line = line_of(rt, alloc, &task);
    let read = read_line(alloc, line.as_slice());
    if line.len() > LINE_BYTES {
        holds(rt, matches!(read, Err(LineFault::LongLine)));
    } else {
        let again = line_of(rt, alloc, &read.expect(rt, "the line is a task"));
        holds(rt, again == line);
    }
    line.len()
}

#[test]
fn lines_of_long_updates(rt: HostRuntime) {
    let alloc = rt.alloc();
    same(
        &rt,
        &flights_added(&rt, alloc, 25, u32::MAX, 1_000_000),
        &1_004,
    );
    same(
        &rt,
        &flights_added(&rt, alloc, 26, u32::MAX, 1_000_000),
        &1_044,
    );
    same(
        &rt,
        &flights_added(&rt, alloc, 32, u32::MAX, 1_000_000),
        &1_284,
    );
    same(&rt, &flights_added(&rt, alloc, 32, 99_999, 99_999), &996);
}
