//! The points that the gate of a call is told.
ghost use Rattle.std.specs.Prelude.{◌≡◌};

use crate::calls::{Answer, call_gated};
use crate::managers::open;
use crate::same::{holds, same};
use crate::scripts::{
    LAST, Line, add, add_command, audit, bill, cancel, delete, delete_command, drop_customer, free,
    new_customer, price, reserve, task_of,
};
use std::alloc::Global;
use std::process::Abort;
use stm_attempt::{Gate, Point};
use vac_manager::Caller;
use vac_model::Kind::{Car, Room};

/// Number of points that are kept; later ones are only counted.
const KEPT: usize = 12;

/// The points that a gate was told, in their order.
#[derive(Clone, Copy, Debug, PartialEq, Eq)]
pub(crate) struct Points {
    kept: [Option<Point>; KEPT],
    told: usize,
}

impl Gate for Points {
    fn at(&mut self, point: Point) {
        if self.told < KEPT {
            self.kept[self.told] = Some(point);
        }
        self.told = self.told.saturating_add(1);
    }
}

impl Points {
    /// Returns the points of a gate that was told none.
    pub(crate) fn none() -> Points {
        Points {
            kept: [None; KEPT],
            told: 0,
        }
    }

    /// Returns the points of a gate that was told these.
    pub(crate) fn of(points: &[Point]) -> Points {
        let mut kept = Points::none();
        for point in points {
            kept.at(*point);
        }
        kept
    }
}

/// Calls a task with at most `tries` attempts. Returns the answer and the points that its gate was
/// told.
pub(crate) fn call_with_points(
    rt: &impl Abort,
    alloc: Global,
    caller: &mut Caller<'_>,
    tries: u32,
    line: &Line<'_>,
) -> (Answer, Points)
    ensures { caller.new.shared ≡ caller.old.shared }
{
    let task = task_of(alloc, line).expect(rt, "there is memory");
    let mut points = Points::none();
    let answer = call_gated(caller, &task, tries, &mut points);
    (answer, points)
}

/// Points of a call that writes nothing: its reads are done.
const READ: [Point; 1] = [Point::ReadsDone];

/// Points of a call that writes: each point of its commit.
const WRITTEN: [Point; 5] = [
    Point::ReadsDone,
    Point::Locked,
    Point::Ticked,
    Point::Decided,
    Point::Written,
];

/// Calls the task of each line with one attempt, and compares the points that the gate was told.
/// Asserts that all calls return replies.
fn expect_points(
    rt: &impl Abort,
    alloc: Global,
    caller: &mut Caller<'_>,
    script: &[(Line<'_>, &[Point])],
) {
    for (at, (line, points)) in script.iter().enumerate() {
        let (answer, told) = call_with_points(rt, alloc, caller, 1, line);
        assert!(rt; answer.is_ok(), "at line {at}");
        assert_eq!(rt; told, Points::of(points), "at line {at}");
    }
}

const QUESTIONS: &[(Line<'static>, &[Point])] = &[
    (add!(Car, 7, 2, Some(50)), &WRITTEN),
    (new_customer!(3), &WRITTEN),
    (free!(Car, 7), &READ),
    (price!(Car, 7), &READ),
    (bill!(3), &READ),
    (audit!(), &READ),
    (free!(Room, 7), &READ),
    (bill!(4), &READ),
];

#[test]
fn questions_tell_that_their_reads_are_done(rt: HostRuntime) {
    let alloc = rt.alloc();
    let (manager, client) = open(&rt, alloc, 8, LAST);
    expect_points(&rt, alloc, &mut manager.caller(client), QUESTIONS);
}

const OTHER_CALLS: &[(Line<'static>, &[Point])] = &[
    (add!(Car, 7, 2, Some(50)), &WRITTEN),
    (add!(Car, 7, 0, None), &READ),
    (new_customer!(3), &WRITTEN),
    (new_customer!(3), &READ),
    (reserve!(3, Car, 7, 1), &WRITTEN),
    (reserve!(3, Car, 7, 2), &READ),
    (cancel!(3, Car, 7), &WRITTEN),
    (delete!(Car, 7, 1), &WRITTEN),
    (Line::Trip(4, &[(Car, 7)]), &WRITTEN),
    (Line::Leave(5), &READ),
    (
        Line::Update(&[
            add_command!(Room, 9, 1, Some(5)),
            delete_command!(Car, 1, 1),
        ]),
        &WRITTEN,
    ),
    (Line::Update(&[delete_command!(Car, 1, 1)]), &READ),
];

#[test]
fn other_calls_tell_each_point_where_they_write(rt: HostRuntime) {
    let alloc = rt.alloc();
    let (manager, client) = open(&rt, alloc, 8, LAST);
    expect_points(&rt, alloc, &mut manager.caller(client), OTHER_CALLS);
}

/// Lines with their number of attempts; none of these calls is made.
const NOT_MADE: [(u32, Line<'static>); 3] = [
    (0, free!(Car, 7)),
    (0, new_customer!(3)),
    (1, drop_customer!(0)),
];

#[test]
fn a_call_that_is_not_made_tells_nothing(rt: HostRuntime) {
    let alloc = rt.alloc();
    let (manager, client) = open(&rt, alloc, 8, LAST);
    let mut caller = manager.caller(client);
    for (tries, line) in NOT_MADE {
        let (answer, told) = call_with_points(&rt, alloc, &mut caller, tries, &line);
        holds(&rt, answer.is_err());
        same(&rt, &told, &Points::none());
    }
}
