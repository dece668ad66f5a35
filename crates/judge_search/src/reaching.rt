//! The points that calls lead to from a start, and the states that linearizations leave.

ghost use Rattle.std.specs.Prelude.{◌++◌, ◌∷◌, [], List, IfOk, OnOk, IfSome};
ghost use Rattle.judge_search.specs.Calls.{calls_of};
ghost use Rattle.judge_search.specs.Point.{point_at};
ghost use Rattle.judge_search.specs.Reaching.{AddsNew, AreNextOf, AreReached, AreFinal, AreLeft};
ghost use Rattle.judge_search.specs.Walk.{IsWhole};

use crate::calls::Calls;
use crate::known::Known;
use crate::point::Point;
use judge_object::Object;
use std::alloc::{AllocError, Global};

/// Returns the points after each call that may come next at a point and gives its reply there.
fn points_after<M: Object + Drop>(
    alloc: Global,
    calls: &Calls<M::Op>,
    point: &Point<M>,
) -> Result<Vec<Point<M>>, AllocError>
    ensures { IfOk result (λ nexts. AreNextOf M.rules (point_at M.rules calls.now)
        (point_at M.rules calls.now point.now) nexts.items) }
{
    let mut nexts = Vec::new(alloc);
    let mut from = 0;
    'tries: while let Some(place) = point.next_try(calls, from) {
        if let Some(next) = point.after(alloc, calls, place)? {
            nexts.push(next)?;
        }
        from = place + 1;
    }
    Ok(nexts)
}

/// Adds each point that is not known yet.
fn meet_all<M: Object + Drop>(
    known: &mut Known<Point<M>>,
    points: Vec<Point<M>>,
) -> Result<(), AllocError>
    ensures { OnOk result ((calls : Calls M.Op) → AddsNew (point_at M.rules calls) points.items
        known.old.points.items known.new.points.items) }
{
    'points: for point in points {
        known.meet(point)?;
    }
    Ok(())
}

/// Returns all points that calls lead to from a start, or `None` if there are more than `most`. The
/// calls that may come next are made at each point, once.
///
/// Not said: that there is a result.
fn reach_all<M: Object + Drop>(
    alloc: Global,
    calls: &Calls<M::Op>,
    start: Point<M>,
    most: usize,
) -> Result<Option<Vec<Point<M>>>, AllocError>
    ensures { IfOk result (λ reached. IfSome reached (λ points. AreReached M.rules
        (point_at M.rules calls.now) (point_at M.rules calls.now start) points.items)) }
{
    let mut known = Known::new(alloc);
    known.add(start)?;
    'points: for number in 0..most {
        if known.points.len() <= number {
            return Ok(Some(known.points));
        }
        let nexts = points_after(alloc, calls, &known.points[number])?;
        meet_all(&mut known, nexts)?;
        if most < known.points.len() {
            return Ok(None);
        }
    }
    Ok(None)
}

/// Takes the state of a point if no completed call is left there.
fn take_final<M: Object + Drop>(
    calls: &Calls<M::Op>,
    states: &mut Vec<M>,
    point: Point<M>,
) -> Result<(), AllocError>
    ensures { OnOk result ((before : List (Point M)) →
        AreFinal (point_at M.rules calls.now) before states.old.items →
        AreFinal (point_at M.rules calls.now) (before ++ point ∷ []) states.new.items) }
{
    if point.is_done(calls) {
        states.push(point.machine)?;
    }
    Ok(())
}

/// Returns the states of the points at which no completed call is left.
fn final_states<M: Object + Drop>(
    alloc: Global,
    calls: &Calls<M::Op>,
    points: Vec<Point<M>>,
) -> Result<Vec<M>, AllocError>
    ensures { IfOk result (λ states.
        AreFinal (point_at M.rules calls.now) points.items states.items) }
{
    let mut states = Vec::new(alloc);
    'points: for point in points {
        take_final(calls, &mut states, point)?;
    }
    Ok(states)
}

/// Returns the states that the linearizations of these calls from a state on leave, or `None` if
/// the calls lead to more than `most` points.
///
/// Not said: that a state is returned once; that there is a result.
pub fn states_left<M: Object + Drop>(
    alloc: Global,
    calls: &Calls<M::Op>,
    machine: M,
    most: usize,
) -> Result<Option<Vec<M>>, AllocError>
    requires whole { IsWhole (calls_of calls.now.lines.items) }
    ensures { IfOk result (λ left. IfSome left (λ states.
        AreLeft M.rules machine (calls_of calls.now.lines.items) states.items)) }
{
    let start = Point::new(alloc, machine);
    match reach_all(alloc, calls, start, most)? {
        Some(points) => Ok(Some(final_states(alloc, calls, points)?)),
        None => Ok(None),
    }
}
