//! Searches for a linearization of the calls of several clients, and checks a proposed one.

ghost use Rattle.std.specs.Prelude.{◌≡◌, ◌≤◌, ◌↔◌, true, false, IfOk, IfSome};
ghost use Rattle.judge_search.specs.Calls.{calls_of};
ghost use Rattle.judge_search.specs.Judging.{IsLinearizedInTurn, IsFoundIn};
ghost use Rattle.judge_search.specs.Point.{point_at};
ghost use Rattle.judge_search.specs.Walk.{IsWhole};
ghost use Rattle.judge_search.specs.Walking.{IsUnknown};

use crate::calls::Calls;
use crate::checking::led_by;
use crate::frontier::find_by_ends;
use crate::point::{Point, is_finished};
use crate::walk::{Finding, Found, find_order};
use judge_object::{Object, Watcher};
use std::alloc::{AllocError, Global};

/// Returns whether the calls at these places, each once and each client's in their order, are an
/// order of all calls that is a linearization from a state on. Each call is made, one after the
/// other.
pub fn is_linearization<M: Object + Drop>(
    alloc: Global,
    machine: M,
    calls: &Calls<M::Op>,
    places: &[usize],
) -> Result<bool, AllocError>
    requires whole { IsWhole (calls_of calls.now.lines.items) }
    ensures { IfOk result (λ is. (is ≡ true) ↔
        IsLinearizedInTurn M.rules machine (calls_of calls.now.lines.items) places.now) }
{
    let mut point = Point::new(alloc, machine);
    let mut expected = Vec::new(alloc);
    'places: for number in 0..places.len() {
        match led_by(point, calls, places[number], &mut expected)? {
            Some(next) => point = next,
            None => return Ok(false),
        }
    }
    let lines = calls.as_slice();
    Ok(is_finished::<M>(point.low, point.beyond.as_slice(), lines))
}

/// Returns the number of steps of a first search, which ends soon if calls seldom overlap.
///
/// Not said: anything about the number but its bound.
fn few_steps(calls: usize, steps: u64) -> u64
    ensures { result ≤ steps }
{
    let few = (calls as u64).saturating_mul(2).saturating_add(1000);
    few.min(steps)
}

/// Returns whether a search neither found an order nor saw that there is none.
fn is_unknown<P>(finding: &Finding<P>) -> bool
    ensures { result ≡ false → IsUnknown finding.now → ⊥ }
{
    match finding {
        Finding::Order(_) | Finding::NoOrder(..) => false,
        Finding::Unknown(_) => true,
    }
}

/// Goes through the ends of the calls. Returns a linearization if one is found, or the finding that
/// there is none; or nothing, if there are too many points.
fn find_through_ends<M: Object + Drop, P: Watcher>(
    alloc: Global,
    calls: &Calls<M::Op>,
    machine: &M,
    steps: u64,
    watcher: &mut P,
) -> Result<Option<Found<Point<M>>>, AllocError>
    requires whole { IsWhole (calls_of calls.now.lines.items) }
    ensures { IfOk result (λ found. IfSome found (λ found. IsFoundIn M.rules
        (point_at M.rules calls.now) machine.now (calls_of calls.now.lines.items) steps found)) }
{
    let start = Point::new(alloc, machine.copy()?);
    let finding = find_by_ends(alloc, calls, start, steps, watcher)?;
    match finding {
        Finding::Order(places) => {
            if is_linearization(alloc, machine.copy()?, calls, places.as_slice())? {
                let finding = Finding::Order(places);
                return Ok(Some(Found { finding, steps: 0 }));
            }
            Ok(None)
        }
        Finding::NoOrder(most, point) => {
            let finding = Finding::NoOrder(most, point);
            Ok(Some(Found { finding, steps: 0 }))
        }
        Finding::Unknown(_) => Ok(None),
    }
}

/// Searches for a linearization of these calls from a state on. The search misses none. It makes at
/// most `steps` steps from call to call, after which it goes back; before it makes more than a few,
/// it goes through the ends of the calls once, which counts as no step.
pub fn find_linearization<M: Object + Drop, P: Watcher>(
    alloc: Global,
    calls: &Calls<M::Op>,
    machine: M,
    steps: u64,
    watcher: &mut P,
) -> Result<Found<Point<M>>, AllocError>
    requires whole { IsWhole (calls_of calls.now.lines.items) }
    ensures { IfOk result (λ found. IsFoundIn M.rules (point_at M.rules calls.now) machine
        (calls_of calls.now.lines.items) steps found) }
{
    let few = few_steps(calls.as_slice().len(), steps);
    let start = Point::new(alloc, machine.copy()?);
    let found = find_order(alloc, calls, start, few, watcher)?;
    if few == steps || !is_unknown(&found.finding) {
        return Ok(found);
    }
    if let Some(found) = find_through_ends(alloc, calls, &machine, steps, watcher)? {
        return Ok(found);
    }
    find_order(alloc, calls, Point::new(alloc, machine), steps, watcher)
}
