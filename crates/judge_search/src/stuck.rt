//! The calls that are blocked at a point of a search.

ghost use Rattle.std.specs.Prelude.{◌≡◌, IfOk, true};
ghost use Rattle.judge_search.specs.Marks.{is_made};
ghost use Rattle.judge_search.specs.Calls.{calls_of};
ghost use Rattle.judge_search.specs.Point.{made_of};
ghost use Rattle.judge_search.specs.Stuck.{AreStuck};

use crate::calls::Calls;
use crate::point::{Point, next_call};
use judge_object::{NEVER, Object};
use std::alloc::{AllocError, Global};

/// A blocked call, with the reply that the object would give.
#[derive(Drop)]
pub struct Stuck<R> {
    /// The place of the call among all calls.
    pub place: usize,
    /// The reply that the object would give.
    pub expected: R,
}

/// Returns the completed calls of these lines that may come next, and the reply that the object
/// would give to each.
fn stuck_lines<M: Object + Drop>(
    alloc: Global,
    low: usize,
    beyond: &[usize],
    machine: &M,
    calls: &Calls<M::Op>,
) -> Result<Vec<Stuck<M::Reply>>, AllocError>
    ensures { IfOk result (λ found. AreStuck M.rules machine.now (is_made low beyond.now)
        (calls_of calls.now.lines.items) found.items) }
{
    let lines = calls.as_slice();
    let mut found = Vec::new(alloc);
    let mut from = 0;
    'calls: while let Some(place) = next_call::<M>(low, beyond, calls, from) {
        if lines[place].end < NEVER {
            let (_, expected) = machine.make(&lines[place].op)?;
            found.push(Stuck { place, expected })?;
        }
        from = place + 1;
    }
    Ok(found)
}

/// Returns the completed calls that may come next, and the reply that the object would give to
/// each.
pub fn stuck_calls<M: Object + Drop>(
    alloc: Global,
    calls: &Calls<M::Op>,
    point: &Point<M>,
) -> Result<Vec<Stuck<M::Reply>>, AllocError>
    ensures { IfOk result (λ found. AreStuck M.rules point.now.machine (made_of point.now)
        (calls_of calls.now.lines.items) found.items) }
{
    stuck_lines(
        alloc,
        point.low,
        point.beyond.as_slice(),
        &point.machine,
        calls,
    )
}
