//! Checks a proposed order, call by call.

ghost use Rattle.std.specs.Prelude.{◌≡◌, ◌<◌, ◌++◌, ◌∷◌, [], ℕ, List, length, get_or, true, None, IfOk, IfSome};
ghost use Rattle.judge_search.specs.Marks.{is_made};
ghost use Rattle.judge_search.specs.Calls.{calls_of, can_come, no_call};
ghost use Rattle.judge_search.specs.Configurations.{fits};
ghost use Rattle.judge_search.specs.Point.{made_of};
ghost use Rattle.judge_search.specs.Checking.{HavePlaces};

use crate::calls::Calls;
use crate::marks::mark;
use crate::point::{Point, next_call};
use judge_object::{Object, is_right};
use std::alloc::AllocError;

/// Returns whether the call at a place may come next.
fn may_come<M: Object>(low: usize, beyond: &[usize], calls: &Calls<M::Op>, place: usize) -> bool
    ensures within { result ≡ true → place < length calls.now.lines.items }
    ensures can { result ≡ true →
        can_come M.rules (is_made low beyond.now) (calls_of calls.now.lines.items) place ≡ true }
    ensures all { place < length calls.now.lines.items →
        can_come M.rules (is_made low beyond.now) (calls_of calls.now.lines.items) place ≡ true →
        result ≡ true }
{
    match next_call::<M>(low, beyond, calls, place) {
        Some(first) => first == place,
        None => false,
    }
}

/// Returns the point after the call at a place if that call may come next and gives its reply. The
/// call is made in the state of the point before.
pub(crate) fn led_by<M: Object + Drop>(
    point: Point<M>,
    calls: &Calls<M::Op>,
    place: usize,
    expected: &mut Vec<u8>,
) -> Result<Option<Point<M>>, AllocError>
    ensures led { IfOk result (λ led. IfSome led (λ next. (s : M) (places : List ℕ) →
        HavePlaces M.rules s (calls_of calls.now.lines.items) places point →
        HavePlaces M.rules s (calls_of calls.now.lines.items) (places ++ place ∷ []) next)) }
    ensures refused { IfOk result (λ led. led ≡ None → place < length calls.now.lines.items →
        can_come M.rules (made_of point) (calls_of calls.now.lines.items) place ≡ true →
        fits M.rules point.machine
        (get_or (calls_of calls.now.lines.items) place (no_call M.rules)) ≡ true → ⊥) }
{
    let Point {
        low,
        beyond,
        machine,
    } = point;
    if !may_come::<M>(low, beyond.as_slice(), calls, place) {
        return Ok(None);
    }
    let lines = calls.as_slice();
    let line = &lines[place];
    let (machine, reply) = machine.made(&line.op)?;
    if !is_right::<M>(expected, &line.reply, &reply)? {
        return Ok(None);
    }
    let (low, beyond) = mark(low, beyond, place)?;
    Ok(Some(Point {
        low,
        beyond,
        machine,
    }))
}
