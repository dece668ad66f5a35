//! The search for an order: a walk through points, one call at a time, and back if nothing is left
//! to try.

ghost use Rattle.std.specs.Prelude.{◌≡◌, ◌<◌, ◌≤◌, ◌+◌, ◌++◌, ◌∷◌, [], ◌||◌, ◌==◌, ℕ, suc, max, length, IfOk, IfSome, if◌then◌else◌};
ghost use Rattle.judge_search.specs.Configurations.{Configuration, after_call};
ghost use Rattle.judge_search.specs.Point.{made_of, point_at, point_views};
ghost use Rattle.judge_search.specs.Walk.{IsWhole};
ghost use Rattle.judge_search.specs.Walking.{BestIsWithin, StaysWithin, Walks, WalksWith, TriesPlace, StepsTo, FindsIn, places_of, best_of};

use crate::calls::Calls;
use crate::known::Known;
use crate::path::{Frame, Walk};
use crate::point::{Point, is_completed};
use judge_object::{Object, Watcher};
use std::alloc::{AllocError, Global};

/// The result of a step of the search.
#[derive(Drop)]
pub(crate) enum Step<P> {
    On(Walk<P>),
    Found(Vec<usize>),
    NoOrder(u64, P),
}

/// The finding of a search.
#[derive(Drop)]
pub enum Finding<P> {
    /// A linearization, by the places of its calls.
    Order(Vec<usize>),
    /// No linearization exists. At most this many completed calls can have a position: as many as
    /// at this point.
    NoOrder(u64, P),
    /// All steps were made without a result. This many completed calls had a position at one point,
    /// and no point had more.
    Unknown(u64),
}

/// A finding of a search, and the number of steps that the search made.
#[derive(Drop)]
pub struct Found<P> {
    pub finding: Finding<P>,
    pub steps: u64,
}

/// Returns the places of the calls of a path, and a last one.
fn places_of<P>(alloc: Global, path: &[Frame<P>], last: usize) -> Result<Vec<usize>, AllocError>
    ensures { IfOk result (λ places. places.items ≡ places_of path.now ++ last ∷ []) }
{
    let mut places = Vec::new(alloc);
    'path: for number in 0..path.len() {
        places.push(path[number].place)?;
    }
    places.push(last)?;
    Ok(places)
}

/// Returns the number of the deepest dead point and the number of completed calls with a position
/// there, after one more point is dead.
fn best_of(number: usize, placed: u64, best: usize, most: u64) -> (usize, u64)
    ensures best { result ≡ best_of number placed best most }
    ensures within { best ≤ number → result.0 ≤ number }
{
    if number == 0 || most < placed {
        (number, placed)
    } else {
        (best, most)
    }
}

/// Goes back from a dead point.
fn go_back<M: Object + Drop>(walk: Walk<Point<M>>) -> Result<Step<Point<M>>, AllocError>
    requires { BestIsWithin walk }
    ensures within { IfOk result StaysWithin }
    ensures steps { IfOk result (λ step. (calls : Calls M.Op) (start : Configuration M M.Op)
        (steps : ℕ) → WalksWith M.rules (point_views M.rules calls) start steps walk []
        → StepsTo M.rules (point_views M.rules calls) start (suc steps) step) }
{
    let Walk {
        point,
        placed,
        next: _,
        mut path,
        mut known,
        best,
        most,
    } = walk;
    let number = known.len();
    known.add(point)?;
    let (best, most) = best_of(number, placed, best, most);
    let Some(frame) = path.pop() else {
        return Ok(Step::NoOrder(most, known.take(best)));
    };
    Ok(Step::On(Walk {
        point: frame.point,
        placed: frame.placed,
        next: frame.next,
        path,
        known,
        best,
        most,
    }))
}

/// Returns the number of completed calls with a position after one more call has one.
pub(crate) fn counted(placed: u64, answered: bool) -> Option<u64>
    ensures { IfSome result (λ count. count ≡ placed + (if answered then 1 else 0)) }
{
    if answered {
        placed.checked_add(1)
    } else {
        Some(placed)
    }
}

/// Makes the call at a place, which steps to the next point.
fn go_on<M: Object + Drop>(
    alloc: Global,
    calls: &Calls<M::Op>,
    walk: Walk<Point<M>>,
    place: usize,
    next: Point<M>,
) -> Result<Step<Point<M>>, AllocError>
    requires walk { BestIsWithin walk }
    requires place { place < length calls.now.lines.items }
    ensures within { IfOk result StaysWithin }
    ensures steps { IfOk result (λ step. (start : Configuration M M.Op) (steps : ℕ)
        → TriesPlace M.rules (point_views M.rules calls.now) start steps walk place
        → point_at M.rules calls.now next ≡ after_call M.rules
        (point_at M.rules calls.now walk.point) ((point_views M.rules calls.now).call place)
        → ((p : ℕ) → made_of next p ≡ (made_of walk.point p || p == place))
        → StepsTo M.rules (point_views M.rules calls.now) start (suc steps) step) }
{
    if next.is_done(calls) {
        return Ok(Step::Found(places_of(alloc, walk.path.as_slice(), place)?));
    }
    if walk.known.has(&next) {
        return Ok(Step::On(walk));
    }
    let Some(count) = counted(walk.placed, is_completed::<M>(calls, place)) else {
        return Err(AllocError);
    };
    let Walk {
        point,
        placed,
        next: others,
        mut path,
        known,
        best,
        most,
    } = walk;
    path.push(Frame {
        point,
        placed,
        place,
        next: others,
    })?;
    Ok(Step::On(Walk {
        point: next,
        placed: count,
        next: 0,
        path,
        known,
        best,
        most,
    }))
}

impl<M: Object + Drop> Walk<Point<M>> {
    /// Makes one step of the search.
    fn step(self, alloc: Global, calls: &Calls<M::Op>) -> Result<Step<Point<M>>, AllocError>
        requires { BestIsWithin self }
        ensures within { IfOk result StaysWithin }
        ensures steps { IfOk result (λ step. (start : Configuration M M.Op) (steps : ℕ)
            → Walks M.rules (point_views M.rules calls.now) start steps self
            → StepsTo M.rules (point_views M.rules calls.now) start (suc steps) step) }
    {
        let mut walk = self;
        let Some(place) = walk.point.next_try(calls, walk.next) else {
            return go_back(walk);
        };
        walk.next = place + 1;
        match walk.point.after(alloc, calls, place)? {
            Some(next) => go_on(alloc, calls, walk, place, next),
            None => Ok(Step::On(walk)),
        }
    }
}

/// Returns the greatest number of completed calls that had a position.
fn most_of<P>(walk: &Walk<P>) -> u64
    ensures { result ≡ max walk.now.most walk.now.placed }
{
    if walk.placed <= walk.most {
        walk.most
    } else {
        walk.placed
    }
}

/// Searches for an order of the calls that are left at a point, in at most `steps` steps.
pub(crate) fn find_order<M: Object + Drop, P: Watcher>(
    alloc: Global,
    calls: &Calls<M::Op>,
    start: Point<M>,
    steps: u64,
    watcher: &mut P,
) -> Result<Found<Point<M>>, AllocError>
    requires { IsWhole (point_at M.rules calls.now start).rest }
    ensures { IfOk result (λ found. FindsIn M.rules (point_views M.rules calls.now)
        (point_at M.rules calls.now start) steps found) }
{
    if start.is_done(calls) {
        return Ok(Found {
            finding: Finding::Order(Vec::new(alloc)),
            steps: 0,
        });
    }
    let mut walk = Walk {
        point: start,
        placed: 0,
        next: 0,
        path: Vec::new(alloc),
        known: Known::new(alloc),
        best: 0,
        most: 0,
    };
    'walk: for made in 0..steps {
        watcher.tell(walk.placed, made);
        let steps = made + 1;
        match walk.step(alloc, calls)? {
            Step::On(next) => walk = next,
            Step::Found(places) => {
                let finding = Finding::Order(places);
                return Ok(Found { finding, steps });
            }
            Step::NoOrder(most, point) => {
                let finding = Finding::NoOrder(most, point);
                return Ok(Found { finding, steps });
            }
        }
    }
    Ok(Found {
        finding: Finding::Unknown(most_of(&walk)),
        steps,
    })
}
