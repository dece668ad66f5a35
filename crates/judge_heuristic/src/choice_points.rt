//! The choice points of a quick search: choices between two calls that may have been wrong, and
//! the choices that are tried the other way.

use crate::layout::Layout;
use crate::trail::Trail;
use std::alloc::{AllocError, Global};

/// Largest number of choice points that are kept.
const MOST_CHOICE_POINTS: usize = 256;

/// Largest number of choice points that are tried among those close to the blocked call, and again
/// among those farther off.
const MOST_TRIED_POINTS: usize = 16;

/// The two calls of a choice point: the call that was taken and the other call.
#[derive(Clone, Copy)]
pub(crate) struct Pair {
    pub(crate) taken: usize,
    pub(crate) other: usize,
}

/// A choice point, and the number of calls that were made before it.
#[derive(Clone, Copy)]
pub(crate) struct ChoicePoint {
    at: usize,
    pair: Pair,
}

/// The choice points of a quick search.
#[derive(Drop)]
pub(crate) struct ChoicePoints {
    /// The choice points on the trail, the earliest first.
    kept: Vec<ChoicePoint>,
    /// The choice points about the planned calls, the next one last.
    pub(crate) again: Vec<Pair>,
    /// The choice points to try when no call fits, and the number of those already tried.
    pub(crate) tries: Vec<Pair>,
    tried: usize,
}

/// Returns whether one of the calls of a choice point meets one of the calls at these positions.
fn meets_any(layout: &Layout, pair: Pair, places: &[usize]) -> bool {
    for place in places {
        if layout.meets(pair.taken, *place) || layout.meets(pair.other, *place) {
            return true;
        }
    }
    false
}

/// Returns whether one of the calls of a choice point meets a call of `met`, and no call of the
/// choice point meets the call `but`, if that is given.
fn meets_these(layout: &Layout, pair: Pair, met: &[usize], but: Option<usize>) -> bool {
    if let Some(place) = but
        && meets_any(layout, pair, [place].as_slice())
    {
        return false;
    }
    meets_any(layout, pair, met)
}

impl ChoicePoints {
    /// Creates an empty collection of choice points.
    pub(crate) fn new(alloc: Global) -> ChoicePoints {
        ChoicePoints {
            kept: Vec::new(alloc),
            again: Vec::new(alloc),
            tries: Vec::new(alloc),
            tried: 0,
        }
    }

    /// Returns the number of calls before the first choice point, if there is one.
    pub(crate) fn first(&self) -> Option<usize> {
        Some(self.kept.first()?.at)
    }

    /// Adds a choice between two calls after `at` calls. The oldest choice point is dropped if
    /// there are too many.
    pub(crate) fn add(&mut self, at: usize, pair: Pair) -> Result<(), AllocError> {
        if MOST_CHOICE_POINTS <= self.kept.len() {
            self.kept.remove(0);
        }
        self.kept.push(ChoicePoint { at, pair })?;
        Ok(())
    }

    /// Removes and returns the last choice point, if it comes after at least `length` calls.
    fn take(&mut self, length: usize) -> Option<ChoicePoint> {
        let count = self.kept.len();
        if count == 0 || self.kept[count - 1].at < length {
            return None;
        }
        self.kept.pop()
    }

    /// Drops the choice points that come after at least `length` calls.
    pub(crate) fn forget(&mut self, length: usize) {
        for _ in 0..self.kept.len() {
            if self.take(length).is_none() {
                return;
            }
        }
    }

    /// Removes the choice points that come after at least `length` calls, and returns them, the
    /// last one first.
    pub(crate) fn cut_to(
        &mut self,
        alloc: Global,
        length: usize,
    ) -> Result<Vec<ChoicePoint>, AllocError> {
        let mut choice_points = Vec::new(alloc);
        for _ in 0..self.kept.len() {
            match self.take(length) {
                Some(choice_point) => choice_points.push(choice_point)?,
                None => break,
            }
        }
        Ok(choice_points)
    }

    /// Puts back the choice points that were removed.
    pub(crate) fn put_back(
        &mut self,
        mut choice_points: Vec<ChoicePoint>,
    ) -> Result<(), AllocError> {
        for _ in 0..choice_points.len() {
            if let Some(choice_point) = choice_points.pop() {
                self.kept.push(choice_point)?;
            }
        }
        Ok(())
    }

    /// Replaces the choice points about planned calls by these.
    pub(crate) fn plan(
        &mut self,
        alloc: Global,
        choice_points: &[ChoicePoint],
    ) -> Result<(), AllocError> {
        let mut again = Vec::new(alloc);
        for choice_point in choice_points {
            again.push(choice_point.pair)?;
        }
        self.again = again;
        Ok(())
    }

    /// Adds the choice points about a planned call again, now that the call is made.
    pub(crate) fn note_again(
        &mut self,
        trail: &Trail,
        layout: &Layout,
        place: usize,
    ) -> Result<(), AllocError> {
        for _ in 0..self.again.len() {
            let count = self.again.len();
            if count == 0 {
                break;
            }
            let pair = self.again[count - 1];
            if pair.taken != place && !trail.is_made(layout, pair.taken) {
                break;
            }
            self.again.pop();
            if pair.taken == place && !trail.is_made(layout, pair.other) {
                self.add(trail.path.len(), pair)?;
            }
        }
        Ok(())
    }

    /// Returns the choice point with this number, if its taken call stands at that point of the
    /// trail.
    fn get(&self, trail: &Trail, number: usize) -> Option<ChoicePoint> {
        let found = *self.kept.get(number)?;
        if trail.path.get(found.at)?.place != found.pair.taken {
            return None;
        }
        Some(found)
    }

    /// Returns the number of calls before the last choice point with this pair of calls.
    pub(crate) fn last_of(&self, trail: &Trail, pair: Pair) -> Option<usize> {
        let count = self.kept.len();
        for back in 0..count {
            if let Some(found) = self.get(trail, count - 1 - back)
                && found.pair.taken == pair.taken
                && found.pair.other == pair.other
            {
                return Some(found.at);
            }
        }
        None
    }

    /// Adds the last choice points with a call that meets a call of `met`, except those with a
    /// call that meets the call `but`, if that is given.
    fn add_tries(
        &mut self,
        trail: &Trail,
        layout: &Layout,
        met: &[usize],
        but: Option<usize>,
    ) -> Result<(), AllocError> {
        let most = self.tries.len().saturating_add(MOST_TRIED_POINTS);
        let count = self.kept.len();
        for back in 0..count {
            let Some(found) = self.get(trail, count - 1 - back) else {
                continue;
            };
            if !meets_these(layout, found.pair, met, but) {
                continue;
            }
            self.tries.push(found.pair)?;
            if most <= self.tries.len() {
                return Ok(());
            }
        }
        Ok(())
    }

    /// Collects the choice points to try, the last one first: first those with a call that meets
    /// the call that ends first, then those with a call that meets a call of the first kind.
    pub(crate) fn find_tries(
        &mut self,
        alloc: Global,
        trail: &Trail,
        layout: &Layout,
    ) -> Result<(), AllocError> {
        let low = trail.low;
        let met = trail.met(alloc, layout)?;
        self.tries = Vec::new(alloc);
        self.tried = 0;
        self.add_tries(trail, layout, [low].as_slice(), None)?;
        self.add_tries(trail, layout, met.as_slice(), Some(low))
    }

    /// Returns the next choice point to try.
    pub(crate) fn next_try(&mut self) -> Option<Pair> {
        let next = *self.tries.get(self.tried)?;
        self.tried += 1;
        Some(next)
    }

    /// Gives up the choice points that were not tried.
    pub(crate) fn leave(&mut self) {
        self.tried = self.tries.len();
    }

    /// Returns the first of the collected choice points, and drops the collection.
    pub(crate) fn take_tried(&mut self, alloc: Global) -> Option<Pair> {
        let first = *self.tries.first()?;
        self.tries = Vec::new(alloc);
        Some(first)
    }
}
