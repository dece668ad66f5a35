//! The dead points of a search: those from which nothing is left to try.

ghost use Rattle.std.specs.Prelude.{◌≡◌, ◌++◌, ◌∷◌, [], ◌<◌, OnOk, map, true, Some, slice_get, vec_len};
ghost use Rattle.std.specs.List.{Contains};
ghost use Rattle.judge_search.specs.declared.calls.Calls.{Calls};
ghost use Rattle.judge_search.specs.Point.{point_at};
ghost use Rattle.judge_search.specs.Reaching.{AddsNew};

use crate::index::Index;
use crate::point::Point;
use judge_object::Object;
use std::alloc::{AllocError, Global};

/// Dead points, and an index by their hashes. Nothing is promised of the index: the points that it
/// names are compared.
#[derive(Drop)]
pub(crate) struct Known<P> {
    pub(crate) points: Vec<P>,
    index: Index,
}

/// Returns true only if an equal point is among the points; it looks at this place.
fn is_at<M: Object + Drop>(points: &[Point<M>], place: usize, point: &Point<M>) -> bool
    ensures { result ≡ true → (calls : Calls M.Op) → Contains
        (map (point_at M.rules calls) points.now) (point_at M.rules calls point.now) }
{
    if place < points.len() {
        if points[place].is_same(point) {
            return true;
        }
    }
    false
}

impl<P: Drop> Known<P> {
    /// Returns an empty set.
    pub(crate) fn new(alloc: Global) -> Known<P>
        ensures { result.points.items ≡ [] }
    {
        Known {
            points: Vec::new(alloc),
            index: Index::new(alloc),
        }
    }

    /// Returns the number of points.
    pub(crate) fn len(&self) -> usize
        ensures { result ≡ vec_len self.now.points }
    {
        self.points.len()
    }

    /// Takes the point at a place out, and drops the others.
    pub(crate) fn take(self, place: usize) -> P
        requires { place < vec_len self.points }
        ensures { slice_get self.points.items place ≡ Some result }
    {
        let mut points = self.points;
        points.swap_remove(place)
    }
}

impl<M: Object + Drop> Known<Point<M>> {
    /// Returns true only if an equal point is among them.
    pub(crate) fn has(&self, point: &Point<M>) -> bool
        ensures { result ≡ true → (calls : Calls M.Op) → Contains
            (map (point_at M.rules calls) self.now.points.items)
            (point_at M.rules calls point.now) }
    {
        if self.points.is_empty() {
            return false;
        }
        let hash = point.hash();
        let mut after = self.index.last(hash);
        'chain: while 0 < after {
            let place = after - 1;
            if self.index.has_hash(place, hash) {
                if is_at(self.points.as_slice(), place, point) {
                    return true;
                }
            }
            after = self.index.before(place);
        }
        false
    }

    /// Adds a point.
    pub(crate) fn add(&mut self, point: Point<M>) -> Result<(), AllocError>
        ensures { OnOk result (self.new.points.items ≡ self.old.points.items ++ point ∷ []) }
    {
        self.index.push(point.hash())?;
        self.points.push(point)?;
        Ok(())
    }

    /// Adds a point if no equal point is found.
    pub(crate) fn meet(&mut self, point: Point<M>) -> Result<(), AllocError>
        ensures { OnOk result ((calls : Calls M.Op) → AddsNew (point_at M.rules calls) (point ∷ [])
            self.old.points.items self.new.points.items) }
    {
        if self.has(&point) {
            return Ok(());
        }
        self.add(point)
    }
}
