//! The decided records in the order of their point steps.

ghost use Rattle.std.specs.Prelude.{◌≡◌, ◌<◌, ◌≤◌, [], cond, length, vec_len, vec_capacity, OnOk, OnErr};
ghost use Rattle.std.specs.List.{insert};
ghost use Rattle.stm_replay.specs.Placing.{place_among, put_in};

use crate::event::Entry;
use std::alloc::{AllocError, Allocator};
use std::marker::Model;

/// The decided records in the order of their point steps, with the positions of these steps in the
/// list of events.
#[derive(Drop)]
pub(crate) struct Order<A: Allocator + Copy> {
    entries: Vec<Entry, A>,
    points: Vec<usize, A>,
}

impl<A: Allocator + Copy> Model for Order<A> {
    ghost use Rattle.stm_replay.specs.Placing.{Placed};
    ghost use Rattle.std.specs.Prelude.{◌≡◌, length};

    ghost Value = { Placed };

    ghost view = { λ o. record { entries = o.entries.items; points = o.points.items } };

    ghost invariant = { λ o. length o.entries.items ≡ length o.points.items };
}

impl<A: Allocator + Copy> Order<A> {
    /// Returns an order without records.
    pub(crate) fn new(alloc: A) -> Order<A>
        ensures { result ≡ record { entries = []; points = [] } }
    {
        Order {
            entries: Vec::new(alloc),
            points: Vec::new(alloc),
        }
    }

    /// Returns the records in their order.
    pub(crate) fn entries(&self) -> &[Entry]
        ensures { result.now ≡ self.now.entries }
    {
        &self.entries
    }

    /// Inserts a record at its position. Reserves room in both vectors first: if memory is
    /// refused, nothing has changed.
    pub(crate) fn enter(&mut self, entry: Entry, point: usize) -> Result<(), AllocError>
        ensures done { OnOk result (self.new ≡ put_in entry point self.old) }
        ensures kept { OnErr result (self.new ≡ self.old) }
    {
        self.entries.reserve(1)?;
        self.points.reserve(1)?;
        let place = place_in(&self.points, point);
        insert_in_room(&mut self.entries, place, entry);
        insert_in_room(&mut self.points, place, point);
        Ok(())
    }

    /// Inserts a record at its position if the record is decided.
    pub(crate) fn enter_if(
        &mut self,
        decided: bool,
        entry: Entry,
        point: usize,
    ) -> Result<(), AllocError>
        ensures done { OnOk result
            (self.new ≡ cond decided (put_in entry point self.old) self.old) }
        ensures kept { OnErr result (self.new ≡ self.old) }
    {
        if decided {
            self.enter(entry, point)
        } else {
            Ok(())
        }
    }
}

/// Returns the number of points up to and including the last point that is not later. Searches
/// from the back, since a new point is mostly among the last.
fn place_in(points: &[usize], point: usize) -> usize
    ensures place { result ≡ place_among points.now point }
    ensures within { result ≤ length points.now }
{
    let mut place = points.len();
    while 0 < place && point < points[place - 1] {
        place -= 1;
    }
    place
}

/// Inserts a value without allocating: the caller has reserved the room.
fn insert_in_room<T: Drop, A: Allocator + Copy>(list: &mut Vec<T, A>, place: usize, value: T)
    requires place { place ≤ vec_len list.old }
    requires room { vec_len list.old < vec_capacity list.old }
    ensures { list.new.items ≡ insert list.old.items place value }
{
    let _ = list.insert(place, value);
}
