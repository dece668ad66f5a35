//! The trail of a quick search: the calls that were made, in their order.

use crate::layout::Layout;
use judge_object::{Line, NEVER};
use std::alloc::{AllocError, Global};
use vac_model::ValidTask;

/// Largest number of calls that the search takes back one by one.
const MOST_BACK: usize = 8_192;

/// Number of last calls that are searched for calls that meet a call.
const NEAR: usize = 262_144;

/// A call that was made: its position, the first position without a place in the order before the
/// call, and whether all blocks were known to be in use.
#[derive(Clone, Copy)]
pub(crate) struct Turn {
    pub(crate) place: usize,
    low: usize,
    is_full: bool,
}

/// Calls that were taken back, the earliest last, with the trail's data after them.
#[derive(Drop)]
pub(crate) struct Tail {
    pub(crate) turns: Vec<Turn>,
    low: usize,
    is_full: bool,
    pub(crate) settled: usize,
}

/// The trail of a quick search.
#[derive(Drop)]
pub(crate) struct Trail {
    /// The calls that were made, in their order.
    pub(crate) path: Vec<Turn>,
    /// Number of completed calls that are placed.
    pub(crate) placed: u64,
    /// The first position whose call is not placed.
    pub(crate) low: usize,
    /// The position of each client's next call.
    pub(crate) heads: Vec<usize>,
    /// True if all blocks are known to be in use.
    is_full: bool,
    /// Number of first calls that are not taken back one by one.
    pub(crate) settled: usize,
}

/// Returns whether the call at a position is completed.
pub(crate) fn is_completed(lines: &[Line<ValidTask>], place: usize) -> bool {
    place < lines.len() && lines[place].end < NEVER
}

/// Returns the positions of calls.
pub(crate) fn places_of(alloc: Global, turns: &[Turn]) -> Result<Vec<usize>, AllocError> {
    let mut places = Vec::new(alloc);
    for turn in turns {
        places.push(turn.place)?;
    }
    Ok(places)
}

impl Trail {
    /// Creates an empty trail.
    pub(crate) fn new(alloc: Global, layout: &Layout) -> Result<Trail, AllocError> {
        Ok(Trail {
            path: Vec::new(alloc),
            placed: 0,
            low: 0,
            heads: Vec::from_slice(alloc, layout.firsts.as_slice())?,
            is_full: false,
            settled: 0,
        })
    }

    /// Returns the position of a client's next call.
    pub(crate) fn head(&self, client: usize) -> usize {
        if client < self.heads.len() {
            self.heads[client]
        } else {
            usize::MAX
        }
    }

    /// Sets the position of a client's next call.
    fn set_head(&mut self, client: usize, place: usize) {
        if client < self.heads.len() {
            self.heads.as_mut_slice()[client] = place;
        }
    }

    /// Returns whether the call at a position was made.
    pub(crate) fn is_made(&self, layout: &Layout, place: usize) -> bool {
        place < self.head(layout.spot(place).client)
    }

    /// Returns whether the call at a position, which is its client's next one, may come next.
    pub(crate) fn is_open(&self, lines: &[Line<ValidTask>], place: usize) -> bool {
        place < lines.len()
            && self.low < lines.len()
            && u128::from(lines[place].begin) <= lines[self.low].end
    }

    /// Appends a call to the trail.
    fn add(
        &mut self,
        lines: &[Line<ValidTask>],
        layout: &Layout,
        turn: Turn,
    ) -> Result<(), AllocError> {
        let spot = layout.spot(turn.place);
        self.path.push(turn)?;
        self.set_head(spot.client, spot.next);
        if is_completed(lines, turn.place) {
            self.placed = self.placed.wrapping_add(1);
        }
        Ok(())
    }

    /// Takes back the last call.
    fn take(&mut self, lines: &[Line<ValidTask>], layout: &Layout) -> Option<Turn> {
        let turn = self.path.pop()?;
        self.low = turn.low;
        self.is_full = turn.is_full;
        self.set_head(layout.spot(turn.place).client, turn.place);
        if is_completed(lines, turn.place) {
            self.placed = self.placed.wrapping_sub(1);
        }
        Some(turn)
    }

    /// Appends the call at a position to the trail.
    pub(crate) fn go_on(
        &mut self,
        lines: &[Line<ValidTask>],
        layout: &Layout,
        place: usize,
    ) -> Result<(), AllocError> {
        let spot = layout.spot(place);
        let turn = Turn {
            place,
            low: self.low,
            is_full: self.is_full,
        };
        self.add(lines, layout, turn)?;
        self.low = layout.first_left(self.heads.as_slice(), self.low);
        self.is_full = spot.is_full || self.is_full && !spot.is_freeing;
        Ok(())
    }

    /// Takes back the last call, unless the call is settled. Returns the number of calls left.
    pub(crate) fn go_back(&mut self, lines: &[Line<ValidTask>], layout: &Layout) -> Option<usize> {
        if self.path.len() <= self.settled {
            return None;
        }
        self.take(lines, layout)?;
        Some(self.path.len())
    }

    /// Settles the calls that are too far back, and returns the number of settled calls.
    pub(crate) fn settle(&mut self) -> usize {
        let far = self.path.len().saturating_sub(MOST_BACK);
        self.settled = far.max(self.settled);
        self.settled
    }

    /// Takes back all calls but the first `at` calls.
    pub(crate) fn cut_to(
        &mut self,
        alloc: Global,
        lines: &[Line<ValidTask>],
        layout: &Layout,
        at: usize,
    ) -> Result<Tail, AllocError> {
        let (low, is_full) = (self.low, self.is_full);
        let mut turns = Vec::new(alloc);
        for _ in at..self.path.len() {
            match self.take(lines, layout) {
                Some(turn) => turns.push(turn)?,
                None => break,
            }
        }
        Ok(Tail {
            turns,
            low,
            is_full,
            settled: self.settled,
        })
    }

    /// Puts back the calls that were taken back.
    pub(crate) fn put_back(
        &mut self,
        lines: &[Line<ValidTask>],
        layout: &Layout,
        tail: Tail,
    ) -> Result<(), AllocError> {
        let Tail {
            mut turns,
            low,
            is_full,
            settled,
        } = tail;
        for _ in 0..turns.len() {
            if let Some(turn) = turns.pop() {
                self.add(lines, layout, turn)?;
            }
        }
        self.low = low;
        self.is_full = is_full;
        self.settled = settled;
        Ok(())
    }

    /// Returns the next calls of clients that may have to precede the call that ends first. Such a
    /// call names an item or a customer in common with the call that ends first. Or its reply says
    /// that no block is left, all blocks are known to be in use, and the call that ends first may
    /// free blocks.
    pub(crate) fn rivals(
        &self,
        alloc: Global,
        lines: &[Line<ValidTask>],
        layout: &Layout,
    ) -> Result<Vec<usize>, AllocError> {
        let low = self.low;
        let is_tight = self.is_full && layout.spot(low).is_freeing;
        let mut rivals = Vec::new(alloc);
        for client in 0..self.heads.len() {
            let place = self.heads[client];
            if place == low || !self.is_open(lines, place) {
                continue;
            }
            if layout.meets(low, place) || is_tight && layout.spot(place).is_full {
                rivals.push(place)?;
            }
        }
        Ok(rivals)
    }

    /// Returns the calls that meet the call that ends first: the last calls of the trail, and the
    /// next calls of clients.
    pub(crate) fn met(&self, alloc: Global, layout: &Layout) -> Result<Vec<usize>, AllocError> {
        let mut met = Vec::new(alloc);
        for number in self.path.len().saturating_sub(NEAR)..self.path.len() {
            let place = self.path[number].place;
            if layout.meets(place, self.low) {
                met.push(place)?;
            }
        }
        for client in 0..self.heads.len() {
            let place = self.heads[client];
            if place != self.low && layout.meets(place, self.low) {
                met.push(place)?;
            }
        }
        Ok(met)
    }
}
