//! Counts and random numbers of a quick search.

/// Number of calls, per completed call, that the search may look at beside the call that ends
/// first.
const LOOKS: u64 = 128;

/// Largest number of backtracks, and the growth of their distance.
const MOST_FAILS: u64 = 120;

const FARTHER: u64 = 64;

/// Largest number of times that choice points are collected before one more call fits.
const MOST_JUMPS: u64 = 8;

/// Counts and random numbers of a quick search.
#[derive(Clone, Copy)]
pub(crate) struct SearchCounts {
    /// Largest number of completed calls that were placed.
    most: u64,
    /// Number of backtracks since then, and number of collections of choice points.
    fails: u64,
    jumps: u64,
    /// Number of calls that may still be looked at beside the calls that end first.
    looks: u64,
    /// State of the pseudo-random generator.
    drawn: u64,
}

impl SearchCounts {
    /// Creates the counts of a search that begins, for this number of completed calls.
    pub(crate) fn new(completed: u64) -> SearchCounts {
        SearchCounts {
            most: 0,
            fails: 0,
            jumps: 0,
            looks: completed.wrapping_mul(LOOKS),
            drawn: 1,
        }
    }

    /// Returns a pseudo-random number below `below`, or 0 if `below` is 0.
    pub(crate) fn draw(&mut self, below: u64) -> u64 {
        self.drawn = self
            .drawn
            .wrapping_mul(0x5851_f42d_4c95_7f2d)
            .wrapping_add(0x1405_7b7e_f767_814f);
        if below == 0 {
            return 0;
        }
        (self.drawn >> 33) % below
    }

    /// Returns whether the next choice deviates from the rule at random, with a chance of 1 in
    /// `of`. Returns false as long as the search has not backtracked since its last progress.
    pub(crate) fn deviates(&mut self, of: u64) -> bool {
        self.fails != 0 && self.draw(of) == 0
    }

    /// Returns whether `count` more calls may be looked at. If so, the calls are counted.
    pub(crate) fn may_look(&mut self, count: u64) -> bool {
        if self.looks < count {
            return false;
        }
        self.looks -= count;
        true
    }

    /// Returns whether more completed calls are placed than ever before. If so, the counts of
    /// failures start again.
    pub(crate) fn rises_to(&mut self, placed: u64) -> bool {
        if placed <= self.most {
            return false;
        }
        self.most = placed;
        self.fails = 0;
        self.jumps = 0;
        true
    }

    /// Returns whether choice points may be collected.
    pub(crate) fn may_jump(&self) -> bool {
        self.jumps < MOST_JUMPS
    }

    /// Counts a collection of choice points, if one is allowed. Returns whether it is.
    pub(crate) fn count_jump(&mut self) -> bool {
        if self.jumps < MOST_JUMPS {
            self.jumps += 1;
            return true;
        }
        false
    }

    /// Returns the number of calls to go back, which tends to grow with the number of backtracks.
    /// Returns `None` after too many backtracks.
    pub(crate) fn count_fail(&mut self) -> Option<u64> {
        if MOST_FAILS <= self.fails {
            return None;
        }
        self.fails += 1;
        let most = self.fails.wrapping_mul(FARTHER);
        Some(self.draw(most).wrapping_add(1))
    }
}
