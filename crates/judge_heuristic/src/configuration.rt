//! The configurations of a beam search.

use crate::layout::Layout;
use judge_object::{Line, Object};
use std::alloc::{AllocError, Global};
use vac_model::{Reply, ValidTask};

/// Two pending calls that take effect, and a completed call after them, by their positions. The
/// number of calls stands for a call that is missing.
#[derive(Clone, Copy)]
pub(crate) struct Chain {
    pub(crate) first: usize,
    pub(crate) second: usize,
    pub(crate) place: usize,
}

/// A configuration: the calls that are placed, and the state after them.
#[derive(Drop)]
pub(crate) struct Configuration<M> {
    pub(crate) machine: M,
    /// The position of each client's next call.
    pub(crate) heads: Vec<usize>,
    /// The first position whose call is not placed.
    pub(crate) low: usize,
    /// The cost of the configuration: the less, the more likely is the order.
    pub(crate) cost: u64,
    /// The number of the last step; 0 if no call is placed.
    pub(crate) last: usize,
    /// A hash of the calls that are placed.
    pub(crate) key: u64,
}

/// Returns a hash of two numbers.
fn mixed(number: usize, other: usize) -> u64 {
    let sum = (number as u64)
        .wrapping_mul(0x9e37_79b9_7f4a_7c15)
        .wrapping_add(other as u64);
    let mixed = (sum ^ (sum >> 29)).wrapping_mul(0xbf58_476d_1ce4_e5b9);
    mixed ^ (mixed >> 32)
}

impl<M: Object<Op = ValidTask, Reply = Reply> + Drop> Configuration<M> {
    /// Creates a configuration in which no call is placed. The calls `heads` are the clients'
    /// first ones.
    pub(crate) fn new(machine: M, heads: Vec<usize>) -> Configuration<M> {
        Configuration {
            machine,
            heads,
            low: 0,
            cost: 0,
            last: 0,
            key: 0,
        }
    }

    /// Returns a copy of the configuration.
    pub(crate) fn copy(&self, alloc: Global) -> Result<Configuration<M>, AllocError> {
        Ok(Configuration {
            machine: self.machine.copy()?,
            heads: Vec::from_slice(alloc, self.heads.as_slice())?,
            low: self.low,
            cost: self.cost,
            last: self.last,
            key: self.key,
        })
    }

    /// Returns whether the call at a position, which is its client's next one or a later one, may
    /// be placed before the first call that is not placed has ended.
    pub(crate) fn is_open(&self, lines: &[Line<ValidTask>], place: usize) -> bool {
        place != self.low
            && place < lines.len()
            && self.low < lines.len()
            && u128::from(lines[place].begin) <= lines[self.low].end
    }

    /// Returns whether a later call of the same client may conflict with the first call that is
    /// not placed.
    pub(crate) fn leads(&self, lines: &[Line<ValidTask>], layout: &Layout, place: usize) -> bool {
        let mut next = place;
        for _ in 0..8 {
            next = layout.spot(next).next;
            if !self.is_open(lines, next) {
                return false;
            }
            if layout.may_meet(self.low, next) {
                return true;
            }
        }
        false
    }

    /// Places the next call of a client.
    fn place(&mut self, layout: &Layout, place: usize) {
        let spot = layout.spot(place);
        let client = spot.client;
        if client < self.heads.len() {
            self.key ^= mixed(client, self.heads[client]) ^ mixed(client, spot.next);
            self.heads.as_mut_slice()[client] = spot.next;
        }
    }

    /// Returns the configuration after these calls, which lead to a state and have a cost.
    pub(crate) fn after(
        &self,
        alloc: Global,
        layout: &Layout,
        chain: Chain,
        reached: (M, u64),
    ) -> Result<Configuration<M>, AllocError> {
        let (machine, cost) = reached;
        let mut next = Configuration {
            machine,
            heads: Vec::from_slice(alloc, self.heads.as_slice())?,
            low: self.low,
            cost: self.cost.wrapping_add(cost),
            last: self.last,
            key: self.key,
        };
        next.place(layout, chain.first);
        next.place(layout, chain.second);
        next.place(layout, chain.place);
        next.low = layout.first_left(next.heads.as_slice(), next.low);
        Ok(next)
    }
}
