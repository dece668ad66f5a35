//! The iterators of a write log, which go along its nodes in their order.
ghost use Rattle.std.specs.Prelude.{◌≡◌, ℕ, ◌<◌, ◌∷◌, length};
ghost use Rattle.std.specs.Iterator.{YieldsFirst, YieldsFirstBy, item_count};
ghost use Rattle.stm_logs.specs.Nodes.{at};
ghost use Rattle.stm_logs.specs.Chain.{EndsWithin, goes_on, locks_from};

use crate::nodes::Nodes;
use std::alloc::{Allocator, Global};
use std::marker::Model;
use tx_memory::Addr;

/// An iterator over the words of one lock with their values, by ascending address.
#[derive(Drop)]
pub struct Words<'a, A: Allocator = Global> {
    pub(crate) nodes: Option<&'a Nodes<A>>,
    pub(crate) lock: u32,
    pub(crate) at: usize,
    /// Upper bound of the number of nodes left, for the prover.
    pub(crate) most: usize,
}

impl<'a, A: Allocator> Model for Words<'a, A> {
    ghost use Rattle.std.specs.Prelude.{ℕ, List};

    ghost Value = { List (ℕ × ℕ) };

    ghost use Rattle.stm_logs.specs.Chain.{words_in, EndsIn};

    ghost view = { λ w. words_in w.nodes w.lock w.most w.at };

    ghost invariant = { λ w. EndsIn w.nodes w.most w.at };
}

impl<'a, A: Allocator> Iterator for Words<'a, A> {
    type Item = (Addr, u64);

    ghost next_gives = { YieldsFirstBy (λ item. (item.0.0, item.1)) (λ rest. rest) };

    ghost remaining = { item_count (λ rest. rest) };

    #[inline]
    fn next(&mut self) -> Option<(Addr, u64)> {
        let nodes = self.nodes?;
        if self.at == 0 {
            return None;
        }
        let node = nodes.get(self.at);
        if node.lock != self.lock {
            return None;
        }
        self.at = node.next as usize;
        self.most -= 1;
        Some((Addr(node.number), node.value))
    }
}

/// An iterator over the locks of a write log in ascending order, each once.
#[derive(Drop)]
pub struct Locks<'a, A: Allocator = Global> {
    pub(crate) nodes: Option<&'a Nodes<A>>,
    pub(crate) at: usize,
    /// Upper bound of the number of nodes left, for the prover.
    pub(crate) most: usize,
}

impl<'a, A: Allocator> Model for Locks<'a, A> {
    ghost use Rattle.std.specs.Prelude.{ℕ, List};

    ghost Value = { List ℕ };

    ghost use Rattle.stm_logs.specs.Chain.{locks_in, EndsIn};

    ghost view = { λ w. locks_in w.nodes w.most w.at };

    ghost invariant = { λ w. EndsIn w.nodes w.most w.at };
}

impl<'a, A: Allocator> Iterator for Locks<'a, A> {
    type Item = u32;

    ghost next_gives = { YieldsFirst (λ rest. rest) };

    ghost remaining = { item_count (λ rest. rest) };

    #[inline]
    fn next(&mut self) -> Option<u32> {
        let nodes = self.nodes?;
        if self.at == 0 {
            return None;
        }
        let lock = nodes.get(self.at).lock;
        (self.at, self.most) = past(nodes, self.at, self.most);
        Some(lock)
    }
}

/// An iterator over the words of a write log with their values, by ascending lock. The words of
/// one lock come by ascending address.
#[derive(Drop)]
pub struct Pairs<'a, A: Allocator = Global> {
    pub(crate) nodes: Option<&'a Nodes<A>>,
    pub(crate) at: usize,
    /// Upper bound of the number of nodes left, for the prover.
    pub(crate) most: usize,
}

impl<'a, A: Allocator> Model for Pairs<'a, A> {
    ghost use Rattle.std.specs.Prelude.{ℕ, List};

    ghost Value = { List (ℕ × ℕ) };

    ghost use Rattle.stm_logs.specs.Chain.{pairs_in, EndsIn};

    ghost view = { λ w. pairs_in w.nodes w.most w.at };

    ghost invariant = { λ w. EndsIn w.nodes w.most w.at };
}

impl<'a, A: Allocator> Iterator for Pairs<'a, A> {
    type Item = (Addr, u64);

    ghost next_gives = { YieldsFirstBy (λ item. (item.0.0, item.1)) (λ rest. rest) };

    ghost remaining = { item_count (λ rest. rest) };

    #[inline]
    fn next(&mut self) -> Option<(Addr, u64)> {
        let nodes = self.nodes?;
        if self.at == 0 {
            return None;
        }
        let word = nodes.get(self.at);
        self.at = word.next as usize;
        self.most -= 1;
        Some((Addr(word.number), word.value))
    }
}

/// Returns the first node after the nodes of a node's lock, and an upper bound of the number of
/// nodes left from there.
#[inline]
fn past<A: Allocator>(nodes: &Nodes<A>, start: usize, most: usize) -> (usize, usize)
    requires some { 0 < start }
    requires ends { EndsWithin nodes.now.list most start }
    ensures ends { EndsWithin nodes.now.list result.1 result.0 }
    ensures locks { locks_from nodes.now.list most start
        ≡ (at nodes.now.list start).lock ∷ locks_from nodes.now.list result.1 result.0 }
{
    let lock = nodes.get(start).lock;
    let mut at = start;
    let mut left = most;
    loop {
        let next = nodes.get(at).next as usize;
        left -= 1;
        if !is_of(nodes, lock, next) {
            return (next, left);
        }
        at = next;
    }
}

/// Returns whether there is a node at `e` and the node has the lock.
#[inline]
fn is_of<A: Allocator>(nodes: &Nodes<A>, lock: u32, e: usize) -> bool
    requires { 0 < e → e < length nodes.now.list }
    ensures { result ≡ goes_on nodes.now.list lock e }
{
    e != 0 && nodes.get(e).lock == lock
}
