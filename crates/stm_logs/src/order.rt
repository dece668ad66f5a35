//! The order of a write log's nodes: by lock, and within a lock by address.
ghost use Rattle.std.specs.Prelude.{◌≡◌, ◌+◌, ◌*◌, ◌<◌, ◌≤◌, length};
ghost use Rattle.stm_logs.specs.declared.nodes.TheConstants.{MAX_PLACES};
ghost use Rattle.stm_logs.specs.Nodes.{at, bare, with_node, with_next};
ghost use Rattle.stm_logs.specs.Order.{rank_of_number, rank_in, IsChained, IsBelow, IsBefore};

use crate::finger::nearer;
use crate::nodes::{Entry, NUMBERS, Nodes};
use std::alloc::Allocator;

/// Returns the rank of a number with its lock.
#[inline]
pub(crate) fn rank(lock: u32, number: u32) -> u64
    ensures { result ≡ rank_of_number lock number }
{
    lock as u64 * NUMBERS + number as u64
}

/// Returns the rank of a node.
#[inline]
pub(crate) fn node_rank(node: &Entry) -> u64
    ensures { result ≡ rank_in (bare node.now) }
{
    rank(node.lock, node.number)
}

/// Sets the next node of a node.
#[inline]
pub(crate) fn set_next<A: Allocator>(nodes: &mut Nodes<A>, e: usize, next: usize)
    requires inside { e < length nodes.old.list }
    requires fits { next ≤ MAX_PLACES }
    ensures { nodes.new ≡ with_node nodes.old e (with_next (at nodes.old.list e) next) }
{
    let node = *nodes.get(e);
    nodes.put(
        e,
        Entry {
            next: next as u32,
            ..node
        },
    );
}

/// Returns the last node before a number with its lock, or the root. In a long log the search uses
/// fingers.
#[inline]
pub(crate) fn seek<A: Allocator>(nodes: &Nodes<A>, lock: u32, number: u32, is_long: bool) -> usize
    requires chained { IsChained nodes.now.list nodes.now.count }
    requires room { nodes.now.count < length nodes.now.list }
    requires limit { length nodes.now.list ≤ MAX_PLACES }
    ensures { IsBefore nodes.now.list nodes.now.count (rank_of_number lock number) result }
{
    let rank = rank(lock, number);
    let start = near(nodes, rank);
    if !is_long || comes_next(nodes, start, rank) {
        walk(nodes, start, rank)
    } else {
        seek_far(nodes, start, lock, number)
    }
}

/// Returns the node that entered last if its rank is below the given one, else the root.
#[inline]
fn near<A: Allocator>(nodes: &Nodes<A>, rank: u64) -> usize
    requires chained { IsChained nodes.now.list nodes.now.count }
    requires room { nodes.now.count < length nodes.now.list }
    ensures { IsBelow nodes.now.list nodes.now.count rank result }
{
    let last = nodes.count();
    if node_rank(nodes.get(last)) < rank {
        last
    } else {
        0
    }
}

/// Walks from the root, or from a node with a rank below the given one, to the last such node.
#[inline]
fn walk<A: Allocator>(nodes: &Nodes<A>, start: usize, rank: u64) -> usize
    requires chained { IsChained nodes.now.list nodes.now.count }
    requires room { nodes.now.count < length nodes.now.list }
    requires start { IsBelow nodes.now.list nodes.now.count rank start }
    ensures { IsBefore nodes.now.list nodes.now.count rank result }
{
    let mut before = start;
    let mut next = nodes.get(start).next as usize;
    loop {
        let node = nodes.get(next);
        if rank <= node_rank(node) {
            return before;
        }
        before = next;
        next = node.next as usize;
    }
}

/// Returns whether no node after `before` has a rank below the given one.
#[inline]
fn comes_next<A: Allocator>(nodes: &Nodes<A>, before: usize, rank: u64) -> bool
    requires chained { IsChained nodes.now.list nodes.now.count }
    requires room { nodes.now.count < length nodes.now.list }
    requires inside { before ≤ nodes.now.count }
{
    let next = nodes.get(before).next as usize;
    rank <= node_rank(nodes.get(next))
}

/// Returns the last node before a number with its lock, starting from a node that may be far
/// before it.
#[cold]
fn seek_far<A: Allocator>(nodes: &Nodes<A>, start: usize, lock: u32, number: u32) -> usize
    requires chained { IsChained nodes.now.list nodes.now.count }
    requires room { nodes.now.count < length nodes.now.list }
    requires limit { length nodes.now.list ≤ MAX_PLACES }
    requires start { IsBelow nodes.now.list nodes.now.count (rank_of_number lock number) start }
    ensures { IsBefore nodes.now.list nodes.now.count (rank_of_number lock number) result }
{
    let start = nearer(nodes, start, lock, number);
    walk(nodes, start, rank(lock, number))
}
