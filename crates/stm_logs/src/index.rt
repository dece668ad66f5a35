//! The index of a write log: open addressing with linear probing.
ghost use Rattle.std.specs.Prelude.{◌≡◌, ◌+◌, ◌*◌, ◌<◌, ◌≤◌, length};
ghost use Rattle.stm_logs.specs.declared.nodes.TheConstants.{MAX_PLACES};
ghost use Rattle.stm_logs.specs.Nodes.{at, bare, kept_finger, with_finger, with_node, with_slot};
ghost use Rattle.stm_logs.specs.Index.{home, IsFoundNode, IsIndexed, HasNoNumber, Answers, Entered};

use crate::nodes::{Entry, NUMBERS, Nodes};
use std::alloc::Allocator;

/// Factor that spreads neighbouring numbers: 2^32 over the golden ratio (Knuth, volume 3, 6.4).
const FACTOR: u64 = 2_654_435_769;

/// Returns the place at which the search for a number begins: a multiplicative hash, scaled to the
/// length.
#[inline]
pub(crate) fn start(number: u32, len: usize) -> usize
    requires some { 0 < len }
    requires limit { len ≤ MAX_PLACES }
    ensures place { result ≡ home number len }
    ensures inside { result < len }
{
    let mixed = number as u64 * FACTOR % NUMBERS;
    (mixed * len as u64 / NUMBERS) as usize
}

/// Returns the next place; after the last place comes the first.
#[inline]
fn behind(place: usize, len: usize) -> usize
    requires { place < len }
    ensures on { place + 1 < len → result ≡ place + 1 }
    ensures round { place + 1 ≡ len → result ≡ 0 }
{
    if place + 1 == len { 0 } else { place + 1 }
}

/// Returns the place of the index that leads to the node with this number, or the free place at
/// which such a node would enter.
#[inline]
pub(crate) fn probe<A: Allocator>(nodes: &Nodes<A>, number: u32) -> usize
    requires { IsIndexed nodes.now.list nodes.now.count }
    ensures { Answers nodes.now.list nodes.now.count number result }
{
    let len = nodes.len();
    let mut place = start(number, len);
    loop {
        let slot = nodes.slot(place);
        if slot == 0 {
            return place;
        }
        if nodes.get(slot).number == number {
            return place;
        }
        place = behind(place, len);
    }
}

/// Returns the node with this number, or 0.
#[inline]
pub(crate) fn find<A: Allocator>(nodes: &Nodes<A>, number: u32) -> usize
    requires { IsIndexed nodes.now.list nodes.now.count }
    ensures there { 0 < result → IsFoundNode nodes.now.list nodes.now.count number result }
    ensures none { result ≡ 0 → HasNoNumber nodes.now.list nodes.now.count number }
{
    let place = probe(nodes, number);
    nodes.slot(place)
}

/// Adds a node after the others, at the free place of the index that the search for its number
/// found. In a long log the place keeps its finger. The caller counts the node.
#[inline]
pub(crate) fn enter<A: Allocator>(
    nodes: &mut Nodes<A>,
    position: usize,
    place: usize,
    node: Entry,
    is_long: bool,
)
    requires indexed { IsIndexed nodes.old.list nodes.old.count }
    requires room { nodes.old.count + 1 < length nodes.old.list }
    requires position { position ≡ nodes.old.count + 1 }
    requires place { Answers nodes.old.list nodes.old.count node.number place }
    requires free { (at nodes.old.list place).slot ≡ 0 }
    ensures entered { Entered nodes.old.list nodes.new.list nodes.old.count (bare node) }
    ensures count { nodes.new.count ≡ nodes.old.count }
{
    nodes.put(
        position,
        Entry {
            place: place as u32,
            ..node
        },
    );
    set_place(nodes, place, position as u32, is_long);
}

/// Lets a place of the index lead to a node. In a short log, in which walks use no fingers, the
/// finger at the place becomes 0, so that the place need not be loaded first.
#[inline]
fn set_place<A: Allocator>(nodes: &mut Nodes<A>, place: usize, node: u32, is_long: bool)
    requires { place < length nodes.old.list }
    ensures { nodes.new ≡ with_node nodes.old place (with_finger
        (with_slot (at nodes.old.list place) node)
        (kept_finger is_long (at nodes.old.list place))) }
{
    if is_long {
        nodes.set_slot(place, node);
    } else {
        nodes.lead(place, node);
    }
}
