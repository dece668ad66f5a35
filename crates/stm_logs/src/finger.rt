//! The fingers of a write log: nodes at which a walk through a long log may start. A finger is a
//! guess, and is checked before it is followed.
ghost use Rattle.std.specs.Prelude.{◌≡◌, ◌+◌, ◌<◌, ◌≤◌, length, true};
ghost use Rattle.stm_logs.specs.declared.nodes.TheConstants.{MAX_PLACES};
ghost use Rattle.stm_logs.specs.Order.{rank_of_number, HasLock, IsChained, IsBelow, OnlyFingers};

use crate::index::start;
use crate::nodes::{Entry, NUMBERS, Nodes};
use crate::order::{node_rank, rank};
use std::alloc::Allocator;

/// Bits of the narrowest range of more than one lock.
const NARROW: u32 = 3;

/// Bits of a range at scale 1 in an empty block. Each doubling of the places takes one bit away.
const SHARED: u32 = 24;

/// Number of bits by which the range of the next wider finger grows.
const WIDER: u32 = 4;

/// Number of bits by which the addresses of one lock lie further apart than the locks.
const SPREAD: u32 = 6;

/// Number of fingers of a number or a lock, for ranges from close neighbours to a large part of
/// all.
const SCALES: u32 = 5;

/// Number of bits of a number.
const ALL: u32 = 32;

/// Factor that separates the fingers of different ranges.
const APART: u64 = 1_431_655_765;

/// The members of a finger's range: locks, or the addresses of one lock.
#[derive(Clone, Copy)]
enum Among {
    Locks,
    WordsOf(u32),
}

/// A range of 2 to the power of `bits` numbers that contains a given lock or address.
#[derive(Clone, Copy)]
struct Range {
    among: Among,
    step: u64,
    bits: u32,
}

impl Range {
    fn of(among: Among, bits: u32, lock: u32, number: u32) -> Range
        requires { bits ≤ ALL }
        ensures { result.bits ≡ bits }
    {
        let at = match among {
            Among::Locks => lock,
            Among::WordsOf(_) => number,
        };
        Range {
            among,
            step: at as u64 >> bits,
            bits,
        }
    }

    /// Returns whether a node's lock or address is in the range.
    fn has(self, node: &Entry) -> bool
        requires { self.bits ≤ ALL }
    {
        match self.among {
            Among::Locks => node.lock as u64 >> self.bits == self.step,
            Among::WordsOf(lock) => {
                node.lock == lock && node.number as u64 >> self.bits == self.step
            }
        }
    }

    /// Returns the range at one of the scales: at scale 0 the narrowest range, at scale 1 a range
    /// that depends on the number of places, and wider ranges above.
    fn at(among: Among, scale: u32, len: usize, lock: u32, number: u32) -> Range
        requires { scale < SCALES }
        ensures { result.bits ≤ ALL }
    {
        let (narrowest, spread) = match among {
            Among::Locks => (0, 0),
            Among::WordsOf(_) => (NARROW, SPREAD),
        };
        let places = usize::BITS - len.leading_zeros();
        let bits = if scale == 0 {
            narrowest
        } else {
            SHARED.saturating_sub(places).max(NARROW) + WIDER * (scale - 1)
        };
        Range::of(among, (bits + spread).min(ALL), lock, number)
    }

    /// Returns the place of the range's finger. Single locks have a quarter of the places, and
    /// other ranges have the rest; so, with few locks, one look shows that a lock has words.
    fn place(self, len: usize) -> usize
        requires some { 0 < len }
        requires limit { len ≤ MAX_PLACES }
        ensures { result < len }
    {
        let salt = match self.among {
            Among::Locks => 0,
            Among::WordsOf(lock) => (lock as u64 + 1) * APART % NUMBERS,
        };
        let mixed = (self.step % NUMBERS + self.bits as u64 * APART + salt) % NUMBERS;
        let quarter = len / 4;
        if self.bits == 0 && quarter > 0 {
            start(mixed as u32, quarter)
        } else {
            quarter + start(mixed as u32, len - quarter)
        }
    }
}

/// Returns the range of one lock.
fn range_of(lock: u32) -> Range
    ensures { result.bits ≡ 0 }
{
    Range::of(Among::Locks, 0, lock, 0)
}

/// Returns the node to which a range's finger points, or 0.
fn finger_of<A: Allocator>(nodes: &Nodes<A>, range: Range) -> usize
    requires room { nodes.now.count < length nodes.now.list }
    requires limit { length nodes.now.list ≤ MAX_PLACES }
    requires bits { range.bits ≤ ALL }
    ensures { result ≤ nodes.now.count }
{
    let finger = nodes.finger(range.place(nodes.len()));
    if finger <= nodes.count() && range.has(nodes.get(finger)) {
        finger
    } else {
        0
    }
}

/// Returns true if a finger shows that a word has the lock. The result may be false although some
/// word has the lock.
pub(crate) fn shows<A: Allocator>(nodes: &Nodes<A>, lock: u32) -> bool
    requires room { nodes.now.count < length nodes.now.list }
    requires limit { length nodes.now.list ≤ MAX_PLACES }
    ensures { result ≡ true → HasLock nodes.now.list nodes.now.count lock }
{
    let finger = finger_of(nodes, range_of(lock));
    finger != 0 && nodes.get(finger).lock == lock
}

/// Returns a node from which to walk on, which may be nearer to the rank than `near`.
pub(crate) fn nearer<A: Allocator>(nodes: &Nodes<A>, near: usize, lock: u32, number: u32) -> usize
    requires chained { IsChained nodes.now.list nodes.now.count }
    requires room { nodes.now.count < length nodes.now.list }
    requires limit { length nodes.now.list ≤ MAX_PLACES }
    requires near { IsBelow nodes.now.list nodes.now.count (rank_of_number lock number) near }
    ensures { IsBelow nodes.now.list nodes.now.count (rank_of_number lock number) result }
{
    if number > 0 && shows(nodes, lock) {
        let found = nearer_among(nodes, Among::WordsOf(lock), near, lock, number);
        if found != near {
            return found;
        }
    }
    nearer_among(nodes, Among::Locks, near, lock, number)
}

/// Returns a node from which to walk on, by the fingers of ranges of locks, or of ranges of a
/// lock's addresses.
fn nearer_among<A: Allocator>(
    nodes: &Nodes<A>,
    among: Among,
    near: usize,
    lock: u32,
    number: u32,
) -> usize
    requires chained { IsChained nodes.now.list nodes.now.count }
    requires room { nodes.now.count < length nodes.now.list }
    requires limit { length nodes.now.list ≤ MAX_PLACES }
    requires near { IsBelow nodes.now.list nodes.now.count (rank_of_number lock number) near }
    ensures { IsBelow nodes.now.list nodes.now.count (rank_of_number lock number) result }
{
    for scale in 0..SCALES {
        let range = Range::at(among, scale, nodes.len(), lock, number);
        let found = nearer_in(nodes, range, near, lock, number);
        if found != near {
            return found;
        }
    }
    near
}

/// Returns a node from which to walk on, by the finger of a range or by the finger of the range
/// before it.
fn nearer_in<A: Allocator>(
    nodes: &Nodes<A>,
    range: Range,
    near: usize,
    lock: u32,
    number: u32,
) -> usize
    requires chained { IsChained nodes.now.list nodes.now.count }
    requires room { nodes.now.count < length nodes.now.list }
    requires limit { length nodes.now.list ≤ MAX_PLACES }
    requires bits { range.bits ≤ ALL }
    requires near { IsBelow nodes.now.list nodes.now.count (rank_of_number lock number) near }
    ensures { IsBelow nodes.now.list nodes.now.count (rank_of_number lock number) result }
{
    let rank = rank(lock, number);
    let finger = finger_of(nodes, range);
    if finger != 0 && is_between(nodes, near, finger, rank) {
        return finger;
    }
    if range.step == 0 {
        return near;
    }
    let step = range.step - 1;
    let before = finger_of(nodes, Range { step, ..range });
    if before != 0 && is_between(nodes, near, before, rank) {
        before
    } else {
        near
    }
}

/// Returns whether a node comes after the node `near` and before the rank.
fn is_between<A: Allocator>(nodes: &Nodes<A>, near: usize, finger: usize, rank: u64) -> bool
    requires room { nodes.now.count < length nodes.now.list }
    requires near { near ≤ nodes.now.count }
    requires finger { (0 < finger) × (finger ≤ nodes.now.count) }
    ensures { result ≡ true → IsBelow nodes.now.list nodes.now.count rank finger }
{
    let found = node_rank(nodes.get(finger));
    found < rank && (near == 0 || node_rank(nodes.get(near)) < found)
}

/// Points the finger of a range to a node, unless the finger points to a node of greater rank.
fn point_at<A: Allocator>(nodes: &mut Nodes<A>, range: Range, e: usize, rank: u64)
    requires room { nodes.old.count < length nodes.old.list }
    requires limit { length nodes.old.list ≤ MAX_PLACES }
    requires fits { e ≤ MAX_PLACES }
    requires bits { range.bits ≤ ALL }
    ensures same { OnlyFingers nodes.old.list nodes.new.list }
    ensures count { nodes.new.count ≡ nodes.old.count }
{
    let found = finger_of(nodes, range);
    if found == 0 || node_rank(nodes.get(found)) < rank {
        let place = range.place(nodes.len());
        nodes.set_finger(place, e as u32);
    }
}

/// Points the fingers at all scales to a node.
fn point_among<A: Allocator>(nodes: &mut Nodes<A>, among: Among, lock: u32, number: u32, e: usize)
    requires room { nodes.old.count < length nodes.old.list }
    requires limit { length nodes.old.list ≤ MAX_PLACES }
    requires fits { e ≤ MAX_PLACES }
    ensures same { OnlyFingers nodes.old.list nodes.new.list }
    ensures count { nodes.new.count ≡ nodes.old.count }
{
    for scale in 0..SCALES {
        let range = Range::at(among, scale, nodes.len(), lock, number);
        point_at(nodes, range, e, rank(lock, number));
    }
}

/// Points the fingers near a word to its node: the fingers of ranges of locks and, if the lock
/// already shows a word, those of ranges of the lock's addresses.
pub(crate) fn point<A: Allocator>(nodes: &mut Nodes<A>, lock: u32, number: u32, e: usize)
    requires room { nodes.old.count < length nodes.old.list }
    requires limit { length nodes.old.list ≤ MAX_PLACES }
    requires fits { e ≤ MAX_PLACES }
    ensures same { OnlyFingers nodes.old.list nodes.new.list }
    ensures count { nodes.new.count ≡ nodes.old.count }
{
    if shows(nodes, lock) {
        point_among(nodes, Among::WordsOf(lock), lock, number, e);
    }
    point_among(nodes, Among::Locks, lock, number, e);
}

/// Points the fingers of all words, in the order in which the words entered.
pub(crate) fn point_all<A: Allocator>(nodes: &mut Nodes<A>)
    requires room { nodes.old.count < length nodes.old.list }
    requires limit { length nodes.old.list ≤ MAX_PLACES }
    ensures same { OnlyFingers nodes.old.list nodes.new.list }
    ensures count { nodes.new.count ≡ nodes.old.count }
{
    for e in 0..nodes.count() {
        let node = *nodes.get(e + 1);
        point(nodes, node.lock, node.number, e + 1);
    }
}

/// Points the fingers of all words, if `is_due`.
pub(crate) fn point_all_if<A: Allocator>(nodes: &mut Nodes<A>, is_due: bool)
    requires room { nodes.old.count < length nodes.old.list }
    requires limit { length nodes.old.list ≤ MAX_PLACES }
    ensures same { OnlyFingers nodes.old.list nodes.new.list }
    ensures count { nodes.new.count ≡ nodes.old.count }
{
    if is_due {
        point_all(nodes);
    }
}
