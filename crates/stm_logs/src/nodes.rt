//! The nodes of a write log and its index, in two raw blocks.
ghost use Rattle.std.specs.Prelude.{◌≡◌, ◌<◌, ◌≤◌, length, IfOk};

use crate::row::{Right, Row, fill, release};
use std::alloc::{AllocError, Allocator};
use std::marker::Model;

/// A written word.
///
/// Position 0 has the root, at which the order of the nodes begins and ends; the words follow in
/// the order in which they entered. Only the last node leads to the root, so that 0 as a link
/// means none.
#[derive(Clone, Copy)]
pub(crate) struct Entry {
    /// The value to be stored.
    pub(crate) value: u64,
    /// The address.
    pub(crate) number: u32,
    /// The number of the address's lock.
    pub(crate) lock: u32,
    /// The next node in the order.
    pub(crate) next: u32,
    /// The place of the index that leads to the node.
    pub(crate) place: u32,
}

/// A place of the index. The index is stored apart from the nodes: a look-up reads a random place,
/// and eight places share a cache line.
#[derive(Clone, Copy)]
pub(crate) struct Slot {
    /// The node to which the place leads, or 0.
    pub(crate) node: u32,
    /// The finger at the place: a node at which a walk may start, or any number.
    pub(crate) finger: u32,
}

/// The number and the lock of the root, and of a position without a node. No number is greater, so
/// that a walk along the order ends at the root, to which the last node leads.
pub(crate) const TOP: u32 = 4_294_967_295;

/// Number of different numbers, which begin at 0.
pub(crate) const NUMBERS: u64 = 4_294_967_296;

/// Number of places of the largest block.
pub(crate) const MAX_PLACES: usize = 2_147_483_648;

/// A position without a node.
pub(crate) const BLANK: Entry = Entry {
    value: 0,
    number: TOP,
    lock: TOP,
    next: 0,
    place: 0,
};

/// A place of the index that leads nowhere.
pub(crate) const FREE: Slot = Slot { node: 0, finger: 0 };

/// A block of nodes with a block of as many places of the index. All places are filled. The block
/// knows the number of nodes besides the root, which is also the position of the node that entered
/// last.
pub(crate) struct Nodes<A: Allocator> {
    alloc: A,
    row: Row<Entry>,
    right: Right<Entry, A>,
    index: Row<Slot>,
    index_right: Right<Slot, A>,
    len: usize,
    count: usize,
}

impl<A: Allocator> Model for Nodes<A> {
    ghost use Rattle.std.specs.Prelude.{◌≡◌};
    ghost use Rattle.stm_logs.specs.Nodes.{Block, beside};

    ghost Value = { Block };

    ghost use Rattle.stm_logs.specs.Frees.{Frees, IsFull};

    ghost view = { λ s. record {
      list = beside s.row.items s.index.items;
      count = s.count;
    } };

    ghost invariant = { λ s. IsFull s.row s.len × Frees s.alloc s.row s.right
        × IsFull s.index s.len × Frees s.alloc s.index s.index_right };
}

impl<A: Allocator> Drop for Nodes<A> {
    fn drop(self) {
        let Nodes {
            alloc,
            row,
            right,
            index,
            index_right,
            len: _,
            count: _,
        } = self;
        release(&alloc, row, right);
        release(&alloc, index, index_right);
    }
}

impl<A: Allocator> Nodes<A> {
    ghost use Rattle.stm_logs.specs.Nodes.{at, entry_of, with_entry, with_slot, with_finger, with_node, IsBlank};

    /// Creates blocks with `len` blank places.
    pub(crate) fn new(alloc: A, len: usize) -> Result<Nodes<A>, AllocError>
        requires { len ≤ MAX_PLACES }
        ensures { IfOk result (λ s. IsBlank s len) }
    {
        let (mut row, right) = unsafe { Row::reserve(&alloc, len)? };
        let (mut index, index_right) = match unsafe { Row::reserve(&alloc, len) } {
            Ok(reserved) => reserved,
            Err(refused) => {
                release(&alloc, row, right);
                return Err(refused);
            }
        };
        fill(&mut row, len, BLANK);
        fill(&mut index, len, FREE);
        Ok(Nodes {
            alloc,
            row,
            right,
            index,
            index_right,
            len,
            count: 0,
        })
    }

    /// Returns the allocator of the blocks.
    pub(crate) fn alloc(&self) -> A
    where
        A: Copy,
    {
        self.alloc
    }

    /// Returns the number of places.
    #[inline]
    pub(crate) fn len(&self) -> usize
        ensures { result ≡ length self.now.list }
    {
        self.len
    }

    /// Returns the number of nodes besides the root.
    #[inline]
    pub(crate) fn count(&self) -> usize
        ensures { result ≡ self.now.count }
    {
        self.count
    }

    #[inline]
    pub(crate) fn set_count(&mut self, count: usize)
        ensures { self.new ≡ record self.old { count = count } }
    {
        self.count = count;
    }

    /// Returns the node at a position.
    #[inline]
    pub(crate) fn get(&self, i: usize) -> &Entry
        requires { i < length self.now.list }
        ensures { result.now ≡ entry_of (at self.now.list i) }
    {
        self.row.get(i)
    }

    #[inline]
    pub(crate) fn put(&mut self, i: usize, entry: Entry)
        requires { i < length self.old.list }
        ensures { self.new ≡ with_node self.old i (with_entry (at self.old.list i) entry) }
    {
        self.row.put(i, entry);
    }

    /// Returns the node to which a place of the index leads, or 0.
    #[inline]
    pub(crate) fn slot(&self, place: usize) -> usize
        requires { place < length self.now.list }
        ensures { result ≡ (at self.now.list place).slot }
    {
        self.index.get(place).node as usize
    }

    /// Lets a place of the index lead to a node, and keeps the finger at the place.
    #[inline]
    pub(crate) fn set_slot(&mut self, place: usize, node: u32)
        requires { place < length self.old.list }
        ensures { self.new ≡ with_node self.old place (with_slot (at self.old.list place) node) }
    {
        let finger = self.index.get(place).finger;
        self.index.put(place, Slot { node, finger });
    }

    /// Lets a place of the index lead to a node, or nowhere if the node is 0. The finger at the
    /// place becomes 0, so that the place need not be loaded first.
    #[inline]
    pub(crate) fn lead(&mut self, place: usize, node: u32)
        requires { place < length self.old.list }
        ensures { self.new ≡ with_node self.old place
            (with_finger (with_slot (at self.old.list place) node) 0) }
    {
        self.index.put(place, Slot { node, finger: 0 });
    }

    /// Returns the finger at a place.
    #[inline]
    pub(crate) fn finger(&self, place: usize) -> usize
        requires { place < length self.now.list }
        ensures { result ≡ (at self.now.list place).finger }
    {
        self.index.get(place).finger as usize
    }

    #[inline]
    pub(crate) fn set_finger(&mut self, place: usize, finger: u32)
        requires { place < length self.old.list }
        ensures { self.new
            ≡ with_node self.old place (with_finger (at self.old.list place) finger) }
    {
        let node = self.index.get(place).node;
        self.index.put(place, Slot { node, finger });
    }
}
