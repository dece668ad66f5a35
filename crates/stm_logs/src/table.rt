//! The written words of a log with their locks and values, in one block of nodes with its index.
ghost use Rattle.std.specs.Prelude.{◌≡◌, ◌≢◌, ◌↔◌, ℕ, ◌+◌, ◌*◌, ◌<◌, ◌≤◌, true, false, None, Some, Ok, length, IsOk, IfOk};
ghost use Rattle.std.specs.FinMap.{get, len};
ghost use Rattle.stm_logs.specs.Nodes.{at};
ghost use Rattle.stm_logs.specs.Index.{HasNoNumber, Answers};
ghost use Rattle.stm_logs.specs.Order.{block_log};
ghost use Rattle.stm_logs.specs.Held.{IsLog, HasOneMoreWord, with_word};
ghost use Rattle.stm_logs.specs.Chain.{EndsWithin, words_from};
ghost use Rattle.stm_logs.specs.Log.{LogValue, empty_log, log_locks, pairs_by_lock, pairs_of, SameAddresses};
ghost use Rattle.stm_logs.specs.Refusals.{OrSame, Becomes};

use crate::chain::{Locks, Pairs, Words};
use crate::finger::{point, point_all_if, shows};
use crate::grow::{SHORT, grown, is_full, is_long};
use crate::index::{enter, find, probe};
use crate::nodes::{Entry, Nodes};
use crate::order::{seek, set_next};
use std::alloc::{AllocError, Allocator};
use std::marker::Model;

/// Number of places of the first blocks.
const PLACES: usize = 64;

/// The words of a log with their locks and values. The blocks exist from the start on, and grow.
#[derive(Drop)]
pub(crate) struct Table<A: Allocator> {
    nodes: Nodes<A>,
}

impl<A: Allocator> Model for Table<A> {
    ghost use Rattle.stm_logs.specs.Log.{LogValue, log_code};

    ghost Value = { LogValue };

    ghost coded = { log_code };

    ghost use Rattle.stm_logs.specs.Order.{block_log};
    ghost use Rattle.stm_logs.specs.Held.{IsLog};

    ghost view = { λ t. block_log t.nodes };

    ghost invariant = { λ t. IsLog t.nodes };
}

impl<A: Allocator + Copy> Table<A> {
    /// Creates a table with one word.
    #[cold]
    pub(crate) fn with_word(
        alloc: A,
        number: u32,
        lock: u32,
        value: u64,
    ) -> Result<Table<A>, AllocError>
        ensures { IfOk result (λ t. t ≡ with_word empty_log number lock value) }
    {
        let mut table = Table::new(alloc)?;
        table.put(number, lock, value)?;
        Ok(table)
    }

    /// Creates a table without words.
    fn new(alloc: A) -> Result<Table<A>, AllocError>
        ensures { IfOk result (λ t. t ≡ empty_log) }
    {
        let nodes = Nodes::new(alloc, PLACES)?;
        Ok(Table { nodes })
    }

    /// Returns the number of words.
    #[inline]
    pub(crate) fn len(&self) -> usize
        ensures { result ≡ len self.now.words }
    {
        self.nodes.count()
    }

    /// Returns the value of the word with this number.
    #[inline]
    pub(crate) fn get(&self, number: u32) -> Option<u64>
        ensures { result ≡ get self.now.words number }
    {
        let word = find(&self.nodes, number);
        if word == 0 {
            None
        } else {
            Some(self.nodes.get(word).value)
        }
    }

    /// Returns whether a word has this lock.
    #[inline]
    pub(crate) fn has_lock(&self, lock: u32) -> bool
        ensures { (result ≡ true) ↔ ((a : ℕ) × (get self.now.locks a ≡ Some lock)) }
    {
        if is_long(&self.nodes) && shows(&self.nodes, lock) {
            return true;
        }
        let first = first_from(&self.nodes, lock);
        first != 0 && self.nodes.get(first).lock == lock
    }

    /// Returns the locks in ascending order, each once.
    #[inline]
    pub(crate) fn locks(&self) -> Locks<'_, A>
        ensures { result ≡ log_locks self.now }
    {
        Locks {
            nodes: Some(&self.nodes),
            at: self.nodes.get(0).next as usize,
            most: self.nodes.count(),
        }
    }

    /// Returns the words with their values, by ascending lock. The words of one lock come by
    /// ascending number.
    #[inline]
    pub(crate) fn pairs_by_lock(&self) -> Pairs<'_, A>
        ensures { result ≡ pairs_by_lock self.now }
    {
        Pairs {
            nodes: Some(&self.nodes),
            at: self.nodes.get(0).next as usize,
            most: self.nodes.count(),
        }
    }

    /// Returns the words of a lock with their values, by ascending number.
    #[inline]
    pub(crate) fn words_of(&self, lock: u32) -> Words<'_, A>
        ensures { result ≡ pairs_of self.now lock }
    {
        Words {
            nodes: Some(&self.nodes),
            lock,
            at: first_from(&self.nodes, lock),
            most: self.nodes.count(),
        }
    }

    /// Puts the value at a word, whose lock has the given number. If memory is refused, the table
    /// is unchanged.
    #[inline]
    pub(crate) fn put(&mut self, number: u32, lock: u32, value: u64) -> Result<(), AllocError>
        requires { (l : ℕ) → get self.old.locks number ≡ Some l → l ≡ lock }
        ensures answer { Becomes result self.old self.new (with_word self.old number lock value) }
        ensures there { get self.old.words number ≢ None → IsOk result }
    {
        let place = probe(&self.nodes, number);
        let word = self.nodes.slot(place);
        if word == 0 {
            return put_new(&mut self.nodes, number, lock, value, place);
        }
        let node = *self.nodes.get(word);
        self.nodes.put(word, Entry { value, ..node });
        Ok(())
    }

    /// Removes all words, and keeps the blocks.
    #[inline]
    pub(crate) fn clear(&mut self)
        ensures { self.new ≡ empty_log }
    {
        clear_nodes(&mut self.nodes);
    }

    /// States that the words are the numbers that have a lock.
    pub(crate) fn same_addresses(&self)
        ensures { SameAddresses self.now }
    {
        let _ = &self.nodes;
    }
}

/// Returns the first node whose lock is the given one or greater, or 0.
#[inline]
fn first_from<A: Allocator>(nodes: &Nodes<A>, lock: u32) -> usize
    requires { IsLog nodes.now }
    ensures inside { result ≤ nodes.now.count }
    ensures ends { EndsWithin nodes.now.list nodes.now.count result }
    ensures words { words_from nodes.now.list lock nodes.now.count result
        ≡ pairs_of (block_log nodes.now) lock }
    ensures there { ((0 < result) × ((at nodes.now.list result).lock ≡ lock))
        ↔ ((a : ℕ) × (get (block_log nodes.now).locks a ≡ Some lock)) }
{
    let before = seek(nodes, lock, 0, is_long(nodes));
    nodes.get(before).next as usize
}

/// Removes the nodes from the index, and leaves the root alone in the chain.
#[inline]
fn clear_nodes<A: Allocator>(nodes: &mut Nodes<A>)
    requires { IsLog nodes.old }
    ensures log { IsLog nodes.new }
    ensures value { block_log nodes.new ≡ empty_log }
{
    for e in 0..nodes.count() {
        let place = nodes.get(e + 1).place as usize;
        nodes.lead(place, 0);
    }
    set_next(nodes, 0, 0);
    nodes.set_count(0);
}

/// Puts a word that is not in the table at its free place of the index. The blocks grow first if
/// they are full.
#[inline]
fn put_new<A: Allocator + Copy>(
    nodes: &mut Nodes<A>,
    number: u32,
    lock: u32,
    value: u64,
    place: usize,
) -> Result<(), AllocError>
    requires log { IsLog nodes.old }
    requires place { Answers nodes.old.list nodes.old.count number place }
    requires new { HasNoNumber nodes.old.list nodes.old.count number }
    ensures { OrSame result (HasOneMoreWord number lock value) nodes.old nodes.new }
{
    if is_full(nodes) {
        return put_grown(nodes, number, lock, value);
    }
    put_roomy(nodes, number, lock, value, place);
    Ok(())
}

/// Puts a word that is not in the table after growing the blocks.
#[cold]
fn put_grown<A: Allocator + Copy>(
    nodes: &mut Nodes<A>,
    number: u32,
    lock: u32,
    value: u64,
) -> Result<(), AllocError>
    requires log { IsLog nodes.old }
    requires new { HasNoNumber nodes.old.list nodes.old.count number }
    ensures { OrSame result (HasOneMoreWord number lock value) nodes.old nodes.new }
{
    *nodes = grown(nodes)?;
    let place = probe(nodes, number);
    put_roomy(nodes, number, lock, value, place);
    Ok(())
}

/// Puts a word that is not in the table, if there is room for it.
fn put_roomy<A: Allocator>(nodes: &mut Nodes<A>, number: u32, lock: u32, value: u64, place: usize)
    requires log { IsLog nodes.old }
    requires room { nodes.old.count + 1 < length nodes.old.list }
    requires place { Answers nodes.old.list nodes.old.count number place }
    requires new { HasNoNumber nodes.old.list nodes.old.count number }
    ensures { HasOneMoreWord number lock value nodes.old nodes.new }
{
    if is_long(nodes) {
        put_long(nodes, number, lock, value, place);
    } else {
        put_word(nodes, number, lock, value, place, false);
    }
}

/// Puts a word that is not in the table into a long log, if there is room for it.
#[cold]
fn put_long<A: Allocator>(nodes: &mut Nodes<A>, number: u32, lock: u32, value: u64, place: usize)
    requires log { IsLog nodes.old }
    requires room { nodes.old.count + 1 < length nodes.old.list }
    requires place { Answers nodes.old.list nodes.old.count number place }
    requires new { HasNoNumber nodes.old.list nodes.old.count number }
    ensures { HasOneMoreWord number lock value nodes.old nodes.new }
{
    let is_first = nodes.count() == SHORT;
    point_all_if(nodes, is_first);
    put_word(nodes, number, lock, value, place, true);
    point(nodes, lock, number, nodes.count());
}

/// Adds a node at its free place of the index, and chains it after the last node of smaller rank.
#[inline(always)]
fn put_word<A: Allocator>(
    nodes: &mut Nodes<A>,
    number: u32,
    lock: u32,
    value: u64,
    place: usize,
    is_long: bool,
)
    requires log { IsLog nodes.old }
    requires room { nodes.old.count + 1 < length nodes.old.list }
    requires place { Answers nodes.old.list nodes.old.count number place }
    requires new { HasNoNumber nodes.old.list nodes.old.count number }
    ensures more { HasOneMoreWord number lock value nodes.old nodes.new }
    ensures len { length nodes.new.list ≡ length nodes.old.list }
    ensures count { nodes.new.count ≡ nodes.old.count + 1 }
{
    let before = seek(nodes, lock, number, is_long);
    let node = Entry {
        value,
        number,
        lock,
        next: nodes.get(before).next,
        place: 0,
    };
    let position = nodes.count() + 1;
    enter(nodes, position, place, node, is_long);
    set_next(nodes, before, position);
    nodes.set_count(position);
}
