//! Tables: red-black trees by key.

ghost use Rattle.std.specs.Prelude.{◌≡◌, ◌+◌, ◌<◌, ◌≤◌, [], ◌∷◌, ◌++◌, IfErr, IfOk, OnOk, length, slice_index};
ghost use Rattle.tx_alloc.specs.declared.place.TheConstants.{FIRST_BLOCK, BLOCK_WORDS, MOST_BLOCKS};
ghost use Rattle.vac_audit.specs.declared.tree.Fault.TheVariants.{Memory, Found};
ghost use Rattle.vac_audit.specs.declared.tree.Turn.TheVariants.{Down};
ghost use Rattle.vac_audit.specs.Marks.{IsMarked, unmarked};
ghost use Rattle.vac_audit.specs.TreeRan.{ItemLooked, ColourLooked, LookRan, TableRan};
ghost use Rattle.vac_audit.specs.TreeRan.{Ready, HasRoomForItems, Pushed, DownRan, KeyLooked, RootLooked};
ghost use Rattle.vac_audit.specs.declared.audit.TheConstants.{MOST_HEAP_WORDS};

use crate::Flaw;
use crate::bookings::walk_bookings;
use crate::notes::{NotedItem, Notes};
use crate::pointers::follow;
use std::alloc::{AllocError, AllocFailed, Global};
use vac_model::Kind;
use vac_model::limits::{MOST_AMOUNT, MOST_ID, MOST_TOTAL};
use vac_records::{key_of, place};

const LEFT: usize = tx_tree::place::LEFT as usize;

const RIGHT: usize = tx_tree::place::RIGHT as usize;

const COLOUR: usize = tx_tree::place::COLOUR as usize;

pub const USED: usize = place::USED as usize;

const FREE: usize = place::FREE as usize;

const TOTAL: usize = place::TOTAL as usize;

const PRICE: usize = place::PRICE as usize;

/// Word of a customer's block that points to its bookings.
const BOOKINGS: usize = place::BOOKINGS as usize;

/// Largest id, which is the largest key of a table.
pub const LAST_ID: u64 = MOST_ID as u64;

/// The reason why a walk ended.
#[derive(Clone, Copy, Debug, PartialEq, Eq)]
pub enum Fault {
    Memory,
    Found(Flaw),
}

impl From<AllocError> for Fault {
    ghost from_gives = { λ _ fault. fault ≡ Memory };

    fn from(_error: AllocError) -> Fault {
        Fault::Memory
    }
}

impl<T: Drop> From<AllocFailed<T>> for Fault {
    ghost from_gives = { λ _ fault. fault ≡ Memory };

    fn from(_failed: AllocFailed<T>) -> Fault {
        Fault::Memory
    }
}

impl From<Flaw> for Fault {
    ghost from_gives = { λ flaw fault. fault ≡ Found flaw };

    fn from(flaw: Flaw) -> Fault {
        Fault::Found(flaw)
    }
}

/// A table of a heap: items of one kind, or customers.
#[derive(Clone, Copy)]
pub enum Table {
    Items(Kind),
    Customers,
}

/// A walked tree as its parent sees it: the number of black nodes on each path, and the colour of
/// the root.
#[derive(Clone, Copy)]
pub struct Side {
    pub blacks: u32,
    pub red: bool,
}

/// The side of an empty tree.
const LEAF: Side = Side {
    blacks: 0,
    red: false,
};

/// A node on the path from the root. The walk is in its left tree, or, after the left tree and the
/// node itself, in its right tree.
#[derive(Clone, Copy)]
pub enum Step {
    Left { node: usize },
    Right { node: usize, left: Side },
}

/// The next move of a walk: down a pointer, or back up from a walked tree.
#[derive(Clone, Copy)]
pub enum Turn {
    Down { at: usize },
    Up { done: Side },
}

/// Tests the counts of an item.
fn look_at_item(words: &[u64], node: usize) -> Result<(), Flaw>
    requires inside { node + BLOCK_WORDS ≤ length words.now }
    requires few { length words.now ≤ MOST_HEAP_WORDS }
    ensures looked { ItemLooked words.now node result }
{
    let used = words[node + USED];
    let free = words[node + FREE];
    let total = words[node + TOTAL];
    if total == 0
        || total > MOST_TOTAL
        || used > total
        || free != total - used
        || words[node + PRICE] > MOST_AMOUNT as u64
    {
        return Err(Flaw::Counts((node + USED) as u32));
    }
    Ok(())
}

/// Tests a node besides its key, and notes its item or its bookings.
fn look_at_node(
    words: &[u64],
    reached: &mut Vec<bool>,
    notes: &mut Notes,
    table: Table,
    node: usize,
) -> Result<(), Fault>
    requires marked { IsMarked words.now reached.old.items }
    requires inside { node + BLOCK_WORDS ≤ length words.now }
    requires key { slice_index words.now node < LAST_ID + 1 }
    requires ready { Ready table notes.old (unmarked reached.old.items) }
    requires room { HasRoomForItems table notes.old 1 }
    ensures size { length reached.new.items ≡ length reached.old.items }
    ensures fewer { OnOk result (unmarked reached.new.items ≤ unmarked reached.old.items) }
    ensures ready { OnOk result (Ready table notes.new (unmarked reached.new.items)) }
    ensures pushed { OnOk result (Pushed table notes.old notes.new) }
    ensures ran { LookRan words.now reached.old.items reached.new.items notes.old notes.new
        table node result }
{
    match table {
        Table::Items(kind) => {
            look_at_item(words, node)?;
            notes.tally.used += words[node + USED];
            notes.tally.free += words[node + FREE];
            notes.tally.total += words[node + TOTAL];
            notes.items.push(NotedItem {
                key: key_of(kind, words[node] as u32),
                block: node,
                booked: 0,
            })?;
        }
        Table::Customers => walk_bookings(words, reached, notes, node + BOOKINGS)?,
    }
    Ok(())
}

/// Tests the colour of a node between two walked trees, and returns the side that the node is the
/// root of.
fn look_at_colour(words: &[u64], node: usize, left: Side, right: Side) -> Result<Side, Flaw>
    requires inside { node + BLOCK_WORDS ≤ length words.now }
    requires few { length words.now ≤ MOST_HEAP_WORDS }
    requires low { right.blacks < MOST_BLOCKS + 1 }
    ensures low { IfOk result (λ side. side.blacks ≤ right.blacks + 1) }
    ensures looked { ColourLooked words.now node left right result }
{
    let colour = words[node + COLOUR];
    let red = colour == 1;
    if colour > 1 {
        return Err(Flaw::Colour((node + COLOUR) as u32));
    }
    if red && (left.red || right.red) {
        return Err(Flaw::Colour((node + COLOUR) as u32));
    }
    if left.blacks != right.blacks {
        return Err(Flaw::Colour((node + COLOUR) as u32));
    }
    let blacks = if red { right.blacks } else { right.blacks + 1 };
    Ok(Side { blacks, red })
}

/// Appends a step to the path, and returns the move down the pointer in a word.
fn go_down(path: &mut Vec<Step>, step: Step, at: usize) -> Result<Turn, Fault>
    ensures down { OnOk result (path.new.items ≡ path.old.items ++ step ∷ []) }
    ensures on { IfOk result (λ turn. turn ≡ Down at) }
    ensures memory { IfErr result (λ fault. fault ≡ Memory) }
{
    path.push(step)?;
    Ok(Turn::Down { at })
}

/// Follows a pointer of a tree: to the end, which is an empty tree, or to a node, whose left tree
/// comes next.
fn follow_down(
    words: &[u64],
    reached: &mut Vec<bool>,
    path: &mut Vec<Step>,
    at: usize,
) -> Result<Turn, Fault>
    requires marked { IsMarked words.now reached.old.items }
    requires inside { at < length words.now }
    ensures size { length reached.new.items ≡ length reached.old.items }
    ensures ran { DownRan words.now reached.old.items reached.new.items path.old.items
        path.new.items at result }
{
    if path.len() > reached.len() {
        return Err(Fault::Found(Flaw::Shared(at as u32)));
    }
    match follow(words, reached, at)? {
        None => Ok(Turn::Up { done: LEAF }),
        Some(node) => go_down(path, Step::Left { node }, node + LEFT),
    }
}

/// Tests the key of a node, which must be at least `above`, and returns the least key that may
/// follow.
fn look_at_key(words: &[u64], node: usize, above: u64) -> Result<u64, Flaw>
    requires inside { node + BLOCK_WORDS ≤ length words.now }
    requires few { length words.now ≤ MOST_HEAP_WORDS }
    ensures key { OnOk result (slice_index words.now node < LAST_ID + 1) }
    ensures looked { KeyLooked words.now node above result }
{
    let key = words[node];
    if key < above || key > LAST_ID {
        return Err(Flaw::Order(node as u32));
    }
    Ok(key + 1)
}

/// Tests that the root of a walked tree is black. If the root is red, the tree is not empty, so
/// the root word is the address of its block; the remainder and the wrapping addition spare a
/// clause that says so.
fn look_at_root(words: &[u64], root: usize, tree: Side) -> Result<(), Flaw>
    requires inside { root < length words.now }
    requires few { length words.now ≤ MOST_HEAP_WORDS }
    ensures looked { RootLooked words.now root tree result }
{
    if tree.red {
        let top = (words[root] % (LAST_ID + 1)) as u32;
        return Err(Flaw::Colour(top.wrapping_add(tx_tree::place::COLOUR)));
    }
    Ok(())
}

/// Walks a table, and returns its number of nodes.
pub fn walk_table(
    alloc: Global,
    words: &[u64],
    reached: &mut Vec<bool>,
    notes: &mut Notes,
    table: Table,
    root: usize,
) -> Result<u64, Fault>
    requires marked { IsMarked words.now reached.old.items }
    requires inside { root < FIRST_BLOCK }
    requires ready { Ready table notes.old (unmarked reached.old.items) }
    requires room { HasRoomForItems table notes.old (unmarked reached.old.items) }
    ensures size { length reached.new.items ≡ length reached.old.items }
    ensures ready { OnOk result (Ready table notes.new (unmarked reached.new.items)) }
    ensures room { OnOk result (HasRoomForItems table notes.new (unmarked reached.new.items)) }
    ensures ran { TableRan words.now reached.old.items reached.new.items notes.old notes.new
        table root result }
{
    let mut path: Vec<Step> = Vec::new(alloc);
    let mut turn = Turn::Down { at: root };
    let mut above: u64 = 1;
    let mut nodes: u64 = 0;
    'walk: loop {
        match turn {
            Turn::Down { at } => turn = follow_down(words, reached, &mut path, at)?,
            Turn::Up { done } => match path.pop() {
                None => {
                    look_at_root(words, root, done)?;
                    return Ok(nodes);
                }
                Some(Step::Left { node }) => {
                    above = look_at_key(words, node, above)?;
                    look_at_node(words, reached, notes, table, node)?;
                    nodes += 1;
                    turn = go_down(&mut path, Step::Right { node, left: done }, node + RIGHT)?;
                }
                Some(Step::Right { node, left }) => {
                    let side = look_at_colour(words, node, left, done)?;
                    turn = Turn::Up { done: side };
                }
            },
        }
    }
}
