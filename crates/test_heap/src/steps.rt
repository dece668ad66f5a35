//! Steps on a table in plain memory beside an ordered map.
ghost use Rattle.std.specs.Prelude.{◌≡◌, length, IfOk, IfSome};
ghost use Rattle.tx_memory.specs.Plain.{flat_view};
ghost use Rattle.tx_tree.specs.Counted.{HasEntries};

use crate::shapes::{is_red_black, rest_is_kept};
use std::alloc::{AllocError, Global};
use std::collections::BTreeMap;
use std::test::Fail;
use tx_alloc::Block;
use tx_alloc::place::MOST_BLOCKS;
use tx_memory::{Addr, Flat, load};
use tx_tree::{Walk, find, insert, remove};

const ROOT: Addr = Addr(3);

/// A step on the block of a number: the block is put under its key, or the entry of its key is
/// removed.
#[derive(Clone, Copy)]
pub(crate) enum Step {
    Put(usize),
    Cut(usize),
}

/// The times at which the shape of the table is tested.
#[derive(Clone, Copy, PartialEq, Eq)]
pub(crate) enum Look {
    AfterEachStep,
    AtTheEnd,
}

pub(crate) fn holds(fact: bool) -> Result<(), Fail> {
    fact.then_some(()).ok_or("wrong")?;
    Ok(())
}

/// Returns the words of a heap whose blocks have these keys. Their links point nowhere yet, and
/// each block has a payload of its own.
fn words_of(alloc: Global, keys: &[u64]) -> Result<Vec<u64>, AllocError> {
    let mut words = vec![in alloc; 0u64; 16]?;
    for key in keys {
        words.push(*key)?;
        for link in 77u64..80 {
            words.push(link)?;
        }
        for place in 4u64..8 {
            words.push(key.wrapping_mul(16).wrapping_add(place))?;
        }
    }
    Ok(words)
}

/// Returns a heap with an empty table, or `None` if the words are not those of one.
fn table(words: Vec<u64>, blocks: usize) -> Option<Flat>
    ensures { IfSome result (λ flat. HasEntries (flat_view flat) 3 blocks 0) }
{
    if MOST_BLOCKS < blocks {
        return None;
    }
    if words.len() != 16 + 8 * blocks {
        return None;
    }
    if words[3] != 0 {
        return None;
    }
    Some(Flat::new(words))
}

/// Puts a block under its key, unless the table has the key. Returns the number of entries.
fn put(flat: &mut Flat, blocks: usize, count: usize, number: usize) -> usize
    requires { HasEntries (flat_view flat.old) 3 blocks count }
    ensures { HasEntries (flat_view flat.new) 3 blocks result }
{
    if blocks <= number {
        return count;
    }
    if MOST_BLOCKS <= count {
        return count;
    }
    let block = 16 + 8 * number as u32;
    let Ok(key) = load(flat, Addr(block));
    let Ok(found) = find(flat, ROOT, key);
    match found {
        Some(_) => count,
        None => {
            let Ok(()) = insert(flat, ROOT, key, Block(Addr(block)));
            count + 1
        }
    }
}

/// Removes the entry of a key. Returns the number of entries left, and the block.
fn cut(flat: &mut Flat, blocks: usize, count: usize, key: u64) -> (usize, Option<Block>)
    requires { HasEntries (flat_view flat.old) 3 blocks count }
    ensures { HasEntries (flat_view flat.new) 3 blocks result.0 }
{
    let Ok(taken) = remove(flat, ROOT, key);
    match taken {
        Some(block) => (count.saturating_sub(1), Some(block)),
        None => (count, None),
    }
}

/// Returns whether a walk over the table gives exactly the blocks of the map's entries, by
/// ascending keys, and a search for each key of the map gives its block.
fn same_entries(flat: &mut Flat, blocks: usize, count: usize, map: &BTreeMap<u64, u32>) -> bool
    requires { HasEntries (flat_view flat.old) 3 blocks count }
    ensures { HasEntries (flat_view flat.new) 3 blocks count }
{
    let Ok(mut walk) = Walk::begin(flat, ROOT);
    let mut same = true;
    for (key, block) in map.iter() {
        let Ok(next) = walk.next(flat);
        let Ok(found) = find(flat, ROOT, *key);
        let expected = Some(Block(Addr(*block)));
        same = same && next == expected && found == expected;
    }
    let Ok(next) = walk.next(flat);
    same && next.is_none()
}

/// Takes a step beside the library's map. Returns the number of entries, and whether the answer
/// was the map's.
fn take_step(
    flat: &mut Flat,
    keys: &[u64],
    count: usize,
    map: &mut BTreeMap<u64, u32>,
    step: Step,
) -> Result<(usize, bool), Fail>
    requires { HasEntries (flat_view flat.old) 3 (length keys.now) count }
    ensures { IfOk result (λ r. HasEntries (flat_view flat.new) 3 (length keys.now) r.0) }
{
    match step {
        Step::Put(number) => {
            let key = *keys.get(number).ok_or("no such block")?;
            let is_new = !map.contains_key(&key);
            if is_new {
                map.insert(key, 16 + 8 * number as u32)?;
            }
            let after = put(flat, keys.len(), count, number);
            Ok((after, (after != count) == is_new))
        }
        Step::Cut(number) => {
            let key = *keys.get(number).ok_or("no such block")?;
            let expected = map.remove(&key).map(|place| Block(Addr(place)));
            let (after, taken) = cut(flat, keys.len(), count, key);
            Ok((after, taken == expected))
        }
    }
}

/// Returns the memory as it is, and whether its table is well shaped. With `Look::AtTheEnd` the
/// shape is not tested here and counts as good.
fn looked_at(flat: Flat, look: Look) -> (Flat, bool)
    ensures { result.0 ≡ flat }
{
    let words = flat.words();
    let well_shaped = look == Look::AtTheEnd || is_red_black(words.as_slice());
    (Flat::new(words), well_shaped)
}

/// Takes the steps beside the library's map, and compares all answers, the shape, the entries in
/// order and the words outside. Returns the number of entries left.
pub(crate) fn play(alloc: Global, keys: &[u64], steps: &[Step], look: Look) -> Result<usize, Fail> {
    let start = words_of(alloc, keys)?;
    let mut flat = table(words_of(alloc, keys)?, keys.len()).ok_or("no heap")?;
    let mut map = BTreeMap::new(alloc);
    let mut count = 0;
    let mut right = true;
    for step in steps {
        let (after, as_in_map) = take_step(&mut flat, keys, count, &mut map, *step)?;
        let (same, well_shaped) = looked_at(flat, look);
        flat = same;
        count = after;
        right = right && as_in_map && well_shaped;
    }
    let in_order = same_entries(&mut flat, keys.len(), count, &map);
    let words = flat.words();
    let kept = rest_is_kept(words.as_slice(), start.as_slice());
    let well_shaped = is_red_black(words.as_slice());
    holds(right && in_order && kept && well_shaped && count == map.len())?;
    Ok(count)
}
