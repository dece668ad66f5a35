//! Free lists, and blocks that were not reached.

ghost use Rattle.std.specs.Prelude.{◌≡◌, ◌+◌, ◌<◌, length};
ghost use Rattle.tx_alloc.specs.declared.place.TheConstants.{MOST_BLOCKS};
ghost use Rattle.vac_audit.specs.Marks.{IsMarked, FreeListRan, ListsRan, ReachedRan};

use crate::Flaw;
use crate::pointers::{BLOCK_WORDS, FIRST_BLOCK, follow};

/// Number of free lists.
const LISTS: usize = tx_alloc::place::LISTS as usize;

/// Index of the head of the first free list.
const FIRST_HEAD: usize = tx_alloc::place::FIRST_HEAD as usize;

/// Walks one free list. Bounded loop: the prover needs a measure; each level reaches one more
/// block.
fn walk_free(words: &[u64], reached: &mut Vec<bool>, head: usize) -> Result<(), Flaw>
    requires marked { IsMarked words.now reached.old.items }
    requires inside { head < FIRST_BLOCK }
    ensures size { length reached.new.items ≡ length reached.old.items }
    ensures ran { FreeListRan words.now reached.old.items reached.new.items head result }
{
    let mut at = head;
    for _level in 0..reached.len() + 1 {
        match follow(words, reached, at)? {
            None => return Ok(()),
            Some(place) => at = place,
        }
    }
    Err(Flaw::Shared(at as u32))
}

/// Walks the eight free lists.
pub fn walk_lists(words: &[u64], reached: &mut Vec<bool>) -> Result<(), Flaw>
    requires marked { IsMarked words.now reached.old.items }
    ensures size { length reached.new.items ≡ length reached.old.items }
    ensures ran { ListsRan words.now reached.old.items reached.new.items result }
{
    for list in 0..LISTS {
        walk_free(words, reached, FIRST_HEAD + list)?;
    }
    Ok(())
}

/// Checks that every block was reached.
pub fn check_reached(reached: &Vec<bool>) -> Result<(), Flaw>
    requires few { length reached.now.items < MOST_BLOCKS + 1 }
    ensures ran { ReachedRan reached.now.items result }
{
    for (block, is_reached) in reached.iter().enumerate() {
        if !*is_reached {
            return Err(Flaw::Lost((FIRST_BLOCK + BLOCK_WORDS * block) as u32));
        }
    }
    Ok(())
}
