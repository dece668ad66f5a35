//! The words of a heap in which every block is free.

ghost use Rattle.std.specs.Prelude.{◌≡◌, ℕ, ◌<◌, ◌≤◌, IfOk, length, slice_index};
ghost use Rattle.tx_alloc.specs.Pool.{IsPool, heap_words, place_of_block};
ghost use Rattle.tx_alloc.specs.Spread.{IsSpreadHeap, IsLinked, spread_lists};

use crate::place::{BLOCK_WORDS, FIRST_BLOCK, FIRST_HEAD, LISTS, MOST_BLOCKS};
use std::alloc::{AllocError, Global};

/// Creates the words of a partitioned heap of `blocks` blocks, all free. List 0 has the first
/// eighth of the blocks, list 1 the next eighth and so on; each list ascends, and every other word
/// is 0. So the blocks that one client takes lie together.
pub fn spread_words(alloc: Global, blocks: usize) -> Result<Vec<u64>, AllocError>
    requires some { 1 ≤ blocks }
    requires most { blocks ≤ MOST_BLOCKS }
    ensures words { IfOk result (λ words. IsSpreadHeap words.items blocks) }
    ensures pool { IfOk result (λ words.
        IsPool (λ (a : ℕ). slice_index words.items a) (length words.items)
        (spread_lists blocks) (λ (x : ℕ). 0) 0) }
{
    let mut words = Vec::from_elem(
        alloc,
        0u64,
        FIRST_BLOCK as usize + BLOCK_WORDS as usize * blocks,
    )?;
    let mut first = 0;
    for list in 0..LISTS as usize {
        let end = first + (blocks + (LISTS as usize - 1) - list) / LISTS as usize;
        link_blocks(&mut words, list, first, end);
        first = end;
    }
    Ok(words)
}

/// Links the blocks from `first` up to `end`, exclusive, as a list.
fn link_blocks(words: &mut [u64], list: usize, first: usize, end: usize)
    requires list { list < LISTS }
    requires order { first ≤ end }
    requires most { end ≤ MOST_BLOCKS }
    requires room { heap_words end ≤ length words.old }
    ensures { IsLinked words.old words.new list first end }
{
    words[FIRST_HEAD as usize + list] = link_to(first, end);
    for block in first..end {
        words[FIRST_BLOCK as usize + BLOCK_WORDS as usize * block] = link_to(block + 1, end);
    }
}

/// Returns the pointer to a block before `end`, or to none.
fn link_to(block: usize, end: usize) -> u64
    requires { end ≤ MOST_BLOCKS }
    ensures { result ≡ place_of_block end block }
{
    if block < end {
        (FIRST_BLOCK as usize + BLOCK_WORDS as usize * block) as u64
    } else {
        0
    }
}
