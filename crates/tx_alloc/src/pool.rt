//! Taking blocks and giving them back.

ghost use Rattle.std.specs.Prelude.{◌≡◌, ◌<◌, IfOk, MatchOption};
ghost use Rattle.tx_alloc.specs.Pool.{HasPool, HasUsed, NoneFree, Taken, Given};

use crate::block::Block;
use crate::list::FreeList;
use crate::place::{FIRST_HEAD, LISTS};
use tx_memory::{Addr, TxMem, load, store};

/// Takes the first block of the first list that has one. The search begins at list `start`, and
/// list 0 follows list 7. Returns `None` if all eight lists are exhausted.
///
/// The block's words are as they were when the block was given back: its first word is the pointer
/// to the next free block.
///
/// Not said: the effect of a refused call on the lists.
pub fn take<M: TxMem>(memory: &mut M, start: FreeList) -> Result<Option<Block>, M::Stop>
    requires pool { HasPool (M.view memory.old) }
    ensures origin { M.origin memory.new ≡ M.origin memory.old }
    ensures answer { IfOk result (λ taken. MatchOption taken
        (NoneFree (M.view memory.old) (M.view memory.new))
        (λ block. Taken (M.view memory.old) (M.view memory.new) start block)) }
{
    let list = start.number();
    for i in 0..LISTS {
        let head = Addr(FIRST_HEAD + (list + i) % LISTS);
        let first = load(memory, head)?;
        if first != 0 {
            let block = Addr(first as u32);
            let next = load(memory, block)?;
            store(memory, head, next)?;
            return Ok(Some(Block(block)));
        }
    }
    Ok(None)
}

/// Gives back a taken block to which nothing leads any more. The block becomes the first of list
/// `start`.
///
/// Not said: the effect of a refused call on the lists.
pub fn give<M: TxMem>(memory: &mut M, start: FreeList, block: Block) -> Result<(), M::Stop>
    requires used { HasUsed (M.view memory.old) block }
    ensures origin { M.origin memory.new ≡ M.origin memory.old }
    ensures list { start < LISTS }
    ensures answer { IfOk result (λ _.
        Given (M.view memory.old) (M.view memory.new) start block) }
{
    let word = block.addr();
    let list = start.number();
    let head = Addr(FIRST_HEAD + list);
    let first = load(memory, head)?;
    store(memory, word, first)?;
    store(memory, head, word.0 as u64)?;
    Ok(())
}
