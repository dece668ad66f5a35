//! Taking blocks, with a batch refill of an exhausted list from another list.

ghost use Rattle.std.specs.Prelude.{◌≡◌, ◌<◌, ◌+◌, IfOk, MatchOption};
ghost use Rattle.tx_alloc.specs.Pool.{HasPool, NoneFree};
ghost use Rattle.tx_alloc.specs.Drawing.{Begins, DrawnBlock, IsDry, Refilled, Walked};

use crate::block::Block;
use crate::list::FreeList;
use crate::place::{LISTS, RUN_BLOCKS};
use tx_memory::{Addr, TxMem, TxRead, load, store};

/// The end of a run of free blocks.
#[derive(Clone, Copy)]
struct RunEnd {
    /// The last block of the run.
    last: Addr,
    /// The pointer to the block after the run, or 0.
    behind: u64,
}

/// Takes the first block of list `start`. If that list is exhausted, takes the first block of the
/// next list that has one, and moves up to 63 blocks after it to list `start`. So a client meets
/// the others at their lists once for 64 blocks. List 0 follows list 7. Returns `None` if all
/// eight lists are exhausted.
///
/// The block's words are as they were when the block was given back: its first word is the pointer
/// to the next free block.
#[inline(always)]
pub fn take_refilling<M: TxMem>(memory: &mut M, start: FreeList) -> Result<Option<Block>, M::Stop>
    requires pool { HasPool (M.view memory.old) }
    ensures origin { M.origin memory.new ≡ M.origin memory.old }
    ensures answer { IfOk result (λ taken. MatchOption taken
        (NoneFree (M.view memory.old) (M.view memory.new))
        (λ block. DrawnBlock (M.view memory.old) (M.view memory.new) start block)) }
{
    let list = start.number();
    for i in 0..LISTS {
        let from = FreeList::new((list + i) % LISTS);
        let head = from.head();
        let first = load(memory, head)?;
        if first != 0 {
            let block = Addr(first as u32);
            let next = load(memory, block)?;
            if i == 0 {
                store(memory, head, next)?;
                return Ok(Some(Block(block)));
            }
            refill(memory, start, from, block, next)?;
            return Ok(Some(Block(block)));
        }
    }
    Ok(None)
}

/// Takes the first block of list `from`, and moves the blocks after it, up to the end of the run,
/// to list `start`, which is exhausted.
fn refill<M: TxMem>(
    memory: &mut M,
    start: FreeList,
    from: FreeList,
    block: Addr,
    next: u64,
) -> Result<(), M::Stop>
    requires pool { HasPool (M.view memory.old) }
    requires dry { IsDry (M.view memory.old) start from block.0 next }
    ensures origin { M.origin memory.new ≡ M.origin memory.old }
    ensures answer { IfOk result (λ _.
        Refilled (M.view memory.old) (M.view memory.new) start from block.0) }
{
    let run = end_of_run(memory, block, next)?;
    store(memory, from.head(), run.behind)?;
    if next == 0 {
        return Ok(());
    }
    store(memory, run.last, 0)?;
    store(memory, start.head(), next)?;
    Ok(())
}

/// Walks from the first block of a list to the last block of the run.
fn end_of_run<M: TxRead>(memory: &mut M, block: Addr, next: u64) -> Result<RunEnd, M::Stop>
    requires pool { HasPool (M.view memory.old) }
    requires begins { Begins (M.view memory.old) block.0 next }
    ensures origin { M.origin memory.new ≡ M.origin memory.old }
    ensures answer { IfOk result (λ run. Walked (M.view memory.old) (M.view memory.new)
        block.0 run.last.0 run.behind) }
{
    let mut last = block;
    let mut behind = next;
    for _ in 1..RUN_BLOCKS {
        if behind == 0 {
            return Ok(RunEnd { last, behind });
        }
        last = Addr(behind as u32);
        behind = load(memory, last)?;
    }
    Ok(RunEnd { last, behind })
}
