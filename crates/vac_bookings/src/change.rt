//! Linking bookings into a list, and unlinking them.

ghost use Rattle.std.specs.Prelude.{◌≡◌, ◌+◌, ◌<◌, ◌≤◌, ◌^◌, IfOk};
ghost use Rattle.tx_alloc.specs.Pointer.{IsWithin};
ghost use Rattle.vac_bookings.specs.Bookings.{IsKey, code_of};
ghost use Rattle.vac_bookings.specs.Lists.{HasList, IsFreshBooking, InsertedBooking, RemovedBooking};
ghost use Rattle.vac_bookings.specs.Search.{Hung, Unhung};

use crate::key::Key;
use crate::place::NEXT;
use crate::search::{Spot, seek};
use tx_alloc::Block;
use tx_alloc::place::BLOCK_WORDS;
use tx_memory::{Addr, TxMem, load, store};

/// Links a block into the list at `head`. The words of the block already have the key, and no
/// booking of the list has that key.
pub fn insert<M: TxMem>(memory: &mut M, head: Addr, key: Key, block: Block) -> Result<(), M::Stop>
    requires list { HasList (M.view memory.old) head.0 }
    requires key { IsKey key }
    requires fresh { IsFreshBooking (M.view memory.old) head.0 key block }
    ensures origin { M.origin memory.new ≡ M.origin memory.old }
    ensures answer { IfOk result (λ _.
        InsertedBooking (M.view memory.old) (M.view memory.new) head.0 key block) }
{
    let spot = seek(memory, head, key)?;
    insert_at(memory, spot, block)?;
    Ok(())
}

/// Links a block into a list at a spot. The block comes into each list in which its key has this
/// spot. A list that `seek` has walked, and that has not changed since, is not walked again.
pub fn insert_at<M: TxMem>(memory: &mut M, spot: Spot, block: Block) -> Result<(), M::Stop>
    requires small { (M.view memory.old).size ≤ 2 ^ 32 }
    requires block { block + BLOCK_WORDS ≤ (M.view memory.old).size }
    requires link { spot.link.0 < (M.view memory.old).size }
    ensures origin { M.origin memory.new ≡ M.origin memory.old }
    ensures answer { IfOk result (λ _.
        Hung (M.view memory.old) (M.view memory.new) spot block) }
{
    store(memory, block.word(NEXT), spot.word)?;
    store(memory, spot.link, block.addr().0 as u64)?;
    Ok(())
}

/// Unlinks the booking of a key from the list at `head`, and returns its block. If the list has no
/// such booking, nothing is written.
pub fn remove<M: TxMem>(memory: &mut M, head: Addr, key: Key) -> Result<Option<Block>, M::Stop>
    requires list { HasList (M.view memory.old) head.0 }
    requires key { IsKey key }
    ensures origin { M.origin memory.new ≡ M.origin memory.old }
    ensures answer { IfOk result (λ removed.
        RemovedBooking (M.view memory.old) (M.view memory.new) head.0 (code_of key) removed) }
{
    let spot = seek(memory, head, key)?;
    let removed = remove_at(memory, spot)?;
    Ok(removed)
}

/// Unlinks the booking at a spot from the lists that have it there, and returns its block. If the
/// spot has no booking, nothing is written.
pub fn remove_at<M: TxMem>(memory: &mut M, spot: Spot) -> Result<Option<Block>, M::Stop>
    requires small { (M.view memory.old).size ≤ 2 ^ 32 }
    requires link { spot.link.0 < (M.view memory.old).size }
    requires entry { IsWithin (M.view memory.old) spot.entry }
    ensures origin { M.origin memory.new ≡ M.origin memory.old }
    ensures answer { IfOk result (λ removed.
        Unhung (M.view memory.old) (M.view memory.new) spot removed) }
{
    match spot.entry {
        None => Ok(None),
        Some(block) => {
            let next = load(memory, block.word(NEXT))?;
            store(memory, spot.link, next)?;
            Ok(Some(block))
        }
    }
}
