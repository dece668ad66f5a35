//! Reading and writing the items of the tables.

ghost use Rattle.std.specs.Prelude.{◌≡◌, ◌+◌, IfOk, IfErr};
ghost use Rattle.tx_memory.specs.View.{Loaded, Stored};
ghost use Rattle.vac_model.specs.Step.{deleted, taken, given_back};
ghost use Rattle.vac_records.specs.declared.place.TheConstants.{USED, FREE, TOTAL, PRICE};
ghost use Rattle.vac_records.specs.Items.{IsNode, HasRoomForUnits, HasFree, CanMakeOf, CanCancel, ItemMade, ItemChanged, ItemChangedOf, UnitsAdded};

use crate::place;
use crate::word::{lower, raise};
use tx_alloc::Block;
use tx_memory::{TxMem, TxRead, load, store};

/// Makes the block an item with this key and this price, with `num` free units and no used ones.
/// The links into a table are left to the table.
pub fn init_item<M: TxMem>(
    memory: &mut M,
    node: Block,
    key: u32,
    num: u32,
    price: u32,
) -> Result<(), M::Stop>
    requires { IsNode (M.view memory.old) node }
    ensures origin { M.origin memory.new ≡ M.origin memory.old }
    ensures answer { IfOk result (λ _.
        ItemMade (M.view memory.old) (M.view memory.new) node key num price) }
{
    store(memory, node.word(place::KEY), key as u64)?;
    store(memory, node.word(place::USED), 0)?;
    store(memory, node.word(place::FREE), num as u64)?;
    store(memory, node.word(place::TOTAL), num as u64)?;
    store(memory, node.word(place::PRICE), price as u64)?;
    Ok(())
}

/// Returns the number of booked units of the item.
#[inline(always)]
pub fn used_at<M: TxRead>(memory: &mut M, node: Block) -> Result<u64, M::Stop>
    requires { IsNode (M.view memory.old) node }
    ensures origin { M.origin memory.new ≡ M.origin memory.old }
    ensures answer { IfOk result (λ v.
        Loaded (M.view memory.old) (M.view memory.new) (node + USED) v) }
    ensures stopped { IfErr result (λ stop. M.stopped_for memory.new stop) }
{
    load(memory, node.word(place::USED))
}

/// Returns the number of units of the item that can be booked.
#[inline(always)]
pub fn free_at<M: TxRead>(memory: &mut M, node: Block) -> Result<u64, M::Stop>
    requires { IsNode (M.view memory.old) node }
    ensures origin { M.origin memory.new ≡ M.origin memory.old }
    ensures answer { IfOk result (λ v.
        Loaded (M.view memory.old) (M.view memory.new) (node + FREE) v) }
    ensures stopped { IfErr result (λ stop. M.stopped_for memory.new stop) }
{
    load(memory, node.word(place::FREE))
}

/// Returns the number of units of the item, booked or not.
#[inline(always)]
pub fn total_at<M: TxRead>(memory: &mut M, node: Block) -> Result<u64, M::Stop>
    requires { IsNode (M.view memory.old) node }
    ensures origin { M.origin memory.new ≡ M.origin memory.old }
    ensures answer { IfOk result (λ v.
        Loaded (M.view memory.old) (M.view memory.new) (node + TOTAL) v) }
    ensures stopped { IfErr result (λ stop. M.stopped_for memory.new stop) }
{
    load(memory, node.word(place::TOTAL))
}

/// Returns the price of a unit of the item.
#[inline(always)]
pub fn price_at<M: TxRead>(memory: &mut M, node: Block) -> Result<u64, M::Stop>
    requires { IsNode (M.view memory.old) node }
    ensures origin { M.origin memory.new ≡ M.origin memory.old }
    ensures answer { IfOk result (λ v.
        Loaded (M.view memory.old) (M.view memory.new) (node + PRICE) v) }
    ensures stopped { IfErr result (λ stop. M.stopped_for memory.new stop) }
{
    load(memory, node.word(place::PRICE))
}

/// Adds free units to the item.
pub fn add_total<M: TxMem>(memory: &mut M, node: Block, num: u32) -> Result<(), M::Stop>
    requires node { IsNode (M.view memory.old) node }
    requires room { HasRoomForUnits (M.view memory.old) node num }
    ensures origin { M.origin memory.new ≡ M.origin memory.old }
    ensures answer { IfOk result (λ _.
        UnitsAdded (M.view memory.old) (M.view memory.new) node num) }
{
    raise(memory, node.word(place::FREE), num as u64)?;
    raise(memory, node.word(place::TOTAL), num as u64)?;
    Ok(())
}

/// Takes free units away from the item. The caller ensures that `num` units are free. The price
/// stays, even if no unit is left.
pub fn sub_total<M: TxMem>(memory: &mut M, node: Block, num: u32) -> Result<(), M::Stop>
    requires node { IsNode (M.view memory.old) node }
    requires free { HasFree (M.view memory.old) node num }
    ensures origin { M.origin memory.new ≡ M.origin memory.old }
    ensures answer { IfOk result (λ _. ItemChanged (M.view memory.old) (M.view memory.new) node
        (λ item. deleted item num)) }
{
    lower(memory, node.word(place::FREE), num as u64)?;
    lower(memory, node.word(place::TOTAL), num as u64)?;
    Ok(())
}

/// Sets the price of the item. Booked units keep their price.
#[inline]
pub fn set_price<M: TxMem>(memory: &mut M, node: Block, price: u32) -> Result<(), M::Stop>
    requires { IsNode (M.view memory.old) node }
    ensures origin { M.origin memory.new ≡ M.origin memory.old }
    ensures answer { IfOk result (λ _.
        Stored (M.view memory.old) (M.view memory.new) (node + PRICE) price) }
{
    let word = node.word(place::PRICE);
    store(memory, word, price as u64)
}

/// Reserves `num` units: free units become used ones. The caller has read the number of free
/// units, which is at least `num`.
#[inline(always)]
pub fn make_of<M: TxMem>(memory: &mut M, node: Block, num: u32, free: u64) -> Result<(), M::Stop>
    requires node { IsNode (M.view memory.old) node }
    requires units { CanMakeOf (M.view memory.old) node num free }
    ensures origin { M.origin memory.new ≡ M.origin memory.old }
    ensures answer { IfOk result (λ _. ItemChangedOf (M.view memory.old) (M.view memory.new) node
        free (λ item. taken item num)) }
{
    raise(memory, node.word(place::USED), num as u64)?;
    store(memory, node.word(place::FREE), free - num as u64)?;
    Ok(())
}

/// Cancels a reservation of `num` units: used units become free ones. The caller ensures that
/// `num` units are used.
pub fn cancel<M: TxMem>(memory: &mut M, node: Block, num: u64) -> Result<(), M::Stop>
    requires node { IsNode (M.view memory.old) node }
    requires units { CanCancel (M.view memory.old) node num }
    ensures origin { M.origin memory.new ≡ M.origin memory.old }
    ensures answer { IfOk result (λ _. ItemChanged (M.view memory.old) (M.view memory.new) node
        (λ item. given_back item num)) }
{
    lower(memory, node.word(place::USED), num)?;
    raise(memory, node.word(place::FREE), num)?;
    Ok(())
}
