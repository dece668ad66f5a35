//! Commands on items.

ghost use Rattle.std.specs.Prelude.{◌≡◌, IfOk, IfErr, None, true};
ghost use Rattle.vac_model.specs.Ranges.{is_command};
ghost use Rattle.vac_model.specs.Step.{deleted};
ghost use Rattle.vac_records.specs.InMemory.{HoldsState};
ghost use Rattle.vac_records.specs.Items.{IsNode, HasRoomForUnits, HasFree, UnitsAdded, ItemChanged};
ghost use Rattle.vac_tasks.specs.Entries.{LacksItem, HasItemAt, HoldsItem};
ghost use Rattle.vac_tasks.specs.ItemSteps.{PriceGiven};
ghost use Rattle.vac_tasks.specs.Ran.{CanRun, Ran, RanQuestion, ItemGone};

use crate::find::find_item;
use tx_alloc::{Block, FreeList, give, take_refilling};
use tx_memory::{TxMem, TxRead};
use vac_model::limits::MOST_TOTAL;
use vac_model::{Command, Kind, Refusal, Reply};
use vac_records::{
    add_total, free_at, init_item, price_at, root_of, set_price, sub_total, total_at, used_at,
};

/// Returns the number of units of an item that can be booked, or `None` if the item is missing.
pub fn free<M: TxRead>(memory: &mut M, kind: Kind, id: u32) -> Result<Option<u64>, M::Stop>
    requires { HoldsState (M.view memory.old) }
    ensures origin { M.origin memory.new ≡ M.origin memory.old }
    ensures answer { IfOk result (λ n. RanQuestion (M.view memory.old) (M.view memory.new)
        (Command.Free kind id) (Reply.Number n)) }
    ensures stopped { IfErr result (λ stop. M.stopped_for memory.new stop) }
{
    match find_item(memory, kind, id)? {
        None => Ok(None),
        Some(item) => {
            let free = free_at(memory, item)?;
            Ok(Some(free))
        }
    }
}

/// Returns the price of an item, or `None` if the item is missing.
pub fn price<M: TxRead>(memory: &mut M, kind: Kind, id: u32) -> Result<Option<u64>, M::Stop>
    requires { HoldsState (M.view memory.old) }
    ensures origin { M.origin memory.new ≡ M.origin memory.old }
    ensures answer { IfOk result (λ n. RanQuestion (M.view memory.old) (M.view memory.new)
        (Command.Price kind id) (Reply.Number n)) }
    ensures stopped { IfErr result (λ stop. M.stopped_for memory.new stop) }
{
    match find_item(memory, kind, id)? {
        None => Ok(None),
        Some(item) => {
            let price = price_at(memory, item)?;
            Ok(Some(price))
        }
    }
}

/// Makes an item that is missing, in a block of the first free list that has one, beginning with
/// list `start`. If list `start` is exhausted, it is refilled.
fn add_new<M: TxMem>(
    memory: &mut M,
    kind: Kind,
    id: u32,
    num: u32,
    price: Option<u32>,
    start: FreeList,
) -> Result<Reply, M::Stop>
    requires state { HoldsState (M.view memory.old) }
    requires missing { LacksItem (M.view memory.old) kind id }
    requires range { is_command (Command.Add kind id num price) ≡ true }
    ensures origin { M.origin memory.new ≡ M.origin memory.old }
    ensures answer { IfOk result (λ reply. Ran (M.view memory.old) (M.view memory.new)
        (Command.Add kind id num price) reply) }
{
    let Some(price) = price else {
        return Ok(Reply::No(Refusal::NeedsCountAndPrice));
    };
    if num == 0 {
        return Ok(Reply::No(Refusal::NeedsCountAndPrice));
    }
    let taken = take_refilling(memory, start)?;
    let Some(block) = taken else {
        return Ok(Reply::No(Refusal::Full));
    };
    init_item(memory, block, id, num, price)?;
    tx_tree::insert(memory, root_of(kind), id as u64, block)?;
    Ok(Reply::Done)
}

/// Adds units to an item. If `num` is 0, nothing is written.
#[inline]
fn add_units<M: TxMem>(memory: &mut M, node: Block, num: u32) -> Result<(), M::Stop>
    requires node { IsNode (M.view memory.old) node }
    requires room { HasRoomForUnits (M.view memory.old) node num }
    ensures origin { M.origin memory.new ≡ M.origin memory.old }
    ensures answer { IfOk result (λ _.
        UnitsAdded (M.view memory.old) (M.view memory.new) node num) }
    ensures idle { num ≡ 0 → IfOk result (λ _.
        (M.view memory.new).writes ≡ (M.view memory.old).writes) }
{
    match num {
        0 => Ok(()),
        _ => add_total(memory, node, num),
    }
}

/// Replaces the price of an item, if a price is given.
#[inline]
fn replace_price<M: TxMem>(memory: &mut M, node: Block, price: Option<u32>) -> Result<(), M::Stop>
    requires { IsNode (M.view memory.old) node }
    ensures origin { M.origin memory.new ≡ M.origin memory.old }
    ensures answer { IfOk result (λ _.
        PriceGiven (M.view memory.old) (M.view memory.new) node price) }
    ensures idle { price ≡ None → IfOk result (λ _.
        (M.view memory.new).writes ≡ (M.view memory.old).writes) }
{
    match price {
        None => Ok(()),
        Some(price) => set_price(memory, node, price),
    }
}

/// Adds units to an existing item, and replaces its price if a price is given. Unchanged words are
/// not written.
fn add_more<M: TxMem>(
    memory: &mut M,
    kind: Kind,
    id: u32,
    num: u32,
    price: Option<u32>,
    item: Block,
) -> Result<Reply, M::Stop>
    requires state { HoldsState (M.view memory.old) }
    requires item { HasItemAt (M.view memory.old) kind id item }
    requires range { is_command (Command.Add kind id num price) ≡ true }
    ensures origin { M.origin memory.new ≡ M.origin memory.old }
    ensures answer { IfOk result (λ reply. Ran (M.view memory.old) (M.view memory.new)
        (Command.Add kind id num price) reply) }
{
    let total = total_at(memory, item)?;
    if total + num as u64 > MOST_TOTAL {
        return Ok(Reply::No(Refusal::TotalLimit));
    }
    add_units(memory, item, num)?;
    replace_price(memory, item, price)?;
    Ok(Reply::Done)
}

/// Makes an item, or adds units to an existing one. A new item takes its block from the first free
/// list that has one, beginning with list `start`. If list `start` is exhausted, it is refilled.
pub fn add<M: TxMem>(
    memory: &mut M,
    kind: Kind,
    id: u32,
    num: u32,
    price: Option<u32>,
    start: FreeList,
) -> Result<Reply, M::Stop>
    requires { CanRun (M.view memory.old) (Command.Add kind id num price) }
    ensures origin { M.origin memory.new ≡ M.origin memory.old }
    ensures answer { IfOk result (λ reply. Ran (M.view memory.old) (M.view memory.new)
        (Command.Add kind id num price) reply) }
{
    let found = find_item(memory, kind, id)?;
    match found {
        None => add_new(memory, kind, id, num, price, start),
        Some(item) => add_more(memory, kind, id, num, price, item),
    }
}

/// Removes an item from its table. The item's block becomes the first of free list `start`.
fn remove_item<M: TxMem>(
    memory: &mut M,
    kind: Kind,
    id: u32,
    start: FreeList,
) -> Result<(), M::Stop>
    requires { HoldsItem (M.view memory.old) kind id }
    ensures origin { M.origin memory.new ≡ M.origin memory.old }
    ensures answer { IfOk result (λ _. ItemGone (M.view memory.old) (M.view memory.new) kind id) }
{
    let removed = tx_tree::remove(memory, root_of(kind), id as u64)?;
    let Some(block) = removed else {
        return Ok(());
    };
    give(memory, start, block)?;
    Ok(())
}

/// Takes free units away from an item. If `num` is 0, nothing is written.
#[inline]
fn take_units<M: TxMem>(memory: &mut M, node: Block, num: u32) -> Result<(), M::Stop>
    requires node { IsNode (M.view memory.old) node }
    requires free { HasFree (M.view memory.old) node num }
    ensures origin { M.origin memory.new ≡ M.origin memory.old }
    ensures answer { IfOk result (λ _. ItemChanged (M.view memory.old) (M.view memory.new) node
        (λ item. deleted item num)) }
    ensures idle { num ≡ 0 → IfOk result (λ _.
        (M.view memory.new).writes ≡ (M.view memory.old).writes) }
{
    if num > 0 {
        sub_total(memory, node, num)?;
    }
    Ok(())
}

/// Takes free units away from an item. An item without units left is removed, and its block
/// becomes the first of free list `start`.
pub fn delete<M: TxMem>(
    memory: &mut M,
    kind: Kind,
    id: u32,
    num: u32,
    start: FreeList,
) -> Result<Reply, M::Stop>
    requires { CanRun (M.view memory.old) (Command.Delete kind id num) }
    ensures origin { M.origin memory.new ≡ M.origin memory.old }
    ensures answer { IfOk result (λ reply. Ran (M.view memory.old) (M.view memory.new)
        (Command.Delete kind id num) reply) }
{
    let found = find_item(memory, kind, id)?;
    let Some(item) = found else {
        return Ok(Reply::No(Refusal::NoItem));
    };
    let free = free_at(memory, item)?;
    if free < num as u64 {
        return Ok(Reply::No(Refusal::NotFree));
    }
    let total = total_at(memory, item)?;
    if total > num as u64 {
        take_units(memory, item, num)?;
        return Ok(Reply::Done);
    }
    remove_item(memory, kind, id, start)?;
    Ok(Reply::Done)
}

/// Removes a flight without booked units. The flight's block becomes the first of free list
/// `start`.
pub fn drop_flight<M: TxMem>(memory: &mut M, id: u32, start: FreeList) -> Result<Reply, M::Stop>
    requires state { HoldsState (M.view memory.old) }
    ensures origin { M.origin memory.new ≡ M.origin memory.old }
    ensures answer { IfOk result (λ reply. Ran (M.view memory.old) (M.view memory.new)
        (Command.DropFlight id) reply) }
{
    let found = find_item(memory, Kind::Flight, id)?;
    let Some(flight) = found else {
        return Ok(Reply::No(Refusal::NoItem));
    };
    let used = used_at(memory, flight)?;
    if used > 0 {
        return Ok(Reply::No(Refusal::InUse));
    }
    remove_item(memory, Kind::Flight, id, start)?;
    Ok(Reply::Done)
}
