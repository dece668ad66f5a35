//! Customers, their bookings and their bills.

ghost use Rattle.std.specs.Prelude.{◌≡◌, ◌+◌, ◌*◌, ◌<◌, ◌≤◌, ◌^◌, IfOk, IfErr};
ghost use Rattle.tx_alloc.specs.Pointer.{IsWithin};
ghost use Rattle.vac_bookings.specs.Lists.{HasList};
ghost use Rattle.vac_bookings.specs.Search.{Sought};
ghost use Rattle.vac_records.specs.Bookings.{place_key};
ghost use Rattle.vac_records.specs.Items.{IsNode};
ghost use Rattle.vac_records.specs.Customers.{head_of, CustomerMade, BookedAt, UnbookedAt, CanBill, Billed};

use crate::booking::{init_booking, key_of, sum_at, units_at};
use crate::place;
use crate::word::clear_spare;
use tx_alloc::Block;
use tx_alloc::place::MOST_BLOCKS;
use tx_memory::{TxMem, TxRead, store};
use vac_bookings::{Spot, insert_at, remove_at, seek};
use vac_model::Kind;

/// Makes the block a customer with this key and without bookings. The links into a table are left
/// to the table; the spare words become 0.
pub fn init_customer<M: TxMem>(memory: &mut M, node: Block, key: u32) -> Result<(), M::Stop>
    requires { IsNode (M.view memory.old) node }
    ensures origin { M.origin memory.new ≡ M.origin memory.old }
    ensures answer { IfOk result (λ _.
        CustomerMade (M.view memory.old) (M.view memory.new) node key) }
{
    store(memory, node.word(place::KEY), key as u64)?;
    store(memory, node.word(place::BOOKINGS), 0)?;
    clear_spare(memory, node)?;
    Ok(())
}

/// Returns the spot of an item in the customer's list: where the item's booking is or would be.
#[inline(always)]
pub fn spot_of<M: TxRead>(
    memory: &mut M,
    customer: Block,
    kind: Kind,
    id: u32,
) -> Result<Spot, M::Stop>
    requires customer { IsNode (M.view memory.old) customer }
    requires list { HasList (M.view memory.old) (head_of customer) }
    ensures origin { M.origin memory.new ≡ M.origin memory.old }
    ensures answer { IfOk result (λ spot. Sought (M.view memory.old) (M.view memory.new)
        (head_of customer) (place_key (kind, id)) spot) }
{
    let spot = seek(memory, customer.word(place::BOOKINGS), key_of(kind, id))?;
    Ok(spot)
}

/// Books units of an item for a customer without a booking of the item, each at this price. The
/// item is given by its kind and its id. The block must be in no structure, and becomes the
/// booking, at its spot in the customer's list: a list that `spot_of` has walked is not walked
/// again.
pub fn book_at<M: TxMem>(
    memory: &mut M,
    spot: Spot,
    block: Block,
    item: (Kind, u32),
    num: u32,
    price: u64,
) -> Result<(), M::Stop>
    requires block { IsNode (M.view memory.old) block }
    requires link { spot.link.0 < (M.view memory.old).size }
    requires sum { num * price < 2 ^ 64 }
    ensures origin { M.origin memory.new ≡ M.origin memory.old }
    ensures answer { IfOk result (λ _. BookedAt (M.view memory.old) (M.view memory.new) spot
        item num price block) }
{
    let (kind, id) = item;
    init_booking(memory, block, kind, id, num, price)?;
    insert_at(memory, spot, block)?;
    Ok(())
}

/// Removes the booking at a spot from the customer's list, and returns its block and its number of
/// units. Returns `None` if the spot has no booking. A list that `spot_of` has walked is not walked
/// again.
pub fn unbook_at<M: TxMem>(memory: &mut M, spot: Spot) -> Result<Option<(Block, u64)>, M::Stop>
    requires small { (M.view memory.old).size ≤ 2 ^ 32 }
    requires link { spot.link.0 < (M.view memory.old).size }
    requires entry { IsWithin (M.view memory.old) spot.entry }
    ensures origin { M.origin memory.new ≡ M.origin memory.old }
    ensures answer { IfOk result (λ taken.
        UnbookedAt (M.view memory.old) (M.view memory.new) spot taken) }
{
    match remove_at(memory, spot)? {
        None => Ok(None),
        Some(block) => {
            let units = units_at(memory, block)?;
            Ok(Some((block, units)))
        }
    }
}

/// Returns the customer's bill: the total of the sums of all bookings. Bounded loop: the prover
/// needs a measure; a customer has at most 262,144 bookings.
pub fn bill<M: TxRead>(memory: &mut M, customer: Block) -> Result<u64, M::Stop>
    requires { CanBill (M.view memory.old) customer }
    ensures origin { M.origin memory.new ≡ M.origin memory.old }
    ensures answer { IfOk result (λ total.
        Billed (M.view memory.old) (M.view memory.new) customer total) }
    ensures stopped { IfErr result (λ stop. M.stopped_for memory.new stop) }
{
    let mut next = vac_bookings::first(memory, customer.word(place::BOOKINGS))?;
    let mut total = 0;
    for _ in 0..MOST_BLOCKS {
        match next {
            None => return Ok(total),
            Some(block) => {
                total += sum_at(memory, block)?;
                next = vac_bookings::next(memory, block)?;
            }
        }
    }
    Ok(total)
}
