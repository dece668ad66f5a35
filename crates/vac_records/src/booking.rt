//! Reading and writing bookings.

ghost use Rattle.std.specs.Prelude.{◌≡◌, ◌+◌, ◌*◌, ◌<◌, ◌^◌, IfOk, IfErr};
ghost use Rattle.tx_memory.specs.View.{Loaded};
ghost use Rattle.vac_bookings.specs.declared.place.TheConstants.{SUM, UNITS};
ghost use Rattle.vac_model.specs.State.{kind_number};
ghost use Rattle.vac_model.specs.Step.{extended};
ghost use Rattle.vac_records.specs.Items.{IsNode};
ghost use Rattle.vac_records.specs.Customers.{CanMakeBooking, BookingMade, BookingChanged, CanExtend};

use crate::word::{clear_spare, raise};
use tx_alloc::Block;
use tx_memory::{TxMem, TxRead, load, store};
use vac_bookings::{Key, place};
use vac_model::Kind;

/// Returns the key of the bookings of an item in customers' lists.
#[inline]
pub fn key_of(kind: Kind, id: u32) -> Key
    ensures kind { result.kind ≡ kind_number kind }
    ensures id { result.id ≡ id }
{
    Key {
        kind: kind.number(),
        id: id as u64,
    }
}

/// Makes the block a booking of `num` units of an item, each at this price. The link into a list
/// is left to the list; the spare words become 0.
pub(crate) fn init_booking<M: TxMem>(
    memory: &mut M,
    node: Block,
    kind: Kind,
    id: u32,
    num: u32,
    price: u64,
) -> Result<(), M::Stop>
    requires { CanMakeBooking (M.view memory.old) node (num * price) }
    ensures origin { M.origin memory.new ≡ M.origin memory.old }
    ensures answer { IfOk result (λ _. BookingMade (M.view memory.old) (M.view memory.new) node
        (kind, id) num price) }
{
    let key = key_of(kind, id);
    store(memory, node.word(place::KIND), key.kind)?;
    store(memory, node.word(place::ID), key.id)?;
    store(memory, node.word(place::SUM), num as u64 * price)?;
    store(memory, node.word(place::UNITS), num as u64)?;
    clear_spare(memory, node)?;
    Ok(())
}

/// Returns the number of units of the booking.
#[inline(always)]
pub fn units_at<M: TxRead>(memory: &mut M, node: Block) -> Result<u64, M::Stop>
    requires { IsNode (M.view memory.old) node }
    ensures origin { M.origin memory.new ≡ M.origin memory.old }
    ensures answer { IfOk result (λ v.
        Loaded (M.view memory.old) (M.view memory.new) (node + UNITS) v) }
    ensures stopped { IfErr result (λ stop. M.stopped_for memory.new stop) }
{
    load(memory, node.word(place::UNITS))
}

/// Returns the sum of the prices of the booking's units, each as it was when the unit was booked.
#[inline(always)]
pub fn sum_at<M: TxRead>(memory: &mut M, node: Block) -> Result<u64, M::Stop>
    requires { IsNode (M.view memory.old) node }
    ensures origin { M.origin memory.new ≡ M.origin memory.old }
    ensures answer { IfOk result (λ v.
        Loaded (M.view memory.old) (M.view memory.new) (node + SUM) v) }
    ensures stopped { IfErr result (λ stop. M.stopped_for memory.new stop) }
{
    load(memory, node.word(place::SUM))
}

/// Adds units at the present price to a booking. The units already booked keep their prices.
pub fn book_more<M: TxMem>(memory: &mut M, node: Block, num: u32, price: u64) -> Result<(), M::Stop>
    requires node { IsNode (M.view memory.old) node }
    requires sum { num * price < 2 ^ 64 }
    requires room { CanExtend (M.view memory.old) node num price }
    ensures origin { M.origin memory.new ≡ M.origin memory.old }
    ensures answer { IfOk result (λ _. BookingChanged (M.view memory.old) (M.view memory.new) node
        (λ b. extended b num price)) }
{
    raise(memory, node.word(place::SUM), num as u64 * price)?;
    raise(memory, node.word(place::UNITS), num as u64)?;
    Ok(())
}
