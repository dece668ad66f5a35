//! Commands on bookings.

ghost use Rattle.std.specs.Prelude.{◌≡◌, ◌+◌, IfOk, IfSome, None, true};
ghost use Rattle.vac_model.specs.Ranges.{is_command};
ghost use Rattle.vac_records.specs.Bookings.{place_key};
ghost use Rattle.vac_records.specs.InMemory.{HoldsState};
ghost use Rattle.vac_tasks.specs.Entries.{ItemIsAt, CustomerIsAt};
ghost use Rattle.vac_tasks.specs.Ran.{CanRun, Ran};
ghost use Rattle.vac_tasks.specs.BookingSteps.{AtBlocks, AtBooking, AtSpot, AtPrice, HasSpot, HasPriceAt, ServesCommand, served_reply};
ghost use Rattle.vac_tasks.specs.Starts.{AtStart, HasStart, LeavesStart, LeavesBooking, adding};
ghost use Rattle.vac_tasks.specs.BookingSteps.{CanServe, CanReserve, CanReserveMore, reserve_of, cancel_of};

use crate::find::{find_customer, find_item};
use tx_alloc::{Block, FreeList, give, take_refilling};
use tx_memory::{Addr, TxMem};
use vac_bookings::place::NEXT;
use vac_bookings::{Spot, seek};
use vac_model::limits::MOST_UNITS;
use vac_model::{Command, Kind, Refusal, Reply};
use vac_records::place::BOOKINGS;
use vac_records::{
    book_at, book_more, cancel as give_units_back, free_at, key_of, make_of, price_at, spot_of,
    unbook_at, units_at,
};

/// A customer, and the customer's block.
#[derive(Clone, Copy)]
pub struct CustomerAt {
    /// The customer's id.
    pub customer: u32,
    /// The block of the customer.
    pub owner: Block,
}

/// An item, and its block.
#[derive(Clone, Copy)]
pub struct ItemAt {
    pub kind: Kind,
    pub id: u32,
    /// The block of the item.
    pub item: Block,
}

/// Units to book, each at this price.
#[derive(Clone, Copy)]
pub struct Units {
    /// Number of units to book.
    pub num: u32,
    /// Price of one unit.
    pub price: u64,
}

/// The number of units that are asked for, with the free units and the price of the item.
#[derive(Clone, Copy)]
struct Offer {
    /// Number of units to book.
    num: u32,
    /// Number of units that can be booked.
    free: u64,
    /// Price of one unit.
    price: u64,
}

/// Returns the reply of a command on a booking: its refusal, or that the command is done.
#[inline]
fn reply_of(refused: Option<Refusal>) -> Reply
    ensures { result ≡ served_reply refused }
{
    match refused {
        None => Reply::Done,
        Some(why) => Reply::No(why),
    }
}

/// Books units of an item for a customer, at the item's present price. An existing booking gets
/// more units; a new booking takes its block from the first free list that has one, beginning with
/// list `start`. If list `start` is exhausted, it is refilled. The place of an item is its kind
/// and its id, by which a customer's bookings are told apart.
pub fn reserve<M: TxMem>(
    memory: &mut M,
    customer: u32,
    place: (Kind, u32),
    num: u32,
    start: FreeList,
) -> Result<Reply, M::Stop>
    requires { CanRun (M.view memory.old) (Command.Reserve customer place.0 place.1 num) }
    ensures origin { M.origin memory.new ≡ M.origin memory.old }
    ensures answer { IfOk result (λ reply. Ran (M.view memory.old) (M.view memory.new)
        (Command.Reserve customer place.0 place.1 num) reply) }
{
    let (kind, id) = place;
    let Some(owner) = find_customer(memory, customer)? else {
        return Ok(Reply::No(Refusal::NoCustomer));
    };
    let Some(item) = find_item(memory, kind, id)? else {
        return Ok(Reply::No(Refusal::NoItem));
    };
    let who = CustomerAt { customer, owner };
    let what = ItemAt { kind, id, item };
    let refused = reserve_at(memory, who, what, num, start)?;
    Ok(reply_of(refused))
}

/// Books units as `reserve` does, at the blocks of the customer and of the item. Returns the
/// reason of a refusal, or `None` if the units are booked.
pub fn reserve_at<M: TxMem>(
    memory: &mut M,
    who: CustomerAt,
    what: ItemAt,
    num: u32,
    start: FreeList,
) -> Result<Option<Refusal>, M::Stop>
    requires state { HoldsState (M.view memory.old) }
    requires customer { CustomerIsAt (M.view memory.old) who.customer who.owner }
    requires item { ItemIsAt (M.view memory.old) what.kind what.id what.item }
    requires range { is_command (Command.Reserve who.customer what.kind what.id num) ≡ true }
    ensures origin { M.origin memory.new ≡ M.origin memory.old }
    ensures answer { IfOk result (λ refused. ServesCommand (M.view memory.old) (M.view memory.new)
        (Command.Reserve who.customer what.kind what.id num) (served_reply refused)
        (AtBlocks who.customer who.owner what.kind what.id what.item)) }
{
    let mut from = who.owner.word(BOOKINGS);
    let price = price_at(memory, what.item)?;
    let units = Units { num, price };
    let refused = reserve_from(memory, who, what, units, start, &mut from)?;
    Ok(refused)
}

/// Books units as `reserve_at` does, at the item's present price, which the caller has read. The
/// customer's list is searched from the link `from` on, and not from its head: no booking of this
/// item or of a later item stands before that link. The call leaves in `from` a link before which
/// no booking of a later item stands. A caller that books items in ascending order of kind and id
/// thus walks the list once.
pub(crate) fn reserve_from<M: TxMem>(
    memory: &mut M,
    who: CustomerAt,
    what: ItemAt,
    units: Units,
    start: FreeList,
    from: &mut Addr,
) -> Result<Option<Refusal>, M::Stop>
    requires state { HoldsState (M.view memory.old) }
    requires customer { CustomerIsAt (M.view memory.old) who.customer who.owner }
    requires item { ItemIsAt (M.view memory.old) what.kind what.id what.item }
    requires range { is_command (Command.Reserve who.customer what.kind what.id units.num) ≡ true }
    requires price { HasPriceAt (M.view memory.old) what.item units.price }
    requires from { HasStart (M.view memory.old) who.owner from.old.0
        (place_key (what.kind, what.id)) }
    ensures origin { M.origin memory.new ≡ M.origin memory.old }
    ensures answer { IfOk result (λ refused. ServesCommand (M.view memory.old) (M.view memory.new)
        (reserve_of who what units.num) (served_reply refused) (AtPrice what.item units.price
        (AtStart who.customer who.owner what.kind what.id what.item from.old.0))) }
    ensures from { IfOk result (λ _. LeavesStart (M.view memory.old) (M.view memory.new)
        who.owner from.new.0 (place_key (what.kind, what.id) + 1) (AtPrice what.item units.price
        (AtStart who.customer who.owner what.kind what.id what.item from.old.0))) }
{
    let free = free_at(memory, what.item)?;
    let Units { num, price } = units;
    if free < num as u64 {
        return Ok(Some(Refusal::SoldOut));
    }
    let offer = Offer { num, free, price };
    let spot = seek(memory, *from, key_of(what.kind, what.id))?;
    match spot.entry {
        Some(booking) => {
            let refused = extend_booking(memory, who, what, offer, booking)?;
            *from = booking.word(NEXT);
            Ok(refused)
        }
        None => {
            let added = add_booking(memory, who, what, offer, spot, start)?;
            let Some(block) = added else {
                return Ok(Some(Refusal::Full));
            };
            *from = block.word(NEXT);
            Ok(None)
        }
    }
}

/// Books more units of an item that has enough free ones, at its price, for a customer with a
/// booking of the item.
fn extend_booking<M: TxMem>(
    memory: &mut M,
    who: CustomerAt,
    what: ItemAt,
    offer: Offer,
    booking: Block,
) -> Result<Option<Refusal>, M::Stop>
    requires { CanReserveMore (M.view memory.old) who what offer booking }
    ensures origin { M.origin memory.new ≡ M.origin memory.old }
    ensures answer { IfOk result (λ refused. ServesCommand (M.view memory.old) (M.view memory.new)
        (reserve_of who what offer.num) (served_reply refused) (AtPrice what.item offer.price
        (AtBooking who.customer who.owner what.kind what.id what.item booking))) }
    ensures block { IfOk result (λ _. LeavesBooking (M.view memory.old) (M.view memory.new)
        who.owner (what.kind, what.id) booking
        (AtBooking who.customer who.owner what.kind what.id what.item booking)) }
{
    if units_at(memory, booking)? + offer.num as u64 > MOST_UNITS {
        return Ok(Some(Refusal::UnitLimit));
    }
    book_more(memory, booking, offer.num, offer.price)?;
    make_of(memory, what.item, offer.num, offer.free)?;
    Ok(None)
}

/// Books units of an item that has enough free ones, at its price, for a customer without a
/// booking of the item, at the spot of the booking in the customer's list. Returns the block of
/// the new booking, or `None` if no block is free.
fn add_booking<M: TxMem>(
    memory: &mut M,
    who: CustomerAt,
    what: ItemAt,
    offer: Offer,
    spot: Spot,
    start: FreeList,
) -> Result<Option<Block>, M::Stop>
    requires ready { CanReserve (M.view memory.old) who what offer }
    requires missing { spot.entry ≡ None }
    requires spot { HasSpot (M.view memory.old) who.owner (what.kind, what.id) spot }
    ensures origin { M.origin memory.new ≡ M.origin memory.old }
    ensures answer { IfOk result (λ added. ServesCommand (M.view memory.old) (M.view memory.new)
        (reserve_of who what offer.num) (adding added) (AtPrice what.item offer.price
        (AtSpot who.customer who.owner what.kind what.id what.item spot))) }
    ensures block { IfOk result (λ added. IfSome added (λ b. LeavesBooking (M.view memory.old)
        (M.view memory.new) who.owner (what.kind, what.id) b
        (AtSpot who.customer who.owner what.kind what.id what.item spot))) }
{
    let Some(block) = take_refilling(memory, start)? else {
        return Ok(None);
    };
    let item = (what.kind, what.id);
    book_at(memory, spot, block, item, offer.num, offer.price)?;
    make_of(memory, what.item, offer.num, offer.free)?;
    Ok(Some(block))
}

/// Gives back all units of a booking and removes the booking. The booking's block becomes the
/// first of free list `start`.
pub fn cancel<M: TxMem>(
    memory: &mut M,
    customer: u32,
    place: (Kind, u32),
    start: FreeList,
) -> Result<Reply, M::Stop>
    requires { CanRun (M.view memory.old) (Command.Cancel customer place.0 place.1) }
    ensures origin { M.origin memory.new ≡ M.origin memory.old }
    ensures answer { IfOk result (λ reply. Ran (M.view memory.old) (M.view memory.new)
        (Command.Cancel customer place.0 place.1) reply) }
{
    let (kind, id) = place;
    let Some(owner) = find_customer(memory, customer)? else {
        return Ok(Reply::No(Refusal::NoCustomer));
    };
    let Some(item) = find_item(memory, kind, id)? else {
        return Ok(Reply::No(Refusal::NoItem));
    };
    let spot = spot_of(memory, owner, kind, id)?;
    let who = CustomerAt { customer, owner };
    let what = ItemAt { kind, id, item };
    let refused = cancel_at(memory, who, what, spot, start)?;
    Ok(reply_of(refused))
}

/// Cancels a booking at the blocks of the customer and of the item, and at its spot in the
/// customer's list. Returns the reason of a refusal, or `None` if the booking is cancelled.
pub(crate) fn cancel_at<M: TxMem>(
    memory: &mut M,
    who: CustomerAt,
    what: ItemAt,
    spot: Spot,
    start: FreeList,
) -> Result<Option<Refusal>, M::Stop>
    requires ready { CanServe (M.view memory.old) who what (cancel_of who what) }
    requires spot { HasSpot (M.view memory.old) who.owner (what.kind, what.id) spot }
    ensures origin { M.origin memory.new ≡ M.origin memory.old }
    ensures answer { IfOk result (λ refused. ServesCommand (M.view memory.old) (M.view memory.new)
        (cancel_of who what) (served_reply refused)
        (AtSpot who.customer who.owner what.kind what.id what.item spot)) }
{
    let Some(taken) = unbook_at(memory, spot)? else {
        return Ok(Some(Refusal::NotBooked));
    };
    give_units_back(memory, what.item, taken.1)?;
    give(memory, start, taken.0)?;
    Ok(None)
}
