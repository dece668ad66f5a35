//! Commands on customers.

ghost use Rattle.std.specs.Prelude.{◌≡◌, ◌+◌, ◌≤◌, IfOk, IfErr, MatchOption, Some, true};
ghost use Rattle.vac_model.specs.Ranges.{is_command};
ghost use Rattle.vac_bookings.specs.Lists.{HasBooking};
ghost use Rattle.vac_records.specs.InMemory.{HoldsState};
ghost use Rattle.vac_tasks.specs.Entries.{CustomerIsAt, CustomerIsMissing};
ghost use Rattle.vac_tasks.specs.CustomerSteps.{RanOn, ItemsStayOn, HasSeat, HasNoBookings, CanDrop, CanCancelFirst, PlaceRead, OneGivenBack, GivenBack};
ghost use Rattle.vac_tasks.specs.Ran.{CanRun, Ran, RanQuestion, CustomerGone, joining};

use crate::bookings::{CustomerAt, ItemAt, cancel_at};
use crate::find::{find_customer, find_item};
use tx_alloc::place::MOST_BLOCKS;
use tx_alloc::{Block, FreeList, give, take_refilling};
use tx_memory::{TxMem, TxRead, load};
use vac_bookings::Spot;
use vac_model::{Command, Kind, Refusal, Reply};
use vac_records::{CUSTOMERS, init_customer, place};

/// Makes a customer without bookings, in a block of the first free list that has one, beginning
/// with list `start`. If list `start` is exhausted, it is refilled.
pub fn new_customer<M: TxMem>(memory: &mut M, id: u32, start: FreeList) -> Result<Reply, M::Stop>
    requires { CanRun (M.view memory.old) (Command.NewCustomer id) }
    ensures origin { M.origin memory.new ≡ M.origin memory.old }
    ensures answer { IfOk result (λ reply. Ran (M.view memory.old) (M.view memory.new)
        (Command.NewCustomer id) reply) }
{
    match find_customer(memory, id)? {
        Some(_) => Ok(Reply::No(Refusal::Exists)),
        None => {
            let added = add_customer(memory, id, start)?;
            match added {
                None => Ok(Reply::No(Refusal::Full)),
                Some(_) => Ok(Reply::Done),
            }
        }
    }
}

/// Makes a customer who is missing, and returns the customer's block. Returns `None` if no block
/// is free.
pub fn add_customer<M: TxMem>(
    memory: &mut M,
    id: u32,
    start: FreeList,
) -> Result<Option<Block>, M::Stop>
    requires state { HoldsState (M.view memory.old) }
    requires missing { CustomerIsMissing (M.view memory.old) id }
    requires range { is_command (Command.NewCustomer id) ≡ true }
    ensures origin { M.origin memory.new ≡ M.origin memory.old }
    ensures answer { IfOk result (λ added. RanOn (M.view memory.old) (M.view memory.new)
        id 0 (Command.NewCustomer id) (joining added)) }
    ensures block { IfOk result (λ added. MatchOption added (Unit {0})
        (λ c. HasSeat (M.view memory.old) (M.view memory.new) id c)) }
    ensures items { IfOk result (λ _. ItemsStayOn (M.view memory.old) (M.view memory.new) id 0) }
{
    let Some(block) = take_refilling(memory, start)? else {
        return Ok(None);
    };
    init_customer(memory, block, id)?;
    tx_tree::insert(memory, CUSTOMERS, id as u64, block)?;
    Ok(Some(block))
}

/// Returns the sum of the prices at which the customer's units were booked, or `None` if the
/// customer is missing.
pub fn bill<M: TxRead>(memory: &mut M, id: u32) -> Result<Option<u64>, M::Stop>
    requires { HoldsState (M.view memory.old) }
    ensures origin { M.origin memory.new ≡ M.origin memory.old }
    ensures answer { IfOk result (λ n. RanQuestion (M.view memory.old) (M.view memory.new)
        (Command.Bill id) (Reply.Number n)) }
    ensures stopped { IfErr result (λ stop. M.stopped_for memory.new stop) }
{
    match find_customer(memory, id)? {
        None => Ok(None),
        Some(customer) => {
            let bill = bill_at(memory, id, customer)?;
            Ok(Some(bill))
        }
    }
}

/// Returns the bill of the customer in this block.
pub fn bill_at<M: TxRead>(memory: &mut M, id: u32, customer: Block) -> Result<u64, M::Stop>
    requires state { HoldsState (M.view memory.old) }
    requires customer { CustomerIsAt (M.view memory.old) id customer }
    ensures origin { M.origin memory.new ≡ M.origin memory.old }
    ensures answer { IfOk result (λ n. RanOn (M.view memory.old) (M.view memory.new)
        id customer (Command.Bill id) (Reply.Number (Some n))) }
    ensures writes { IfOk result (λ _. (M.view memory.new).writes ≡ (M.view memory.old).writes) }
    ensures stopped { IfErr result (λ stop. M.stopped_for memory.new stop) }
{
    let bill = vac_records::bill(memory, customer)?;
    Ok(bill)
}

/// Gives back all units that the customer has booked, and removes the customer. The blocks of the
/// bookings and of the customer become the first of free list `start`.
pub fn drop_customer<M: TxMem>(memory: &mut M, id: u32, start: FreeList) -> Result<Reply, M::Stop>
    requires { CanRun (M.view memory.old) (Command.DropCustomer id) }
    ensures origin { M.origin memory.new ≡ M.origin memory.old }
    ensures answer { IfOk result (λ reply. Ran (M.view memory.old) (M.view memory.new)
        (Command.DropCustomer id) reply) }
{
    let Some(customer) = find_customer(memory, id)? else {
        return Ok(Reply::No(Refusal::NoCustomer));
    };
    drop_customer_at(memory, id, customer, start)?;
    Ok(Reply::Done)
}

/// Removes a customer as `drop_customer` does, at the customer's block.
pub fn drop_customer_at<M: TxMem>(
    memory: &mut M,
    id: u32,
    customer: Block,
    start: FreeList,
) -> Result<(), M::Stop>
    requires state { HoldsState (M.view memory.old) }
    requires customer { CustomerIsAt (M.view memory.old) id customer }
    requires range { is_command (Command.DropCustomer id) ≡ true }
    ensures origin { M.origin memory.new ≡ M.origin memory.old }
    ensures answer { IfOk result (λ _. RanOn (M.view memory.old) (M.view memory.new)
        id customer (Command.DropCustomer id) Reply.Done) }
{
    let who = CustomerAt {
        customer: id,
        owner: customer,
    };
    give_bookings_back(memory, who, start)?;
    remove_customer(memory, id, start)?;
    Ok(())
}

/// Cancels the customer's first booking until none is left. Bounded loop: the prover needs a
/// measure; a customer has no more bookings than a heap has blocks.
fn give_bookings_back<M: TxMem>(
    memory: &mut M,
    who: CustomerAt,
    start: FreeList,
) -> Result<(), M::Stop>
    requires { CanDrop (M.view memory.old) who }
    ensures origin { M.origin memory.new ≡ M.origin memory.old }
    ensures answer { IfOk result (λ _. GivenBack (M.view memory.old) (M.view memory.new)
        who.customer who.owner 0) }
{
    let head = who.owner.word(place::BOOKINGS);
    for _ in 0..MOST_BLOCKS {
        let Some(booking) = vac_bookings::first(memory, head)? else {
            return Ok(());
        };
        cancel_first(memory, who.customer, who.owner, booking, start)?;
    }
    Ok(())
}

/// Cancels the customer's first booking, by its block. The list is not walked, because its head
/// leads to the booking.
fn cancel_first<M: TxMem>(
    memory: &mut M,
    id: u32,
    customer: Block,
    booking: Block,
    start: FreeList,
) -> Result<(), M::Stop>
    requires { CanCancelFirst (M.view memory.old) id customer booking }
    ensures origin { M.origin memory.new ≡ M.origin memory.old }
    ensures answer { IfOk result (λ _. OneGivenBack (M.view memory.old) (M.view memory.new)
        id customer booking) }
{
    let (kind, item_id) = place_at(memory, booking)?;
    match find_item(memory, kind, item_id)? {
        None => unreachable!(),
        Some(item) => {
            let spot = Spot {
                link: customer.word(place::BOOKINGS),
                word: booking.addr().0 as u64,
                entry: Some(booking),
            };
            let who = CustomerAt {
                customer: id,
                owner: customer,
            };
            let what = ItemAt {
                kind,
                id: item_id,
                item,
            };
            cancel_at(memory, who, what, spot, start)?;
            Ok(())
        }
    }
}

/// Returns the kind and the id of the item of a booking.
fn place_at<M: TxRead>(memory: &mut M, booking: Block) -> Result<(Kind, u32), M::Stop>
    requires booking { HasBooking (M.view memory.old) booking }
    requires room { booking + 8 ≤ (M.view memory.old).size }
    ensures origin { M.origin memory.new ≡ M.origin memory.old }
    ensures answer { IfOk result (λ item.
        PlaceRead (M.view memory.old) (M.view memory.new) booking item) }
{
    let number = load(memory, booking.word(vac_bookings::place::KIND))?;
    let id = load(memory, booking.word(vac_bookings::place::ID))?;
    Ok((Kind::from_number(number), id as u32))
}

/// Removes a customer without bookings from the table. The customer's block becomes the first of
/// free list `start`.
fn remove_customer<M: TxMem>(memory: &mut M, id: u32, start: FreeList) -> Result<(), M::Stop>
    requires state { HoldsState (M.view memory.old) }
    requires bare { HasNoBookings (M.view memory.old) id }
    ensures origin { M.origin memory.new ≡ M.origin memory.old }
    ensures answer { IfOk result (λ _. CustomerGone (M.view memory.old) (M.view memory.new) id) }
{
    let removed = tx_tree::remove(memory, CUSTOMERS, id as u64)?;
    match removed {
        None => Ok(()),
        Some(block) => {
            give(memory, start, block)?;
            Ok(())
        }
    }
}
