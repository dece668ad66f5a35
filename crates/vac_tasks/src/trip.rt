//! Trips: for one customer, a booking of the dearest item of each kind among the asks.

ghost use Rattle.std.specs.Prelude.{◌≡◌, ◌+◌, ◌≤◌, ◌^◌, IfOk, IfSome, true};
ghost use Rattle.std.specs.List.{list_all};
ghost use Rattle.vac_model.specs.Amounts.{is_id};
ghost use Rattle.vac_model.specs.Ranges.{is_task};
ghost use Rattle.vac_model.specs.Run as rules;
ghost use Rattle.vac_records.specs.Customers.{head_of};
ghost use Rattle.vac_records.specs.InMemory.{HoldsState};
ghost use Rattle.vac_tasks.specs.RanTask.{RanTask};
ghost use Rattle.vac_tasks.specs.Runs.{RunsWhere, BlocksStay};
ghost use Rattle.vac_tasks.specs.Trips.{priced, any_chosen, dearer_of, with_found};
ghost use Rattle.vac_tasks.specs.Trips.{first_key, next_key, CanStart, LeavesTurn};
ghost use Rattle.vac_tasks.specs.Trips.{ChoiceIsAt, ChoicesAreAt, AtPick, AtChoices, LookedUp, Chosen, IsOwner, HasJoined};

use crate::bookings::{CustomerAt, ItemAt, Units, reserve_from};
use crate::customers::add_customer;
use crate::find::{find_customer, find_item};
use tx_alloc::{Block, FreeList};
use tx_memory::{Addr, TxMem, TxRead};
use vac_model::{CustomerOutcome, Kind, Pick, Refusal, Reply, Task, TripReply};
use vac_records::place::BOOKINGS;
use vac_records::price_at;

/// An item that a trip may book: its id, its price and its block.
#[derive(Clone, Copy)]
struct Choice {
    id: u32,
    price: u64,
    item: Block,
}

/// The dearest item of each kind so far.
#[derive(Clone, Copy)]
struct Choices {
    car: Option<Choice>,
    flight: Option<Choice>,
    room: Option<Choice>,
}

/// The result of the customer's part of a trip, and the customer's block, if the customer exists.
#[derive(Clone, Copy)]
struct Owner {
    joined: CustomerOutcome,
    block: Option<Block>,
}

/// The customer of a trip, and the customer's block, if the customer exists.
#[derive(Clone, Copy)]
struct Traveller {
    customer: u32,
    block: Option<Block>,
}

/// Returns the head of the list of bookings of the customer in a block, or any address if there is
/// no block.
fn list_head(block: Option<Block>) -> Addr
    requires { IfSome block (λ b. b + 8 ≤ 2 ^ 32) }
    ensures { IfSome block (λ b. result.0 ≡ head_of b) }
{
    match block {
        Some(block) => block.word(BOOKINGS),
        None => Addr(0),
    }
}

/// Returns the dearer of two items; the first one if both cost the same.
fn dearer(best: Option<Choice>, found: Option<Choice>) -> Option<Choice>
    ensures { result ≡ dearer_of best found }
{
    match (best, found) {
        (_, None) => best,
        (None, Some(_)) => found,
        (Some(first), Some(next)) => {
            if first.price < next.price {
                found
            } else {
                best
            }
        }
    }
}

impl Choices {
    /// Returns whether any item is chosen.
    fn are_any(&self) -> bool
        ensures { result ≡ any_chosen self.now }
    {
        self.car.is_some() || self.flight.is_some() || self.room.is_some()
    }

    /// Chooses an item that was found, if it is dearer than the choice so far.
    fn see(&mut self, kind: Kind, found: Option<Choice>)
        ensures { self.new ≡ with_found self.old kind found }
    {
        match kind {
            Kind::Car => self.car = dearer(self.car, found),
            Kind::Flight => self.flight = dearer(self.flight, found),
            Kind::Room => self.room = dearer(self.room, found),
        }
    }
}

/// Looks up an item with its price and its block, if the item exists.
#[inline(always)]
fn look_up<M: TxRead>(memory: &mut M, kind: Kind, id: u32) -> Result<Option<Choice>, M::Stop>
    requires state { HoldsState (M.view memory.old) }
    requires range { is_id id ≡ true }
    ensures origin { M.origin memory.new ≡ M.origin memory.old }
    ensures answer { IfOk result (λ found. LookedUp (M.view memory.old) (M.view memory.new)
        kind id found) }
{
    let Some(item) = find_item(memory, kind, id)? else {
        return Ok(None);
    };
    let price = price_at(memory, item)?;
    Ok(Some(Choice { id, price, item }))
}

/// Looks up each ask once, and chooses the dearest item of each kind.
fn choose<M: TxRead>(memory: &mut M, asks: &[(Kind, u32)]) -> Result<Choices, M::Stop>
    requires state { HoldsState (M.view memory.old) }
    requires range { list_all (λ ask. is_id ask.1) asks.now ≡ true }
    ensures origin { M.origin memory.new ≡ M.origin memory.old }
    ensures answer { IfOk result (λ choices. Chosen (M.view memory.old) (M.view memory.new)
        asks.now choices) }
{
    let mut choices = Choices {
        car: None,
        flight: None,
        room: None,
    };
    for ask in asks {
        let found = look_up(memory, ask.0, ask.1)?;
        choices.see(ask.0, found);
    }
    Ok(choices)
}

/// Looks up the customer once, and makes the customer if missing.
fn join<M: TxMem>(memory: &mut M, customer: u32, start: FreeList) -> Result<Owner, M::Stop>
    requires state { HoldsState (M.view memory.old) }
    requires range { is_id customer ≡ true }
    ensures origin { M.origin memory.new ≡ M.origin memory.old }
    ensures answer { IfOk result (λ owner. HasJoined (M.view memory.old) (M.view memory.new)
        customer owner) }
{
    if let Some(block) = find_customer(memory, customer)? {
        return Ok(Owner {
            joined: CustomerOutcome::Refused(Refusal::Exists),
            block: Some(block),
        });
    }
    match add_customer(memory, customer, start)? {
        Some(block) => Ok(Owner {
            joined: CustomerOutcome::Added,
            block: Some(block),
        }),
        None => Ok(Owner {
            joined: CustomerOutcome::Refused(Refusal::Full),
            block: None,
        }),
    }
}

/// Books one unit of the chosen item of a kind. Without a customer the pick is refused. The
/// customer's list is searched from the link `from` on: no booking of the kind or of a later kind
/// stands before that link. The call leaves in `from` such a link for the later kinds.
fn reserve_choice<M: TxMem>(
    memory: &mut M,
    who: &Traveller,
    kind: Kind,
    choice: Option<Choice>,
    start: FreeList,
    from: &mut Addr,
) -> Result<Option<Pick>, M::Stop>
    requires state { HoldsState (M.view memory.old) }
    requires range { is_id who.now.customer ≡ true }
    requires owner { IsOwner (M.view memory.old) who.now.customer who.now.block }
    requires known { IfSome choice (λ c. ChoiceIsAt (M.view memory.old) kind c) }
    requires from { CanStart (M.view memory.old) who.now.block from.old.0 (first_key kind) }
    ensures origin { M.origin memory.new ≡ M.origin memory.old }
    ensures answer { IfOk result (λ pick. RunsWhere (M.view memory.old) (M.view memory.new)
        (λ state. rules.reserve_choice state who.now.customer kind (priced choice)) pick
        (AtPick who.now.customer who.now.block kind choice from.old.0)) }
    ensures blocks { IfOk result (λ _. BlocksStay (M.view memory.old) (M.view memory.new)
        (AtPick who.now.customer who.now.block kind choice from.old.0)) }
    ensures from { IfOk result (λ _. LeavesTurn (M.view memory.old) (M.view memory.new)
        who.now.block from.new.0 (next_key kind)
        (AtPick who.now.customer who.now.block kind choice from.old.0)) }
{
    let Some(chosen) = choice else {
        return Ok(None);
    };
    let Some(owner) = who.block else {
        return Ok(Some(Pick {
            id: chosen.id,
            price: chosen.price,
            refused: Some(Refusal::NoCustomer),
        }));
    };
    let customer = CustomerAt {
        customer: who.customer,
        owner,
    };
    let what = ItemAt {
        kind,
        id: chosen.id,
        item: chosen.item,
    };
    let units = Units {
        num: 1,
        price: chosen.price,
    };
    let refused = reserve_from(memory, customer, what, units, start, from)?;
    Ok(Some(Pick {
        id: chosen.id,
        price: chosen.price,
        refused,
    }))
}

/// Finds or makes the customer, and books the chosen items: a car, a flight, a room.
fn book_choices<M: TxMem>(
    memory: &mut M,
    customer: u32,
    choices: &Choices,
    start: FreeList,
) -> Result<Reply, M::Stop>
    requires state { HoldsState (M.view memory.old) }
    requires range { is_id customer ≡ true }
    requires known { ChoicesAreAt (M.view memory.old) choices.now }
    ensures origin { M.origin memory.new ≡ M.origin memory.old }
    ensures answer { IfOk result (λ reply. RunsWhere (M.view memory.old) (M.view memory.new)
        (λ state. rules.book_choices state customer (priced choices.now.car)
        (priced choices.now.flight) (priced choices.now.room)) reply (AtChoices choices.now)) }
{
    let owner = join(memory, customer, start)?;
    let block = &owner.block;
    let who = Traveller {
        customer,
        block: *block,
    };
    let mut from = list_head(*block);
    let car = reserve_choice(memory, &who, Kind::Car, choices.car, start, &mut from)?;
    let flight = reserve_choice(memory, &who, Kind::Flight, choices.flight, start, &mut from)?;
    let room = reserve_choice(memory, &who, Kind::Room, choices.room, start, &mut from)?;
    Ok(Reply::Trip(TripReply {
        joined: owner.joined,
        picks: [car, flight, room],
    }))
}

/// Looks up the item of each ask once, picks the dearest item of each kind, finds or makes the
/// customer, and books one unit of each pick.
pub(crate) fn trip<M: TxMem>(
    memory: &mut M,
    customer: u32,
    asks: &[(Kind, u32)],
    start: FreeList,
) -> Result<Reply, M::Stop>
    requires state { HoldsState (M.view memory.old) }
    requires range { is_task (Task.Trip customer asks.now) ≡ true }
    ensures origin { M.origin memory.new ≡ M.origin memory.old }
    ensures answer { IfOk result (λ reply. RanTask (M.view memory.old) (M.view memory.new)
        (Task.Trip customer asks.now) reply) }
{
    let choices = choose(memory, asks)?;
    if choices.are_any() {
        return book_choices(memory, customer, &choices, start);
    }
    Ok(Reply::Trip(TripReply {
        joined: CustomerOutcome::NotAsked,
        picks: [None, None, None],
    }))
}
