//! The effect of each task on the tables.

ghost use Rattle.std.specs.Prelude.{◌≡◌, ◌≤◌, ◌==◌, ◌&&◌, IfOk, OnOk, IfSome, length, true};
ghost use Rattle.std.specs.List.{list_all};
ghost use Rattle.vac_model.specs.Amounts as amounts;
ghost use Rattle.vac_model.specs.Ranges.{is_command, is_change, is_task};
ghost use Rattle.vac_model.specs.Run as tasks;
ghost use Rattle.vac_model.specs.State.{kind_number};
ghost use Rattle.vac_model.specs.Fits.{IsSmall};

use crate::tables::Tables;
use std::alloc::AllocError;
use vac_model::limits::MOST_PARTS;
use vac_model::{
    Command, CustomerOutcome, Kind, Pick, Refusal, Reply, Task, TripReply, UpdateReply,
};

/// Returns the reason of a refusal, if the reply is one.
fn refusal(reply: &Reply) -> Option<Refusal>
    ensures { result ≡ tasks.refusal_of reply.now }
{
    match reply {
        Reply::No(why) => Some(*why),
        _ => None,
    }
}

/// Returns the result for the customer in the reply to `NewCustomer`.
fn joined(reply: &Reply) -> CustomerOutcome
    ensures { result ≡ tasks.joined_of reply.now }
{
    match reply {
        Reply::No(why) => CustomerOutcome::Refused(*why),
        _ => CustomerOutcome::Added,
    }
}

fn is_kind(a: Kind, b: Kind) -> bool
    ensures { result ≡ (kind_number a == kind_number b) }
{
    a.number() == b.number()
}

/// Returns the more expensive of the choice so far and one more item, and the first if both cost
/// the same.
fn dearer(best: Option<(u32, u64)>, id: u32, price: Option<u64>) -> Option<(u32, u64)>
    ensures { result ≡ tasks.dearer best id price }
{
    match (best, price) {
        (_, None) => best,
        (None, Some(price)) => Some((id, price)),
        (Some(best), Some(price)) => {
            if best.1 < price {
                Some((id, price))
            } else {
                Some(best)
            }
        }
    }
}

impl Tables {
    /// Returns the id and the price of the item of a kind that a trip with these asks books.
    fn choice(&self, kind: Kind, asks: &[(Kind, u32)]) -> Option<(u32, u64)>
        ensures { result ≡ tasks.choice_of self.now kind asks.now }
    {
        let mut best = None;
        for ask in asks {
            if is_kind(ask.0, kind) {
                best = dearer(best, ask.1, self.price(ask.0, ask.1));
            }
        }
        best
    }

    fn reserve_choice(
        &mut self,
        customer: u32,
        kind: Kind,
        choice: Option<(u32, u64)>,
    ) -> Result<Option<Pick>, AllocError>
        requires small { IsSmall self.old }
        requires customer { amounts.is_id customer ≡ true }
        requires choice { IfSome choice (λ c. amounts.is_id c.0 ≡ true) }
        ensures ok { IfOk result
            (λ pick. tasks.reserve_choice self.old customer kind choice ≡ (self.new, pick)) }
        ensures stays_small { OnOk result (IsSmall self.new) }
    {
        let Some((id, price)) = choice else {
            return Ok(None);
        };
        let reply = self.step(&Command::Reserve {
            customer,
            kind,
            id,
            num: 1,
        })?;
        let refused = refusal(&reply);
        Ok(Some(Pick { id, price, refused }))
    }

    fn book_choices(
        &mut self,
        customer: u32,
        car: Option<(u32, u64)>,
        flight: Option<(u32, u64)>,
        room: Option<(u32, u64)>,
    ) -> Result<Reply, AllocError>
        requires small { IsSmall self.old }
        requires customer { amounts.is_id customer ≡ true }
        requires car { IfSome car (λ c. amounts.is_id c.0 ≡ true) }
        requires flight { IfSome flight (λ c. amounts.is_id c.0 ≡ true) }
        requires room { IfSome room (λ c. amounts.is_id c.0 ≡ true) }
        ensures ok { IfOk result
            (λ reply. tasks.book_choices self.old customer car flight room ≡ (self.new, reply)) }
        ensures stays_small { OnOk result (IsSmall self.new) }
    {
        let asked = self.step(&Command::NewCustomer { id: customer })?;
        let car = self.reserve_choice(customer, Kind::Car, car)?;
        let flight = self.reserve_choice(customer, Kind::Flight, flight)?;
        let room = self.reserve_choice(customer, Kind::Room, room)?;
        let joined = joined(&asked);
        Ok(Reply::Trip(TripReply {
            joined,
            picks: [car, flight, room],
        }))
    }

    fn trip(&mut self, customer: u32, asks: &[(Kind, u32)]) -> Result<Reply, AllocError>
        requires small { IsSmall self.old }
        requires customer { amounts.is_id customer ≡ true }
        requires asks { list_all (λ ask. amounts.is_id ask.1) asks.now ≡ true }
        ensures ok { IfOk result
            (λ reply. tasks.trip self.old customer asks.now ≡ (self.new, reply)) }
        ensures stays_small { OnOk result (IsSmall self.new) }
    {
        let car = self.choice(Kind::Car, asks);
        let flight = self.choice(Kind::Flight, asks);
        let room = self.choice(Kind::Room, asks);
        if car.is_some() || flight.is_some() || room.is_some() {
            return self.book_choices(customer, car, flight, room);
        }
        Ok(Reply::Trip(TripReply {
            joined: CustomerOutcome::NotAsked,
            picks: [None, None, None],
        }))
    }

    fn leave(&mut self, customer: u32) -> Result<Reply, AllocError>
        requires small { IsSmall self.old }
        requires customer { amounts.is_id customer ≡ true }
        ensures ok { IfOk result (λ reply. tasks.leave self.old customer ≡ (self.new, reply)) }
        ensures stays_small { OnOk result (IsSmall self.new) }
    {
        let Some(bill) = self.bill(customer) else {
            return Ok(Reply::Number(None));
        };
        self.step(&Command::DropCustomer { id: customer })?;
        Ok(Reply::Number(Some(bill)))
    }

    fn update(&mut self, changes: &[Command]) -> Result<Reply, AllocError>
        requires small { IsSmall self.old }
        requires short { length changes.now ≤ MOST_PARTS }
        requires changes { list_all (λ c. is_change c && is_command c) changes.now ≡ true }
        ensures ok { IfOk result (λ reply. tasks.update self.old changes.now ≡ (self.new, reply)) }
        ensures stays_small { OnOk result (IsSmall self.new) }
    {
        let mut refused = [None; MOST_PARTS];
        for i in 0..changes.len() {
            let reply = self.step(&changes[i])?;
            refused[i] = refusal(&reply);
        }
        Ok(Reply::Update(UpdateReply {
            len: changes.len() as u8,
            refused,
        }))
    }

    /// Runs a task that can be issued.
    pub(crate) fn run(&mut self, task: &Task) -> Result<Reply, AllocError>
        requires small { IsSmall self.old }
        requires in_range { is_task task.now ≡ true }
        ensures ok { IfOk result (λ reply. tasks.run self.old task.now ≡ (self.new, reply)) }
        ensures stays_small { OnOk result (IsSmall self.new) }
    {
        match task {
            Task::One(command) => self.step(command),
            Task::Trip { customer, asks } => self.trip(*customer, asks.as_slice()),
            Task::Leave { customer } => self.leave(*customer),
            Task::Update { changes } => self.update(changes.as_slice()),
        }
    }
}
