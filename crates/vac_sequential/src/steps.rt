//! The effect of each command on the tables, and the reasons to refuse it.

ghost use Rattle.std.specs.Prelude.{◌≡◌, ◌≤◌, IfOk, OnOk, true};
ghost use Rattle.std.specs.Option.{option_map};
ghost use Rattle.std.specs.FinMap as map;
ghost use Rattle.vac_model.specs.declared.limits.TheConstants.{MOST_UNITS_AT_ONCE};
ghost use Rattle.vac_model.specs.Step as rules;
ghost use Rattle.vac_model.specs.Fits.{IsSmall, CanGiveBack};
ghost use Rattle.vac_model.specs.Ranges.{is_command};

use crate::items::{added, deleted, extended, given_back, new_booking, new_item, taken};
use crate::maps::{BookingMap, Rebook};
use crate::tables::Tables;
use std::alloc::AllocError;
use vac_model::limits::{MOST_TOTAL, MOST_UNITS};
use vac_model::{Command, Kind, Refusal, Reply};

impl Tables {
    ghost use Rattle.vac_model.specs.State.{item_of, bookings_of, bill_of};

    pub(crate) fn add(
        &mut self,
        kind: Kind,
        id: u32,
        num: u32,
        price: Option<u32>,
    ) -> Result<Reply, AllocError>
        requires { IsSmall self.old }
        ensures ok { IfOk result
            (λ reply. rules.add self.old kind id num price ≡ (self.new, reply)) }
    {
        let item = match self.item(kind, id) {
            None => {
                let Some(price) = price else {
                    return Ok(Reply::No(Refusal::NeedsCountAndPrice));
                };
                if num == 0 {
                    return Ok(Reply::No(Refusal::NeedsCountAndPrice));
                }
                if self.is_full() {
                    return Ok(Reply::No(Refusal::Full));
                }
                new_item(num, price)
            }
            Some(item) => {
                if item.total + num as u64 > MOST_TOTAL {
                    return Ok(Reply::No(Refusal::TotalLimit));
                }
                added(item, num, price)
            }
        };
        self.insert_item(kind, id, item)?;
        Ok(Reply::Done)
    }

    pub(crate) fn delete(&mut self, kind: Kind, id: u32, num: u32) -> Result<Reply, AllocError>
        requires { IsSmall self.old }
        ensures ok { IfOk result (λ reply. rules.delete self.old kind id num ≡ (self.new, reply)) }
    {
        let Some(item) = self.item(kind, id) else {
            return Ok(Reply::No(Refusal::NoItem));
        };
        if item.free < num as u64 {
            return Ok(Reply::No(Refusal::NotFree));
        }
        if item.total == num as u64 {
            self.remove_item(kind, id)?;
            return Ok(Reply::Done);
        }
        self.insert_item(kind, id, deleted(item, num))?;
        Ok(Reply::Done)
    }

    pub(crate) fn drop_flight(&mut self, id: u32) -> Result<Reply, AllocError>
        requires { IsSmall self.old }
        ensures ok { IfOk result (λ reply. rules.drop_flight self.old id ≡ (self.new, reply)) }
    {
        let Some(item) = self.item(Kind::Flight, id) else {
            return Ok(Reply::No(Refusal::NoItem));
        };
        if item.used > 0 {
            return Ok(Reply::No(Refusal::InUse));
        }
        self.remove_item(Kind::Flight, id)?;
        Ok(Reply::Done)
    }

    pub(crate) fn new_customer(&mut self, id: u32) -> Result<Reply, AllocError>
        requires { IsSmall self.old }
        ensures ok { IfOk result (λ reply. rules.new_customer self.old id ≡ (self.new, reply)) }
    {
        if self.bookings(id).is_some() {
            return Ok(Reply::No(Refusal::Exists));
        }
        if self.is_full() {
            return Ok(Reply::No(Refusal::Full));
        }
        self.insert_customer(id)?;
        Ok(Reply::Done)
    }

    pub(crate) fn reserve(
        &mut self,
        customer: u32,
        kind: Kind,
        id: u32,
        num: u32,
    ) -> Result<Reply, AllocError>
        requires small { IsSmall self.old }
        requires count { num ≤ MOST_UNITS_AT_ONCE }
        ensures ok { IfOk result
            (λ reply. rules.reserve self.old customer kind id num ≡ (self.new, reply)) }
    {
        let Some(bookings) = self.bookings(customer) else {
            return Ok(Reply::No(Refusal::NoCustomer));
        };
        let booked = bookings.get(kind, id);
        let Some(item) = self.item(kind, id) else {
            return Ok(Reply::No(Refusal::NoItem));
        };
        if item.free < num as u64 {
            return Ok(Reply::No(Refusal::SoldOut));
        }
        let booking = match booked {
            None => {
                if self.is_full() {
                    return Ok(Reply::No(Refusal::Full));
                }
                new_booking(num, item.price)
            }
            Some(booking) => {
                if booking.units + num as u64 > MOST_UNITS {
                    return Ok(Reply::No(Refusal::UnitLimit));
                }
                extended(booking, num, item.price)
            }
        };
        let booking = Some(booking);
        self.rebook(customer, Rebook { kind, id, booking })?;
        self.insert_item(kind, id, taken(item, num))?;
        Ok(Reply::Done)
    }

    pub(crate) fn cancel(&mut self, customer: u32, kind: Kind, id: u32) -> Result<Reply, AllocError>
        requires { IsSmall self.old }
        ensures { IfOk result
            (λ reply. rules.cancel self.old customer kind id ≡ (self.new, reply)) }
    {
        let Some(bookings) = self.bookings(customer) else {
            return Ok(Reply::No(Refusal::NoCustomer));
        };
        let booked = bookings.get(kind, id);
        let Some(item) = self.item(kind, id) else {
            return Ok(Reply::No(Refusal::NoItem));
        };
        let Some(booking) = booked else {
            return Ok(Reply::No(Refusal::NotBooked));
        };
        let change = Rebook {
            kind,
            id,
            booking: None,
        };
        self.rebook(customer, change)?;
        self.insert_item(kind, id, given_back(item, booking.units))?;
        Ok(Reply::Done)
    }

    pub(crate) fn drop_customer(&mut self, id: u32) -> Result<Reply, AllocError>
        requires { IsSmall self.old }
        ensures { IfOk result (λ reply. rules.drop_customer self.old id ≡ (self.new, reply)) }
    {
        let taken = self.take_customer(id)?;
        let Some(bookings) = taken else {
            return Ok(Reply::No(Refusal::NoCustomer));
        };
        self.give_back_all(bookings)?;
        Ok(Reply::Done)
    }

    fn give_back_all(&mut self, bookings: BookingMap) -> Result<(), AllocError>
        requires { CanGiveBack self.old (map.entries bookings) }
        ensures { OnOk result (self.new ≡ rules.give_back_all self.old (map.entries bookings)) }
    {
        let mut bookings = bookings;
        while let Some(((kind, id), booking)) = bookings.pop_first() {
            if let Some(item) = self.item(kind, id) {
                self.insert_item(kind, id, given_back(item, booking.units))?;
            }
        }
        Ok(())
    }

    fn free(&self, kind: Kind, id: u32) -> Option<u64>
        ensures { result ≡ option_map (λ item. item.free) (item_of self.now kind id) }
    {
        let item = self.item(kind, id)?;
        Some(item.free)
    }

    pub(crate) fn price(&self, kind: Kind, id: u32) -> Option<u64>
        ensures { result ≡ rules.price_of self.now kind id }
    {
        let item = self.item(kind, id)?;
        Some(item.price)
    }

    pub(crate) fn bill(&self, customer: u32) -> Option<u64>
        requires { IsSmall self.now }
        ensures { result ≡ option_map bill_of (bookings_of self.now customer) }
    {
        let bookings = self.bookings(customer)?;
        Some(bookings.bill())
    }

    pub(crate) fn step(&mut self, command: &Command) -> Result<Reply, AllocError>
        requires small { IsSmall self.old }
        requires in_range { is_command command.now ≡ true }
        ensures ok { IfOk result (λ reply. rules.step self.old command.now ≡ (self.new, reply)) }
        ensures stays_small { OnOk result (IsSmall self.new) }
    {
        let reply = self.outcome(command)?;
        Ok(reply)
    }

    fn outcome(&mut self, command: &Command) -> Result<Reply, AllocError>
        requires small { IsSmall self.old }
        requires in_range { is_command command.now ≡ true }
        ensures ok { IfOk result (λ reply. rules.step self.old command.now ≡ (self.new, reply)) }
    {
        match *command {
            Command::Add {
                kind,
                id,
                num,
                price,
            } => self.add(kind, id, num, price),
            Command::Delete { kind, id, num } => self.delete(kind, id, num),
            Command::DropFlight { id } => self.drop_flight(id),
            Command::NewCustomer { id } => self.new_customer(id),
            Command::DropCustomer { id } => self.drop_customer(id),
            Command::Free { kind, id } => Ok(Reply::Number(self.free(kind, id))),
            Command::Price { kind, id } => Ok(Reply::Number(self.price(kind, id))),
            Command::Bill { id } => Ok(Reply::Number(self.bill(id))),
            Command::Reserve {
                customer,
                kind,
                id,
                num,
            } => self.reserve(customer, kind, id, num),
            Command::Cancel { customer, kind, id } => self.cancel(customer, kind, id),
            Command::Audit => Ok(Reply::Report(self.report())),
        }
    }
}
