//! The four tables, which contracts see as a state. After memory is refused the tables are not
//! used any more, because a call may be half done.

ghost use Rattle.std.specs.Prelude.{◌≡◌, ◌<◌, ◌^◌, IfOk, IfSome, OnOk, MatchOption};
ghost use Rattle.std.specs.Option.{option_copied};
ghost use Rattle.std.specs.FinMap as map;
ghost use Rattle.vac_sequential.specs.Bookings.{with_booking};
ghost use Rattle.vac_sequential.specs.Tries.{TellsSame};

use crate::maps::{BookingMap, IdMap, Rebook};
use crate::tries::mixed;
use std::alloc::{AllocError, Global};
use std::marker::Model;
use vac_model::{Item, Kind, Report};

#[derive(Drop)]
pub(crate) struct Tables {
    alloc: Global,
    capacity: u64,
    cars: IdMap<Item>,
    flights: IdMap<Item>,
    rooms: IdMap<Item>,
    customers: IdMap<BookingMap>,
}

impl Model for Tables {
    ghost use Rattle.vac_model.specs.State.{State};
    ghost use Rattle.vac_model.specs.Coded.{state_coded};

    ghost Value = { State };

    ghost coded = { state_coded };

    ghost view = { λ t. record {
      capacity = t.capacity;
      cars = t.cars;
      flights = t.flights;
      rooms = t.rooms;
      customers = t.customers;
    } };
}

impl Tables {
    ghost use Rattle.vac_model.specs.State.{empty_state, item_of, with_item, without_item, bookings_of, with_bookings, without_customer, size, is_full, report};
    ghost use Rattle.vac_model.specs.Fits.{IsSmall};

    pub(crate) fn new(alloc: Global, capacity: u64) -> Self
        ensures { result ≡ empty_state capacity }
    {
        Self {
            alloc,
            capacity,
            cars: IdMap::new(alloc),
            flights: IdMap::new(alloc),
            rooms: IdMap::new(alloc),
            customers: IdMap::new(alloc),
        }
    }

    pub(crate) fn copy(&self) -> Result<Self, AllocError>
        ensures { IfOk result (λ t. t ≡ self.now) }
    {
        Ok(Self {
            alloc: self.alloc,
            capacity: self.capacity,
            cars: self.cars.copy()?,
            flights: self.flights.copy()?,
            rooms: self.rooms.copy()?,
            customers: self.customers.copy()?,
        })
    }

    /// Returns whether two states are equal.
    pub(crate) fn is_same(&self, other: &Self) -> bool
        ensures { TellsSame self.now other.now result }
    {
        if self.capacity != other.capacity || !self.cars.is_same(&other.cars) {
            return false;
        }
        if !self.flights.is_same(&other.flights) || !self.rooms.is_same(&other.rooms) {
            return false;
        }
        self.customers.is_same(&other.customers)
    }

    /// Returns a hash of the state.
    ///
    /// Not said: that equal states have the same hash, although they are meant to.
    pub(crate) fn hash(&self) -> u64 {
        let items = mixed(
            self.cars.hash(),
            mixed(self.flights.hash(), self.rooms.hash()),
        );
        mixed(items, self.customers.hash())
    }

    pub(crate) fn item(&self, kind: Kind, id: u32) -> Option<Item>
        ensures { result ≡ item_of self.now kind id }
    {
        match kind {
            Kind::Car => self.cars.get(id).copied(),
            Kind::Flight => self.flights.get(id).copied(),
            Kind::Room => self.rooms.get(id).copied(),
        }
    }

    /// Returns the number of entries.
    pub(crate) fn size(&self) -> u64
        requires { size self.now < 2 ^ 63 }
        ensures { result ≡ size self.now }
    {
        self.cars.len()
            + self.flights.len()
            + self.rooms.len()
            + self.customers.len()
            + self.customers.bookings()
    }

    pub(crate) fn is_full(&self) -> bool
        requires { size self.now < 2 ^ 63 }
        ensures { result ≡ is_full self.now }
    {
        self.capacity <= self.size()
    }

    pub(crate) fn report(&self) -> Report
        requires { IsSmall self.now }
        ensures { result ≡ report self.now }
    {
        Report {
            cars: self.cars.len(),
            flights: self.flights.len(),
            rooms: self.rooms.len(),
            customers: self.customers.len(),
            bookings: self.customers.units(),
            used: self.cars.used() + self.flights.used() + self.rooms.used(),
            free: self.cars.free() + self.flights.free() + self.rooms.free(),
            total: self.cars.total() + self.flights.total() + self.rooms.total(),
            billed: self.customers.bills(),
        }
    }

    pub(crate) fn insert_item(&mut self, kind: Kind, id: u32, item: Item) -> Result<(), AllocError>
        ensures { OnOk result (self.new ≡ with_item self.old kind id item) }
    {
        match kind {
            Kind::Car => self.cars.insert(id, item)?,
            Kind::Flight => self.flights.insert(id, item)?,
            Kind::Room => self.rooms.insert(id, item)?,
        }
        Ok(())
    }

    pub(crate) fn remove_item(&mut self, kind: Kind, id: u32) -> Result<(), AllocError>
        ensures { OnOk result (self.new ≡ without_item self.old kind id) }
    {
        match kind {
            Kind::Car => self.cars.remove(id)?,
            Kind::Flight => self.flights.remove(id)?,
            Kind::Room => self.rooms.remove(id)?,
        }
        Ok(())
    }

    pub(crate) fn bookings(&self, customer: u32) -> Option<&BookingMap>
        ensures { option_copied result ≡ bookings_of self.now customer }
    {
        self.customers.get(customer)
    }

    /// Adds a customer without bookings.
    pub(crate) fn insert_customer(&mut self, customer: u32) -> Result<(), AllocError>
        ensures { OnOk result (self.new ≡ with_bookings self.old customer map.empty) }
    {
        self.customers.insert(customer, BookingMap::new(self.alloc))
    }

    /// Changes a booking of a customer, if the customer exists.
    pub(crate) fn rebook(&mut self, customer: u32, change: Rebook) -> Result<(), AllocError>
        ensures { OnOk result (IfSome (bookings_of self.old customer)
            (λ m. self.new ≡ with_bookings self.old customer
            (with_booking m (change.kind, change.id) change.booking))) }
    {
        self.customers.rebook(customer, change)?;
        Ok(())
    }

    /// Removes a customer, and returns the customer's bookings if there was one.
    pub(crate) fn take_customer(&mut self, customer: u32) -> Result<Option<BookingMap>, AllocError>
        ensures taken { IfOk result (λ taken. taken ≡ bookings_of self.old customer) }
        ensures left { IfOk result (λ taken. MatchOption taken (self.new ≡ self.old)
            (λ _. self.new ≡ without_customer self.old customer)) }
    {
        self.customers.take(customer)
    }
}
