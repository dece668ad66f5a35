//! Maps of the plain manager, which contracts see as finite maps.

ghost use Rattle.std.specs.Prelude.{◌≡◌, ◌<◌, ◌^◌, IfSome, IfNone, IfOk, OnOk, OnErr, MatchOption, sum_by, [], ◌∷◌};
ghost use Rattle.vac_model.specs.State.{bill_of, units_booked};
ghost use Rattle.vac_sequential.specs.Bookings.{with_booking};
ghost use Rattle.vac_sequential.specs.Tries.{changed_at, value_in, TellsSame};
ghost use Rattle.std.specs.Option.{option_copied, option_map};
ghost use Rattle.std.specs.FinMap as map;
ghost use Rattle.std.specs.BTreeMap as tree;

use crate::tries::{
    Amount, Change, Changed, Cut, Entry, Put, Trie, change_in, is_same, mixed, rooted, total,
};
use std::alloc::{AllocError, Global};
use std::collections::BTreeMap;
use std::marker::Model;
use std::mem::replace;
use std::rc::Rc;
use vac_model::{Booking, Item, Kind};

/// A map from ids to entries. A copy shares all entries.
#[derive(Drop)]
pub(crate) struct IdMap<V: Entry> {
    alloc: Global,
    root: Option<Rc<Trie<V>>>,
    len: u64,
    weight: u64,
    hash: u64,
}

impl<V: Entry> Model for IdMap<V> {
    ghost use Rattle.std.specs.Ordering.{nat_cmp};
    ghost use Rattle.std.specs.FinMap as map;
    ghost use Rattle.std.specs.Coded.{coded_ℕ};
    ghost use Rattle.vac_sequential.specs.Tries.{map_at, IsSummedUp};

    ghost Value = { map.FinMap nat_cmp V };

    ghost coded = { map.code coded_ℕ V.code };

    ghost view = { λ m. map_at m.root };

    ghost invariant = { λ m. IsSummedUp V.weight (map_at m.root) m.len m.weight };
}

impl<V: Entry> IdMap<V> {
    pub(crate) fn new(alloc: Global) -> Self
        ensures { result ≡ map.empty }
    {
        Self {
            alloc,
            root: None,
            len: 0,
            weight: 0,
            hash: 0,
        }
    }

    pub(crate) fn len(&self) -> u64
        ensures { result ≡ map.len self.now }
    {
        self.len
    }

    /// Returns the sum of the weights of all entries.
    pub(crate) fn weight(&self) -> u64
        ensures { result ≡ sum_by V.weight (map.values self.now) }
    {
        self.weight
    }

    /// Returns a hash of the map.
    ///
    /// Not said: that maps with the same entries have the same hash, although they are meant to.
    pub(crate) fn hash(&self) -> u64 {
        self.hash
    }

    pub(crate) fn get(&self, id: u32) -> Option<&V>
        ensures { option_copied result ≡ map.get self.now id }
    {
        match self.find(id) {
            Some(value) => Some(value),
            None => None,
        }
    }

    /// Returns a reference to the value of an id.
    fn find(&self, id: u32) -> Option<&Rc<V>>
        ensures { value_in (option_copied result) ≡ map.get self.now id }
    {
        match &self.root {
            Some(trie) => trie.find(id),
            None => None,
        }
    }

    /// Returns whether two maps are equal.
    pub(crate) fn is_same(&self, other: &Self) -> bool
        ensures { TellsSame self.now other.now result }
    {
        let (a, b) = (&self.root, &other.root);
        is_same(a, b)
    }
}

impl<V: Entry + Drop> IdMap<V> {
    /// Returns a copy of the map that shares its entries.
    pub(crate) fn copy(&self) -> Result<Self, AllocError>
        ensures { IfOk result (λ m. m ≡ self.now) }
    {
        Ok(Self {
            alloc: self.alloc,
            root: self.root.clone()?,
            len: self.len,
            weight: self.weight,
            hash: self.hash,
        })
    }

    /// Returns the map after a change at an id.
    fn changed<C: Change<V> + Drop>(self, id: u32, change: C) -> Result<Self, AllocError>
        ensures { IfOk result (λ m. m ≡ changed_at (C.changed change) self id) }
    {
        let root = rooted(self.alloc, self.root)?;
        let Changed {
            link,
            before,
            after,
        } = change_in(self.alloc, root, id, change)?;
        let Some(len) = self.len.checked_add(after.len) else {
            return Err(AllocError);
        };
        let Some(weight) = self.weight.checked_add(after.weight) else {
            return Err(AllocError);
        };
        let hash = self.hash.wrapping_sub(before.hash(id));
        Ok(Self {
            alloc: self.alloc,
            root: Some(link),
            len: len - before.len,
            weight: weight - before.weight,
            hash: hash.wrapping_add(after.hash(id)),
        })
    }

    /// Changes the value at an id. (Nodes that no copy shares are meant to be changed in place.)
    ///
    /// Not said: the map if memory is refused.
    pub(crate) fn change<C: Change<V> + Drop>(
        &mut self,
        id: u32,
        change: C,
    ) -> Result<(), AllocError>
        ensures { OnOk result (self.new ≡ changed_at (C.changed change) self.old id) }
    {
        let alloc = self.alloc;
        let map = replace(self, Self::new(alloc));
        *self = map.changed(id, change)?;
        Ok(())
    }

    /// Inserts a value at an id.
    pub(crate) fn insert(&mut self, id: u32, value: V) -> Result<(), AllocError>
        ensures { OnOk result (self.new ≡ map.insert self.old id value) }
    {
        self.change(id, Put { value })
    }

    /// Removes the value of an id.
    pub(crate) fn remove(&mut self, id: u32) -> Result<(), AllocError>
        ensures { OnOk result (self.new ≡ map.remove self.old id) }
    {
        self.change(id, Cut {})
    }
}

/// The bookings of one customer, by the kind and the id of the item.
#[derive(Drop)]
pub(crate) struct BookingMap {
    entries: BTreeMap<(Kind, u32), Booking>,
    hash: u64,
}

impl Model for BookingMap {
    ghost use Rattle.std.specs.FinMap as map;
    ghost use Rattle.std.specs.BTreeMap as tree;
    ghost use Rattle.vac_model.specs.State.{Bookings, place_cmp};
    ghost use Rattle.vac_model.specs.Coded.{bookings_coded};

    ghost Value = { Bookings };

    ghost coded = { bookings_coded };

    ghost view = { λ m. map.from_entries m.entries.entries };

    ghost invariant = { λ m. tree.IsOrdered place_cmp m.entries };
}

impl BookingMap {
    pub(crate) fn new(alloc: Global) -> Self
        ensures { result ≡ map.empty }
    {
        Self {
            entries: BTreeMap::new(alloc),
            hash: 0,
        }
    }

    pub(crate) fn len(&self) -> u64
        ensures { result ≡ map.len self.now }
    {
        self.entries.len() as u64
    }

    pub(crate) fn get(&self, kind: Kind, id: u32) -> Option<Booking>
        ensures { result ≡ map.get self.now (kind, id) }
    {
        self.entries.get(&(kind, id)).copied()
    }

    /// Inserts a booking. If memory for a new one is refused, nothing changes.
    fn insert(&mut self, kind: Kind, id: u32, booking: Booking) -> Result<(), AllocError>
        ensures ok { OnOk result (self.new ≡ map.insert self.old (kind, id) booking) }
        ensures err { OnErr result (self.new ≡ self.old) }
    {
        let old = self.entries.insert((kind, id), booking)?;
        let rest = self.hash.wrapping_sub(booking_hash(kind, id, old));
        self.hash = rest.wrapping_add(booking_hash(kind, id, Some(booking)));
        Ok(())
    }

    /// Removes the booking of an item.
    fn remove(&mut self, kind: Kind, id: u32)
        ensures { self.new ≡ map.remove self.old (kind, id) }
    {
        let old = self.entries.remove(&(kind, id));
        self.hash = self.hash.wrapping_sub(booking_hash(kind, id, old));
    }

    /// Inserts a booking, or removes the present one if `booking` is None.
    fn set(&mut self, kind: Kind, id: u32, booking: Option<Booking>) -> Result<(), AllocError>
        ensures { OnOk result (self.new ≡ with_booking self.old (kind, id) booking) }
    {
        match booking {
            Some(booking) => self.insert(kind, id, booking)?,
            None => self.remove(kind, id),
        }
        Ok(())
    }

    /// Removes and returns the first booking.
    pub(crate) fn pop_first(&mut self) -> Option<((Kind, u32), Booking)>
        ensures some { IfSome result (λ b. map.entries self.old ≡ b ∷ map.entries self.new) }
        ensures none { IfNone result (map.entries self.old ≡ []) }
    {
        let first = self.entries.pop_first();
        self.hash = self.hash.wrapping_sub(entry_hash(first));
        first
    }
}

impl Clone for BookingMap {
    ghost is_clone = { λ m n. n ≡ m };

    fn clone(&self) -> Result<Self, AllocError> {
        Ok(Self {
            entries: self.entries.clone()?,
            hash: self.hash,
        })
    }
}

impl Entry for Item {
    ghost weight = { λ _. 0 };

    fn weight(&self) -> u64 {
        0
    }

    fn is_same(&self, other: &Item) -> bool {
        *self == *other
    }

    fn hash(&self) -> u64 {
        let units = mixed(self.used, self.free);
        mixed(mixed(self.total, self.price), units)
    }
}

/// The used units of an item.
struct Used;

impl Amount<Item> for Used {
    ghost amount = { λ i. i.used };

    fn amount(item: &Item) -> u64 {
        item.used
    }
}

/// The free units of an item.
struct Free;

impl Amount<Item> for Free {
    ghost amount = { λ i. i.free };

    fn amount(item: &Item) -> u64 {
        item.free
    }
}

/// All units of an item.
struct Total;

impl Amount<Item> for Total {
    ghost amount = { λ i. i.total };

    fn amount(item: &Item) -> u64 {
        item.total
    }
}

impl IdMap<Item> {
    pub(crate) fn used(&self) -> u64
        requires { sum_by (λ i. i.used) (map.values self.now) < 2 ^ 64 }
        ensures { result ≡ sum_by (λ i. i.used) (map.values self.now) }
    {
        total::<Item, Used>(&self.root)
    }

    pub(crate) fn free(&self) -> u64
        requires { sum_by (λ i. i.free) (map.values self.now) < 2 ^ 64 }
        ensures { result ≡ sum_by (λ i. i.free) (map.values self.now) }
    {
        total::<Item, Free>(&self.root)
    }

    pub(crate) fn total(&self) -> u64
        requires { sum_by (λ i. i.total) (map.values self.now) < 2 ^ 64 }
        ensures { result ≡ sum_by (λ i. i.total) (map.values self.now) }
    {
        total::<Item, Total>(&self.root)
    }
}

impl BookingMap {
    pub(crate) fn bill(&self) -> u64
        requires { bill_of self.now < 2 ^ 64 }
        ensures { result ≡ bill_of self.now }
    {
        prices(&self.entries)
    }

    pub(crate) fn units(&self) -> u64
        requires { units_booked self.now < 2 ^ 64 }
        ensures { result ≡ units_booked self.now }
    {
        units_of_all(&self.entries)
    }
}

impl Entry for BookingMap {
    ghost weight = { map.len };

    fn weight(&self) -> u64 {
        self.len()
    }

    fn is_same(&self, other: &BookingMap) -> bool {
        let (a, b) = (&self.entries, &other.entries);
        *a == *b
    }

    fn hash(&self) -> u64 {
        self.hash
    }
}

/// Returns the share of a booking in the hash of its map, or 0 for no booking.
fn booking_hash(kind: Kind, id: u32, booking: Option<Booking>) -> u64 {
    let Some(booking) = booking else {
        return 0;
    };
    let place = mixed(kind.number(), id as u64);
    mixed(place, mixed(booking.units, booking.sum))
}

/// Returns the share of an entry in the hash of its map, or 0 for no entry.
fn entry_hash(entry: Option<((Kind, u32), Booking)>) -> u64 {
    match entry {
        Some(((kind, id), booking)) => booking_hash(kind, id, Some(booking)),
        None => 0,
    }
}

/// The units that a customer has booked.
struct Units;

impl Amount<BookingMap> for Units {
    ghost amount = { units_booked };

    fn amount(bookings: &BookingMap) -> u64 {
        bookings.units()
    }
}

/// The bill of a customer.
struct Bill;

impl Amount<BookingMap> for Bill {
    ghost amount = { bill_of };

    fn amount(bookings: &BookingMap) -> u64 {
        bookings.bill()
    }
}

/// A change of one booking of an item: the booking is inserted among the present ones, or removed.
#[derive(Drop)]
pub(crate) struct Rebook {
    pub(crate) kind: Kind,
    pub(crate) id: u32,
    pub(crate) booking: Option<Booking>,
}

impl Change<BookingMap> for Rebook {
    ghost changed = { λ r o. option_map (λ m. with_booking m (r.kind, r.id) r.booking) o };

    fn change(
        self,
        _alloc: Global,
        value: Option<Rc<BookingMap>>,
    ) -> Result<Option<Rc<BookingMap>>, AllocError>
        ensures { IfOk result (λ made. value_in made ≡ option_map
            (λ m. with_booking m (self.kind, self.id) self.booking) (value_in value)) }
    {
        let Some(mut place) = value else {
            return Ok(None);
        };
        let bookings = Rc::make_mut(&mut place)?;
        bookings.set(self.kind, self.id, self.booking)?;
        Ok(Some(place))
    }
}

impl IdMap<BookingMap> {
    /// Changes a booking of a customer, if the customer exists. The customer's other bookings are
    /// copied only if another map shares them.
    pub(crate) fn rebook(&mut self, customer: u32, change: Rebook) -> Result<(), AllocError>
        ensures { OnOk result (IfSome (map.get self.old customer)
            (λ m. self.new ≡ map.insert self.old customer
            (with_booking m (change.kind, change.id) change.booking))) }
    {
        self.change(customer, change)?;
        Ok(())
    }

    /// Removes and returns the bookings of a customer. The bookings are copied only if another map
    /// shares them.
    pub(crate) fn take(&mut self, customer: u32) -> Result<Option<BookingMap>, AllocError>
        ensures taken { IfOk result (λ taken. taken ≡ map.get self.old customer) }
        ensures left { IfOk result (λ taken. MatchOption taken (self.new ≡ self.old)
            (λ _. self.new ≡ map.remove self.old customer)) }
    {
        let bookings = match self.find(customer) {
            None => return Ok(None),
            Some(bookings) => bookings.clone()?,
        };
        self.remove(customer)?;
        let bookings = Rc::unwrap_or_clone(bookings)?;
        Ok(Some(bookings))
    }

    /// Returns the number of bookings of all customers.
    pub(crate) fn bookings(&self) -> u64
        ensures { result ≡ sum_by map.len (map.values self.now) }
    {
        self.weight()
    }

    /// Returns the number of units that all customers have booked.
    pub(crate) fn units(&self) -> u64
        requires { sum_by units_booked (map.values self.now) < 2 ^ 64 }
        ensures { result ≡ sum_by units_booked (map.values self.now) }
    {
        total::<BookingMap, Units>(&self.root)
    }

    /// Returns the sum of all bills.
    pub(crate) fn bills(&self) -> u64
        requires { sum_by bill_of (map.values self.now) < 2 ^ 64 }
        ensures { result ≡ sum_by bill_of (map.values self.now) }
    {
        total::<BookingMap, Bill>(&self.root)
    }
}

fn prices<K: Ord>(entries: &BTreeMap<K, Booking>) -> u64
    requires { sum_by (λ e. e.sum) (tree.values entries.now) < 2 ^ 64 }
    ensures { result ≡ sum_by (λ e. e.sum) (tree.values entries.now) }
{
    entries.values().map(|entry| entry.sum).sum()
}

fn units_of_all<K: Ord>(entries: &BTreeMap<K, Booking>) -> u64
    requires { sum_by (λ e. e.units) (tree.values entries.now) < 2 ^ 64 }
    ensures { result ≡ sum_by (λ e. e.units) (tree.values entries.now) }
{
    entries.values().map(|entry| entry.units).sum()
}
