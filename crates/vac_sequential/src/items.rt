//! The effects of commands on an item and on a booking.

ghost use Rattle.std.specs.Prelude.{◌≡◌, ◌≤◌};
ghost use Rattle.vac_model.specs.declared.limits.TheConstants.{MOST_AMOUNT};
ghost use Rattle.vac_model.specs.Step as rules;
ghost use Rattle.vac_model.specs.Fits.{IsItemInRange, IsBookingInRange};

use vac_model::{Booking, Item};

/// Returns an item with no booked unit.
pub(crate) fn new_item(num: u32, price: u32) -> Item
    ensures { result ≡ rules.new_item num price }
{
    Item {
        used: 0,
        free: num as u64,
        total: num as u64,
        price: price as u64,
    }
}

/// Returns the item with more units, and with another price if one is given.
pub(crate) fn added(item: Item, num: u32, price: Option<u32>) -> Item
    requires { IsItemInRange item }
    ensures { result ≡ rules.added item num price }
{
    Item {
        used: item.used,
        free: item.free + num as u64,
        total: item.total + num as u64,
        price: match price {
            Some(price) => price as u64,
            None => item.price,
        },
    }
}

/// Returns the item with fewer free units.
pub(crate) fn deleted(item: Item, num: u32) -> Item
    requires range { IsItemInRange item }
    requires free { num ≤ item.free }
    ensures { result ≡ rules.deleted item num }
{
    Item {
        free: item.free - num as u64,
        total: item.total - num as u64,
        ..item
    }
}

/// Returns the item with `num` more booked units.
pub(crate) fn taken(item: Item, num: u32) -> Item
    requires range { IsItemInRange item }
    requires free { num ≤ item.free }
    ensures { result ≡ rules.taken item num }
{
    Item {
        used: item.used + num as u64,
        free: item.free - num as u64,
        ..item
    }
}

/// Returns the item after `units` booked units were given back.
pub(crate) fn given_back(item: Item, units: u64) -> Item
    requires range { IsItemInRange item }
    requires used { units ≤ item.used }
    ensures { result ≡ rules.given_back item units }
{
    Item {
        used: item.used - units,
        free: item.free + units,
        ..item
    }
}

/// Returns a booking of units at one price.
pub(crate) fn new_booking(num: u32, price: u64) -> Booking
    requires { price ≤ MOST_AMOUNT }
    ensures { result ≡ rules.new_booking num price }
{
    Booking {
        units: num as u64,
        sum: num as u64 * price,
    }
}

/// Returns the booking with more units at the present price. The older units keep their prices.
pub(crate) fn extended(booking: Booking, num: u32, price: u64) -> Booking
    requires range { IsBookingInRange booking }
    requires price { price ≤ MOST_AMOUNT }
    ensures { result ≡ rules.extended booking num price }
{
    Booking {
        units: booking.units + num as u64,
        sum: booking.sum + num as u64 * price,
    }
}
