//! Commands, and the reasons for which a command is refused.

ghost use Rattle.std.specs.Prelude.{◌≡◌};
ghost use Rattle.vac_model.specs.Ranges as Ranges;
ghost use Rattle.vac_model.specs.Amounts as amounts;

use crate::items::Kind;
use crate::limits::{MOST_AMOUNT, MOST_UNITS_AT_ONCE};

/// One step of the reservation manager.
///
/// Ids are 1 to 4,294,967,295; counts and prices 0 to 1,000,000; a `Reserve` is for 1 to 100
/// units. A command with a number out of its range, and a `Delete` of a flight, are not valid.
#[derive(Clone, Copy, Debug, PartialEq, Eq, Default)]
pub enum Command {
    /// Creates the item, or adds `num` units to it and replaces its price if one is given.
    Add {
        kind: Kind,
        id: u32,
        num: u32,
        price: Option<u32>,
    },
    /// Removes `num` free units of a car or a room; an item without units is removed.
    Delete {
        kind: Kind,
        id: u32,
        num: u32,
    },
    /// Removes a flight of which nothing is booked.
    DropFlight {
        id: u32,
    },
    /// Creates a customer without bookings.
    NewCustomer {
        id: u32,
    },
    /// Gives back all units that the customer has booked, and removes the customer.
    DropCustomer {
        id: u32,
    },
    /// Returns the number of free units of the item.
    Free {
        kind: Kind,
        id: u32,
    },
    /// Returns the price of the item.
    Price {
        kind: Kind,
        id: u32,
    },
    /// Returns the sum of the prices at which the customer's units were booked.
    Bill {
        id: u32,
    },
    /// Books `num` units of the item for the customer at the present price.
    Reserve {
        customer: u32,
        kind: Kind,
        id: u32,
        num: u32,
    },
    /// Gives back all units of the item that the customer has booked.
    Cancel {
        customer: u32,
        kind: Kind,
        id: u32,
    },
    /// Returns the report of the whole state.
    #[default]
    Audit,
}

impl Command {
    /// Returns whether the command is valid: its numbers are in their ranges, and it is no
    /// `Delete` of a flight.
    pub fn is_in_range(&self) -> bool
        ensures { result ≡ Ranges.is_command self.now }
    {
        match *self {
            Command::Add { id, num, price, .. } => is_id(id)
                && is_amount(num)
                && is_optional_amount(price),
            Command::Delete { kind, id, num } => {
                has_deletable_units(kind) && is_id(id) && is_amount(num)
            }
            Command::Reserve {
                customer,
                id,
                num,
                ..
            } => is_id(customer) && is_id(id) && is_unit_count(num),
            Command::Cancel { customer, id, .. } => is_id(customer) && is_id(id),
            Command::DropFlight { id }
            | Command::NewCustomer { id }
            | Command::DropCustomer { id }
            | Command::Free { id, .. }
            | Command::Price { id, .. }
            | Command::Bill { id } => is_id(id),
            Command::Audit => true,
        }
    }

    /// Returns whether the command may be part of an update: `Add`, `Delete` and `DropFlight` may.
    pub fn is_change(&self) -> bool
        ensures { result ≡ Ranges.is_change self.now }
    {
        match self {
            Command::Add { .. } | Command::Delete { .. } | Command::DropFlight { .. } => true,
            _ => false,
        }
    }
}

pub(crate) fn is_id(id: u32) -> bool
    ensures { result ≡ amounts.is_id id }
{
    1 <= id
}

fn is_amount(amount: u32) -> bool
    ensures { result ≡ amounts.is_amount amount }
{
    amount <= MOST_AMOUNT
}

fn is_optional_amount(amount: Option<u32>) -> bool
    ensures { result ≡ amounts.is_optional_amount amount }
{
    match amount {
        None => true,
        Some(amount) => is_amount(amount),
    }
}

fn is_unit_count(num: u32) -> bool
    ensures { result ≡ amounts.is_unit_count num }
{
    1 <= num && num <= MOST_UNITS_AT_ONCE
}

fn has_deletable_units(kind: Kind) -> bool
    ensures { result ≡ amounts.has_deletable_units kind }
{
    match kind {
        Kind::Car | Kind::Room => true,
        Kind::Flight => false,
    }
}

/// The reason why a command was refused. No code reads the numbers: the program writes names, and
/// the code of a record has the refusal's index.
#[derive(Clone, Copy, Debug, PartialEq, Eq)]
pub enum Refusal {
    NeedsCountAndPrice = 1,
    TotalLimit = 2,
    Full = 3,
    NoItem = 4,
    NotFree = 5,
    InUse = 6,
    Exists = 7,
    NoCustomer = 8,
    SoldOut = 9,
    NotBooked = 11,
    UnitLimit = 12,
}
