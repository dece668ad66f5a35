//! Items that can be booked, and bookings.

ghost use Rattle.std.specs.Prelude.{◌≡◌, ◌<◌};
ghost use Rattle.vac_model.specs.declared.limits.TheConstants.{KINDS};
ghost use Rattle.vac_model.specs.State.{kind_number};
ghost use Rattle.vac_model.specs.Coded.{kind_of_number};

/// The kind of an item, in the order of kinds.
#[derive(Clone, Copy, Debug, PartialEq, Eq, PartialOrd, Ord, Default)]
pub enum Kind {
    #[default]
    Car,
    Flight,
    Room,
}

impl Kind {
    /// Returns the number of the kind: 0 for cars, 1 for flights, 2 for rooms.
    #[inline]
    pub fn number(self) -> u64
        ensures number { result ≡ kind_number self }
        ensures below { result < KINDS }
    {
        match self {
            Kind::Car => 0,
            Kind::Flight => 1,
            Kind::Room => 2,
        }
    }

    /// Returns the kind of a number. Each number from 2 on stands for rooms.
    #[inline]
    pub fn from_number(number: u64) -> Kind
        ensures kind { result ≡ kind_of_number number }
        ensures back { number < KINDS → kind_number result ≡ number }
    {
        match number {
            0 => Kind::Car,
            1 => Kind::Flight,
            _ => Kind::Room,
        }
    }
}

/// An entry of a table of cars, flights or rooms: the used units, the free units, the total of
/// both, and the price of a unit that is booked from now on.
#[derive(Clone, Copy, Debug, PartialEq, Eq)]
pub struct Item {
    pub used: u64,
    pub free: u64,
    pub total: u64,
    pub price: u64,
}

/// A customer's booking of one item: the number of units, and the sum of their prices, each as it
/// was when the unit was booked.
#[derive(Clone, Copy, Debug, PartialEq, Eq)]
pub struct Booking {
    pub units: u64,
    pub sum: u64,
}
