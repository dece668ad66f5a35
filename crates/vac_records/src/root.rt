//! The words that lead to the tables.

ghost use Rattle.std.specs.Prelude.{◌≡◌, ◌+◌};
ghost use Rattle.vac_model.specs.State.{kind_number};

use tx_memory::Addr;
use vac_model::Kind;

/// The word that leads to the table of cars.
pub const CARS: Addr = Addr(1);

/// The word that leads to the table of flights.
pub const FLIGHTS: Addr = Addr(2);

/// The word that leads to the table of rooms.
pub const ROOMS: Addr = Addr(3);

/// The word that leads to the table of customers.
pub const CUSTOMERS: Addr = Addr(4);

/// Returns the word that leads to the table of a kind.
#[inline]
pub fn root_of(kind: Kind) -> Addr
    ensures { result.0 ≡ 1 + kind_number kind }
{
    match kind {
        Kind::Car => CARS,
        Kind::Flight => FLIGHTS,
        Kind::Room => ROOMS,
    }
}
