//! The tasks of the desks, from a fixed table.

ghost use Rattle.std.specs.Prelude.{◌≡◌, ◌<◌, ◌≤◌, true, Some, IfOk};
ghost use Rattle.vac_model.specs.Ranges.{is_task};
ghost use Rattle.vac_model.specs.declared.limits.TheConstants.{MOST_AMOUNT};
ghost use Rattle.ex_desk.specs.Trips.{trip_of, stock_of};
ghost use Rattle.ex_desk.specs.declared.settings.TheConstants.{MOST_TRIPS};

use std::alloc::{AllocError, Global};
use vac_model::{Command, Kind, Task};

/// Number of desks.
pub const DESKS: u32 = 4;

/// Number of items of each kind.
pub const ITEMS: u32 = 2;

/// Price of each item.
pub const PRICE: u32 = 50;

/// Returns the trip of this number of a desk: a car, a flight and a room for a customer of its
/// own.
pub(crate) fn trip(alloc: Global, desk: u32, number: u32) -> Task
    requires desk { desk < DESKS }
    requires number { number < MOST_TRIPS }
    ensures task { result ≡ trip_of desk number }
    ensures range { is_task result ≡ true }
{
    let item = 1 + (desk + number) % ITEMS;
    let asks = [(Kind::Car, item), (Kind::Flight, item), (Kind::Room, item)];
    let Ok(task) = Task::trip(alloc, 1 + desk + DESKS * number, &asks) else {
        unreachable!()
    };
    task
}

/// Returns the command that adds one item of the stock.
fn item(kind: Kind, id: u32, units: u32) -> Command
    ensures { result ≡ Command.Add kind id units (Some PRICE) }
{
    Command::Add {
        kind,
        id,
        num: units,
        price: Some(PRICE),
    }
}

/// Returns the stock as one task: `units` units of each item.
pub(crate) fn stock(alloc: Global, units: u32) -> Result<Task, AllocError>
    requires units { units ≤ MOST_AMOUNT }
    ensures task { IfOk result (λ task. task ≡ stock_of units) }
    ensures range { IfOk result (λ task. is_task task ≡ true) }
{
    let changes = [
        item(Kind::Car, 1, units),
        item(Kind::Car, 2, units),
        item(Kind::Flight, 1, units),
        item(Kind::Flight, 2, units),
        item(Kind::Room, 1, units),
        item(Kind::Room, 2, units),
    ];
    Task::update(alloc, &changes)
}
