//! The report over a transactional memory.

ghost use Rattle.std.specs.Prelude.{◌≡◌, IfOk, IfErr};
ghost use Rattle.vac_records.specs.InMemory.{HoldsState};
ghost use Rattle.vac_tasks.specs.Reported.{Reported};

use crate::customer_report::sum_customers;
use crate::item_report::sum_items;
use tx_memory::TxRead;
use vac_model::{Kind, Report};

/// Reports on the state that the memory holds: the entries of each table, the booked units, the
/// sums over all items, and the sum of all bills.
pub fn report<M: TxRead>(memory: &mut M) -> Result<Report, M::Stop>
    requires { HoldsState (M.view memory.old) }
    ensures origin { M.origin memory.new ≡ M.origin memory.old }
    ensures answer { IfOk result (λ report.
        Reported (M.view memory.old) (M.view memory.new) report) }
    ensures stopped { IfErr result (λ stop. M.stopped_for memory.new stop) }
{
    let cars = sum_items(memory, Kind::Car)?;
    let flights = sum_items(memory, Kind::Flight)?;
    let rooms = sum_items(memory, Kind::Room)?;
    let customers = sum_customers(memory)?;
    let items = cars.plus(flights).plus(rooms);
    Ok(Report {
        cars: cars.count,
        flights: flights.count,
        rooms: rooms.count,
        customers: customers.count,
        bookings: customers.units,
        used: items.used,
        free: items.free,
        total: items.total,
        billed: customers.billed,
    })
}
