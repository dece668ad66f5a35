//! The commands, tasks and reports of the reservation system as the bodies of transactions, over
//! any memory that holds a state, and tasks over plain memory, one after the other.
//!
//! Each command and each task meets its definition in `vac_model`, under every image that agrees
//! with what was read. A task finds an entry that stays by one walk down its table; an entry that
//! is made or removed is looked up again when it enters or leaves its table. A trip walks its
//! customer's list of bookings once for all three kinds. A report walks each table's tree in the
//! order of the keys, and reads each node once. No call takes memory of its own.
#![tactic(auto)]

mod bookings;
mod commands;
mod customer_report;
mod customers;
mod find;
mod item_report;
mod items;
mod leave;
mod reporting;
mod tasks;
mod trip;
mod update;

pub use bookings::{CustomerAt, ItemAt, cancel, reserve, reserve_at};
pub use customers::{add_customer, bill, bill_at, drop_customer, drop_customer_at, new_customer};
pub use find::{find_customer, find_item};
pub use items::{add, delete, drop_flight, free, price};
pub use reporting::report;
pub use tasks::{only_reads, read_task, run_task};
pub use vac_model::Report;
