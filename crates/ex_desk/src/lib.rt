//! A program over the manager: four desks book trips, each in a thread of its own, and handle each
//! fault of a call as it should be handled.
#![tactic(auto)]

mod asking;
mod desk;
mod rounds;
mod run;
mod settings;
mod trips;

pub use asking::{Served, serve};
pub use desk::Desk;
pub use run::{DeskFault, DeskReport, run_desks};
pub use settings::{DeskSettings, MOST_ROUNDS, MOST_TRIPS};
pub use trips::{DESKS, ITEMS, PRICE};
