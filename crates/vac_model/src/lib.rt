//! The rules of the reservation system, after the program Vacation of the STAMP benchmarks
//! (Cao Minh, Chung, Kozyrakis, Olukotun, IISWC 2008).
//!
//! The crate has the types of commands, tasks and replies, their texts (`Display`), and the
//! definitions of their meaning (`specs/`). All crates that know reservations stand on it.
//! `vac_sequential` is the plain program that computes them.
#![tactic(auto)]

mod commands;
mod items;
pub mod laws;
pub mod limits;
mod replies;
mod reply_text;
mod task_text;
mod tasks;
mod valid_task;

pub use commands::{Command, Refusal};
pub use items::{Booking, Item, Kind};
pub use replies::{CustomerOutcome, Pick, Reply, Report, TripReply, UpdateReply};
pub use tasks::{Asks, Changes, INLINE_ASKS, INLINE_CHANGES, Task};
pub use valid_task::ValidTask;
