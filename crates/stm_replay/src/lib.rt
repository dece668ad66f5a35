//! The transaction core as running code: plays a list of events one by one, refuses events that
//! are not allowed, and keeps the decided records in the order of the one history. For tests and
//! for replaying the events of a region; no thread runs here.
//!
//! `stm_core` defines what an event is, when an event is allowed and what it does; [`Core`] is
//! proved to follow those definitions.
#![tactic(auto)]

mod event;
mod limits;
mod order;
mod pairs;
mod replay;
mod seat;
mod state;
mod theorem;

pub use event::{Entry, Event, NotAllowed, Writes};
pub use limits::MOST_CLIENTS;
pub use replay::Core;
pub use theorem::{law_theorem, opaque, running_theorem};
