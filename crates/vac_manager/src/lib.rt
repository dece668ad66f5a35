//! The manager of reservations, called by many clients at once. Each call runs its task as one
//! transaction over a region.
//!
//! The rules are those of the program Vacation of the STAMP benchmarks (Cao Minh, Chung,
//! Kozyrakis, Olukotun, IISWC 2008). Their definitions are in `vac_model`.
#![tactic(auto)]

mod calls;
mod client;
mod fault;
mod law;
mod manager;
mod note;
mod placed;
mod recorder;
mod renew;
mod report;
mod sites;
mod watching;
mod work;

pub use calls::{call, trace_call, trace_valid};
pub use client::{Caller, Client, Lists};
pub use fault::Fault;
pub use law::{Vacation, serial_records_are_legal};
pub use manager::Manager;
pub use note::{CompletedCall, TracedAttempt};
pub use placed::{CallStatistics, PlacedReply};
pub use recorder::{NoRecorder, Recorder};
pub use renew::RenewFault;
pub use report::report_of;
pub use stm_object::{Body, CommitPosition, Object, Tracer, Untraced};
pub use stm_region::MOST_STRIPES;
pub use vac_model::limits::MOST_TRIES;
pub use vac_model::{
    Asks, Changes, Command, CustomerOutcome, Item, Kind, Pick, Refusal, Reply, Report, Task,
    TripReply, UpdateReply,
};
