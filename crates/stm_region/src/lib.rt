//! The shared words of a transactional memory: a version clock, versioned lock words and data
//! words, which many clients access by atomic steps.
//!
//! The steps are those of Transactional Locking II (Dice, Shalev, Shavit, DISC 2006). Between any
//! two steps of any threads the words and the clients' values meet the version invariant of
//! `stm_core`.
#![tactic(auto)]

mod accesses;
mod causation;
mod client;
mod close;
mod fault;
mod layout;
mod limits;
mod moving;
mod opening;
mod probed;
mod region;
mod renew;
mod rule;
mod steps;
mod version;
mod view;

pub use causation::{conflicts_of_calls_have_causes, conflicts_of_runs_have_causes};
pub use client::Client;
pub use fault::RegionFault;
pub use limits::{MOST_GRANTS, MOST_RENEWALS, MOST_STRIPES, MOST_WORDS, VERSION_LIMIT};
pub use probed::Probed;
pub use region::Region;
pub use renew::RenewFault;
pub use rule::{
    a_run_has_one_list, begins_see_returned_calls, every_list_goes_on, gathering_keeps_all_grants,
    reads_are_of_one_version, records_are_serial, running_threads_are_a_list, runs_keep_real_time,
};
