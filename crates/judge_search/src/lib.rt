//! The exact search for a linearization of the calls of several clients, for any sequential object,
//! and the check of a proposed order.
#![tactic(auto)]

mod calls;
mod checking;
mod frontier;
mod index;
mod known;
mod lasts;
mod laws;
mod links;
mod marks;
mod order;
mod path;
mod point;
mod reaching;
mod sorting;
mod stuck;
mod walk;

pub use calls::Calls;
pub use laws::{a_search_ends, enough_steps_decide};
pub use order::{find_linearization, is_linearization};
pub use point::Point;
pub use reaching::states_left;
pub use stuck::{Stuck, stuck_calls};
pub use walk::{Finding, Found};
