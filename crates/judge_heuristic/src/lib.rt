//! A quick search for an order of the calls of several clients. Nothing is proved of the search:
//! the caller checks the order.
#![tactic(auto)]

mod backtrack;
mod beam;
mod choice_points;
mod choices;
mod configuration;
mod counts;
mod layout;
mod quick;
mod saved_states;
mod search;
mod successors;
mod trail;

pub use quick::find_quickly;
