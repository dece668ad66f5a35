//! A bounded queue over a transactional memory: many users push and pop, first in, first out.
#![tactic(auto)]

mod bodies;
mod entry;
mod law;
mod ring;

pub use bodies::{Count, Pop, Push};
pub use entry::Entry;
pub use law::{HEAD, RingObject, SLOTS, TAIL, WORDS};
pub use ring::{
    Ring, RingCaller, RingUser, close_ring, first_in_first_out, lone_user_takes_its_own, new_ring,
};
