//! A bounded queue as a sequential object: its operations, its states, and its lines.
#![tactic(auto)]

mod op;
mod queue;
mod words;

pub use op::{Op, Reply};
pub use queue::{CAPACITY, Queue};
