//! The plain manager: the rules of `vac_model` as a program that runs one task at a time, over
//! maps whose versions share their entries.
//!
//! [`Sequential`] has no words, versions or clients. It is the oracle of tests and the state of
//! searches: a copy shares all entries, and equal states are found to be equal.
#![tactic(auto)]

mod items;
mod maps;
mod sequential;
mod steps;
mod tables;
mod task_runs;
mod tries;

pub use sequential::{Sequential, SequentialFault};
