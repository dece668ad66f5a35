//! The command line of the reservation system: its subcommands and options as clap reads them, and
//! the request that its words make.
#![tactic(auto)]

mod asked;
mod options;

pub use asked::{LoadOutput, Request, read_asked};
pub use options::VERSION;
