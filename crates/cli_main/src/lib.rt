//! The reservation system as a program: reads its command line, and runs the command that it asks
//! for, over the streams that the caller gives.
//!
//! Scripts over streams are re-exported from the crates below.
#![tactic(auto)]

mod keeping;
mod load;
mod program;
mod status;
mod telling;
mod timer;

pub use cli_script::{check_words, dump_script, run_script};
pub use program::{refuse_words, run_words};
pub use vac_lines::StreamFault;
