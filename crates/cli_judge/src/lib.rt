//! The judge: reads its command line, and runs the command that it asks for, over the streams that
//! the caller gives.
#![tactic(auto)]

mod files;
mod judging;
mod keys;
mod laws;
mod objects;
mod parting;
mod program;
mod progress;
mod reporting;
mod searching;
mod status;

pub use files::Open;
pub use judge_coverage::Watched;
pub use laws::parts_of_illegal_verdicts_are_written_illegal;
pub use program::{refuse_words, run_words};
