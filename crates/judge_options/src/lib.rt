//! The command line of the judge: its subcommands and options as clap reads them, and the request
//! that its words make.
#![tactic(auto)]

mod asked;
mod options;

pub use asked::{
    JudgeSettings, KeysSettings, OpacitySettings, PartWords, Request, SearchSettings, read_asked,
};
pub use options::VERSION;
