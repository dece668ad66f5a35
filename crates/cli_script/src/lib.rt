//! Scripts over streams: running a script, dumping the memory after it, and auditing such words.
#![tactic(auto)]

mod check;
mod dump;
mod memory;
mod script;
mod system;

pub use check::check_words;
pub use dump::dump_script;
pub use script::run_script;
