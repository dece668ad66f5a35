//! Histories of many objects as text, `CLIENT BEGIN END OPERATION -> REPLY` for each call, and
//! their verdicts.
//!
//! Each object of a history has a name. The history is linearizable exactly if each object's is,
//! unless a client begins a call at the very time at which its last one ended.
#![tactic(auto)]

mod by_object;
mod classes;
mod counting;
mod fault;
mod history;
mod judging;
mod laws;
mod line;
mod named;
mod names;
mod numbers;
mod object_laws;
mod parts;
mod program;
mod quoting;
mod relaxing;
mod runs;
mod settings;
mod starts;
mod turns;
mod verdict;
mod worded;
mod words;

pub use by_object::{Verdict, judge_many};
pub use classes::Classes;
pub use counting::Counts;
pub use fault::CallFault;
pub use history::{Reading, read_history};
pub use judging::{TextVerdict, judge_text};
pub use laws::quotes_are_read;
pub use named::Named;
pub use names::Names;
pub use object_laws::{
    a_linearizable_history_has_linearizable_parts, parts_make_a_linearizable_history,
};
pub use parts::{Blocked, Judged, Undecided, judge_parts};
pub use program::{judge_history, judge_input, read_all};
pub use quoting::{Quoted, read_quoted};
pub use settings::Settings;
pub use starts::Starts;
pub use turns::{Turns, find_turns};
pub use verdict::Outcome;
pub use worded::TextObject;
pub use words::split_words;
