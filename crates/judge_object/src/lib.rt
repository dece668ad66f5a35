//! Sequential objects, histories of their calls, and linearizability of these histories (Herlihy
//! and Wing, TOPLAS 1990), over intervals of time: those of each client are in turn, none ends
//! before it begins, and none comes after one that began only after it had ended.
//!
//! Histories with less order or less time: levels of consistency between linearizability and
//! serializability, which keep less of the order of the calls; and cuts, which are the history as
//! it stood at a moment.
#![tactic(auto)]

mod cutting;
mod ends;
mod laws;
mod level;
mod line;
mod object;
mod relaxing;
mod span;
mod spans;
mod watcher;

pub use cutting::{cut_line, cut_lines};
pub use ends::Ends;
pub use laws::{
    a_cut_of_a_cut_is_a_cut, a_cut_of_a_linearizable_history_is_linearizable,
    a_level_is_linearizability_without_its_order, cuts_after_an_illegal_cut_are_illegal,
    linearizable_histories_are_sequentially_consistent,
    sequentially_consistent_histories_are_serializable,
};
pub use level::Level;
pub use line::Line;
pub use object::{Object, is_right};
pub use relaxing::relaxed_line;
pub use span::{Misplaced, NEVER, Span};
pub use spans::Spans;
pub use watcher::Watcher;
