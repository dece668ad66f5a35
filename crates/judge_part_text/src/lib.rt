//! The part of a history as text: reads a history, and writes the lines of its part on a scope, or
//! of the part of the history as it stood at the end of a call.
#![tactic(auto)]

mod laws;
mod naming;
mod parting;
mod printing;
mod reading;
mod until;

pub use laws::{
    illegal_part_texts_are_written_for_cuts, illegal_part_texts_show_illegal_histories,
    illegal_part_texts_until_an_end_show_it, illegal_parts_are_written_for_cuts,
    illegal_parts_that_are_written_show_illegal_histories,
    illegal_parts_until_an_end_show_illegal_histories, parts_are_written_for_cuts,
};
pub use naming::{MOST_NAMES, read_names};
pub use parting::write_part;
pub use until::write_part_until;
