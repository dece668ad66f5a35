//! The reservation system as a sequential object, and the part of a history of its calls on some
//! customers and items: if the history is linearizable, so is the part.
#![tactic(auto)]

mod answers;
mod calls;
mod chosen;
mod history;
mod laws;
mod pending;
mod reservations;
mod scope;
mod trips;
mod updates;
mod words;

pub use answers::{AnsweredTask, task_part};
pub use calls::fits;
pub use chosen::scope_of;
pub use history::{has_part, part_of_history};
pub use laws::{
    calls_of_cuts_have_parts, illegal_parts_show_illegal_histories,
    illegal_parts_show_that_finer_parts_are_illegal,
    parts_of_linearizable_histories_are_linearizable, the_part_of_a_cut_is_the_cut_of_the_part,
    the_part_of_a_part_is_the_part,
};
pub use pending::pending_part;
pub use reservations::Reservations;
pub use scope::{Names, Scope};
