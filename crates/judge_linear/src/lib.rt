//! A judge of histories that searches for the order: decides whether some order of the calls of
//! several clients is a linearization, or an order of a weaker level of consistency.
#![tactic(auto)]

mod found;
mod history;
mod index;
mod laws;
mod moments;
mod order;
mod ordering;
mod part;
mod possible;
mod proposals;
mod reading;
mod relaxed;
mod settings;
mod trials;

pub use laws::{
    a_call_out_of_turn_is_left_out, a_completed_call_out_of_turn_means_no_order,
    a_covered_workload_is_whole_in_some_order, a_text_is_in_turn_or_has_a_wrong_line,
    a_wrong_line_is_the_first, an_illegal_part_means_no_order,
    an_illegal_part_with_states_has_no_earlier_end, an_order_that_is_found_is_written,
    an_order_that_is_found_shows_the_level, an_order_that_is_written_is_judged_legal,
    an_outcome_decides_the_level, the_first_wrong_line_is_written,
    where_none_is_found_there_is_none,
};
pub use ordering::{Outcome, order_history};
pub use settings::Settings;
