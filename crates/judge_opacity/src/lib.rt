//! A judge of opacity: decides whether the order in which the attempts of a transactional memory
//! are given shows that the attempts, aborted ones included, are opaque.
//!
//! A text has a line `CLIENT BEGIN END commit|abort [r A V | w A V]..` for each attempt, in the
//! order that the runtime claims for the attempts.
#![tactic(auto)]

mod accesses;
mod attempt;
mod finding;
mod judge;
mod laws;
mod log_reading;
mod logged;
mod memory;
mod numbers;
mod placed;
mod placing;
mod reading;
mod words;

pub use attempt::{ATTEMPT_BYTES, Access};
pub use finding::{AttemptViolation, Counts, Finding};
pub use laws::{
    a_fault_names_the_first_line_that_is_no_attempt, a_finding_names_the_first_wrong_attempt,
    a_finding_sees_opacity, a_placed_verdict_sees_opacity, opaque_attempts_are_counted,
    places_keep_the_attempts,
};
pub use memory::{MOST_WORDS, USUAL_WORDS};
pub use placed::place_attempts;
pub use reading::judge_attempts;
