//! The completed calls of a load's clients, recorded and written as one history; their attempts,
//! traced and written as one text; and laws on that text as the judge of opacity reads it.
#![tactic(auto)]

mod accesses;
mod fitting;
mod gathering;
mod history;
mod journal;
mod laws;
mod laying;
mod ledger;
mod lines;
mod merging;
mod observed;
mod opacity_laws;
mod places;
mod trail;
mod watch;
mod writing;

pub use fitting::FITTING_ACCESSES;
pub use history::{are_whole, write_history};
pub use journal::{CallRecorder, stamp};
pub use laws::{legal_up_to_precedence, ordered_calls_are_legal, texts_are_legal_up_to_precedence};
pub use ledger::AttemptRecorder;
pub use merging::rank;
pub use opacity_laws::{
    a_worked_load_meets_the_conditions, attempt_texts_are_read, attempts_in_place_are_legal,
    attempts_of_a_load_begin_with_its_heap, attempts_of_a_load_make_its_history, few_accesses_fit,
    histories_are_opaque_up_to_precedence, loads_are_judged_by_precedence,
    loads_are_judged_by_their_aborts_and_times, loads_are_judged_by_their_times,
    ordered_attempts_are_made_serially, outcomes_are_judged_apart, serial_attempts_are_legal,
    texts_are_judged_by_their_entries, texts_are_opaque_up_to_precedence,
    worked_attempts_meet_the_conditions,
};
pub use trail::AttemptTracer;
pub use watch::{ElapsedClock, StampClock};
pub use writing::{are_whole_attempts, write_attempts};
