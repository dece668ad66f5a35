//! A judge of histories: decides whether the order in which the calls of a transactional runtime
//! are given is a linearization of the calls.
//!
//! A history is a text of lines `CLIENT BEGIN END LINE -> REPLY`, or `CLIENT BEGIN - LINE -> ?`
//! for a pending call, in the order in which the runtime claims that the calls took effect. A line
//! `CLIENT BEGIN - LINE -> REPLY` holds an undetermined call: a pending call that took effect with
//! this reply, or never took effect. The plain manager runs the tasks, one after the other in the
//! order of the lines. So an undetermined call took effect if it has a line here, and must have its
//! reply.
#![tactic(auto)]

mod answers;
mod arrow;
mod by_client;
mod call;
mod call_line;
mod fault;
mod held;
mod holding;
mod in_order;
mod judge;
mod laws;
mod reading;
mod verdict;
mod work;

pub use answers::numbers_of_a_reply;
pub use call::{CALL_BYTES, read_call};
pub use call_line::CallLine;
pub use fault::CallFault;
pub use held::{WorkloadVerdict, judge_with_workload, read_all};
pub use in_order::{OrderVerdict, judge_order_with_workload};
pub use judge::Judge;
pub use laws::{
    a_call_never_answered_is_read, a_call_that_an_order_leaves_out_is_pending,
    a_covered_order_is_the_whole_workload, a_fault_names_the_first_line_that_is_no_call,
    a_foreign_task_is_named_by_its_line_of_the_history,
    a_foreign_verdict_names_the_first_line_of_another_task, a_legal_history_has_this_summary,
    a_missing_task_of_an_order_was_never_submitted,
    a_missing_verdict_names_the_first_task_that_is_left_out, a_verdict_finds_the_linearizations,
    a_verdict_on_an_order_is_given_if_its_condition_holds, a_whole_history_is_of_all_the_work,
    an_answered_call_is_read, an_illegal_verdict_names_the_first_wrong_line,
    an_undetermined_call_is_read, bad_tasks_name_the_first_line_without_a_task,
    call_texts_are_read, histories_are_read,
};
pub use reading::judge_history;
pub use verdict::{CallViolation, Summary, Verdict};
