//! Laws on the results. Each law is the contract of a function that does nothing.

ghost use Rattle.judge_linear.specs.Laws.{OrderIsAtLevel, NoOrderMeansNone, OrderIsJudgedLegal};
ghost use Rattle.judge_linear.specs.Laws.{IllegalPartMeansNone, StatesShowFirstEnd, OutcomeDecides};
ghost use Rattle.judge_linear.specs.Laws.{FoundIsReordered, CoveredMeansWhole};
ghost use Rattle.judge_linear.specs.Wrongs.{WrongIsFirst, FirstWrongIsWritten, WrongOrInTurn};
ghost use Rattle.judge_linear.specs.Wrongs.{OutOfTurnIsLeftOut, OutOfTurnMeansNone};

use judge_calls::{a_covered_order_is_the_whole_workload, a_legal_history_has_this_summary};
use judge_object::{a_cut_of_a_cut_is_a_cut, a_cut_of_a_linearizable_history_is_linearizable};
use judge_reservations::{Reservations, illegal_parts_show_illegal_histories};

/// States that, if an order is found at a level, the history is at the level: linearizable,
/// sequentially consistent or serializable.
pub fn an_order_that_is_found_shows_the_level()
    ensures { OrderIsAtLevel }
{}

/// States that, if the result at a level is that there is no order, the history is not at the
/// level.
pub fn where_none_is_found_there_is_none()
    ensures { NoOrderMeansNone }
{}

/// States that, if the result at a level is that a part of the history has no order, the history is
/// not at the level.
pub fn an_illegal_part_means_no_order()
    ensures { IllegalPartMeansNone }
{
    illegal_parts_show_illegal_histories();
}

/// States that, if the result is that a part of the history has no order, and the number of states
/// that were possible just before the end of the given line's call is known, the parts as they
/// stood at each earlier moment are linearizable. So that end is the first at which the parts have
/// no order.
pub fn an_illegal_part_with_states_has_no_earlier_end()
    ensures { StatesShowFirstEnd }
{
    a_cut_of_a_cut_is_a_cut::<Reservations>();
    a_cut_of_a_linearizable_history_is_linearizable::<Reservations>();
}

/// States that the outcome of a search at a level says whether the history is at the level: it is
/// if an order is found, and it is not if the outcome is that the history is illegal, unless a line
/// is wrong. The outcome says neither only if the search may make fewer steps than twice those of a
/// search that tries each order of the calls.
pub fn an_outcome_decides_the_level()
    ensures { OutcomeDecides }
{
    illegal_parts_show_illegal_histories();
}

/// States that the text written for a history with a found linearization is a history that the
/// judge calls legal, with the number of its calls and of its clients and the report of the state
/// that they leave. The calls of the written text are an order of the calls of the input.
pub fn an_order_that_is_written_is_judged_legal()
    ensures { OrderIsJudgedLegal }
{
    a_legal_history_has_this_summary();
}

/// States that the result for a history is a wrong line if and only if the line is the first that
/// is no call or not in turn. If the line is no call, the result names the fault of the line. The
/// lines before it are calls, each client's in turn.
pub fn a_wrong_line_is_the_first()
    ensures { WrongIsFirst }
{}

/// States that a history with a wrong line gets the verdict that names its first wrong line, and
/// the outcome that the history is illegal. No search can lead to another text.
pub fn the_first_wrong_line_is_written()
    ensures { FirstWrongIsWritten }
{}

/// States that each text has a first wrong line, or is a history in which the calls of each client
/// are in turn.
pub fn a_text_is_in_turn_or_has_a_wrong_line()
    ensures { WrongOrInTurn }
{}

/// States that an order of the calls which is a linearization leaves out the first call that is not
/// in turn, and all later calls of its client, and that none of these calls is completed.
pub fn a_call_out_of_turn_is_left_out()
    ensures { OutOfTurnIsLeftOut }
{}

/// States that no order of the calls is a linearization if the first call that is not in turn is
/// completed.
pub fn a_completed_call_out_of_turn_means_no_order()
    ensures { OutOfTurnMeansNone }
{}

/// States that the text which is written for a linearization that is found has the calls of the
/// history, in an order that is a linearization. So the laws on verdicts of judge_calls that speak
/// of such a text hold for it.
pub fn an_order_that_is_found_is_written()
    ensures { FoundIsReordered }
{
    a_legal_history_has_this_summary();
}

/// States that, if a linearization is found that covers a workload, some order of the calls of the
/// history is a linearization whose calls are the whole workload.
pub fn a_covered_workload_is_whole_in_some_order()
    ensures { CoveredMeansWhole }
{
    a_legal_history_has_this_summary();
    a_covered_order_is_the_whole_workload();
}
