//! Laws on verdicts. Each is the contract of a function that does nothing.

ghost use Rattle.judge_calls.specs.Laws.{LegalIsLinearization, LegalSummary};
ghost use Rattle.judge_calls.specs.Wrongs.{IllegalIsFirstWrong, FaultIsFirst};
ghost use Rattle.judge_calls.specs.Whole.{LegalIsWhole};
ghost use Rattle.judge_calls.specs.NotWhole.{BadTasksIsFirst, ForeignIsFirst, MissingIsFirst};
ghost use Rattle.judge_calls.specs.AnyOrder.{CoveredIsWhole, ForeignIsOfHistory};
ghost use Rattle.judge_calls.specs.AnyOrder.{MissingIsNeverSubmitted, LeftOutIsPending};
ghost use Rattle.judge_calls.specs.OneVerdict.{VerdictHasItsCondition};
ghost use Rattle.std.specs.Prelude.{◌≡◌, ◌≤◌, length, true};
ghost use Rattle.vac_model.specs.Ranges.{is_task};
ghost use Rattle.vac_model.specs.TaskText.{task_text};
ghost use Rattle.judge_calls.specs.CallText.{CallTextsAreRead, HistoriesAreRead, IsReadBackAsCall};
ghost use Rattle.judge_calls.specs.CallText.{answered_call, undetermined, unanswered};

use crate::answers::numbers_of_a_reply;
use vac_lines::{LINE_BYTES, task_texts_are_read};
use vac_model::{Reply, Task};

/// States that a history is legal if and only if each of its lines is a call and the order of the
/// lines is a linearization. In a linearization the calls, run one after the other, give their
/// replies; the calls of each client do not overlap and are in their order; and no call comes
/// before a call that had ended before it began. A pending call ends later than all times. A call
/// whose reply is not known gives any reply.
pub fn a_verdict_finds_the_linearizations()
    ensures { LegalIsLinearization }
{}

/// States that the verdict on a legal history gives the number of its calls and of its clients,
/// and the report of the state that the calls leave.
pub fn a_legal_history_has_this_summary()
    ensures { LegalSummary }
{}

/// States that the verdict names the first wrong line of the history, and the first cause. The
/// verdict calls a line illegal if and only if the lines before it are calls whose order is a
/// linearization, and the order with the call of the line is no linearization. First cause: the
/// calls of a client are not in turn. Second: the call had ended before an earlier call of the
/// order began. Third: the sequential manager gives another reply, which the verdict names.
pub fn an_illegal_verdict_names_the_first_wrong_line()
    ensures { IllegalIsFirstWrong }
{}

/// States that the verdict is the fault of a line if and only if the line is no call by this
/// fault, and the lines before it are calls whose order is a linearization.
pub fn a_fault_names_the_first_line_that_is_no_call()
    ensures { FaultIsFirst }
{}

/// States that a history checked against a workload is legal if and only if each line of the
/// workload gives a task, the history is legal by itself, and the calls of each client submit
/// exactly its tasks, in their order. A client with a pending call submits the first of its tasks.
pub fn a_whole_history_is_of_all_the_work()
    ensures { LegalIsWhole }
{
    a_verdict_finds_the_linearizations();
}

/// States that the verdict names the first line of the workload that gives no task: the verdict
/// names a line of the workload if and only if that line gives no task and each line before it
/// gives one.
pub fn bad_tasks_name_the_first_line_without_a_task()
    ensures { BadTasksIsFirst }
{}

/// States that the verdict names the first line of the history whose call does not submit the next
/// task of its client. The verdict calls the task of a line foreign if and only if all of this
/// holds. Each line of the workload gives a task. The lines before that line are calls whose order
/// is a linearization, and each client submits its first tasks in them, in their order. With the
/// call of that line, its client does not submit its first tasks.
pub fn a_foreign_verdict_names_the_first_line_of_another_task()
    ensures { ForeignIsFirst }
{}

/// States that the verdict names the first task of the workload that is left out. The verdict
/// names a client's task as missing if and only if all of this holds. Each line of the workload
/// gives a task. The history is legal by itself, and the calls of each client submit its first
/// tasks, in their order. The task is the first of the workload that no call submits and whose
/// client has no pending call.
pub fn a_missing_verdict_names_the_first_task_that_is_left_out()
    ensures { MissingIsFirst }
{
    a_verdict_finds_the_linearizations();
}

/// States that an order of a history's calls covers the workload if and only if the order is a
/// linearization whose calls are the whole workload: each client's calls of the order submit its
/// tasks, in their order, or the first of them up to a pending call. Then each call of the history
/// submits the next task of its client, also a call that the order leaves out.
pub fn a_covered_order_is_the_whole_workload()
    ensures { CoveredIsWhole }
{
    a_verdict_finds_the_linearizations();
}

/// States that the verdict on an order names a line as foreign if and only if the line of the
/// history is the first whose call does not submit the next task of its client. The order that was
/// found does not matter.
pub fn a_foreign_task_is_named_by_its_line_of_the_history()
    ensures { ForeignIsOfHistory }
{}

/// States that a task which the verdict on an order names as missing is the first that the order
/// does not submit, and that no call of the history submits the task.
pub fn a_missing_task_of_an_order_was_never_submitted()
    ensures { MissingIsNeverSubmitted }
{
    a_missing_verdict_names_the_first_task_that_is_left_out();
}

/// States that the call of a line which the verdict on an order names as left out is pending, that
/// the order does not have the call, and that its place among the calls of its client is the place
/// of the first task that the order does not submit.
pub fn a_call_that_an_order_leaves_out_is_pending()
    ensures { LeftOutIsPending }
{
    a_missing_verdict_names_the_first_task_that_is_left_out();
}

/// States that a verdict on an order is given if and only if its condition holds, for an order that
/// is a linearization. So exactly one verdict has its condition. A line of the workload is named if
/// it is the first that gives no task. A line of the history is named as foreign if it is the first
/// whose call does not submit the next task of its client. A task is named as missing if all calls
/// submit the next tasks of their clients, and the first task that the order does not submit is
/// submitted by no call. A call is named as left out if all calls submit the next tasks of their
/// clients, and the first task that the order does not submit has the place of this pending call.
/// The verdict on the order alone is given if the order, with all its calls, is the whole workload.
pub fn a_verdict_on_an_order_is_given_if_its_condition_holds()
    ensures { VerdictHasItsCondition }
{
    a_verdict_finds_the_linearizations();
    a_missing_verdict_names_the_first_task_that_is_left_out();
}

/// States that the written line of a completed, undetermined or pending call is no longer than a
/// line of a history may be, and is read back as the call. The line is
/// `CLIENT BEGIN END LINE -> REPLY`, with the plain form of the task and the text of the reply. END
/// of a pending call is `-`, and REPLY is `?` if the reply is not known.
pub fn call_texts_are_read()
    ensures { CallTextsAreRead }
{
    task_texts_are_read();
}

/// States that the written line of a completed call, with any reply, is no longer than a line of a
/// history may be, and is read back as the call. The numbers of every reply fit the widths of
/// their types.
pub fn an_answered_call_is_read(client: u32, begin: u64, end: u64, task: &Task, reply: &Reply)
    requires in_range { is_task task.now ≡ true }
    requires fits { length (task_text task.now) ≤ LINE_BYTES }
    ensures { IsReadBackAsCall (answered_call client begin end task.now reply.now) }
{
    numbers_of_a_reply(reply);
    call_texts_are_read();
}

/// States that the written line of an undetermined call, with any reply, is no longer than a line
/// of a history may be, and is read back as the call.
pub fn an_undetermined_call_is_read(client: u32, begin: u64, task: &Task, reply: &Reply)
    requires in_range { is_task task.now ≡ true }
    requires fits { length (task_text task.now) ≤ LINE_BYTES }
    ensures { IsReadBackAsCall (undetermined client begin task.now reply.now) }
{
    numbers_of_a_reply(reply);
    call_texts_are_read();
}

/// States that the written line of a pending call whose reply is not known is no longer than a line
/// of a history may be, and is read back as the call.
pub fn a_call_never_answered_is_read(client: u32, begin: u64, task: &Task)
    requires in_range { is_task task.now ≡ true }
    requires fits { length (task_text task.now) ≤ LINE_BYTES }
    ensures { IsReadBackAsCall (unanswered client begin task.now) }
{
    call_texts_are_read();
}

/// States that the written history of some completed, undetermined and pending calls, one line for
/// each, has exactly these calls, and is legal if and only if their order is a linearization.
pub fn histories_are_read()
    ensures { HistoriesAreRead }
{
    a_verdict_finds_the_linearizations();
    call_texts_are_read();
}
