//! Checking a history against a workload in an order that was found for its calls.

ghost use Rattle.std.specs.Prelude.{◌≡◌, ◌≢◌, ◌≤◌, IfOk, IfErr, List, Some, map};
ghost use Rattle.vac_lines.specs.Lines.{lines_of};
ghost use Rattle.judge_calls.specs.Call.{line_call};
ghost use Rattle.judge_calls.specs.Work.{Asked};
ghost use Rattle.judge_calls.specs.Holding.{IsWork};
ghost use Rattle.judge_calls.specs.AnyOrder.{line_of_call, told_by_lines, order_against_work};
ghost use Rattle.judge_calls.specs.AnyOrder.{order_verdict, order_verdict_text, is_covered};
ghost use Rattle.judge_calls.specs.AnyOrder.{HasCheckedOrder, HasStoppedCheckingOrder};

use crate::call::read_call;
use crate::fault::CallFault;
use crate::held::{WorkloadVerdict, check_history, is_whole, read_all};
use crate::holding::check_calls;
use crate::work::{Workload, next_line, read_workload};
use std::alloc::Global;
use std::fmt;
use std::fmt::{Display, Formatter};
use std::io::{Read, Write};
use vac_lines::{LineFault, StreamFault, print, write_and_flush};
use vac_model::limits::MOST_BLOCKS;

/// The verdict on an order of a history's calls that is checked against a workload. Lines are the
/// lines of the history, and are numbered from 1.
#[derive(Clone, Copy, Debug, PartialEq, Eq)]
pub enum OrderVerdict {
    /// The verdict on the order as a history of its own. A task that is missing is submitted by no
    /// call of the history.
    Held(WorkloadVerdict),
    /// The order leaves out the pending call of a line, so that the task of the call is missing.
    LeftOut { line: u64 },
}

/// Returns the line of a client's call that has this many calls of the client before it, if the
/// history has such a call.
fn find_call(
    alloc: Global,
    history: &[u8],
    client: u32,
    before: u64,
) -> Result<Option<u64>, StreamFault>
    ensures line { IfOk result (λ found. found ≡
        line_of_call client before 1 (map line_call (lines_of history.now))) }
    ensures fault { IfErr result (λ fault. fault ≢ StreamFault.Write) }
{
    let mut rest = history;
    let mut left = before;
    let mut number: u64 = 1;
    while let Some((line, behind)) = next_line(rest) {
        let call = match read_call(alloc, line) {
            Ok(call) => call,
            Err(CallFault::Line(LineFault::Memory)) => return Err(StreamFault::Memory),
            Err(_) => return Ok(None),
        };
        if call.client == client {
            if left == 0 {
                return Ok(Some(number));
            }
            left -= 1;
        }
        number = number.checked_add(1).ok_or(StreamFault::Bound)?;
        rest = behind;
    }
    Ok(None)
}

/// Returns the verdict on an order in terms of the lines of the history.
fn tell_by_lines(
    alloc: Global,
    history: &[u8],
    verdict: WorkloadVerdict,
) -> Result<OrderVerdict, StreamFault>
    ensures told { IfOk result (λ told. told ≡
        told_by_lines (map line_call (lines_of history.now)) verdict) }
    ensures fault { IfErr result (λ fault. fault ≢ StreamFault.Write) }
{
    let WorkloadVerdict::Missing { client, number } = verdict else {
        return Ok(OrderVerdict::Held(verdict));
    };
    match find_call(alloc, history, client, number.saturating_sub(1))? {
        Some(line) => Ok(OrderVerdict::LeftOut { line }),
        None => Ok(OrderVerdict::Held(verdict)),
    }
}

/// Judges a history and the text of an order of its calls, checked against a workload.
fn check_order(
    alloc: Global,
    blocks: u32,
    work: &Workload,
    history: &[u8],
    order: &[u8],
) -> Result<OrderVerdict, StreamFault>
    requires some { 1 ≤ blocks }
    requires most { blocks ≤ MOST_BLOCKS }
    ensures held { IfOk result (λ verdict. (asked : List Asked) → IsWork work.now asked →
        verdict ≡ order_against_work blocks asked history.now order.now) }
    ensures fault { IfErr result (λ fault. fault ≢ StreamFault.Write) }
{
    let (_, foreign) = check_calls(alloc, work, history)?;
    if let Some(line) = foreign {
        return Ok(OrderVerdict::Held(WorkloadVerdict::Foreign { line }));
    }
    let verdict = check_history(alloc, blocks, work, order)?;
    tell_by_lines(alloc, history, verdict)
}

/// Judges a history and the text of an order of its calls, checked against the text of a workload.
fn hold_order(
    alloc: Global,
    blocks: u32,
    tasks: &[u8],
    history: &[u8],
    order: &[u8],
) -> Result<OrderVerdict, StreamFault>
    requires some { 1 ≤ blocks }
    requires most { blocks ≤ MOST_BLOCKS }
    ensures held { IfOk result (λ verdict.
        verdict ≡ order_verdict blocks tasks.now history.now order.now) }
    ensures fault { IfErr result (λ fault. fault ≢ StreamFault.Write) }
{
    match read_workload(alloc, tasks)? {
        Ok(work) => check_order(alloc, blocks, &work, history, order),
        Err(line) => Ok(OrderVerdict::Held(WorkloadVerdict::BadTasks { line })),
    }
}

impl Display for OrderVerdict {
    ghost output = { λ verdict. Some (order_verdict_text verdict) };

    fn fmt<W: fmt::Write>(&self, f: &mut Formatter<W>) -> fmt::Result {
        match self {
            OrderVerdict::Held(verdict) => write!(f, "{verdict}"),
            OrderVerdict::LeftOut { line } => write!(f, "illegal pending {line}\n"),
        }
    }
}

/// Returns whether the verdict is that the order is legal and covers the workload.
fn is_covered(verdict: &OrderVerdict) -> bool
    ensures { result ≡ is_covered verdict.now }
{
    match verdict {
        OrderVerdict::Held(verdict) => is_whole(verdict),
        OrderVerdict::LeftOut { .. } => false,
    }
}

/// Checks a history of a system of `blocks` blocks against a workload of lines `CLIENT LINE`, in
/// an order that was found for its calls: `order` has the lines of the calls in this order. Reads
/// the workload to its end, and writes the verdict. Returns whether the order is a linearization
/// whose calls are the whole workload, except for the tasks of a client after its pending call.
///
/// After a fault of the output a prefix of the verdict's text was written, after any other fault
/// nothing.
pub fn judge_order_with_workload<V: Read, W: Write>(
    alloc: Global,
    blocks: u32,
    tasks: &mut V,
    history: &[u8],
    order: &[u8],
    output: &mut W,
) -> Result<bool, StreamFault>
    requires some { 1 ≤ blocks }
    requires most { blocks ≤ MOST_BLOCKS }
    ensures ok { IfOk result (λ covered. HasCheckedOrder blocks covered
        (V.remaining tasks.old) (V.remaining tasks.new) history.now order.now
        (W.contents output.old) (W.contents output.new)) }
    ensures err { IfErr result (λ fault. HasStoppedCheckingOrder blocks fault
        (V.remaining tasks.old) (V.remaining tasks.new) history.now order.now
        (W.contents output.old) (W.contents output.new)) }
{
    let work = read_all(alloc, tasks)?;
    let verdict = hold_order(alloc, blocks, work.as_slice(), history, order)?;
    let mut text = Vec::new(alloc);
    print(verdict, &mut text)?;
    write_and_flush(output, text.as_slice())?;
    Ok(is_covered(&verdict))
}
