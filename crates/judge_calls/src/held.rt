//! Judging a history that is checked against a workload.

ghost use Rattle.std.specs.Prelude.{◌≡◌, ◌≢◌, ◌≤◌, IfOk, IfErr, List, Some};
ghost use Rattle.judge_calls.specs.Work.{Asked, comes_first, held_against_work, workload_verdict};
ghost use Rattle.judge_calls.specs.Work.{workload_verdict_text, is_whole};
ghost use Rattle.judge_calls.specs.Holding.{IsWork};
ghost use Rattle.judge_calls.specs.HeldReading.{IsReadWhole, HasChecked, HasStoppedChecking};

use crate::holding::{check_calls, first_missing};
use crate::reading::judge_input;
use crate::verdict::Verdict;
use crate::work::{Workload, read_workload};
use std::alloc::Global;
use std::fmt;
use std::fmt::{Display, Formatter};
use std::io::{ErrorKind, Read, Write};
use vac_lines::{StreamFault, print, write_and_flush};
use vac_model::limits::MOST_BLOCKS;

/// The verdict on a history that is checked against a workload. Lines are numbered from 1.
#[derive(Clone, Copy, Debug, PartialEq, Eq)]
pub enum WorkloadVerdict {
    /// The verdict on the history alone. If that verdict is legal, the history covers the
    /// workload, except for the tasks of a client after its pending call.
    Judged(Verdict),
    /// A line of the workload gives no task.
    BadTasks { line: u64 },
    /// The call of a line of the history does not submit the next task of its client.
    Foreign { line: u64 },
    /// No call submits the task with this number among the tasks of a client, counted from 1.
    Missing { client: u32, number: u64 },
}

/// Returns whether a line comes before the line that a verdict names, or is that line. A legal
/// verdict names no line, and any line comes first.
fn comes_first(line: u64, verdict: &Verdict) -> bool
    ensures { result ≡ comes_first line verdict.now }
{
    match verdict {
        Verdict::Legal(_) => true,
        Verdict::Fault { line: named, .. } => line <= *named,
        Verdict::Illegal { line: named, .. } => line <= *named,
    }
}

/// Judges the text of a history, checked against a workload.
pub(crate) fn check_history(
    alloc: Global,
    blocks: u32,
    work: &Workload,
    history: &[u8],
) -> Result<WorkloadVerdict, StreamFault>
    requires some { 1 ≤ blocks }
    requires most { blocks ≤ MOST_BLOCKS }
    ensures held { IfOk result (λ verdict. (asked : List Asked) → IsWork work.now asked →
        verdict ≡ held_against_work blocks asked history.now) }
    ensures fault { IfErr result (λ fault. fault ≢ StreamFault.Write) }
{
    let mut input = history;
    let verdict = judge_input(alloc, blocks, &mut input)?;
    let (held, foreign) = check_calls(alloc, work, history)?;
    if let Some(line) = foreign {
        if comes_first(line, &verdict) {
            return Ok(WorkloadVerdict::Foreign { line });
        }
        return Ok(WorkloadVerdict::Judged(verdict));
    }
    if let Verdict::Legal(_) = verdict {
        if let Some((client, number)) = first_missing(alloc, work, &held)? {
            return Ok(WorkloadVerdict::Missing { client, number });
        }
    }
    Ok(WorkloadVerdict::Judged(verdict))
}

/// Judges the text of a history, checked against the text of the workload.
fn hold(
    alloc: Global,
    blocks: u32,
    tasks: &[u8],
    history: &[u8],
) -> Result<WorkloadVerdict, StreamFault>
    requires some { 1 ≤ blocks }
    requires most { blocks ≤ MOST_BLOCKS }
    ensures held { IfOk result (λ verdict. verdict ≡ workload_verdict blocks tasks.now
        history.now) }
    ensures fault { IfErr result (λ fault. fault ≢ StreamFault.Write) }
{
    match read_workload(alloc, tasks)? {
        Ok(work) => check_history(alloc, blocks, &work, history),
        Err(line) => Ok(WorkloadVerdict::BadTasks { line }),
    }
}

/// The verdict, as a line, or as the two lines of a legal history.
impl Display for WorkloadVerdict {
    ghost output = { λ verdict. Some (workload_verdict_text verdict) };

    fn fmt<W: fmt::Write>(&self, f: &mut Formatter<W>) -> fmt::Result {
        match self {
            WorkloadVerdict::Judged(verdict) => write!(f, "{verdict}"),
            WorkloadVerdict::BadTasks { line } => write!(f, "fault bad-tasks {line}\n"),
            WorkloadVerdict::Foreign { line } => write!(f, "illegal task {line}\n"),
            WorkloadVerdict::Missing { client, number } => {
                write!(f, "illegal missing {client} {number}\n")
            }
        }
    }
}

/// Returns whether the verdict is that the history is legal and covers the workload, except for
/// the tasks of a client after its pending call.
pub(crate) fn is_whole(verdict: &WorkloadVerdict) -> bool
    ensures { result ≡ is_whole verdict.now }
{
    matches!(verdict, WorkloadVerdict::Judged(Verdict::Legal(_)))
}

/// Reads an input to its end.
pub fn read_all<R: Read>(alloc: Global, input: &mut R) -> Result<Vec<u8>, StreamFault>
    ensures bytes { IfOk result (λ bytes.
        IsReadWhole (R.remaining input.old) (R.remaining input.new) bytes.items) }
    ensures fault { IfErr result (λ fault. fault ≢ StreamFault.Write) }
{
    let mut bytes = Vec::new(alloc);
    match input.read_to_end(&mut bytes) {
        Ok(_) => Ok(bytes),
        Err(error) if error.kind() == ErrorKind::OutOfMemory => Err(StreamFault::Memory),
        Err(_) => Err(StreamFault::Read),
    }
}

/// Judges a history of a system of `blocks` blocks and checks it against a workload of lines
/// `CLIENT LINE`: reads both to their ends, and writes the verdict. Returns whether the history is
/// legal and covers the workload, except for the tasks of a client after its pending call.
///
/// Each pending call must have its line too: if the line of a pending call is left out, its task
/// counts as missing.
///
/// After a fault of the output a prefix of the verdict's text was written, after any other fault
/// nothing.
/// Not said: how much memory the function takes. It keeps both texts in memory as a whole.
pub fn judge_with_workload<V: Read, R: Read, W: Write>(
    alloc: Global,
    blocks: u32,
    tasks: &mut V,
    input: &mut R,
    output: &mut W,
) -> Result<bool, StreamFault>
    requires some { 1 ≤ blocks }
    requires most { blocks ≤ MOST_BLOCKS }
    ensures ok { IfOk result (λ legal. HasChecked blocks legal
        (V.remaining tasks.old) (V.remaining tasks.new)
        (R.remaining input.old) (R.remaining input.new)
        (W.contents output.old) (W.contents output.new)) }
    ensures err { IfErr result (λ fault. HasStoppedChecking blocks fault
        (V.remaining tasks.old) (V.remaining tasks.new)
        (R.remaining input.old) (R.remaining input.new)
        (W.contents output.old) (W.contents output.new)) }
{
    let work = read_all(alloc, tasks)?;
    let history = read_all(alloc, input)?;
    let verdict = hold(alloc, blocks, work.as_slice(), history.as_slice())?;
    let mut text = Vec::new(alloc);
    print(verdict, &mut text)?;
    write_and_flush(output, text.as_slice())?;
    Ok(is_whole(&verdict))
}
