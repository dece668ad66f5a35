//! The calls of a history without the order that a level does not keep.

ghost use Rattle.std.specs.Prelude.{◌≡◌, IfOk};
ghost use Rattle.judge_object.specs.Rules.{given_text};
ghost use Rattle.judge_linear.specs.Relaxed.{IsCopy, IsRelaxedLine};
ghost use Rattle.judge_linear.specs.Relaxed.{AreRelaxedLines, AreRelaxedCalls};

use judge_object::{Level, Line, relaxed_line};
use judge_search::Calls;
use std::alloc::{AllocError, Global};
use vac_model::{Task, ValidTask};

/// Returns a copy of a task.
fn copied_task(alloc: Global, task: &Task) -> Result<Task, AllocError>
    ensures { IfOk result (λ copy. copy ≡ task.now) }
{
    match task {
        Task::One(command) => Ok(Task::One(*command)),
        Task::Trip { customer, asks } => Task::trip(alloc, *customer, asks.as_slice()),
        Task::Leave { customer } => Ok(Task::Leave {
            customer: *customer,
        }),
        Task::Update { changes } => Task::update(alloc, changes.as_slice()),
    }
}

/// Returns a copy of the reply of a call, if there is one.
fn copied_reply(alloc: Global, reply: &Option<Vec<u8>>) -> Result<Option<Vec<u8>>, AllocError>
    ensures { IfOk result (λ copy. given_text copy ≡ given_text reply.now) }
{
    match reply {
        Some(text) => Ok(Some(Vec::from_slice(alloc, text.as_slice())?)),
        None => Ok(None),
    }
}

/// Returns a copy of a line.
pub(crate) fn copied_line(
    alloc: Global,
    line: &Line<ValidTask>,
) -> Result<Line<ValidTask>, AllocError>
    ensures { IfOk result (IsCopy line.now) }
{
    let task = copied_task(alloc, line.op.task())?;
    let reply = copied_reply(alloc, &line.reply)?;
    Ok(Line {
        number: line.number,
        text: Vec::from_slice(alloc, line.text.as_slice())?,
        client: line.client,
        begin: line.begin,
        end: line.end,
        op: ValidTask::new(task),
        reply,
        soonest: line.soonest,
    })
}

/// Returns a copy of a line, without the order that the level does not keep.
fn relaxed_copy(
    alloc: Global,
    level: Level,
    line: &Line<ValidTask>,
) -> Result<Line<ValidTask>, AllocError>
    ensures { IfOk result (IsRelaxedLine level line.now) }
{
    match relaxed_line(level, copied_line(alloc, line)?) {
        Some(relaxed) => Ok(relaxed),
        None => Err(AllocError),
    }
}

/// Returns copies of the lines, without the order that the level does not keep.
fn relaxed_lines(
    alloc: Global,
    level: Level,
    lines: &[Line<ValidTask>],
) -> Result<Vec<Line<ValidTask>>, AllocError>
    ensures { IfOk result (λ relaxed. AreRelaxedLines level lines.now relaxed.items) }
{
    let mut relaxed = Vec::new(alloc);
    'lines: for at in 0..lines.len() {
        relaxed.push(relaxed_copy(alloc, level, &lines[at])?)?;
    }
    Ok(relaxed)
}

/// Returns the calls of the lines without the order that the level does not keep, as a search keeps
/// them. A history of so many lines that they are not numbers of clients is refused as one that is
/// too large for the memory.
pub(crate) fn relaxed_calls(
    alloc: Global,
    level: Level,
    lines: &[Line<ValidTask>],
) -> Result<Calls<ValidTask>, AllocError>
    ensures { IfOk result (AreRelaxedCalls level lines.now) }
{
    let relaxed = relaxed_lines(alloc, level, lines)?;
    Calls::new(alloc, relaxed)
}
