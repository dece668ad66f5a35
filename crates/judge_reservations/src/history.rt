//! The part of a history, and the calls that have parts.

ghost use Rattle.std.specs.Prelude.{◌≡◌, ◌++◌, [], map, is_some, true, IfOk, OnOk};
ghost use Rattle.std.specs.List.{filter_map, cons_option};
ghost use Rattle.std.specs.Option.{option_map};
ghost use Rattle.vac_model.specs.Ranges.{is_task};
ghost use Rattle.judge_object.specs.Rules.{given_text};
ghost use Rattle.judge_reservations.specs.Histories.{part_of_history};
ghost use Rattle.judge_reservations.specs.Lines as spec;

use crate::answers::task_part;
use crate::calls::fits;
use crate::pending::pending_part;
use crate::scope::Scope;
use judge_object::{Line, NEVER};
use std::alloc::{AllocError, Global};
use vac_model::{Task, ValidTask};

/// Returns whether the call of a line has a part, books nothing that the scope does not allow, and
/// is timed.
pub fn has_part(scope: &Scope, line: &Line<ValidTask>) -> bool
    ensures { result ≡ spec.has_part scope.now (spec.call_of line.now) }
{
    u128::from(line.begin) < NEVER
        && match &line.reply {
            Some(text) => fits(scope, line.op.task(), Some(text.as_slice())),
            None => NEVER <= line.end && fits(scope, line.op.task(), None),
        }
}

/// Returns the part of a history on a scope: the parts of its calls, in the order of the lines,
/// each with the number of its line in the history. The part of a pending call is pending, and its
/// reply is known if the reply of the call is. The lines of the part have no text. The part shows
/// something of the history only if all its calls have parts that fit (`has_part`).
pub fn part_of_history(
    alloc: Global,
    scope: &Scope,
    lines: &[Line<ValidTask>],
) -> Result<Vec<Line<ValidTask>>, AllocError>
    ensures lines { IfOk result (λ part.
        map spec.numbered part.items ≡ filter_map (spec.line_part scope.now) lines.now) }
    ensures calls { IfOk result (λ part.
        spec.calls_of part.items ≡ part_of_history scope.now (spec.calls_of lines.now)) }
{
    let mut part = Vec::new(alloc);
    'lines: for at in 0..lines.len() {
        take_line(&mut part, line_part(alloc, scope, &lines[at])?)?;
    }
    Ok(part)
}

/// Takes one more line, if there is one.
fn take_line(
    part: &mut Vec<Line<ValidTask>>,
    line: Option<Line<ValidTask>>,
) -> Result<(), AllocError>
    ensures { OnOk result (map spec.numbered part.new.items
        ≡ map spec.numbered part.old.items ++ cons_option (option_map spec.numbered line) []) }
{
    if let Some(line) = line {
        part.push(line)?;
    }
    Ok(())
}

/// Returns the part of the call of a line.
fn line_part(
    alloc: Global,
    scope: &Scope,
    line: &Line<ValidTask>,
) -> Result<Option<Line<ValidTask>>, AllocError>
    ensures { IfOk result (λ part.
        option_map spec.numbered part ≡ spec.line_part scope.now line.now) }
{
    match &line.reply {
        Some(text) => match task_part(alloc, scope, line.op.task(), text.as_slice())? {
            Some(part) => Ok(Some(with_task(alloc, line, part.task, Some(part.text)))),
            None => Ok(None),
        },
        None => match pending_part(scope, line.op.task()) {
            Some(task) => Ok(Some(with_task(alloc, line, task, None))),
            None => Ok(None),
        },
    }
}

/// Returns the call of a line with another task and another reply.
fn with_task(
    alloc: Global,
    line: &Line<ValidTask>,
    task: Task,
    reply: Option<Vec<u8>>,
) -> Line<ValidTask>
    requires task { is_task task ≡ true }
    requires reply { is_some reply ≡ is_some line.now.reply }
    ensures number { result.number ≡ line.now.number }
    ensures client { result.client ≡ line.now.client }
    ensures begin { result.begin ≡ line.now.begin }
    ensures end { result.end ≡ line.now.end }
    ensures task { result.op ≡ task }
    ensures reply { given_text result.reply ≡ given_text reply }
{
    Line {
        number: line.number,
        text: Vec::new(alloc),
        client: line.client,
        begin: line.begin,
        end: line.end,
        op: ValidTask::new(task),
        reply,
        soonest: line.begin,
    }
}
