//! Calls that have a part.

ghost use Rattle.std.specs.Prelude.{◌≡◌, ◌&&◌, option_copied};
ghost use Rattle.vac_model.specs.Ranges.{is_task};
ghost use Rattle.judge_reservations.specs.Tasks as spec;
ghost use Rattle.judge_reservations.specs.Histories.{reply_fits};

use crate::pending::pending_fits;
use crate::scope::Scope;
use crate::trips::trip_fits;
use vac_model::{Command, Task};

/// Returns whether a call of this task has a part, with this reply or with a reply that is not
/// known: the task can be submitted, and books nothing that the scope does not allow. If the reply
/// is not known, a trip of a customer of the scope has a part if it asks for no item of the scope,
/// and an update if at most one of its changes concerns the scope.
pub fn fits(scope: &Scope, task: &Task, reply: Option<&[u8]>) -> bool
    ensures { result
        ≡ (is_task task.now && reply_fits scope.now task.now (option_copied reply.entry)) }
{
    task.is_in_range() && reply_allowed(scope, task, reply)
}

/// As `fits`, for a task that can be submitted.
fn reply_allowed(scope: &Scope, task: &Task, reply: Option<&[u8]>) -> bool
    ensures { result ≡ reply_fits scope.now task.now (option_copied reply.entry) }
{
    match (task, reply) {
        (Task::One(command), Some(text)) => {
            text != b"true".as_slice() || command_allowed(scope, command)
        }
        (Task::Trip { customer, .. }, Some(text)) => trip_fits(scope, *customer, text),
        (Task::Leave { .. } | Task::Update { .. }, Some(_)) => true,
        (_, None) => pending_fits(scope, task),
    }
}

/// Returns whether all that a command may book leaves closed items closed and whole customers
/// whole.
pub(crate) fn command_allowed(scope: &Scope, command: &Command) -> bool
    ensures { result ≡ spec.command_allowed scope.now command.now }
{
    match *command {
        Command::Reserve {
            customer,
            kind,
            id,
            ..
        } => scope.allows(customer, kind, id),
        _ => true,
    }
}
