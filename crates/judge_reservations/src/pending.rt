//! The part of a pending call whose reply is unknown.

ghost use Rattle.std.specs.Prelude.{◌≡◌, count_by, nat_le};
ghost use Rattle.std.specs.List.{find, list_all};
ghost use Rattle.judge_reservations.specs.Pending as pending;
ghost use Rattle.judge_reservations.specs.Scopes.{allows};
ghost use Rattle.judge_reservations.specs.Tasks as spec;

use crate::calls::command_allowed;
use crate::scope::Scope;
use vac_model::{Command, Kind, Task};

/// Returns the part of a pending call of this task whose reply is unknown. If the call fits
/// (`pending_fits`), the part has the effect of the call on the scope, if the call took effect
/// there. Returns `None` if the call changes nothing of the scope.
pub fn pending_part(scope: &Scope, task: &Task) -> Option<Task>
    ensures { result ≡ pending.pending_part scope.now task.now }
{
    match task {
        Task::One(command) => {
            if command_changes(scope, command) {
                Some(Task::One(*command))
            } else {
                None
            }
        }
        Task::Trip { customer, .. } => {
            if scope.has_customer(*customer) {
                Some(Task::One(Command::NewCustomer { id: *customer }))
            } else {
                None
            }
        }
        Task::Leave { customer } => {
            if scope.has_customer(*customer) {
                Some(Task::Leave {
                    customer: *customer,
                })
            } else {
                None
            }
        }
        Task::Update { changes } => match first_change(scope, changes.as_slice()) {
            Some(change) => Some(Task::One(change)),
            None => None,
        },
    }
}

/// Returns whether a pending call of this task, whose reply is unknown, has a part.
pub(crate) fn pending_fits(scope: &Scope, task: &Task) -> bool
    ensures { result ≡ pending.pending_fits scope.now task.now }
{
    match task {
        Task::One(command) => command_allowed(scope, command),
        Task::Trip { customer, asks } => {
            all_allowed(scope, *customer, asks.as_slice())
                && (!scope.has_customer(*customer) || are_outside(scope, asks.as_slice()))
        }
        Task::Leave { .. } => true,
        Task::Update { changes } => has_few_changes(scope, changes.as_slice()),
    }
}

/// Returns the first of these commands that may change the part of a state.
fn first_change(scope: &Scope, changes: &[Command]) -> Option<Command>
    ensures { result ≡ find (spec.command_changes scope.now) changes.now }
{
    changes
        .iter()
        .copied()
        .find(|change| command_changes(scope, change))
}

/// Returns whether at most one of these commands may change the part of a state.
fn has_few_changes(scope: &Scope, changes: &[Command]) -> bool
    ensures { result ≡ nat_le (count_by (spec.command_changes scope.now) changes.now) 1 }
{
    changes
        .iter()
        .filter(|change| command_changes(scope, change))
        .count()
        <= 1
}

/// Returns whether a command may change the part of a state.
fn command_changes(scope: &Scope, command: &Command) -> bool
    ensures { result ≡ spec.command_changes scope.now command.now }
{
    match *command {
        Command::Add { kind, id, .. } | Command::Delete { kind, id, .. } => {
            scope.has_item(kind, id)
        }
        Command::DropFlight { id } => scope.has_item(Kind::Flight, id),
        Command::NewCustomer { id } | Command::DropCustomer { id } => scope.has_customer(id),
        Command::Reserve {
            customer,
            kind,
            id,
            ..
        }
        | Command::Cancel { customer, kind, id } => {
            scope.has_customer(customer) && scope.has_item(kind, id)
        }
        Command::Free { .. } | Command::Price { .. } | Command::Bill { .. } | Command::Audit => {
            false
        }
    }
}

/// Returns whether none of these items belongs to the scope.
fn are_outside(scope: &Scope, asks: &[(Kind, u32)]) -> bool
    ensures { result ≡ spec.are_outside scope.now asks.now }
{
    asks.iter().all(|ask| !scope.has_item(ask.0, ask.1))
}

/// Returns whether all bookings of these items by a customer are allowed.
fn all_allowed(scope: &Scope, customer: u32, asks: &[(Kind, u32)]) -> bool
    ensures { result ≡ list_all (λ ask. allows scope.now customer ask) asks.now }
{
    asks.iter().all(|ask| scope.allows(customer, ask.0, ask.1))
}
