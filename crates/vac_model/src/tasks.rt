//! Tasks, which clients submit.

ghost use Rattle.std.specs.Prelude.{◌≡◌, ◌≤◌, ◌&&◌, IfOk, IsOk, length};
ghost use Rattle.std.specs.List.{list_all};
ghost use Rattle.vac_model.specs.Amounts as amounts;
ghost use Rattle.vac_model.specs.Ranges.{is_change, is_command, is_task};

use crate::commands::{Command, is_id};
use crate::items::Kind;
use crate::limits::MOST_PARTS;
use smallvec::SmallVec;
use std::alloc::{AllocError, Global};
use std::marker::Model;

/// Largest number of asks that are stored without an allocation.
pub const INLINE_ASKS: usize = 8;

/// Largest number of changes that are stored without an allocation.
pub const INLINE_CHANGES: usize = 4;

/// The asks of a trip, in order.
#[derive(Drop)]
pub struct Asks {
    items: SmallVec<(Kind, u32), INLINE_ASKS>,
}

impl Model for Asks {
    ghost use Rattle.std.specs.Prelude.{List, ℕ};
    ghost use Rattle.vac_model.specs.declared.items.Kind.{Kind};

    ghost Value = { List (Kind × ℕ) };

    ghost view = { λ a. a.items.items };
}

impl Asks {
    /// Returns the asks as a slice.
    pub fn as_slice(&self) -> &[(Kind, u32)]
        ensures { result.now ≡ self.now }
    {
        self.items.as_slice()
    }
}

/// The changes of an update, in order.
#[derive(Drop)]
pub struct Changes {
    commands: SmallVec<Command, INLINE_CHANGES>,
}

impl Model for Changes {
    ghost use Rattle.std.specs.Prelude.{List};
    ghost use Rattle.vac_model.specs.declared.commands.Command.{Command};

    ghost Value = { List Command };

    ghost view = { λ a. a.commands.items };
}

impl Changes {
    /// Returns the changes as a slice.
    pub fn as_slice(&self) -> &[Command]
        ensures { result.now ≡ self.now }
    {
        self.commands.as_slice()
    }
}

/// A task, which a client submits: all of it happens, or nothing.
#[derive(Drop)]
pub enum Task {
    /// One command.
    One(Command),
    /// Books one unit of the dearest item of each kind among the asks, for this customer.
    Trip { customer: u32, asks: Asks },
    /// Returns the bill of the customer and deletes the customer.
    Leave { customer: u32 },
    /// Changes the tables, one change after the other.
    Update { changes: Changes },
}

impl Task {
    /// Returns whether the task is valid: its numbers are in their ranges, and an update has only
    /// changes of the tables. A trip has 1 to 32 asks, an update 1 to 32 changes.
    pub fn is_in_range(&self) -> bool
        ensures { result ≡ is_task self.now }
    {
        match self {
            Task::One(command) => command.is_in_range(),
            Task::Trip { customer, asks } => {
                let asks = asks.as_slice();
                is_id(*customer) && is_list_length(asks.len()) && have_ids(asks)
            }
            Task::Leave { customer } => is_id(*customer),
            Task::Update { changes } => {
                let changes = changes.as_slice();
                is_list_length(changes.len()) && are_changes(changes)
            }
        }
    }

    /// Returns a trip with these asks. Fails only if memory is refused; up to eight asks need no
    /// memory.
    #[inline(always)]
    pub fn trip(alloc: Global, customer: u32, asks: &[(Kind, u32)]) -> Result<Task, AllocError>
        ensures ok { IfOk result (λ task. task ≡ Task.Trip customer asks.now) }
        ensures inline { length asks.now ≤ INLINE_ASKS → IsOk result }
    {
        let items = SmallVec::from_slice(alloc, asks)?;
        Ok(Task::Trip {
            customer,
            asks: Asks { items },
        })
    }

    /// Returns an update with these changes. Fails only if memory is refused; up to four changes
    /// need no memory.
    pub fn update(alloc: Global, changes: &[Command]) -> Result<Task, AllocError>
        ensures ok { IfOk result (λ task. task ≡ Task.Update changes.now) }
        ensures inline { length changes.now ≤ INLINE_CHANGES → IsOk result }
    {
        let commands = SmallVec::from_slice(alloc, changes)?;
        Ok(Task::Update {
            changes: Changes { commands },
        })
    }
}

fn is_list_length(len: usize) -> bool
    ensures { result ≡ amounts.is_list_length len }
{
    1 <= len && len <= MOST_PARTS
}

fn have_ids(asks: &[(Kind, u32)]) -> bool
    ensures { result ≡ list_all (λ ask. amounts.is_id ask.1) asks.now }
{
    asks.iter().all(|ask| is_id(ask.1))
}

fn are_changes(changes: &[Command]) -> bool
    ensures { result ≡ list_all (λ c. is_change c && is_command c) changes.now }
{
    changes
        .iter()
        .all(|change| change.is_change() && change.is_in_range())
}
