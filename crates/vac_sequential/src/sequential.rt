//! The plain manager: one task at a time, over maps whose versions share their entries.

ghost use Rattle.std.specs.Prelude.{◌≡◌, ◌≤◌, ◌<◌, ◌↔◌, false, true, IfOk, OnOk, OnErr};

use crate::tables::Tables;
use std::alloc::{AllocError, Global};
use std::marker::Model;
use thiserror::Error;
use vac_model::limits::MOST_BLOCKS;
use vac_model::{Reply, Report, Task};

/// The reason why the plain manager refused a task.
#[derive(Clone, Copy, Debug, Error)]
pub enum SequentialFault {
    /// A number is out of its range, or the task cannot be issued.
    #[error("arguments out of range")]
    Arguments,
    /// Memory was refused.
    #[error("out of memory")]
    Memory,
}

/// The plain manager of reservations. Contracts see it as its state, which is balanced.
#[derive(Drop)]
pub struct Sequential {
    tables: Tables,
}

impl Model for Sequential {
    ghost use Rattle.vac_model.specs.State.{State};
    ghost use Rattle.vac_model.specs.Coded.{state_coded};
    ghost use Rattle.vac_model.specs.Fits.{IsSmall};

    ghost Value = { State };

    ghost coded = { state_coded };

    ghost view = { λ s. s.tables };

    ghost invariant = { λ s. IsSmall s.tables };
}

impl Sequential {
    ghost use Rattle.vac_model.specs.State.{empty_state, report};
    ghost use Rattle.vac_model.specs.Ranges.{is_task};
    ghost use Rattle.vac_model.specs.Run as tasks;
    ghost use Rattle.vac_model.specs.Balanced.{IsBalanced};

    /// Returns a manager without entries, with room for `blocks` entries, 1 to 262,144.
    pub fn new(alloc: Global, blocks: u32) -> Result<Sequential, SequentialFault>
        ensures ok { IfOk result (λ manager. manager ≡ empty_state blocks) }
        ensures in_range { OnOk result ((1 ≤ blocks) × (blocks ≤ MOST_BLOCKS)) }
        ensures arguments { OnErr result (result ≡ Err SequentialFault.Arguments) }
        ensures out_of_range { OnErr result ((1 ≤ blocks) × (blocks ≤ MOST_BLOCKS) → ⊥) }
    {
        if blocks < 1 || MOST_BLOCKS < blocks {
            return Err(SequentialFault::Arguments);
        }
        Ok(Sequential {
            tables: Tables::new(alloc, blocks as u64),
        })
    }

    /// Returns a copy of the state that shares its entries. Fails only if memory is refused.
    pub fn copy(&self) -> Result<Sequential, AllocError>
        ensures { IfOk result (λ copy. copy ≡ self.now) }
    {
        Ok(Sequential {
            tables: self.tables.copy()?,
        })
    }

    /// Returns whether two managers have the same state. If they have, the comparison visits all
    /// entries.
    pub fn is_same(&self, other: &Sequential) -> bool
        ensures same { result ≡ true → self.now ≡ other.now }
        ensures found { self.now ≡ other.now → result ≡ true }
    {
        self.tables.is_same(&other.tables)
    }

    /// Returns a stored hash, with which searches find states that may be equal.
    ///
    /// Not said: anything about the hash.
    pub fn hash(&self) -> u64 {
        self.tables.hash()
    }

    /// Runs a task. A task that cannot be issued is refused before anything else. If memory is
    /// refused, nothing has changed.
    pub fn run(&mut self, task: &Task) -> Result<Reply, SequentialFault>
        ensures ok { IfOk result (λ reply. tasks.run self.old task.now ≡ (self.new, reply)) }
        ensures err { OnErr result (self.new ≡ self.old) }
        ensures arguments { (result ≡ Err SequentialFault.Arguments) ↔ (is_task task.now ≡ false) }
        ensures was_balanced { IsBalanced self.old }
        ensures balanced { IsBalanced self.new }
    {
        let tables = &self.tables;
        if !task.is_in_range() {
            return Err(SequentialFault::Arguments);
        }
        let Ok(mut next) = tables.copy() else {
            return Err(SequentialFault::Memory);
        };
        let Ok(reply) = next.run(task) else {
            return Err(SequentialFault::Memory);
        };
        self.tables = next;
        Ok(reply)
    }

    /// Returns the manager after a task, and the reply. A task that cannot be issued is refused
    /// before anything else. A refusal consumes the manager, so a caller who still needs it copies
    /// it first.
    ///
    /// Not said: which parts are copied. Nodes of a table, items and bookings that no other
    /// manager shares are changed in place.
    pub fn after(self, task: &Task) -> Result<(Sequential, Reply), SequentialFault>
        ensures ok { IfOk result (λ made. tasks.run self task.now ≡ (made.0, made.1)) }
        ensures arguments { (result ≡ Err SequentialFault.Arguments) ↔ (is_task task.now ≡ false) }
        ensures was_balanced { IsBalanced self }
        ensures balanced { IfOk result (λ made. IsBalanced made.0) }
    {
        if !task.is_in_range() {
            return Err(SequentialFault::Arguments);
        }
        let Sequential { mut tables } = self;
        let Ok(reply) = tables.run(task) else {
            return Err(SequentialFault::Memory);
        };
        Ok((Sequential { tables }, reply))
    }

    /// Returns the report of the state.
    pub fn report(&self) -> Report
        ensures report { result ≡ report self.now }
        ensures balanced { IsBalanced self.now }
    {
        self.tables.report()
    }
}
