//! The reservation system as a sequential object.

ghost use Rattle.std.specs.Prelude.{◌≡◌, ◌≤◌, ◌↔◌, true, IfOk};
ghost use Rattle.vac_model.specs.State.{empty_state};
ghost use Rattle.judge_reservations.specs.Reserving.{reserving};

use judge_object::Object;
use std::alloc::{AllocError, Global};
use std::marker::Model;
use vac_lines::append;
use vac_model::limits::MOST_BLOCKS;
use vac_model::{Reply, ValidTask};
use vac_sequential::{Sequential, SequentialFault};

/// A state of the reservation system, as a sequential object. Contracts see the state.
#[derive(Drop)]
pub struct Reservations {
    manager: Sequential,
}

impl Model for Reservations {
    ghost use Rattle.vac_model.specs.State.{State};
    ghost use Rattle.vac_model.specs.Coded.{state_coded};

    ghost Value = { State };

    ghost coded = { state_coded };

    ghost view = { λ r. r.manager };
}

impl Reservations {
    /// Returns the state without entries of a system of `blocks` blocks.
    pub fn new(alloc: Global, blocks: u32) -> Result<Reservations, SequentialFault>
        ensures { IfOk result (λ made. made ≡ empty_state blocks) }
    {
        Ok(Reservations {
            manager: Sequential::new(alloc, blocks)?,
        })
    }

    /// Returns the state without entries of a system of `blocks` blocks. The number of blocks is in
    /// range, so the one refusal left is that of memory.
    pub fn empty(alloc: Global, blocks: u32) -> Result<Reservations, AllocError>
        requires some { 1 ≤ blocks }
        requires most { blocks ≤ MOST_BLOCKS }
        ensures { IfOk result (λ machine. machine ≡ empty_state blocks) }
    {
        match Reservations::new(alloc, blocks) {
            Ok(machine) => Ok(machine),
            Err(_) => Err(AllocError),
        }
    }

    /// Returns whether both states are equal.
    pub fn equals(&self, other: &Reservations) -> bool
        ensures { (result ≡ true) ↔ (self.now ≡ other.now) }
    {
        self.manager.is_same(&other.manager)
    }
}

impl Object for Reservations {
    type Op = ValidTask;

    type Reply = Reply;

    ghost rules = { reserving };

    fn copy(&self) -> Result<Reservations, AllocError> {
        Ok(Reservations {
            manager: self.manager.copy()?,
        })
    }

    fn made(self, op: &ValidTask) -> Result<(Reservations, Reply), AllocError> {
        match self.manager.after(op.task()) {
            Ok((manager, reply)) => Ok((Reservations { manager }, reply)),
            Err(SequentialFault::Memory) => Err(AllocError),
            Err(SequentialFault::Arguments) => unreachable!(),
        }
    }

    fn is_same(&self, other: &Reservations) -> bool {
        self.equals(other)
    }

    fn hash(&self) -> u64 {
        self.manager.hash()
    }

    fn print(reply: &Reply, out: &mut Vec<u8>) -> Result<(), AllocError> {
        append(reply, out)
    }
}
