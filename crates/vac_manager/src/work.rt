//! The body of a task.

ghost use Rattle.std.specs.Prelude.{◌≡◌, true};
ghost use Rattle.vac_model.specs.Ranges.{is_task};

use crate::law::Vacation;
use stm_object::Body;
use tx_alloc::FreeList;
use tx_memory::{TxMem, TxRead};
use vac_model::{Reply, Task};
use vac_tasks::{only_reads, read_task, run_task};

/// A task that can be issued, as the body of a transaction. New entries take their blocks from
/// free list `start` first.
#[derive(Drop)]
pub(crate) struct TaskBody<'a> {
    pub(crate) task: &'a Task,
    pub(crate) start: FreeList,
    ghost range: { is_task task.now ≡ true },
}

impl<'a> Body<Vacation> for TaskBody<'a> {
    ghost use Rattle.std.specs.Prelude.{not};
    ghost use Rattle.vac_tasks.specs.Reading as reading;
    ghost use Rattle.vac_manager.specs.Called.{changes_nothing};

    type Answer = Reply;

    ghost reads = { λ w. reading.only_reads w.task.now };

    ghost entry_of = { λ w reply. (w.task.now, reply) };

    ghost changes = { λ w reply. not (changes_nothing w.task.now reply) };

    #[inline]
    fn only_reads(&self) -> bool {
        only_reads(self.task)
    }

    #[inline]
    #[tactic(auto, using(crate::proofs::Lawful::ok_did))]
    fn read<M: TxRead>(&self, memory: &mut M) -> Option<Result<Reply, M::Stop>> {
        if !only_reads(self.task) {
            return None;
        }
        Some(read_task(memory, self.task))
    }

    #[inline]
    #[tactic(auto, using(crate::proofs::Lawful::ok_did, crate::proofs::Lawful::ok_wrote))]
    fn run<M: TxMem>(&self, memory: &mut M) -> Option<Result<Reply, M::Stop>> {
        if only_reads(self.task) {
            return None;
        }
        Some(run_task(memory, self.task, self.start))
    }
}
