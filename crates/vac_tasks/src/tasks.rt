//! Tasks, each as the body of one transaction.

ghost use Rattle.std.specs.Prelude.{◌≡◌, IfOk, IfErr, true};
ghost use Rattle.vac_model.specs.Ranges.{is_task};
ghost use Rattle.vac_records.specs.InMemory.{HoldsState};
ghost use Rattle.vac_tasks.specs.Reading as reading;
ghost use Rattle.vac_tasks.specs.RanTask.{RanTask};

use crate::commands::{asks_only, read_command, run_command};
use crate::leave::leave;
use crate::trip::trip;
use crate::update::update;
use tx_alloc::FreeList;
use tx_memory::{TxMem, TxRead};
use vac_model::{Reply, Task};

/// Returns whether the task only reads.
pub fn only_reads(task: &Task) -> bool
    ensures { result ≡ reading.only_reads task.now }
{
    match task {
        Task::One(command) => asks_only(command),
        _ => false,
    }
}

/// Runs a task that only reads.
pub fn read_task<M: TxRead>(memory: &mut M, task: &Task) -> Result<Reply, M::Stop>
    requires state { HoldsState (M.view memory.old) }
    requires reads { reading.only_reads task.now ≡ true }
    ensures origin { M.origin memory.new ≡ M.origin memory.old }
    ensures answer { IfOk result (λ reply. RanTask (M.view memory.old) (M.view memory.new)
        task.now reply) }
    ensures writes { IfOk result (λ _.
        (M.view memory.new).writes ≡ (M.view memory.old).writes) }
    ensures stopped { IfErr result (λ stop. M.stopped_for memory.new stop) }
{
    let Task::One(command) = task else {
        unreachable!();
    };
    read_command(memory, *command)
}

/// Runs a task. New entries take their blocks from the free lists, beginning with list `start`.
pub fn run_task<M: TxMem>(memory: &mut M, task: &Task, start: FreeList) -> Result<Reply, M::Stop>
    requires state { HoldsState (M.view memory.old) }
    requires range { is_task task.now ≡ true }
    ensures origin { M.origin memory.new ≡ M.origin memory.old }
    ensures answer { IfOk result (λ reply. RanTask (M.view memory.old) (M.view memory.new)
        task.now reply) }
{
    match task {
        Task::One(command) => run_command(memory, *command, start),
        Task::Trip { customer, asks } => trip(memory, *customer, asks.as_slice(), start),
        Task::Leave { customer } => leave(memory, *customer, start),
        Task::Update { changes } => update(memory, changes.as_slice(), start),
    }
}
