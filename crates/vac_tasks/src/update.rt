//! Updates: changes of the tables, one after the other.

ghost use Rattle.std.specs.Prelude.{◌≡◌, IfOk, true};
ghost use Rattle.vac_model.specs.Ranges.{is_task};
ghost use Rattle.vac_records.specs.InMemory.{HoldsState};
ghost use Rattle.vac_tasks.specs.RanTask.{RanTask};

use crate::commands::{refusal, run_command};
use tx_alloc::FreeList;
use tx_memory::TxMem;
use vac_model::limits::MOST_PARTS;
use vac_model::{Command, Reply, Task, UpdateReply};

/// Makes the changes in their order. A refusal is recorded, and the next change follows.
pub(crate) fn update<M: TxMem>(
    memory: &mut M,
    changes: &[Command],
    start: FreeList,
) -> Result<Reply, M::Stop>
    requires state { HoldsState (M.view memory.old) }
    requires range { is_task (Task.Update changes.now) ≡ true }
    ensures origin { M.origin memory.new ≡ M.origin memory.old }
    ensures answer { IfOk result (λ reply. RanTask (M.view memory.old) (M.view memory.new)
        (Task.Update changes.now) reply) }
{
    let mut refused = [None; MOST_PARTS];
    for i in 0..changes.len() {
        let reply = run_command(memory, changes[i], start)?;
        refused[i] = refusal(&reply);
    }
    Ok(Reply::Update(UpdateReply {
        len: changes.len() as u8,
        refused,
    }))
}
