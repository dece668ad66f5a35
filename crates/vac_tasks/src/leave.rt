//! Leaves: a bill, and the removal of the customer.

ghost use Rattle.std.specs.Prelude.{◌≡◌, IfOk, true};
ghost use Rattle.vac_model.specs.Ranges.{is_task};
ghost use Rattle.vac_records.specs.InMemory.{HoldsState};
ghost use Rattle.vac_tasks.specs.RanTask.{RanTask};

use crate::customers::{bill_at, drop_customer_at};
use crate::find::find_customer;
use tx_alloc::FreeList;
use tx_memory::TxMem;
use vac_model::{Reply, Task};

/// Returns the bill of a customer, if the customer exists, and deletes the customer.
pub(crate) fn leave<M: TxMem>(
    memory: &mut M,
    customer: u32,
    start: FreeList,
) -> Result<Reply, M::Stop>
    requires state { HoldsState (M.view memory.old) }
    requires range { is_task (Task.Leave customer) ≡ true }
    ensures origin { M.origin memory.new ≡ M.origin memory.old }
    ensures answer { IfOk result (λ reply. RanTask (M.view memory.old) (M.view memory.new)
        (Task.Leave customer) reply) }
{
    let Some(owner) = find_customer(memory, customer)? else {
        return Ok(Reply::Number(None));
    };
    let bill = bill_at(memory, customer, owner)?;
    drop_customer_at(memory, customer, owner, start)?;
    Ok(Reply::Number(Some(bill)))
}
