//! Finding entries in the tables.

ghost use Rattle.std.specs.Prelude.{◌≡◌, IfOk, IfErr, MatchOption};
ghost use Rattle.vac_records.specs.InMemory.{HoldsState, OnlyRead};
ghost use Rattle.vac_tasks.specs.Entries.{LacksItem, HasItemAt, LacksCustomer, HasCustomerAt};

use tx_alloc::Block;
use tx_memory::TxRead;
use vac_model::Kind;
use vac_records::{CUSTOMERS, root_of};

/// Returns the block of an item, if the item exists.
#[inline(always)]
pub fn find_item<M: TxRead>(memory: &mut M, kind: Kind, id: u32) -> Result<Option<Block>, M::Stop>
    requires { HoldsState (M.view memory.old) }
    ensures origin { M.origin memory.new ≡ M.origin memory.old }
    ensures reads { IfOk result (λ _. OnlyRead (M.view memory.old) (M.view memory.new)) }
    ensures answer { IfOk result (λ found. MatchOption found
        (LacksItem (M.view memory.new) kind id)
        (λ b. HasItemAt (M.view memory.new) kind id b)) }
    ensures stopped { IfErr result (λ stop. M.stopped_for memory.new stop) }
{
    let found = tx_tree::find(memory, root_of(kind), id as u64)?;
    Ok(found)
}

/// Returns the block of a customer, if the customer exists.
pub fn find_customer<M: TxRead>(memory: &mut M, id: u32) -> Result<Option<Block>, M::Stop>
    requires { HoldsState (M.view memory.old) }
    ensures origin { M.origin memory.new ≡ M.origin memory.old }
    ensures reads { IfOk result (λ _. OnlyRead (M.view memory.old) (M.view memory.new)) }
    ensures answer { IfOk result (λ found. MatchOption found
        (LacksCustomer (M.view memory.new) id)
        (λ c. HasCustomerAt (M.view memory.new) id c)) }
    ensures stopped { IfErr result (λ stop. M.stopped_for memory.new stop) }
{
    let found = tx_tree::find(memory, CUSTOMERS, id as u64)?;
    Ok(found)
}
