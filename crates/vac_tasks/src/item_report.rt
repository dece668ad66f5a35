//! Sums over items.

ghost use Rattle.std.specs.Prelude.{◌≡◌, IfOk, IfErr};
ghost use Rattle.vac_records.specs.Items.{IsNode};
ghost use Rattle.vac_records.specs.InMemory.{HoldsState};
ghost use Rattle.vac_tasks.specs.Sums.{ItemsFit, items_together, ItemCounted, ItemsSummed};

use tx_alloc::Block;
use tx_alloc::place::MOST_BLOCKS;
use tx_memory::TxRead;
use tx_tree::Walk;
use vac_model::Kind;
use vac_records::{free_at, root_of, total_at, used_at};

/// The number of items, and the sums over their numbers.
#[derive(Clone, Copy)]
pub(crate) struct ItemSums {
    pub count: u64,
    pub used: u64,
    pub free: u64,
    pub total: u64,
}

impl ItemSums {
    /// Returns the sums over both parts.
    pub(crate) fn plus(self, other: ItemSums) -> ItemSums
        requires { ItemsFit self other }
        ensures { result ≡ items_together self other }
    {
        ItemSums {
            count: self.count + other.count,
            used: self.used + other.used,
            free: self.free + other.free,
            total: self.total + other.total,
        }
    }
}

/// Returns the sums over the single item in a block.
fn sums_of_item<M: TxRead>(memory: &mut M, node: Block) -> Result<ItemSums, M::Stop>
    requires { IsNode (M.view memory.old) node }
    ensures origin { M.origin memory.new ≡ M.origin memory.old }
    ensures answer { IfOk result (λ sums.
        ItemCounted (M.view memory.old) (M.view memory.new) node sums) }
    ensures stopped { IfErr result (λ stop. M.stopped_for memory.new stop) }
{
    let used = used_at(memory, node)?;
    let free = free_at(memory, node)?;
    let total = total_at(memory, node)?;
    Ok(ItemSums {
        count: 1,
        used,
        free,
        total,
    })
}

/// Sums up all items of a kind. Bounded loop: the prover needs a measure; a table has at most
/// 262,144 entries.
pub(crate) fn sum_items<M: TxRead>(memory: &mut M, kind: Kind) -> Result<ItemSums, M::Stop>
    requires { HoldsState (M.view memory.old) }
    ensures origin { M.origin memory.new ≡ M.origin memory.old }
    ensures answer { IfOk result (λ sums.
        ItemsSummed (M.view memory.old) (M.view memory.new) kind sums) }
    ensures stopped { IfErr result (λ stop. M.stopped_for memory.new stop) }
{
    let root = root_of(kind);
    let mut sums = ItemSums {
        count: 0,
        used: 0,
        free: 0,
        total: 0,
    };
    let mut walk = Walk::begin(memory, root)?;
    for _ in 0..MOST_BLOCKS {
        match walk.next(memory)? {
            None => return Ok(sums),
            Some(block) => {
                sums = sums.plus(sums_of_item(memory, block)?);
            }
        }
    }
    Ok(sums)
}
