//! Words of a block.

ghost use Rattle.std.specs.Prelude.{◌≡◌, ◌+◌, ◌-◌, ◌<◌, IfOk};
ghost use Rattle.vac_records.specs.Items.{IsNode, CanRaise, CanLower, Shifted};
ghost use Rattle.vac_records.specs.Spare.{WordCleared, SpareCleared};

use tx_alloc::Block;
use tx_memory::{Addr, TxMem, load, store};

/// The first of the three spare words of a booking's or a customer's block.
const FIRST_SPARE: u32 = 5;

/// Adds a number to a word.
#[inline(always)]
pub(crate) fn raise<M: TxMem>(memory: &mut M, word: Addr, by: u64) -> Result<(), M::Stop>
    requires { CanRaise (M.view memory.old) word.0 by }
    ensures origin { M.origin memory.new ≡ M.origin memory.old }
    ensures answer { IfOk result (λ _.
        Shifted (M.view memory.old) (M.view memory.new) word.0 (λ v. v + by)) }
{
    let value = load(memory, word)?;
    store(memory, word, value + by)?;
    Ok(())
}

/// Subtracts a number from a word.
#[inline(always)]
pub(crate) fn lower<M: TxMem>(memory: &mut M, word: Addr, by: u64) -> Result<(), M::Stop>
    requires { CanLower (M.view memory.old) word.0 by }
    ensures origin { M.origin memory.new ≡ M.origin memory.old }
    ensures answer { IfOk result (λ _.
        Shifted (M.view memory.old) (M.view memory.new) word.0 (λ v. v - by)) }
{
    let value = load(memory, word)?;
    store(memory, word, value - by)?;
    Ok(())
}

/// Sets a word to 0. A word that is already 0 is read and not written: a read costs less than a
/// lock, a store and a release.
#[inline(always)]
fn clear<M: TxMem>(memory: &mut M, word: Addr) -> Result<(), M::Stop>
    requires { word.0 < (M.view memory.old).size }
    ensures origin { M.origin memory.new ≡ M.origin memory.old }
    ensures answer { IfOk result (λ _.
        WordCleared (M.view memory.old) (M.view memory.new) word.0) }
{
    if load(memory, word)? == 0 {
        return Ok(());
    }
    store(memory, word, 0)?;
    Ok(())
}

/// Sets the three spare words of a booking's or a customer's block to 0.
pub(crate) fn clear_spare<M: TxMem>(memory: &mut M, node: Block) -> Result<(), M::Stop>
    requires { IsNode (M.view memory.old) node }
    ensures origin { M.origin memory.new ≡ M.origin memory.old }
    ensures answer { IfOk result (λ _.
        SpareCleared (M.view memory.old) (M.view memory.new) node) }
{
    clear(memory, node.word(FIRST_SPARE))?;
    clear(memory, node.word(FIRST_SPARE + 1))?;
    clear(memory, node.word(FIRST_SPARE + 2))?;
    Ok(())
}
