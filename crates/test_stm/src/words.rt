//! Words as a transaction reads them.
ghost use Rattle.std.specs.Prelude.{◌≡◌, ◌≤◌};

use tx_alloc::Block;
use tx_memory::{Addr, TxRead};

/// Returns whether the memory's first `size` words are these.
pub(crate) fn has_words<M: TxRead>(
    memory: &mut M,
    size: u32,
    words: &[u64],
) -> Result<bool, M::Stop>
    requires { size ≤ (M.view memory.old).size }
    ensures { M.origin memory.new ≡ M.origin memory.old }
{
    let mut same = words.len() == size as usize;
    for addr in 0..size {
        let word = memory.read(Addr(addr))?;
        same = same && words.get(addr as usize) == Some(&word);
    }
    Ok(same)
}

/// Returns the address of a block, if there is one.
pub(crate) fn place_of(block: Option<Block>) -> Option<Addr> {
    match block {
        Some(block) => Some(block.addr()),
        None => None,
    }
}
