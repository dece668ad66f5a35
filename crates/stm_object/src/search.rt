//! A search through the words of a memory.

ghost use Rattle.std.specs.Prelude.{◌≡◌, ◌≤◌, IfOk, IfErr};
ghost use Rattle.stm_object.specs.Search.{Searched, SoughtSlot};

use tx_memory::{Addr, TxRead, load};

/// Returns the first address from `from` on and below `end` that has this word.
///
/// Not said: the effect of a search that stops; that no word behind the found one enters the
/// reads.
pub fn find<M: TxRead>(
    memory: &mut M,
    from: u32,
    end: u32,
    word: u64,
) -> Result<Option<u32>, M::Stop>
    requires { end ≤ (M.view memory.old).size }
    ensures origin { M.origin memory.new ≡ M.origin memory.old }
    ensures answer { IfOk result (λ found.
        Searched (M.view memory.old) (M.view memory.new) from end word found) }
    ensures stopped { IfErr result (λ stop. M.stopped_for memory.new stop) }
{
    for address in from..end {
        let here = load(memory, Addr(address))?;
        if here == word {
            return Ok(Some(address));
        }
    }
    Ok(None)
}

/// Returns the slot for a word from `from` on and below `end`: the first address that has the
/// word, or, if none has it, the first address that has 0.
///
/// Not said: everything that is not said of `find`.
pub fn seek<M: TxRead>(
    memory: &mut M,
    from: u32,
    end: u32,
    word: u64,
) -> Result<Option<u32>, M::Stop>
    requires { end ≤ (M.view memory.old).size }
    ensures origin { M.origin memory.new ≡ M.origin memory.old }
    ensures answer { IfOk result (λ found.
        SoughtSlot (M.view memory.old) (M.view memory.new) from end word found) }
    ensures stopped { IfErr result (λ stop. M.stopped_for memory.new stop) }
{
    match find(memory, from, end, word)? {
        Some(address) => Ok(Some(address)),
        None => find(memory, from, end, 0),
    }
}
