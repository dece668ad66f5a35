//! The keys by which the bookings of a list are told apart.

ghost use Rattle.std.specs.Prelude.{◌≡◌, ◌+◌, ◌≤◌, ◌^◌, IfOk};
ghost use Rattle.vac_bookings.specs.Search.{Compared};

use crate::place::{ID, KIND};
use std::cmp::Ordering;
use tx_alloc::Block;
use tx_alloc::place::BLOCK_WORDS;
use tx_memory::{TxRead, load};

/// The kind and the id of the booked item, as the words of a booking have them.
///
/// Keys are ordered by kind, then by id.
#[derive(Clone, Copy, Debug, PartialEq, Eq, PartialOrd, Ord)]
pub struct Key {
    pub kind: u64,
    pub id: u64,
}

/// Compares the key in a booking's block with a key. The id is read only if the kinds are equal.
#[inline]
pub(crate) fn compare_key<M: TxRead>(
    memory: &mut M,
    block: Block,
    key: Key,
) -> Result<Ordering, M::Stop>
    requires small { (M.view memory.old).size ≤ 2 ^ 32 }
    requires block { block + BLOCK_WORDS ≤ (M.view memory.old).size }
    ensures origin { M.origin memory.new ≡ M.origin memory.old }
    ensures answer { IfOk result (λ order.
        Compared (M.view memory.old) (M.view memory.new) block key order) }
{
    let kind = load(memory, block.word(KIND))?;
    let by_kind = kind.cmp(&key.kind);
    if by_kind != Ordering::Equal {
        return Ok(by_kind);
    }
    let id = load(memory, block.word(ID))?;
    Ok(id.cmp(&key.id))
}
