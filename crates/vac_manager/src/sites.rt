//! The kind of word that a lock guards.

ghost use Rattle.std.specs.Prelude.{◌≡◌};
ghost use Rattle.vac_manager.specs.Sites.{word_kind_of};

use tx_alloc::place::{BLOCK_WORDS, FIRST_BLOCK, FIRST_HEAD};

/// Offset of a block's fifth word.
const FIFTH: u32 = 4;

/// The kind of a word, as far as its address shows it.
#[derive(Clone, Copy, Debug, PartialEq, Eq)]
pub enum WordKind {
    /// A root of a table.
    Root,
    /// A head of a free list.
    Head,
    /// A tree node: one of the first four words of a block. They are an entry's key, children and
    /// colour in its table, or a booking's kind, id, sum and next booking.
    Node,
    /// A usage counter: the fifth word of a block. It is the number of booked units of an item, a
    /// customer's bookings, or the number of units of a booking.
    Use,
    /// A stock counter: one of the last three words of a block. They are an item's free units, its
    /// units and its price.
    Stock,
}

/// Returns the kind of the first word that the lock with this number guards.
pub(crate) fn word_kind_of(lock: u32) -> WordKind
    ensures { result ≡ word_kind_of lock }
{
    if lock < FIRST_HEAD {
        return WordKind::Root;
    }
    if lock < FIRST_BLOCK {
        return WordKind::Head;
    }
    let place = lock % BLOCK_WORDS;
    if place < FIFTH {
        WordKind::Node
    } else if place == FIFTH {
        WordKind::Use
    } else {
        WordKind::Stock
    }
}
