//! The ring as a sequential object.

use crate::entry::Entry;
use stm_object::Object;

/// Number of slots of a ring. Each slot is one word and holds one value.
pub const SLOTS: u32 = 16;

/// Address of the count of values taken out.
pub const HEAD: u32 = 16;

/// Address of the count of values put in.
pub const TAIL: u32 = 17;

/// Number of words of a ring.
pub const WORDS: u32 = 18;

/// The ring as a sequential object. An image fits if it has the words of a ring, and if at most as
/// many values are in the ring as there are slots.
pub struct RingObject;

impl Object for RingObject {
    ghost use Rattle.stm_object.specs.Steps.{words_local};
    ghost use Rattle.ex_ring.specs.Keeping.{codes_determine};
    ghost use Rattle.ex_ring.specs.Queue.{ring, IsRing};

    type Entry = Entry;

    type UserState = ();

    ghost is = { ring };

    ghost local = { λ m m' n xs same h. words_local IsRing m m' n xs same h };

    ghost determined = { λ e e' same. codes_determine e e' same };
}
