//! Pointers to blocks.

ghost use Rattle.std.specs.Prelude.{◌≡◌, ◌<◌, length};
ghost use Rattle.vac_audit.specs.Marks.{IsMarked, LandsOnBlock, Fewer, Followed};

use crate::Flaw;

/// Index of the first word of the first block.
pub const FIRST_BLOCK: usize = tx_alloc::place::FIRST_BLOCK as usize;

/// Number of words of a block.
pub const BLOCK_WORDS: usize = tx_alloc::place::BLOCK_WORDS as usize;

/// Follows the pointer in a word to a block that was not reached before. Returns `None` if the
/// pointer is the end.
pub fn follow(words: &[u64], reached: &mut Vec<bool>, at: usize) -> Result<Option<usize>, Flaw>
    requires marked { IsMarked words.now reached.old.items }
    requires inside { at < length words.now }
    ensures size { length reached.new.items ≡ length reached.old.items }
    ensures lands { LandsOnBlock words.now result }
    ensures fewer { Fewer reached.old.items reached.new.items result }
    ensures followed { Followed words.now reached.old.items reached.new.items at result }
{
    let place = words[at];
    if place == 0 {
        return Ok(None);
    }
    let last = FIRST_BLOCK as u64 + BLOCK_WORDS as u64 * reached.len() as u64;
    if place < FIRST_BLOCK as u64 || place >= last || place % BLOCK_WORDS as u64 != 0 {
        return Err(Flaw::Pointer(at as u32));
    }
    let place = place as usize;
    let block = (place - FIRST_BLOCK) / BLOCK_WORDS;
    if reached[block] {
        return Err(Flaw::Shared(at as u32));
    }
    reached[block] = true;
    Ok(Some(place))
}
