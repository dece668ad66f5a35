//! The positions of a region's words in its table: the clock, a gap, the lock words, a padding and
//! the data words. Lock words and data words begin with a cache line.
ghost use Rattle.std.specs.Prelude.{◌≡◌, ◌+◌, ◌%◌, ◌++◌, ◌≤◌, length, replicate, IfOk};
ghost use Rattle.stm_region.specs.Layout.{first_cell, padding};

use crate::limits::{MOST_STRIPES, MOST_WORDS};
use std::alloc::{AllocError, Allocator};

/// Index of the clock.
pub(crate) const CLOCK: usize = 0;

/// Number of words in a cache line.
const LINE_WORDS: usize = 8;

/// Index in the table, modulo the words of a line, at which a cache line begins. The usual
/// allocator puts a table 16 bytes after the start of a line.
const LINE_START: usize = 6;

/// Index of the first lock word, at which a line begins. One line is left empty before it, so that
/// the clock shares neither its own line nor the next with a lock word.
pub(crate) const FIRST_LOCK: usize = LINE_WORDS + LINE_START;

const _: () = prove!(FIRST_LOCK % LINE_WORDS == LINE_START);

/// Returns the words of a region at its opening: the clock and the lock words at 0, and the image.
pub(crate) fn lay_out<A: Allocator>(
    alloc: A,
    image: &[u64],
    stripes: u32,
) -> Result<Vec<u64, A>, AllocError>
    requires small { length image.now ≤ MOST_WORDS }
    requires few { stripes ≤ MOST_STRIPES }
    ensures { IfOk result (λ v. v.items ≡ replicate (first_cell stripes) 0 ++ image.now) }
{
    let zeros = first_cell(stripes);
    let mut words = Vec::with_capacity(alloc, zeros + image.len())?;
    for _k in 0..zeros {
        words.push(0)?;
    }
    words.extend_from_slice(image)?;
    Ok(words)
}

/// Returns the index of the first data word, at which a line begins.
pub(crate) fn first_cell(stripes: u32) -> usize
    requires { stripes ≤ MOST_STRIPES }
    ensures place { result ≡ first_cell stripes }
    ensures line { result % LINE_WORDS ≡ LINE_START }
{
    FIRST_LOCK + stripes as usize + padding(stripes)
}

/// Returns the number of words between the lock words and the data words, which fill the last line
/// of the lock words.
fn padding(stripes: u32) -> usize
    requires { stripes ≤ MOST_STRIPES }
    ensures { result ≡ padding stripes }
{
    (LINE_WORDS - 1) - (stripes as usize + (LINE_WORDS - 1)) % LINE_WORDS
}
