//! The places of the words of a heap.

/// Number of lists of free blocks.
pub const LISTS: u32 = 8;

/// The word that leads to the first block of list 0. The heads of the other lists follow.
pub const FIRST_HEAD: u32 = 8;

/// The first word of block 0.
pub const FIRST_BLOCK: u32 = 16;

/// Number of words of a block.
pub const BLOCK_WORDS: u32 = 8;

/// Largest number of blocks of a heap.
pub const MOST_BLOCKS: usize = 262_144;

/// Largest number of blocks that leave a list at once in a batch refill: one block is taken, and
/// the others go to the exhausted list.
pub const RUN_BLOCKS: u32 = 64;
