//! Blocks of eight words in a transactional memory: free blocks in eight lists, and taken blocks.
//!
//! Words 8 to 15 are the heads of the lists, and block b starts at word 16 + 8 * b.
//!
//! A pointer is the address of a block's first word, or 0 for none. The first word of a free block
//! leads to the next free block of its list.
#![tactic(auto)]

mod block;
mod fresh;
mod list;
pub mod place;
mod pool;
mod refill;
mod rows;

pub use block::Block;
pub use fresh::spread_words;
pub use list::FreeList;
pub use pool::{give, take};
pub use refill::take_refilling;
pub use rows::rows_are_a_map;
