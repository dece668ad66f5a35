//! A customer's bookings in a transactional memory, as a list of blocks in ascending order of kind
//! and id.
//!
//! The head is a word outside the blocks that leads to the first block. The words of a block are
//! kind, id, sum, next and units. No call looks at sum or units, and no call takes memory.
#![tactic(auto)]

mod change;
mod key;
pub mod place;
mod search;

pub use change::{insert, insert_at, remove, remove_at};
pub use key::Key;
pub use search::{Spot, find, first, next, seek};
