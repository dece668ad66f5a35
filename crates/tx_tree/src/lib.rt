//! Tables by key in a transactional memory, as red-black trees.
//!
//! An entry is a block of eight words: key, left, right, colour, and four words of payload, which
//! no call looks at. A colour is 0 for black and 1 for red. A table is given by its root word, a
//! word below the blocks. The root word leads to the root node, or is 0.
//!
//! Insertion and removal record the way down to a node as a path of links, and mend the tree
//! upwards along the path (Guibas and Sedgewick, FOCS 1978; Cormen, Leiserson, Rivest and Stein,
//! Introduction to Algorithms, chapter on red-black trees). A removal moves links, never the
//! contents of a block: an entry keeps its block as long as it is in the table. No call recurses
//! or allocates.
#![tactic(auto)]

mod insertion;
mod laws;
mod mending;
mod nodes;
mod path;
pub mod place;
mod removal;
mod search;
mod walk;

pub use insertion::insert;
pub use laws::height_is_logarithmic;
pub use removal::remove;
pub use search::find;
pub use walk::Walk;
