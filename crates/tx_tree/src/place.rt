//! The places of the words of an entry in its block.

/// The key, by which an entry is found.
pub const KEY: u32 = 0;

/// The word that leads to the left child, or is 0.
pub const LEFT: u32 = 1;

/// The word that leads to the right child, or is 0.
pub const RIGHT: u32 = 2;

/// The colour, `BLACK` or `RED`.
pub const COLOUR: u32 = 3;

/// The first word of the payload, which no call looks at.
pub const PAYLOAD: u32 = 4;

/// The colour word of a black node.
pub const BLACK: u64 = 0;

/// The colour word of a red node.
pub const RED: u64 = 1;
