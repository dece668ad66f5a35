//! The way down a table, as links from node to node.

ghost use Rattle.std.specs.Prelude.{◌≡◌, ◌-◌, ◌%◌, ◌<◌, length, slice_index, slice_set};

use std::marker::Model;
use tx_alloc::place::BLOCK_WORDS;

/// Largest number of nodes on a way down: a table has at most 262,144 nodes.
pub const MOST_HEIGHT: usize = 36;

/// Number of links of a path: one to each node of a way down, and some to spare.
pub const LEVELS: usize = 40;

/// A way down from the root word, as a list of links. A link is the address of a word that leads
/// to a node: the root word, or the left or right word of the node before. So a link gives the
/// parent's block and the side, and nodes need no word for their parent.
#[derive(Drop)]
pub struct Path {
    links: [u32; LEVELS],
}

impl Model for Path {
    ghost use Rattle.std.specs.Prelude.{List, ℕ};

    ghost Value = { List ℕ };

    ghost view = { λ p. p.links };
}

impl Path {
    /// Creates a path whose links are yet to be set.
    pub fn new() -> Path
        ensures size { length result ≡ LEVELS }
    {
        Path { links: [0; LEVELS] }
    }

    /// Returns the link that has `depth` nodes above it.
    pub fn link(&self, depth: usize) -> u32
        requires { depth < LEVELS }
        ensures { result ≡ slice_index self.now depth }
    {
        self.links[depth]
    }

    /// Returns the node whose word is the link at this depth, and the side. The link must not be
    /// the root word.
    pub fn parent(&self, depth: usize) -> (u32, u32)
        requires { depth < LEVELS }
        ensures node { let link = slice_index self.now depth in
            result.0 ≡ link - link % BLOCK_WORDS }
        ensures side { result.1 ≡ slice_index self.now depth % BLOCK_WORDS }
    {
        let link = self.links[depth];
        let side = link % BLOCK_WORDS;
        (link - side, side)
    }

    /// Sets the link at this depth.
    pub fn set(&mut self, depth: usize, link: u32)
        requires { depth < LEVELS }
        ensures size { length self.new ≡ LEVELS }
        ensures links { self.new ≡ slice_set self.old depth link }
    {
        self.links[depth] = link;
    }
}
