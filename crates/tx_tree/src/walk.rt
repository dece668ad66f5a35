//! Walking over the entries of a table in the order of their keys.

ghost use Rattle.std.specs.Prelude.{◌≡◌, IfOk, IfErr};
ghost use Rattle.tx_tree.specs.Table.{HasTable};
ghost use Rattle.tx_tree.specs.Walk.{HasWalk, LeadsOn, Begun, Descended, Stepped};

use crate::nodes::load_node;
use crate::path::LEVELS;
use crate::place::{LEFT, RIGHT};
use tx_alloc::Block;
use tx_memory::{Addr, TxRead};

/// A walk over the entries of a table in the order of their keys.
///
/// The walk is a stack of the nodes whose own entry is still to come and whose left subtree is
/// done. The node of the next entry is on top. A walk reads each node once; a search for each next
/// key would read the whole way down.
#[derive(Drop)]
pub struct Walk {
    nodes: [u32; LEVELS],
    depth: usize,
}

impl Walk {
    /// Begins a walk before the first entry of the table at `root`.
    pub fn begin<M: TxRead>(memory: &mut M, root: Addr) -> Result<Walk, M::Stop>
        requires table { HasTable (M.view memory.old) root.0 }
        ensures origin { M.origin memory.new ≡ M.origin memory.old }
        ensures answer { IfOk result (λ walk.
            Begun (M.view memory.old) (M.view memory.new) root.0 walk) }
        ensures stopped { IfErr result (λ stop. M.stopped_for memory.new stop) }
    {
        let mut walk = Walk {
            nodes: [0; LEVELS],
            depth: 0,
        };
        walk.descend(memory, root.0)?;
        Ok(walk)
    }

    /// Returns the block of the next entry, and moves past the entry.
    ///
    /// Not said: the effect of a refused call on the walk.
    pub fn next<M: TxRead>(&mut self, memory: &mut M) -> Result<Option<Block>, M::Stop>
        requires walk { HasWalk (M.view memory.old) self.old }
        ensures origin { M.origin memory.new ≡ M.origin memory.old }
        ensures answer { IfOk result (λ next.
            Stepped (M.view memory.old) (M.view memory.new) self.old self.new next) }
        ensures stopped { IfErr result (λ stop. M.stopped_for memory.new stop) }
    {
        if self.depth == 0 {
            return Ok(None);
        }
        self.depth -= 1;
        let node = self.nodes[self.depth];
        self.descend(memory, node + RIGHT)?;
        Ok(Some(Block(Addr(node))))
    }

    /// Pushes the node to which the link leads, and then each node on the way to the least key
    /// below it.
    fn descend<M: TxRead>(&mut self, memory: &mut M, link: u32) -> Result<(), M::Stop>
        requires link { LeadsOn (M.view memory.old) self.old link }
        ensures origin { M.origin memory.new ≡ M.origin memory.old }
        ensures answer { IfOk result (λ _.
            Descended (M.view memory.old) (M.view memory.new) self.old link self.new) }
        ensures stopped { IfErr result (λ stop. M.stopped_for memory.new stop) }
    {
        let mut link = link;
        loop {
            let node = load_node(memory, link)?;
            if node == 0 {
                return Ok(());
            }
            self.nodes[self.depth] = node;
            self.depth += 1;
            link = node + LEFT;
        }
    }
}
