//! Searching a table by key.

ghost use Rattle.std.specs.Prelude.{◌≡◌, IfOk, IfErr, MatchOption};
ghost use Rattle.tx_tree.specs.Table.{HasTable, FoundRow, FoundAt};
ghost use Rattle.tx_tree.specs.Steps.{SoughtKey};
ghost use Rattle.tx_tree.specs.Lowest.{HasSpan, Lowest};

use crate::nodes::load_node;
use crate::path::{LEVELS, Path};
use crate::place::{LEFT, RIGHT};
use tx_alloc::Block;
use tx_memory::{Addr, TxRead, load};

/// Returns the block of a key in the table at `root`, if the table has the key. Bounded loop: the
/// prover needs a measure; a way down has at most 36 nodes.
#[inline(always)]
pub fn find<M: TxRead>(memory: &mut M, root: Addr, key: u64) -> Result<Option<Block>, M::Stop>
    requires table { HasTable (M.view memory.old) root.0 }
    ensures origin { M.origin memory.new ≡ M.origin memory.old }
    ensures answer { IfOk result (λ found. MatchOption found
        (FoundRow (M.view memory.old) (M.view memory.new) root.0 key 0)
        (λ block. FoundAt (M.view memory.old) (M.view memory.new) root.0 key block)) }
    ensures stopped { IfErr result (λ stop. M.stopped_for memory.new stop) }
{
    let mut link = root.0;
    for _ in 0..LEVELS {
        let node = load_node(memory, link)?;
        if node == 0 {
            return Ok(None);
        }
        let found = load(memory, Addr(node))?;
        if found == key {
            return Ok(Some(Block(Addr(node))));
        }
        let side = if key < found { LEFT } else { RIGHT };
        link = node + side;
    }
    Ok(None)
}

/// Searches for a key, and records the links of the way down in `path`. Returns the number of
/// nodes above the end of the way, and the node of the key, or 0 if the table does not have the
/// key.
pub fn seek<M: TxRead>(
    memory: &mut M,
    root: u32,
    key: u64,
    path: &mut Path,
) -> Result<(usize, u32), M::Stop>
    requires table { HasTable (M.view memory.old) root }
    ensures origin { M.origin memory.new ≡ M.origin memory.old }
    ensures answer { IfOk result (λ end.
        SoughtKey (M.view memory.old) (M.view memory.new) root key path.new end.0 end.1) }
{
    path.set(0, root);
    let mut depth = 0;
    loop {
        let node = load_node(memory, path.link(depth))?;
        if node == 0 {
            return Ok((depth, 0));
        }
        let found = load(memory, Addr(node))?;
        if found == key {
            return Ok((depth, node));
        }
        let side = if key < found { LEFT } else { RIGHT };
        depth += 1;
        path.set(depth, node + side);
    }
}

/// Continues a way down to the least node below. The path must end with the right link of a node,
/// whose successor is then found. Returns the number of nodes above the successor, and the
/// successor.
pub fn seek_successor<M: TxRead>(
    memory: &mut M,
    path: &mut Path,
    depth: usize,
) -> Result<(usize, u32), M::Stop>
    requires span { HasSpan (M.view memory.old) path.old depth }
    ensures origin { M.origin memory.new ≡ M.origin memory.old }
    ensures answer { IfOk result (λ end.
        Lowest (M.view memory.old) (M.view memory.new) path.old depth path.new end.0 end.1) }
{
    let mut depth = depth;
    let mut node = load_node(memory, path.link(depth))?;
    loop {
        let left = load_node(memory, node + LEFT)?;
        if left == 0 {
            return Ok((depth, node));
        }
        depth += 1;
        path.set(depth, node + LEFT);
        node = left;
    }
}
