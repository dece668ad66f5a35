//! Removing a block from a table.

ghost use Rattle.std.specs.Prelude.{◌≡◌, IfOk, MatchOption};
ghost use Rattle.tx_tree.specs.Table.{HasTable, FoundRow, Removed};
ghost use Rattle.tx_tree.specs.Removal.{HasLoose, Lightened, HasLast, Unlinked};
ghost use Rattle.tx_tree.specs.Next.{HasBoth, NextUnlinked};

use crate::mending::repair_black;
use crate::nodes::{is_red, load_node, transplant};
use crate::path::Path;
use crate::place::{BLACK, COLOUR, LEFT, RIGHT};
use crate::search::{seek, seek_successor};
use tx_alloc::Block;
use tx_memory::{Addr, TxMem, store};

/// Replaces a node by its only child, or by none, and mends the tree.
pub fn unlink<M: TxMem>(
    memory: &mut M,
    path: &Path,
    depth: usize,
    node: u32,
    child: u32,
) -> Result<(), M::Stop>
    requires last { HasLast (M.view memory.old) path.now depth node child }
    ensures origin { M.origin memory.new ≡ M.origin memory.old }
    ensures answer { IfOk result (λ _.
        Unlinked (M.view memory.old) (M.view memory.new) path.now depth node child) }
{
    let node_red = is_red(memory, node)?;
    store(memory, Addr(path.link(depth)), child as u64)?;
    if node_red {
        return Ok(());
    }
    add_black(memory, path, depth, child)?;
    Ok(())
}

/// Mends the tree, if the subtree at the end of the path, whose root is this node, has one black
/// node too few.
pub fn add_black<M: TxMem>(
    memory: &mut M,
    path: &Path,
    depth: usize,
    node: u32,
) -> Result<(), M::Stop>
    requires loose { HasLoose (M.view memory.old) path.now depth node }
    ensures origin { M.origin memory.new ≡ M.origin memory.old }
    ensures answer { IfOk result (λ _.
        Lightened (M.view memory.old) (M.view memory.new) path.now depth node) }
{
    let red = is_red(memory, node)?;
    if red {
        store(memory, Addr(node + COLOUR), BLACK)?;
        return Ok(());
    }
    repair_black(memory, path, depth)?;
    Ok(())
}

/// Replaces a node with two children by the least node of its right subtree, and mends the tree.
pub fn unlink_with_successor<M: TxMem>(
    memory: &mut M,
    path: &mut Path,
    depth: usize,
    node: u32,
) -> Result<(), M::Stop>
    requires both { HasBoth (M.view memory.old) path.old depth node }
    ensures origin { M.origin memory.new ≡ M.origin memory.old }
    ensures answer { IfOk result (λ _.
        NextUnlinked (M.view memory.old) (M.view memory.new) path.old depth node) }
{
    let upper = path.link(depth);
    path.set(depth + 1, node + RIGHT);
    let (last, successor) = seek_successor(memory, path, depth + 1)?;
    let child = load_node(memory, successor + RIGHT)?;
    let successor_red = is_red(memory, successor)?;
    store(memory, Addr(path.link(last)), child as u64)?;
    transplant(memory, upper, node, successor)?;
    path.set(depth + 1, successor + RIGHT);
    if successor_red {
        return Ok(());
    }
    add_black(memory, path, last, child)?;
    Ok(())
}

/// Removes the block of a key from the table at `root`, if the table has the key, and returns the
/// block.
pub fn remove<M: TxMem>(memory: &mut M, root: Addr, key: u64) -> Result<Option<Block>, M::Stop>
    requires table { HasTable (M.view memory.old) root.0 }
    ensures origin { M.origin memory.new ≡ M.origin memory.old }
    ensures answer { IfOk result (λ taken. MatchOption taken
        (FoundRow (M.view memory.old) (M.view memory.new) root.0 key 0)
        (λ block. Removed (M.view memory.old) (M.view memory.new) root.0 key block)) }
{
    let mut path = Path::new();
    let (depth, node) = seek(memory, root.0, key, &mut path)?;
    if node == 0 {
        return Ok(None);
    }
    let left = load_node(memory, node + LEFT)?;
    let right = load_node(memory, node + RIGHT)?;
    if left == 0 {
        unlink(memory, &path, depth, node, right)?;
        return Ok(Some(Block(Addr(node))));
    }
    if right == 0 {
        unlink(memory, &path, depth, node, left)?;
        return Ok(Some(Block(Addr(node))));
    }
    unlink_with_successor(memory, &mut path, depth, node)?;
    Ok(Some(Block(Addr(node))))
}
