//! The growth of a write log's blocks.
ghost use Rattle.std.specs.Prelude.{◌≡◌, ℕ, ◌+◌, ◌*◌, ◌<◌, ◌≤◌, false, length, IfOk};
ghost use Rattle.stm_logs.specs.Nodes.{at};
ghost use Rattle.stm_logs.specs.Held.{IsLog, IsRoomy, Copied};

use crate::finger::point_all_if;
use crate::index::{enter, probe};
use crate::nodes::{MAX_PLACES, Nodes};
use std::alloc::{AllocError, Allocator};

/// Smallest number of nodes for which walks use fingers.
pub(crate) const SHORT: usize = 128;

/// Returns whether walks use fingers.
#[inline]
pub(crate) fn is_long<A: Allocator>(nodes: &Nodes<A>) -> bool {
    nodes.count() >= SHORT
}

/// Returns whether the blocks must grow before one more node enters, so that half of the index
/// stays free.
#[inline]
pub(crate) fn is_full<A: Allocator>(nodes: &Nodes<A>) -> bool
    requires { IsLog nodes.now }
    ensures { result ≡ false → nodes.now.count + 1 < length nodes.now.list }
{
    nodes.len() < 2 * (nodes.count() + 2)
}

/// Copies the nodes into blocks of twice as many places.
#[cold]
pub(crate) fn grown<A: Allocator + Copy>(old: &Nodes<A>) -> Result<Nodes<A>, AllocError>
    requires { IsLog old.now }
    ensures { IfOk result (λ new. IsRoomy old.now new) }
{
    let places = old.len();
    if places > MAX_PLACES / 2 {
        return Err(AllocError);
    }
    let mut new = Nodes::new(old.alloc(), 2 * places)?;
    copy(old, &mut new);
    let is_long = is_long(&new);
    point_all_if(&mut new, is_long);
    Ok(new)
}

fn copy<A: Allocator>(old: &Nodes<A>, new: &mut Nodes<A>)
    requires log { IsLog old.now }
    requires twice { length new.old.list ≡ 2 * length old.now.list }
    requires limit { length new.old.list ≤ MAX_PLACES }
    requires blank { (new.old.count ≡ 0) × ((k : ℕ) → (at new.old.list k).slot ≡ 0) }
    ensures copied { Copied old.now.list new.new.list old.now.count }
    ensures count { new.new.count ≡ old.now.count }
    ensures places { length new.new.list ≡ length new.old.list }
{
    let root = *old.get(0);
    new.put(0, root);
    for e in 0..old.count() {
        let node = *old.get(e + 1);
        let place = probe(new, node.number);
        enter(new, e + 1, place, node, false);
        new.set_count(e + 1);
    }
}
