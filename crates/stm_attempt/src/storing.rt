//! The end of a decided commit: writing back its values, and releasing its locks.
ghost use Rattle.std.specs.Prelude.{◌≡◌, false};
ghost use Rattle.stm_core.specs.Client.{committed};
ghost use Rattle.stm_logs.specs.Log.{log_locks};
ghost use Rattle.stm_attempt.specs.Begun.{IsPlaced, addresses};
ghost use Rattle.stm_attempt.specs.CommitParts.{CanSettle, HasStored, HasReleased, IsAllStored};

use std::alloc::Allocator;
use stm_core::Law;
use stm_logs::WriteLog;
use stm_region::{Client, Region};

/// Writes back all written values, in one walk over them in the order of their locks.
pub(crate) fn store_all<L: Law, R: Allocator, A: Allocator + Copy>(
    region: &Region<L, R>,
    client: &mut Client<L>,
    writes: &WriteLog<A>,
)
    requires own { client.old.table ≡ region.now.table }
    requires decided { CanSettle client.old.value writes.now }
    requires placed { IsPlaced region.now writes.now }
    ensures own { client.new.table ≡ client.old.table }
    ensures stored { HasStored client.old.value client.new.value }
{
    writes.same_addresses();
    for (addr, value) in writes.pairs_by_lock() {
        region.put(client, addr, value);
    }
}

/// Releases all locks with the write version.
pub(crate) fn release_all<L: Law, R: Allocator, A: Allocator + Copy>(
    region: &Region<L, R>,
    client: &mut Client<L>,
    writes: &WriteLog<A>,
)
    requires own { client.old.table ≡ region.now.table }
    requires committed { (client.old.value.is_gathered ≡ false)
        × (client.old.value.attempt.phase ≡ committed) }
    requires stored { IsAllStored client.old.value }
    requires held { addresses client.old.value.attempt.held ≡ log_locks writes.now }
    requires placed { IsPlaced region.now writes.now }
    ensures own { client.new.table ≡ client.old.table }
    ensures released { HasReleased client.old.value client.new.value }
{
    for lock in writes.locks() {
        region.release(client, lock);
    }
}
