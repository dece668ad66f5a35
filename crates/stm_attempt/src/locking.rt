//! The locks of a commit: taken in ascending order, and given back.
ghost use Rattle.std.specs.Prelude.{◌≡◌, ◌+◌, ◌<◌, ◌≤◌, ◌*◌, [], true, length, take, IfOk, IfErr, IsOk};
ghost use Rattle.stm_logs.specs.Log.{log_locks};
ghost use Rattle.stm_core.specs.Guards.{stripe_of};
ghost use Rattle.stm_attempt.specs.Begun.{IsPlaced, addresses};
ghost use Rattle.stm_attempt.specs.Conflicts.{IsLockConflict, IsCommitConflict};
ghost use Rattle.stm_attempt.specs.CommitParts.{returned, IsAbove, CanLock, HasTaken, HasTakenAll, MayGiveBack, HasFailed, HasFailedLocking};

use crate::conflict::Conflict;
use crate::reading::free_version;
use std::alloc::Allocator;
use stm_core::Law;
use stm_logs::WriteLog;
use stm_region::{Client, Region};

/// Takes a lock above all locks that the client holds, by one load and one exchange.
#[inline]
fn lock_one<L: Law, R: Allocator>(
    region: &Region<L, R>,
    client: &mut Client<L>,
    lock: u32,
) -> Result<(), Conflict>
    requires own { client.old.table ≡ region.now.table }
    requires ready { CanLock client.old.value }
    requires range { lock < region.now.stripes }
    requires above { IsAbove client.old.value lock }
    ensures own { client.new.table ≡ client.old.table }
    ensures taken { IfOk result (λ _. HasTaken client.old.value client.new.value lock) }
    ensures failed { IfErr result (λ _. HasFailed client.old.value client.new.value) }
    ensures shown { IfErr result (λ conflict. IsLockConflict lock conflict client.new.value) }
    ensures lone { client.old.value.attempt.lone ≡ true → IsOk result }
    ensures steps { IfErr result (λ _.
        client.new.value.attempt.steps ≤ client.old.value.attempt.steps + 2) }
{
    let probed = region.probe_to_lock(client, lock);
    let word = probed.word();
    let Some(_version) = free_version(word) else {
        return Err(Conflict::Held { lock, word });
    };
    match region.lock(probed) {
        Ok(()) => Ok(()),
        Err(found) => Err(Conflict::LostLock { lock, found }),
    }
}

/// Takes the locks of all written words in ascending order. `taken` counts the locks that are
/// held.
pub(crate) fn lock_all<L: Law, R: Allocator, A: Allocator + Copy>(
    region: &Region<L, R>,
    client: &mut Client<L>,
    writes: &WriteLog<A>,
    taken: &mut usize,
) -> Result<(), Conflict>
    requires own { client.old.table ≡ region.now.table }
    requires ready { CanLock client.old.value }
    requires none { (client.old.value.attempt.held ≡ []) × (taken.old ≡ 0) }
    requires placed { IsPlaced region.now writes.now }
    ensures own { client.new.table ≡ client.old.table }
    ensures held { addresses client.new.value.attempt.held
        ≡ take taken.new (log_locks writes.now) }
    ensures all { IfOk result (λ _.
        HasTakenAll client.old.value client.new.value writes.now taken.new) }
    ensures failed { IfErr result (λ _.
        HasFailedLocking client.old.value client.new.value taken.new) }
    ensures few { IfErr result (λ _. taken.new < length (log_locks writes.now)) }
    ensures shown { IfErr result (λ conflict. IsCommitConflict (stripe_of region.now.stripes)
        writes.now conflict client.new.value) }
    ensures lone { client.old.value.attempt.lone ≡ true → IsOk result }
{
    writes.few_locks();
    let most = writes.len();
    for lock in writes.locks() {
        lock_one(region, client, lock)?;
        prove!(*taken < most);
        *taken += 1;
    }
    Ok(())
}

/// Gives back the first `count` locks of the log.
pub(crate) fn give_back_first<L: Law, R: Allocator, A: Allocator + Copy>(
    region: &Region<L, R>,
    client: &mut Client<L>,
    writes: &WriteLog<A>,
    count: usize,
)
    requires own { client.old.table ≡ region.now.table }
    requires able { MayGiveBack client.old.value }
    requires held { addresses client.old.value.attempt.held ≡ take count (log_locks writes.now) }
    requires few { count ≤ length (log_locks writes.now) }
    requires placed { IsPlaced region.now writes.now }
    ensures own { client.new.table ≡ client.old.table }
    ensures able { MayGiveBack client.new.value }
    ensures free { client.new.value.attempt.held ≡ [] }
    ensures same { returned client.new.value ≡ returned client.old.value }
    ensures gave_back { 0 < count → client.new.value.attempt.gave_back ≡ true }
    ensures steps { client.new.value.attempt.steps ≡ client.old.value.attempt.steps + count }
{
    let mut left = count;
    for lock in writes.locks() {
        if left == 0 {
            break;
        }
        region.give_back(client, lock);
        left -= 1;
    }
}
