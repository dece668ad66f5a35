//! The tick of a commit.
ghost use Rattle.std.specs.Prelude.{◌≡◌, ◌+◌, ◌≤◌, true, IfOk, IfErr};
ghost use Rattle.stm_core.specs.Client.{decided};
ghost use Rattle.stm_core.specs.declared.limits.TheConstants.{MOST_TICKS};
ghost use Rattle.stm_core.specs.Guards.{may_write, stripe_of};
ghost use Rattle.stm_logs.specs.Log.{log_pairs};
ghost use Rattle.stm_region.specs.Findings.{Decides};
ghost use Rattle.stm_attempt.specs.Committing.{HasWonLock, IsCommitResult};
ghost use Rattle.stm_attempt.specs.CommitParts.{IsReady, HasTicked, HasFailedTicking};

use crate::conflict::{Conflict, Stop};
use std::alloc::Allocator;
use stm_core::{Law, MOST_TICKS, Tag, Version};
use stm_logs::WriteLog;
use stm_region::{Client, Region};

/// Ticks the clock from the read version on; after each lost tick, from the version that the tick
/// found. At most `MOST_TICKS` ticks are tried.
#[inline(always)]
pub(crate) fn tick<L: Law, R: Allocator, A: Allocator + Copy, T: Tag>(
    region: &Region<L, R>,
    client: &mut Client<L>,
    rv: Version,
    tag: &T,
    writes: &WriteLog<A>,
) -> Result<Version, Stop>
    requires own { client.old.table ≡ region.now.table }
    requires ready { IsReady region.now client.old.value rv }
    requires locked { HasWonLock client.old.value }
    requires writes { may_write (stripe_of region.now.stripes) region.now.size
        client.old.value.attempt.held (log_pairs writes.now) ≡ true }
    requires lawful { L.lawful (T.numbers tag.now) client.old.value.attempt.reads
        (log_pairs writes.now) }
    ensures own { client.new.table ≡ client.old.table }
    ensures won { IfOk result (λ version. HasTicked region.now (T.numbers tag.now)
        (log_pairs writes.now) client.old.value client.new.value version) }
    ensures version { IsCommitResult region.now client.old.value result }
    ensures decides { IfOk result (λ _. decided client.new.value ≡ true →
        Decides L.fits L.lawful region.now client.new.value) }
    ensures failed { IfErr result (λ stop. HasFailedTicking region.now writes.now stop
        client.old.value client.new.value) }
    ensures steps { client.new.value.attempt.steps ≤ client.old.value.attempt.steps + MOST_TICKS }
{
    let last = region.last();
    let mut from = rv;
    for _ in 0..MOST_TICKS {
        if from == last {
            return Err(Stop::Spent { version: from });
        }
        match region.tick(client, from, tag, writes) {
            Ok(version) => return Ok(version),
            Err(found) => from = found,
        }
    }
    Err(Stop::Conflict(Conflict::LostTick { found: from.get() }))
}
