//! The validation of a commit: checking the locks of the words that it read.
ghost use Rattle.std.specs.Prelude.{◌≡◌, ℕ, ◌<◌, true, false, IfOk, IfErr};
ghost use Rattle.stm_core.specs.Client.{decided};
ghost use Rattle.stm_core.specs.Event.{validate as validates};
ghost use Rattle.stm_logs.specs.Log.{log_locks};
ghost use Rattle.stm_region.specs.Shown.{IsAllowed};
ghost use Rattle.stm_core.specs.Guards.{stripe_of};
ghost use Rattle.stm_region.specs.Findings.{Decides};
ghost use Rattle.stm_attempt.specs.Begun.{IsPlaced, addresses};
ghost use Rattle.stm_attempt.specs.Conflicts.{IsValidateConflict, IsReadLock};
ghost use Rattle.stm_attempt.specs.CommitParts.{CanValidate, HasValidated, HasFailedValidating};
ghost use Rattle.stm_attempt.specs.Validating.{HasValidatedLock};

use crate::conflict::Conflict;
use crate::logs::Logs;
use std::alloc::Allocator;
use stm_core::{Law, LockWord, Version};
use stm_logs::WriteLog;
use stm_region::{Client, Region};
use tx_memory::Addr;

/// Validates the lock of a word that was read: the lock must be free or the client's own, with a
/// version of at most the read version.
fn validate_lock<L: Law, R: Allocator, A: Allocator + Copy>(
    region: &Region<L, R>,
    client: &mut Client<L>,
    rv: Version,
    addr: Addr,
    lock: u32,
    writes: &WriteLog<A>,
) -> Result<(), Conflict>
    requires own { client.old.table ≡ region.now.table }
    requires lock { lock ≡ stripe_of region.now.stripes addr.0 }
    requires placed { IsPlaced region.now writes.now }
    requires allowed { IsAllowed L.lawful region.now (validates lock) client.old }
    requires version { client.old.value.attempt.rv ≡ rv }
    requires held { addresses client.old.value.attempt.held ≡ log_locks writes.now }
    ensures own { client.new.table ≡ client.old.table }
    ensures passed { IfOk result (λ _.
        HasValidatedLock region.now lock true client.old.value client.new.value) }
    ensures decides { IfOk result (λ _. decided client.new.value ≡ true →
        Decides L.fits L.lawful region.now client.new.value) }
    ensures failed { IfErr result (λ _.
        HasValidatedLock region.now lock false client.old.value client.new.value) }
    ensures shown { IfErr result (λ conflict. IsValidateConflict lock conflict client.new.value) }
{
    let word = region.validate(client, lock);
    let (version, held) = LockWord::decode(word);
    if held && !writes.holds(addr, lock) {
        return Err(Conflict::Held { lock, word });
    }
    if version > rv {
        return Err(Conflict::Newer { lock, version, rv });
    }
    Ok(())
}

/// Validates the lock of each read word. The last validation decides the attempt.
pub(crate) fn validate_reads<L: Law, R: Allocator, A: Allocator + Copy>(
    region: &Region<L, R>,
    client: &mut Client<L>,
    rv: Version,
    logs: &Logs<A>,
) -> Result<(), Conflict>
    requires own { client.old.table ≡ region.now.table }
    requires ready { CanValidate region.now client.old.value rv }
    requires logged { logs.now.reads ≡ addresses client.old.value.attempt.reads }
    requires placed { IsPlaced region.now logs.now.writes }
    requires held { addresses client.old.value.attempt.held ≡ log_locks logs.now.writes }
    ensures own { client.new.table ≡ client.old.table }
    ensures ok { IfOk result (λ _. HasValidated region.now client.old.value client.new.value) }
    ensures decides { IfOk result (λ _. Decides L.fits L.lawful region.now client.new.value) }
    ensures failed { IfErr result (λ _. HasFailedValidating client.old.value client.new.value) }
    ensures shown { IfErr result (λ conflict. (lock : ℕ) ×
        IsReadLock (stripe_of region.now.stripes) client.new.value.attempt.reads lock ×
        IsValidateConflict lock conflict client.new.value) }
{
    for i in 0..logs.reads.len() {
        let addr = logs.reads.get(i);
        let lock = region.lock_of(addr);
        validate_lock(region, client, rv, addr, lock, &logs.writes)?;
    }
    Ok(())
}
