//! One read of a word of the region.
ghost use Rattle.std.specs.Prelude.{◌≡◌, ℕ, ◌<◌, ◌^◌, IfOk, IfErr, IfSome, IfNone, IsOk, true, false};
ghost use Rattle.stm_core.specs.Client.{is_settled};
ghost use Rattle.stm_core.specs.LockWord.{free_word};
ghost use Rattle.stm_core.specs.Guards.{stripe_of};
ghost use Rattle.stm_region.specs.Findings.{StandsOn};
ghost use Rattle.stm_attempt.specs.Begun.{still, CanRead, HasReadWord, is_unfinished};
ghost use Rattle.stm_attempt.specs.Conflicts.{SaysHeld, HasMetConflict};
ghost use Rattle.stm_attempt.specs.declared.conflict.Conflict.TheVariants.{Newer};

use crate::conflict::Conflict;
use std::alloc::Allocator;
use stm_core::{Law, LockWord, Version};
use stm_region::{Client, Region};
use tx_memory::Addr;

/// Returns the version of a free lock's word, or `None` for a held lock.
#[inline]
pub(crate) fn free_version(word: u64) -> Option<Version>
    requires { word < 2 ^ 63 }
    ensures free { IfSome result (λ v. word ≡ free_word v) }
    ensures held { IfNone result (SaysHeld word) }
{
    let (version, held) = LockWord::decode(word);
    if held { None } else { Some(version) }
}

/// Returns the conflict with a free lock whose version is above the read version.
#[cold]
fn newer(lock: u32, version: Version, rv: Version) -> Conflict
    ensures { result ≡ Newer lock version rv }
{
    Conflict::Newer { lock, version, rv }
}

/// Reads a word. The read stands here twice, and is compiled twice: if the lock has the number of
/// the word, as in a region with one lock for each word, the compiled read keeps one number for
/// both.
///
/// `newest` and the read version are lent. So the compiled read compares `newest` where it is
/// stored, and loads the read version only for the conflict that names it.
#[inline(always)]
pub(crate) fn read_word<L: Law, R: Allocator>(
    region: &Region<L, R>,
    client: &mut Client<L>,
    newest: &u64,
    rv: &Version,
    addr: Addr,
) -> Result<u64, Conflict>
    requires own { client.old.table ≡ region.now.table }
    requires ready { CanRead client.old.value newest.now }
    requires version { rv.now ≡ client.old.value.attempt.rv }
    requires range { addr.0 < region.now.size }
    ensures own { client.new.table ≡ client.old.table }
    ensures same { still client.new.value ≡ still client.old.value }
    ensures unfinished { is_unfinished client.new.value.attempt.phase ≡ true }
    ensures unsettled { is_settled client.new.value.attempt.phase ≡ false }
    ensures ok { IfOk result (λ x. HasReadWord client.old.value client.new.value addr.0 x) }
    ensures stands { IfOk result (λ _.
        StandsOn L.fits region.now.size client.new.value.attempt.reads) }
    ensures conflict { IfErr result (λ conflict. HasMetConflict
        (stripe_of region.now.stripes) addr.0 conflict client.old.value client.new.value) }
    ensures lone { client.old.value.attempt.lone ≡ true → IsOk result }
{
    let lock = region.lock_of(addr);
    if lock == addr.0 {
        read_under(region, client, newest, rv, addr, addr.0)
    } else {
        read_under(region, client, newest, rv, addr, lock)
    }
}

/// Reads a word between a probe and a check of its lock, which must find the same free lock word.
/// That word must be at most `newest`, the word of a free lock at the read version, so that its
/// version is at most the read version.
#[inline(always)]
fn read_under<L: Law, R: Allocator>(
    region: &Region<L, R>,
    client: &mut Client<L>,
    newest: &u64,
    rv: &Version,
    addr: Addr,
    lock: u32,
) -> Result<u64, Conflict>
    requires own { client.old.table ≡ region.now.table }
    requires ready { CanRead client.old.value newest.now }
    requires version { rv.now ≡ client.old.value.attempt.rv }
    requires range { addr.0 < region.now.size }
    requires lock { lock ≡ stripe_of region.now.stripes addr.0 }
    requires in_range { lock < region.now.stripes }
    ensures own { client.new.table ≡ client.old.table }
    ensures same { still client.new.value ≡ still client.old.value }
    ensures unfinished { is_unfinished client.new.value.attempt.phase ≡ true }
    ensures unsettled { is_settled client.new.value.attempt.phase ≡ false }
    ensures ok { IfOk result (λ x. HasReadWord client.old.value client.new.value addr.0 x) }
    ensures stands { IfOk result (λ _.
        StandsOn L.fits region.now.size client.new.value.attempt.reads) }
    ensures conflict { IfErr result (λ conflict. HasMetConflict
        (stripe_of region.now.stripes) addr.0 conflict client.old.value client.new.value) }
    ensures lone { client.old.value.attempt.lone ≡ true → IsOk result }
{
    let first = region.probe(client, lock);
    let Some(version) = free_version(first) else {
        return Err(Conflict::Held { lock, word: first });
    };
    if first > *newest {
        return Err(newer(lock, version, *rv));
    }
    let value = region.fetch(client, addr);
    let second = region.check(client, addr, lock);
    if second != first {
        return Err(Conflict::Moved {
            lock,
            first,
            second,
        });
    }
    Ok(value)
}
