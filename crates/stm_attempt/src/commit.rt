//! The commit of an attempt: taking its locks in ascending order, one won tick of the clock, the
//! validation of each read word's lock, the write-back, and the releases.
ghost use Rattle.std.specs.Prelude.{◌≡◌, ◌+◌, ◌<◌, ◌≤◌, ◌||◌, eqb, true, false, [], Ok, Err, Some, None, IfOk, IfErr};
ghost use Rattle.std.specs.FinMap.{len};
ghost use Rattle.stm_core.specs.Core.{IsFreeHanded};
ghost use Rattle.stm_logs.specs.Log.{SameAddresses, log_pairs, log_locks};
ghost use Rattle.stm_attempt.specs.Begun.{IsPlaced, addresses};
ghost use Rattle.stm_attempt.specs.Conflicts.{HasMet};
ghost use Rattle.stm_attempt.specs.Committing.{HasWonLock, IsCommitResult, HasCommitted, HasStopped, DecidesWith, WasDecided};
ghost use Rattle.stm_attempt.specs.Committing.{commit_record, ticked_record};
ghost use Rattle.stm_attempt.specs.Attempt.{AreEmpty};
ghost use Rattle.stm_attempt.specs.CommitParts.{CanEnd, IsReady, IsLogged, IsDecided, HasFailedDeciding, CanSettle, HasSettled, commit_bound};
ghost use Rattle.stm_attempt.specs.declared.conflict.Conflict.{Conflict};
ghost use Rattle.stm_attempt.specs.declared.conflict.Stop.TheVariants.{Conflict as conflicting};

use crate::attempt::Attempt;
use crate::conflict::{Conflict, Stop};
use crate::gate::{Gate, Point};
use crate::locking::{give_back_first, lock_all};
use crate::logs::Logs;
use crate::storing::{release_all, store_all};
use crate::ticking::tick;
use crate::validating::validate_reads;
use std::alloc::Allocator;
use stm_core::{Law, Tag, Version};
use stm_logs::WriteLog;
use stm_region::{Client, Region};

/// Returns whether the tick to a write version decides the attempt, so that no validation follows.
#[inline]
fn decides_at_once(reads: usize, rv: Version, version: Version) -> bool
    ensures { result ≡ (eqb reads 0 || eqb version (rv + 1)) }
{
    reads == 0 || version.get() == rv.get() + 1
}

/// Ticks the clock with all locks held, and validates the reads unless the tick decides the
/// attempt.
fn decide<L: Law, R: Allocator, A: Allocator + Copy, T: Tag, G: Gate>(
    region: &Region<L, R>,
    client: &mut Client<L>,
    logs: &Logs<A>,
    rv: Version,
    tag: &T,
    gate: &mut G,
) -> Result<Version, Stop>
    requires own { client.old.table ≡ region.now.table }
    requires ready { IsReady region.now client.old.value rv }
    requires logged { IsLogged region.now client.old.value logs.now.reads logs.now.writes }
    requires lawful { L.lawful (T.numbers tag.now) client.old.value.attempt.reads
        (log_pairs logs.now.writes) }
    requires held { addresses client.old.value.attempt.held ≡ log_locks logs.now.writes }
    requires locked { HasWonLock client.old.value }
    requires same { SameAddresses logs.now.writes }
    ensures own { client.new.table ≡ client.old.table }
    ensures ok { IfOk result (λ version. IsDecided region.now (T.numbers tag.now)
        (log_pairs logs.now.writes) client.old.value client.new.value version) }
    ensures version { IsCommitResult region.now client.old.value result }
    ensures decides { IfOk result (λ version. DecidesWith L.fits L.lawful region.now
        (ticked_record region.now (T.numbers tag.now) client.old.value
        (log_pairs logs.now.writes) version) client.new.value) }
    ensures failed { IfErr result (λ stop. HasFailedDeciding region.now logs.now.writes stop
        client.old.value client.new.value) }
{
    gate.at(Point::Locked);
    let version = tick(region, client, rv, tag, &logs.writes)?;
    gate.at(Point::Ticked);
    if !decides_at_once(logs.reads.len(), rv, version) {
        if let Err(conflict) = validate_reads(region, client, rv, logs) {
            return Err(Stop::Conflict(conflict));
        }
    }
    gate.at(Point::Decided);
    Ok(version)
}

/// Writes back the values of a decided attempt, and releases its locks.
fn settle<L: Law, R: Allocator, A: Allocator + Copy, G: Gate>(
    region: &Region<L, R>,
    client: &mut Client<L>,
    writes: &WriteLog<A>,
    gate: &mut G,
)
    requires own { client.old.table ≡ region.now.table }
    requires decided { CanSettle client.old.value writes.now }
    requires placed { IsPlaced region.now writes.now }
    ensures own { client.new.table ≡ client.old.table }
    ensures settled { HasSettled client.old.value client.new.value }
{
    store_all(region, client, writes);
    gate.at(Point::Written);
    release_all(region, client, writes);
}

/// Commits an attempt that has written: takes all its locks, or gives back those that it has
/// taken.
fn commit_writes<L: Law, R: Allocator, A: Allocator + Copy, T: Tag, G: Gate>(
    region: &Region<L, R>,
    client: &mut Client<L>,
    logs: &Logs<A>,
    rv: Version,
    tag: &T,
    gate: &mut G,
) -> Result<Version, Stop>
    requires own { client.old.table ≡ region.now.table }
    requires ready { IsReady region.now client.old.value rv }
    requires free { client.old.value.attempt.held ≡ [] }
    requires logged { IsLogged region.now client.old.value logs.now.reads logs.now.writes }
    requires lawful { L.lawful (T.numbers tag.now) client.old.value.attempt.reads
        (log_pairs logs.now.writes) }
    ensures own { client.new.table ≡ client.old.table }
    ensures ok { IfOk result (λ version. HasCommitted region.now (T.numbers tag.now)
        (log_pairs logs.now.writes) client.old.value client.new.value version) }
    ensures version { IsCommitResult region.now client.old.value result }
    ensures decides { IfOk result (λ version. WasDecided L.fits L.lawful region.now
        (commit_record region.now (T.numbers tag.now) client.old.value
        (log_pairs logs.now.writes) version) client.new.value) }
    ensures stopped { IfErr result (λ stop. HasStopped region.now logs.now.writes stop
        client.old.value client.new.value) }
    ensures steps { client.new.value.attempt.steps
        ≤ commit_bound client.old.value logs.now.writes }
{
    logs.writes.same_addresses();
    let mut taken = 0;
    let answer = match lock_all(region, client, &logs.writes, &mut taken) {
        Ok(()) => decide(region, client, logs, rv, tag, gate),
        Err(conflict) => Err(Stop::Conflict(conflict)),
    };
    if answer.is_ok() {
        settle(region, client, &logs.writes, gate);
    } else {
        give_back_first(region, client, &logs.writes, taken);
    }
    answer
}

/// The end of an attempt's reads: the read version, and the conflict that the last read met, if
/// any.
#[derive(Clone, Copy)]
struct ReadsEnd {
    rv: Version,
    stopped: Option<Conflict>,
}

/// Commits the reads and writes of an attempt, unless a read met a conflict. The logs are then no
/// longer in use.
fn commit_or_stop<L: Law, R: Allocator, A: Allocator + Copy, T: Tag, G: Gate>(
    region: &Region<L, R>,
    logs: &mut Logs<A>,
    client: &mut Client<L>,
    end: ReadsEnd,
    tag: &T,
    gate: &mut G,
) -> Result<Version, Stop>
    requires own { client.old.table ≡ region.now.table }
    requires ready { CanEnd L.lawful region.now (T.numbers tag.now) client.old.value end.rv
        end.stopped logs.old.reads logs.old.writes }
    ensures own { client.new.table ≡ client.old.table }
    ensures free_handed { IsFreeHanded client.new.value }
    ensures over { logs.new.in_use ≡ false }
    ensures again { (conflict : Conflict) → end.stopped ≡ Some conflict →
        (result ≡ Err (conflicting conflict)) × (client.new ≡ client.old) }
    ensures ok { IfOk result (λ version. HasCommitted region.now (T.numbers tag.now)
        (log_pairs logs.old.writes) client.old.value client.new.value version) }
    ensures version { IsCommitResult region.now client.old.value result }
    ensures decides { IfOk result (λ version. WasDecided L.fits L.lawful region.now
        (commit_record region.now (T.numbers tag.now) client.old.value
        (log_pairs logs.old.writes) version) client.new.value) }
    ensures refused { end.stopped ≡ None → IfErr result (λ stop.
        HasStopped region.now logs.old.writes stop client.old.value client.new.value) }
    ensures logs { IfErr result (λ _. AreEmpty logs.new) }
    ensures steps { client.new.value.attempt.steps
        ≤ commit_bound client.old.value logs.old.writes }
{
    logs.in_use = false;
    let answer = match end.stopped {
        Some(conflict) => Err(Stop::Conflict(conflict)),
        None => {
            gate.at(Point::ReadsDone);
            if logs.writes.len() == 0 {
                region.finish(client, tag);
                Ok(end.rv)
            } else {
                commit_writes(region, client, logs, end.rv, tag, gate)
            }
        }
    };
    if answer.is_err() {
        logs.clear();
    }
    answer
}

impl<'a, L: Law, R: Allocator, A: Allocator + Copy> Attempt<'a, L, R, A> {
    ghost use Rattle.stm_attempt.specs.Attempt.{runs, client_of, log_of, lock_of, Commits, Stops, record_made, step_bound, client_left, value_left, logs_left};

    /// Commits the attempt. The record of the attempt has this tag. Returns the write version, or
    /// the read version if nothing was written. A refused commit leaves no record, no held lock
    /// and empty logs.
    ///
    /// Not said: that calls whose result has no case for refused memory take none, which is read
    /// in the code.
    #[inline(always)]
    pub fn commit<T: Tag, G: Gate>(self, tag: &T, gate: &mut G) -> Result<Version, Stop>
        requires running { runs self ≡ true }
        requires lawful { self.stopped ≡ None →
            L.lawful (T.numbers tag.now) (client_of self).attempt.reads (log_pairs (log_of self)) }
        ensures own { (client_left self.exit).table ≡ self.entry.client.now.table }
        ensures free_handed { IsFreeHanded (value_left self.exit) }
        ensures again { (conflict : Conflict) → self.entry.stopped ≡ Some conflict →
            (result ≡ Err (conflicting conflict)) ×
            (client_left self.exit ≡ self.entry.client.now) }
        ensures met { HasMet (lock_of self.entry) self.entry.stopped (value_left self.exit) }
        ensures ok { IfOk result (λ version.
            Commits self.entry (T.numbers tag.now) (value_left self.exit) version) }
        ensures version { IsCommitResult self.entry.region.now (client_of self.entry) result }
        ensures decides { IfOk result (λ version.
            WasDecided L.fits L.lawful self.entry.region.now
            (record_made self.entry (T.numbers tag.now) version) (value_left self.exit)) }
        ensures refused { self.entry.stopped ≡ None →
            IfErr result (λ stop. Stops self.entry (value_left self.exit) stop) }
        ensures logs { IfErr result (λ _. AreEmpty (logs_left self.exit)) }
        ensures steps { (value_left self.exit).attempt.steps ≤ step_bound self.entry }
    {
        let Self {
            region,
            client,
            logs,
            rv,
            newest: _,
            stopped,
            standing: _,
        } = self;
        let end = ReadsEnd { rv, stopped };
        commit_or_stop(region, logs, client, end, tag, gate)
    }
}
