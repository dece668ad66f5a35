//! A transaction that only reads.
ghost use Rattle.std.specs.Prelude.{◌≡◌, ◌↔◌, ℕ, ◌*◌, ◌^◌, ◌<◌, ◌≤◌, [], length, None, Some, true, false};
ghost use Rattle.stm_core.specs.LockWord.{free_word};
ghost use Rattle.stm_core.specs.Client.{is_settled};
ghost use Rattle.stm_core.specs.Core.{IsFreeHanded};
ghost use Rattle.stm_core.specs.Event.{begin as begins, finish as finishes};
ghost use Rattle.stm_region.specs.declared.limits.TheConstants.{MOST_GRANTS};
ghost use Rattle.stm_region.specs.Shown.{acted};
ghost use Rattle.stm_region.specs.Findings.{AreEarlier};
ghost use Rattle.stm_attempt.specs.Begun.{IsRunning, IsUnstopped, is_unfinished};
ghost use Rattle.stm_attempt.specs.Committing.{DecidesWith, commit_record};
ghost use Rattle.stm_attempt.specs.Conflicts.{HasMet, most_steps};
ghost use Rattle.stm_attempt.specs.Meaning.{IsStanding};

use crate::conflict::{Conflict, Stopped};
use crate::reading::read_word;
use crate::standing::ConsistentReads;
use std::alloc::{Allocator, Global};
use stm_core::{Law, LockWord, Tag, Version};
use stm_region::{Client, Region};
use tx_memory::{Addr, TxRead};

/// A running transaction that only reads. The attempt keeps no log and takes no memory.
///
/// The attempt must be ended by `finish` or `abort`.
pub struct ReadAttempt<'a, L: Law, R: Allocator = Global> {
    pub(crate) region: &'a Region<L, R>,
    pub(crate) client: &'a mut Client<L>,
    pub(crate) rv: Version,
    /// The word of a free lock at the read version, which no lock word that is read may exceed.
    pub(crate) newest: u64,
    /// The conflict that a read met, if any.
    pub(crate) stopped: Option<Conflict>,
    pub(crate) standing: ConsistentReads<L>,
    ghost own: { client.now.table ≡ region.now.table },
    ghost compared: { newest ≡ free_word rv },
    ghost small: { newest < 2 ^ 63 },
    ghost running: { is_unfinished client.now.value.attempt.phase ≡ true →
        IsRunning region.now client.now.value rv stopped },
    ghost stands: { IsStanding (is_unfinished client.now.value.attempt.phase) region.now
        client.now.value standing.size.value standing.client.value.value.attempt.reads },
}

impl<'a, L: Law, R: Allocator> ReadAttempt<'a, L, R> {
    ghost use Rattle.stm_attempt.specs.Attempt.{client_left, value_left};
    ghost use Rattle.stm_attempt.specs.ReadAttempt.{runs, client_of, lock_of, step_bound};

    /// Begins an attempt, with one load of the clock.
    pub fn begin(region: &'a Region<L, R>, client: &'a mut Client<L>) -> ReadAttempt<'a, L, R>
        requires own { client.old.table ≡ region.now.table }
        requires free_handed { IsFreeHanded client.old.value }
        ensures client { result.client.ghost_name ≡ client.entry.ghost_name }
        ensures region { result.region.now ≡ region.now }
        ensures value { result.client.now ≡ acted region.now begins result.rv client.old }
        ensures version { client.old.value.floor ≤ result.rv }
        ensures last { result.rv ≤ region.now.last }
        ensures alone { client.old.value.grants ≡ MOST_GRANTS → result.rv ≡ client.old.value.floor }
        ensures earlier { AreEarlier region.now.renewal result.rv client.old.value.records }
        ensures running { result.stopped ≡ None }
        ensures lone { ((client_of result).attempt.lone ≡ true)
            ↔ (client.old.value.grants ≡ MOST_GRANTS) }
    {
        let rv = region.begin(client);
        let standing = ConsistentReads::of(region, client);
        ReadAttempt {
            region,
            client,
            rv,
            newest: LockWord::free(rv),
            stopped: None,
            standing,
        }
    }

    /// Returns the read version: the clock's value when the attempt began.
    #[inline]
    pub fn read_version(&self) -> Version
        ensures { result ≡ self.now.rv }
    {
        let Self { rv, .. } = self;
        *rv
    }

    /// Returns the conflict that a read of this attempt met, if any. After a conflict the attempt
    /// can only be aborted.
    pub fn stopped(&self) -> Option<Conflict>
        requires { runs self.now ≡ true }
        ensures value { result ≡ self.now.stopped }
        ensures shown { HasMet (lock_of self.now) result (client_of self.now) }
        ensures lone { IsUnstopped (client_of self.now) result }
    {
        let Self { stopped, .. } = self;
        *stopped
    }

    /// Ends the attempt with its record, by one more load of the clock. The version of the record
    /// is the read version.
    pub fn finish<T: Tag>(self, tag: &T) -> Version
        requires running { runs self ≡ true }
        requires unrefused { self.stopped ≡ None }
        requires lawful { L.lawful (T.numbers tag.now) (client_of self).attempt.reads [] }
        ensures version { (result ≡ self.entry.rv) × (result ≡ (client_of self.entry).attempt.rv) }
        ensures floor { (value_left self.exit).floor ≡ result }
        ensures client { (found : ℕ) × (client_left self.exit ≡ acted self.entry.region.now
            (finishes (T.numbers tag.now)) found self.entry.client.now) }
        ensures free_handed { IsFreeHanded (value_left self.exit) }
        ensures decides { DecidesWith L.fits L.lawful self.entry.region.now
            (commit_record self.entry.region.now (T.numbers tag.now)
            (client_of self.entry) [] result) (value_left self.exit) }
        ensures steps { (value_left self.exit).attempt.steps ≤
            most_steps (length (client_of self.entry).attempt.reads) 0 }
    {
        let Self {
            region,
            client,
            rv,
            newest: _,
            stopped: _,
            standing: _,
        } = self;
        region.finish(client, tag);
        rv
    }

    /// Aborts the attempt, which leaves no record.
    pub fn abort(self)
        requires { runs self ≡ true }
        ensures client { client_left self.exit ≡ self.entry.client.now }
        ensures free_handed { IsFreeHanded (client_of self.entry) }
        ensures unsettled { is_settled (client_of self.entry).attempt.phase ≡ false }
        ensures steps { (client_of self.entry).attempt.steps ≤ step_bound self.entry }
    {
        let Self {
            region: _,
            client: _,
            rv: _,
            newest: _,
            stopped: _,
            standing: _,
        } = self;
    }
}

impl<'a, L: Law, R: Allocator> TxRead for ReadAttempt<'a, L, R> {
    ghost use Rattle.std.specs.Prelude.{◌≡◌, ◌≢◌, ◌<◌, ℕ, Some, None, MatchResult, IsOk, IsErr, IfErr, true};
    ghost use Rattle.tx_memory.specs.View.{SameFrame, HasRead};
    ghost use Rattle.stm_logs.specs.Log.{empty_log};
    ghost use Rattle.stm_attempt.specs.Meaning.{Origin, attempt_seen};
    ghost use Rattle.stm_attempt.specs.ReadAttempt.{runs, view, origin, client_of, IsAsBefore, Reads};
    ghost use Rattle.stm_attempt.specs.declared.conflict.Conflict.{Conflict};

    type Stop = Stopped;

    ghost view = { view };

    ghost Origin = { Origin };

    ghost origin = { origin };

    ghost stopped_for = { λ s _. s.stopped ≢ None };

    /// Returns a value of the region, which enters the reads. The value is read between a probe
    /// and a check of its lock with equal words. The probe shows `Held` before `Newer`; the check
    /// shows `Moved` if its word differs.
    #[inline(always)]
    fn read(&mut self, addr: Addr) -> Result<u64, Stopped>
        requires { addr.0 < (view self.old).size }
        ensures origin { origin self.new ≡ origin self.old }
        ensures frame { SameFrame (view self.old) (view self.new) }
        ensures writes { (view self.new).writes ≡ (view self.old).writes }
        ensures answer { MatchResult result
            (λ v. HasRead (view self.old) (view self.new) addr.0 v)
            (λ _. (view self.new).reads ≡ (view self.old).reads) }
        ensures stopped { IfErr result (λ _. self.new.stopped ≢ None) }
        ensures again { (conflict : Conflict) → self.old.stopped ≡ Some conflict →
            IsErr result × IsAsBefore self.old self.new }
        ensures lone { (client_of self.old).attempt.lone ≡ true → IsOk result }
        ensures region { self.old.stopped ≡ None → Reads self.old self.new addr.0 result }
    {
        if self.stopped.is_some() {
            return Err(Stopped);
        }
        match read_word(self.region, self.client, &self.newest, &self.rv, addr) {
            Ok(value) => {
                self.standing = ConsistentReads::of(self.region, self.client);
                Ok(value)
            }
            Err(conflict) => {
                self.stopped = Some(conflict);
                Err(Stopped)
            }
        }
    }

    ghost seen = { λ s. attempt_seen (runs s) s.region.now L.fits s.client.now.value empty_log
        s.standing.size.value s.standing.client.value.value.attempt.reads s.stands
        s.standing.stands };
}
