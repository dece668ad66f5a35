//! An attempt: one transaction of one client.
ghost use Rattle.std.specs.Prelude.{◌≡◌, ◌≢◌, ◌↔◌, ℕ, ◌+◌, ◌*◌, ◌^◌, ◌<◌, ◌≤◌, None, Some, true, false};
ghost use Rattle.stm_core.specs.LockWord.{free_word};
ghost use Rattle.stm_core.specs.Client.{is_settled};
ghost use Rattle.stm_core.specs.Core.{IsFreeHanded};
ghost use Rattle.stm_core.specs.Event.{begin as begins};
ghost use Rattle.stm_region.specs.declared.limits.TheConstants.{MOST_GRANTS};
ghost use Rattle.stm_region.specs.Shown.{acted};
ghost use Rattle.stm_region.specs.Findings.{AreEarlier};
ghost use Rattle.stm_attempt.specs.Begun.{AreInside, IsPlaced, IsQuiet, IsRunning, IsUnstopped, MarksCover, AreAllMarked, addresses};
ghost use Rattle.stm_attempt.specs.Conflicts.{HasMet};
ghost use Rattle.stm_attempt.specs.Meaning.{IsStanding};

use crate::conflict::{Conflict, Refusal};
use crate::logs::Logs;
use crate::reading::read_word;
use crate::standing::ConsistentReads;
use std::alloc::{Allocator, Global};
use stm_core::{Law, LockWord, Version};
use stm_region::{Client, Region};
use tx_memory::{Addr, TxMem, TxRead};

/// A running transaction of a client, with its read log and its write log.
///
/// The attempt must be ended by `commit` or `abort`.
pub struct Attempt<'a, L: Law, R: Allocator = Global, A: Allocator + Copy = Global> {
    pub(crate) region: &'a Region<L, R>,
    pub(crate) client: &'a mut Client<L>,
    pub(crate) logs: &'a mut Logs<A>,
    pub(crate) rv: Version,
    /// The word of a free lock at the read version, which no lock word that is read may exceed.
    pub(crate) newest: u64,
    /// The conflict that a read met, if any.
    pub(crate) stopped: Option<Conflict>,
    pub(crate) standing: ConsistentReads<L>,
    ghost own: { client.now.table ≡ region.now.table },
    ghost known: { rv ≤ region.now.last },
    ghost compared: { newest ≡ free_word rv },
    ghost small: { newest < 2 ^ 63 },
    ghost running: { logs.now.in_use ≡ true → IsRunning region.now client.now.value rv stopped },
    ghost inside: { logs.now.in_use ≡ true
        → AreInside region.now.size client.now.value.attempt.reads },
    ghost logged: { logs.now.in_use ≡ true → stopped ≡ None →
        logs.now.reads ≡ addresses client.now.value.attempt.reads },
    ghost placed: { logs.now.in_use ≡ true → IsPlaced region.now logs.now.writes },
    ghost covered: { logs.now.in_use ≡ true → MarksCover logs.now.marks logs.now.writes },
    ghost marked: { logs.now.in_use ≡ true → stopped ≢ None → AreAllMarked logs.now.marks },
    ghost stands: { IsStanding logs.now.in_use region.now client.now.value
        standing.size.value standing.client.value.value.attempt.reads },
}

impl<'a, L: Law, R: Allocator, A: Allocator + Copy> Attempt<'a, L, R, A> {
    ghost use Rattle.stm_attempt.specs.Attempt.{runs, client_of, lock_of, written_at, IsFresh, step_bound, client_left};
    ghost use Rattle.std.specs.Prelude.{IfOk, IfErr};
    ghost use Rattle.stm_attempt.specs.declared.conflict.Refusal.TheVariants.{Stopped};

    /// Begins an attempt, with one load of the clock. The logs are emptied first.
    ///
    /// Not said: that the read version is the newest version if other clients are out; that a
    /// client which is alone has all grants. Such a client has all grants if it has gathered all
    /// others.
    pub fn begin(
        region: &'a Region<L, R>,
        client: &'a mut Client<L>,
        logs: &'a mut Logs<A>,
    ) -> Attempt<'a, L, R, A>
        requires own { client.old.table ≡ region.now.table }
        requires free_handed { IsFreeHanded client.old.value }
        ensures client { result.client.ghost_name ≡ client.entry.ghost_name }
        ensures logs { result.logs.ghost_name ≡ logs.entry.ghost_name }
        ensures region { result.region.now ≡ region.now }
        ensures value { result.client.now ≡ acted region.now begins result.rv client.old }
        ensures version { client.old.value.floor ≤ result.rv }
        ensures last { result.rv ≤ region.now.last }
        ensures alone { client.old.value.grants ≡ MOST_GRANTS → result.rv ≡ client.old.value.floor }
        ensures earlier { AreEarlier region.now.renewal result.rv client.old.value.records }
        ensures empty { IsFresh result }
        ensures lone { ((client_of result).attempt.lone ≡ true)
            ↔ (client.old.value.grants ≡ MOST_GRANTS) }
    {
        logs.clear();
        logs.in_use = true;
        let rv = region.begin(client);
        let standing = ConsistentReads::of(region, client);
        Attempt {
            region,
            client,
            logs,
            rv,
            newest: LockWord::free(rv),
            stopped: None,
            standing,
        }
    }

    /// Returns the read version: the clock's value when the attempt began.
    pub fn read_version(&self) -> Version
        requires { runs self.now ≡ true }
        ensures { result ≡ (client_of self.now).attempt.rv }
    {
        let Self { rv, .. } = self;
        *rv
    }

    /// Returns the conflict that a read of this attempt met, if any. After a conflict the attempt
    /// can only abort.
    pub fn stopped(&self) -> Option<Conflict>
        requires { runs self.now ≡ true }
        ensures value { result ≡ self.now.stopped }
        ensures shown { HasMet (lock_of self.now) result (client_of self.now) }
        ensures quiet { result ≡ None → IsQuiet (client_of self.now) }
        ensures lone { IsUnstopped (client_of self.now) result }
    {
        let Self { stopped, .. } = self;
        *stopped
    }

    /// Returns the value that the attempt has written at the address, if any, or `Stopped` if a
    /// read has met a conflict. One mark shows that there is neither.
    #[inline(always)]
    fn own_write(&self, addr: Addr) -> Result<Option<u64>, Refusal>
        requires { runs self.now ≡ true }
        ensures ok { IfOk result (λ own.
            (own ≡ written_at self.now addr.0) × (self.now.stopped ≡ None)) }
        ensures stopped { IfErr result (λ stop.
            (stop ≡ Stopped) × (self.now.stopped ≢ None)) }
    {
        if !self.logs.marks.is_marked(addr) {
            return Ok(None);
        }
        if self.stopped.is_some() {
            return Err(Refusal::Stopped);
        }
        Ok(self.logs.writes.get(addr))
    }

    /// Aborts the attempt, which leaves no record.
    ///
    /// Not said: the contents of the logs until the next begin.
    pub fn abort(self)
        requires { runs self ≡ true }
        ensures client { client_left self.exit ≡ self.entry.client.now }
        ensures free_handed { IsFreeHanded (client_of self.entry) }
        ensures unsettled { is_settled (client_of self.entry).attempt.phase ≡ false }
        ensures steps { (client_of self.entry).attempt.steps ≤ step_bound self.entry }
    {
        let Self {
            region: _,
            client: _,
            logs: _,
            rv: _,
            newest: _,
            stopped: _,
            standing: _,
        } = self;
    }
}

impl<'a, L: Law, R: Allocator, A: Allocator + Copy> TxRead for Attempt<'a, L, R, A> {
    ghost use Rattle.std.specs.Prelude.{◌≡◌, ◌≢◌, ℕ, ◌+◌, ◌<◌, Some, None, Ok, Err, MatchResult, IfErr, true};
    ghost use Rattle.tx_memory.specs.View.{SameFrame, HasRead};
    ghost use Rattle.stm_attempt.specs.Meaning.{Origin, attempt_seen};
    ghost use Rattle.stm_attempt.specs.Attempt.{view, origin, client_of, log_of, written_at, IsAsBefore, Reads};
    ghost use Rattle.stm_attempt.specs.declared.conflict.Conflict.{Conflict};
    ghost use Rattle.stm_attempt.specs.declared.conflict.Refusal.TheVariants.{Memory, Stopped};

    type Stop = Refusal;

    ghost view = { view };

    ghost Origin = { Origin };

    ghost origin = { origin };

    ghost stopped_for = { λ s stop. stop ≡ Stopped → s.stopped ≢ None };

    /// Returns the attempt's own write of this address, or a value of the region, which enters the
    /// reads. A value of the region is read between a probe and a check of its lock with equal
    /// words. The probe shows `Held` before `Newer`; the check shows `Moved` if its word differs.
    ///
    /// Not said: that a read returns a value while other clients write; the version of the image
    /// that agrees with the reads, which the region's law `reads_are_of_one_version` gives.
    #[inline(always)]
    fn read(&mut self, addr: Addr) -> Result<u64, Refusal>
        requires { addr.0 < (view self.old).size }
        ensures origin { origin self.new ≡ origin self.old }
        ensures frame { SameFrame (view self.old) (view self.new) }
        ensures writes { (view self.new).writes ≡ (view self.old).writes }
        ensures answer { MatchResult result
            (λ v. HasRead (view self.old) (view self.new) addr.0 v)
            (λ _. (view self.new).reads ≡ (view self.old).reads) }
        ensures stopped { IfErr result (λ stop. stop ≡ Stopped → self.new.stopped ≢ None) }
        ensures log { log_of self.new ≡ log_of self.old }
        ensures again { (conflict : Conflict) → self.old.stopped ≡ Some conflict →
            (result ≡ Err Stopped) × IsAsBefore self.old self.new }
        ensures own { self.old.stopped ≡ None → (v : ℕ) → written_at self.old addr.0 ≡ Some v →
            (result ≡ Ok v) × IsAsBefore self.old self.new }
        ensures lone { (client_of self.old).attempt.lone ≡ true
            → IfErr result (λ stop. stop ≡ Memory) }
        ensures region { self.old.stopped ≡ None → written_at self.old addr.0 ≡ None →
            Reads self.old self.new addr.0 result }
    {
        if let Some(value) = self.own_write(addr)? {
            return Ok(value);
        }
        self.logs.reads.push(addr)?;
        match read_word(self.region, self.client, &self.newest, &self.rv, addr) {
            Ok(value) => {
                self.standing = ConsistentReads::of(self.region, self.client);
                Ok(value)
            }
            Err(conflict) => {
                self.stopped = Some(conflict);
                self.logs.marks.mark_all();
                Err(Refusal::Stopped)
            }
        }
    }

    ghost seen = { λ s. attempt_seen s.logs.now.in_use s.region.now L.fits s.client.now.value
        s.logs.now.writes s.standing.size.value s.standing.client.value.value.attempt.reads
        s.stands s.standing.stands };
}

impl<'a, L: Law, R: Allocator, A: Allocator + Copy> TxMem for Attempt<'a, L, R, A> {
    ghost use Rattle.std.specs.Prelude.{◌≡◌, ◌≢◌, Some, None, Ok, Err, IsOk, MatchResult, IfErr, true};
    ghost use Rattle.std.specs.FinMap.{insert};
    ghost use Rattle.tx_memory.specs.View.{SameFrame};
    ghost use Rattle.stm_attempt.specs.Attempt.{view, origin, client_of, log_of, written_at, IsAsBefore, Writes};
    ghost use Rattle.stm_attempt.specs.declared.conflict.Conflict.{Conflict};
    ghost use Rattle.stm_attempt.specs.declared.conflict.Refusal.TheVariants.{Memory, Stopped};

    /// Puts the value into the write log.
    #[inline]
    fn write(&mut self, addr: Addr, value: u64) -> Result<(), Refusal>
        requires { addr.0 < (view self.old).size }
        ensures origin { origin self.new ≡ origin self.old }
        ensures frame { SameFrame (view self.old) (view self.new) }
        ensures reads { (view self.new).reads ≡ (view self.old).reads }
        ensures answer { MatchResult result
            (λ _. (view self.new).writes ≡ insert (view self.old).writes addr.0 value)
            (λ _. (view self.new).writes ≡ (view self.old).writes) }
        ensures client { IsAsBefore self.old self.new }
        ensures again { (conflict : Conflict) → self.old.stopped ≡ Some conflict →
            (result ≡ Err Stopped) × (log_of self.new ≡ log_of self.old) }
        ensures lone { (client_of self.old).attempt.lone ≡ true
            → IfErr result (λ stop. stop ≡ Memory) }
        ensures log { self.old.stopped ≡ None → Writes self.old self.new addr.0 value result }
        ensures there { self.old.stopped ≡ None → written_at self.old addr.0 ≢ None → IsOk result }
    {
        if self.stopped.is_some() {
            return Err(Refusal::Stopped);
        }
        let lock = self.region.lock_of(addr);
        self.logs.marks.mark(addr);
        self.logs.writes.put(addr, lock, value)?;
        Ok(())
    }
}
