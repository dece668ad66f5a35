//! The steps of a client: each is one atomic access to one word, and one event of the core.
ghost use Rattle.std.specs.Prelude.{◌≡◌, ℕ, ◌+◌, ◌<◌, ◌≤◌, ◌==◌, true, [], MatchResult, IfErr, IsOk};
ghost use Rattle.stm_core.specs.Client.{word_before, decided};
ghost use Rattle.stm_core.specs.Event.{begin as begins, probe as probes, fetch as fetches, check as checks, lock as locks, tick as ticks, validate as validates, put as puts, release as releases, give_back as gives_back, finish as finishes};
ghost use Rattle.stm_region.specs.Shown.{Exchanged, IsAllowed, acted, client_left};
ghost use Rattle.stm_region.specs.declared.limits.TheConstants.{MOST_GRANTS};
ghost use Rattle.stm_region.specs.Findings.{IsLockWord, IsLoneOpen, StandsOn, IsOneEvent, IsOfOneVersion, IsOfOneVersionAt};
ghost use Rattle.stm_region.specs.Findings.{AreEarlier, Decides, DecidesAt};
ghost use Rattle.std.specs.Prelude.{◌⊎◌};
ghost use Rattle.stm_core.specs.Client.{version_of, IsFree};
ghost use Rattle.stm_core.specs.Guards.{Holds, stripe_of};

use crate::client::Client;
use crate::layout::{CLOCK, FIRST_LOCK};
use crate::probed::Probed;
use crate::region::Region;
use crate::version::as_version;
use std::alloc::Allocator;
use std::marker::Brand;
use stm_core::{Law, LockWord, Tag, Version, Writes};
use tx_memory::Addr;

impl<L: Law, A: Allocator> Region<L, A> {
    /// Begins an attempt: loads the clock, which gives the read version. A client with all grants
    /// is the only one out, so that it finds its floor, the version that it knows.
    #[inline]
    pub fn begin(&self, client: &mut Client<L>) -> Version
        requires own { client.old.table ≡ self.now.table }
        requires allowed { IsAllowed L.lawful self.now begins client.old }
        ensures client { client.new ≡ acted self.now begins result client.old }
        ensures event { IsOneEvent L.lawful self.now begins result
            client.old.value client.new.value }
        ensures version { result ≤ self.now.last }
        ensures floor { client.old.value.floor ≤ result }
        ensures alone { client.old.value.grants ≡ MOST_GRANTS → result ≡ client.old.value.floor }
        ensures stands { StandsOn L.fits self.now.size [] }
        ensures earlier { AreEarlier self.now.renewal result client.old.value.records }
    {
        let found = self.load_as::<Brand>(&mut client.seat, CLOCK, 0);
        client.version = as_version(0);
        let Some(version) = Version::new(found) else {
            unreachable!()
        };
        version
    }

    /// Loads a lock word.
    #[inline]
    pub fn probe(&self, client: &mut Client<L>, lock: u32) -> u64
        requires own { client.old.table ≡ self.now.table }
        requires allowed { IsAllowed L.lawful self.now (probes lock) client.old }
        ensures client { client.new ≡ acted self.now (probes lock) result client.old }
        ensures event { IsOneEvent L.lawful self.now (probes lock) result
            client.old.value client.new.value }
        ensures word { IsLockWord self.now.last result }
        ensures lone { IsLoneOpen client.old.value →
            (IsFree result ⊎ Holds client.old.value.attempt.held lock)
            × (version_of result ≤ client.old.value.attempt.rv) }
    {
        self.load_as::<Brand>(&mut client.seat, FIRST_LOCK + lock as usize, lock)
    }

    /// Loads a lock word. The result keeps the client, for the exchange that takes the lock.
    #[inline]
    pub fn probe_to_lock<'c>(&self, client: &'c mut Client<L>, lock: u32) -> Probed<'c, L>
        requires own { client.old.table ≡ self.now.table }
        requires allowed { IsAllowed L.lawful self.now (probes lock) client.old }
        ensures kept { (result.client.ghost_name ≡ client.entry.ghost_name)
            × (result.lock ≡ lock) }
        ensures client { result.client.now
            ≡ acted self.now (probes lock) result.word client.old }
        ensures event { IsOneEvent L.lawful self.now (probes lock) result.word
            client.old.value result.client.now.value }
        ensures word { IsLockWord self.now.last result.word }
        ensures lone { IsLoneOpen client.old.value →
            (IsFree result.word ⊎ Holds client.old.value.attempt.held lock)
            × (version_of result.word ≤ client.old.value.attempt.rv) }
    {
        let word = self.probe(client, lock);
        Probed { client, lock, word }
    }

    /// Loads the data word of an address whose lock was found free.
    #[inline]
    pub fn fetch(&self, client: &mut Client<L>, addr: Addr) -> u64
        requires own { client.old.table ≡ self.now.table }
        requires allowed { IsAllowed L.lawful self.now (fetches addr.0) client.old }
        ensures client { client.new ≡ acted self.now (fetches addr.0) result client.old }
        ensures event { IsOneEvent L.lawful self.now (fetches addr.0) result
            client.old.value client.new.value }
    {
        self.load_as::<Brand>(&mut client.seat, self.cells + addr.0 as usize, addr.0)
    }

    /// Loads the lock word of an address again; `lock` is the number of that lock. If the word has
    /// not changed, the value fetched enters the reads.
    #[inline]
    pub fn check(&self, client: &mut Client<L>, addr: Addr, lock: u32) -> u64
        requires own { client.old.table ≡ self.now.table }
        requires lock { lock ≡ stripe_of self.now.stripes addr.0 }
        requires allowed { IsAllowed L.lawful self.now (checks addr.0) client.old }
        ensures client { client.new ≡ acted self.now (checks addr.0) result client.old }
        ensures word { IsLockWord self.now.last result }
        ensures stands { StandsOn L.fits self.now.size client.new.value.attempt.reads }
        ensures lone { IsLoneOpen client.old.value
            → result ≡ word_before client.old.value.attempt.last }
        ensures version { IsOfOneVersion L.fits L.lawful self.now client.new.value }
        ensures after { IsOfOneVersionAt L.fits L.lawful self.now (checks addr.0) result
            client.old.value client.new.value }
    {
        self.load_as::<Brand>(&mut client.seat, FIRST_LOCK + lock as usize, addr.0)
    }

    /// Takes a lock that the last step, a probe, found free, by one compare-and-exchange of the
    /// word that the probe found. Returns the word found if the exchange fails.
    #[inline]
    pub fn lock(&self, probed: Probed<'_, L>) -> Result<(), u64>
        requires own { probed.client.now.table ≡ self.now.table }
        requires allowed { IsAllowed L.lawful self.now (locks probed.lock) probed.client.now }
        ensures client { Exchanged self.now (locks probed.entry.lock)
            (word_before probed.entry.client.now.value.attempt.last) result
            probed.entry.client.now (client_left probed.exit) }
        ensures event { MatchResult result
            (λ _. IsOneEvent L.lawful self.now (locks probed.entry.lock)
            (word_before probed.entry.client.now.value.attempt.last)
            probed.entry.client.now.value (client_left probed.exit).value)
            (λ found. IsOneEvent L.lawful self.now (locks probed.entry.lock) found
            probed.entry.client.now.value (client_left probed.exit).value) }
        ensures word { MatchResult result
            (λ _. IsLockWord self.now.last
            (word_before probed.entry.client.now.value.attempt.last))
            (λ found. IsLockWord self.now.last found) }
        ensures lone { IfErr result (λ _. IsLoneOpen probed.entry.client.now.value → ⊥) }
    {
        let Probed { client, lock, word } = probed;
        self.exchange(client, lock, word)
    }

    /// Exchanges a lock word that the last step, a probe, found free for the held word.
    #[inline]
    fn exchange(&self, client: &mut Client<L>, lock: u32, word: u64) -> Result<(), u64>
        requires own { client.old.table ≡ self.now.table }
        requires allowed { IsAllowed L.lawful self.now (locks lock) client.old }
        requires probe { word ≡ word_before client.old.value.attempt.last }
        ensures client { Exchanged self.now (locks lock)
            (word_before client.old.value.attempt.last) result client.old client.new }
        ensures event { MatchResult result
            (λ _. IsOneEvent L.lawful self.now (locks lock)
            (word_before client.old.value.attempt.last) client.old.value client.new.value)
            (λ found. IsOneEvent L.lawful self.now (locks lock) found
            client.old.value client.new.value) }
        ensures word { MatchResult result
            (λ _. IsLockWord self.now.last (word_before client.old.value.attempt.last))
            (λ found. IsLockWord self.now.last found) }
        ensures lone { IfErr result (λ _. IsLoneOpen client.old.value → ⊥) }
    {
        let found = self.exchange_as::<Brand>(
            &mut client.seat,
            FIRST_LOCK + lock as usize,
            word,
            lock,
        );
        if found == word {
            return Ok(());
        }
        Err(found)
    }

    /// Ticks the clock from this version to the next, which becomes the write version, by one
    /// compare-and-exchange. Tag and writes are those of the attempt's record. If nothing was
    /// read, or the write version follows the read version, the attempt is decided. Returns the
    /// write version, or the version found if the exchange fails.
    #[inline]
    pub fn tick<T: Tag, W: Writes>(
        &self,
        client: &mut Client<L>,
        from: Version,
        tag: &T,
        writes: &W,
    ) -> Result<Version, Version>
        requires own { client.old.table ≡ self.now.table }
        requires allowed { IsAllowed L.lawful self.now
            (ticks from (T.numbers tag.now) (W.pairs writes.now)) client.old }
        ensures client { Exchanged self.now
            (ticks from (T.numbers tag.now) (W.pairs writes.now)) from result
            client.old client.new }
        ensures event { MatchResult result
            (λ _. IsOneEvent L.lawful self.now
            (ticks from (T.numbers tag.now) (W.pairs writes.now)) from
            client.old.value client.new.value)
            (λ found. IsOneEvent L.lawful self.now
            (ticks from (T.numbers tag.now) (W.pairs writes.now)) found
            client.old.value client.new.value) }
        ensures version { MatchResult result
            (λ version. (version ≡ from + 1) × (version ≤ self.now.last))
            (λ found. found ≤ self.now.last) }
        ensures lone { IsLoneOpen client.old.value →
            IsOk result × (decided client.new.value ≡ true) }
        ensures later { 0 < client.new.value.attempt.wv
            → client.new.value.attempt.rv < client.new.value.attempt.wv }
        ensures decides { decided client.new.value ≡ true →
            Decides L.fits L.lawful self.now client.new.value }
        ensures after { decided client.new.value ≡ true →
            DecidesAt L.fits L.lawful self.now
            (ticks from (T.numbers tag.now) (W.pairs writes.now)) from
            client.old.value client.new.value }
    {
        prove!(from < self.last);
        let found = self.tick_as::<Brand, T, W>(&mut client.seat, from, tag, writes);
        if found == from.get() {
            let version = as_version(found + 1);
            client.version = version;
            Ok(version)
        } else {
            Err(as_version(found))
        }
    }

    /// Validates the lock of the next read. The last validation that passes decides the attempt.
    #[inline]
    pub fn validate(&self, client: &mut Client<L>, lock: u32) -> u64
        requires own { client.old.table ≡ self.now.table }
        requires allowed { IsAllowed L.lawful self.now (validates lock) client.old }
        ensures client { client.new ≡ acted self.now (validates lock) result client.old }
        ensures event { IsOneEvent L.lawful self.now (validates lock) result
            client.old.value client.new.value }
        ensures word { IsLockWord self.now.last result }
        ensures decides { decided client.new.value ≡ true →
            Decides L.fits L.lawful self.now client.new.value }
        ensures after { decided client.new.value ≡ true →
            DecidesAt L.fits L.lawful self.now (validates lock) result
            client.old.value client.new.value }
    {
        prove!(lock < self.stripes);
        self.load_as::<Brand>(&mut client.seat, FIRST_LOCK + lock as usize, lock)
    }

    /// Stores a written value.
    #[inline]
    pub fn put(&self, client: &mut Client<L>, addr: Addr, value: u64)
        requires own { client.old.table ≡ self.now.table }
        requires range { addr.0 < self.now.size }
        requires allowed { IsAllowed L.lawful self.now (puts addr.0 value) client.old }
        ensures client { client.new ≡ acted self.now (puts addr.0 value) 0 client.old }
        ensures event { (found : ℕ) × IsOneEvent L.lawful self.now (puts addr.0 value) found
            client.old.value client.new.value }
    {
        self.store_as::<Brand>(
            &mut client.seat,
            self.cells + addr.0 as usize,
            value,
            addr.0,
        );
    }

    /// Releases a lock by storing its word with the write version.
    #[inline]
    pub fn release(&self, client: &mut Client<L>, lock: u32)
        requires own { client.old.table ≡ self.now.table }
        requires range { lock < self.now.stripes }
        requires allowed { IsAllowed L.lawful self.now (releases lock) client.old }
        ensures client { client.new ≡ acted self.now (releases lock) 0 client.old }
        ensures event { (found : ℕ) × IsOneEvent L.lawful self.now (releases lock) found
            client.old.value client.new.value }
    {
        let word = LockWord::free(client.version);
        self.store_as::<Brand>(&mut client.seat, FIRST_LOCK + lock as usize, word, lock);
    }

    /// Gives a lock back with its old version. After this the attempt can only abort.
    #[inline]
    pub fn give_back(&self, client: &mut Client<L>, lock: u32)
        requires own { client.old.table ≡ self.now.table }
        requires range { lock < self.now.stripes }
        requires allowed { IsAllowed L.lawful self.now (gives_back lock) client.old }
        ensures client { client.new ≡ acted self.now (gives_back lock) 0 client.old }
        ensures event { (found : ℕ) × IsOneEvent L.lawful self.now (gives_back lock) found
            client.old.value client.new.value }
    {
        self.give_back_as::<Brand>(&mut client.seat, FIRST_LOCK + lock as usize, lock);
        client.version = as_version(0);
    }

    /// Ends an attempt without writes, by one more load of the clock.
    #[inline]
    pub fn finish<T: Tag>(&self, client: &mut Client<L>, tag: &T)
        requires own { client.old.table ≡ self.now.table }
        requires allowed { IsAllowed L.lawful self.now (finishes (T.numbers tag.now)) client.old }
        ensures client { (found : ℕ)
            × (client.new ≡ acted self.now (finishes (T.numbers tag.now)) found client.old) }
        ensures decides { Decides L.fits L.lawful self.now client.new.value }
        ensures after { (found : ℕ)
            × (client.new ≡ acted self.now (finishes (T.numbers tag.now)) found client.old)
            × DecidesAt L.fits L.lawful self.now (finishes (T.numbers tag.now)) found
            client.old.value client.new.value }
    {
        self.finish_as::<Brand, T>(&mut client.seat, tag);
    }
}
