//! The client state of the running core, and the conditions under which a client may take a step.

ghost use Rattle.std.specs.Prelude.{◌≡◌, ◌<◌, ◌≤◌, ◌+◌, length, OnOk, OnErr, [], ◌∷◌, not, eqb, false, ◌&&◌, ◌||◌};
ghost use Rattle.stm_core.specs.Client.{Client};
ghost use Rattle.stm_replay.specs.Seat.{blank, seat_after, tag_number};
ghost use Rattle.stm_core.specs.Client.{word_before, value_fetched, found_by, is_committed, old_version};
ghost use Rattle.stm_core.specs.Guards.{is_reading, has_probed, has_found_free, has_fetched, may_act, stripe_of};
ghost use Rattle.stm_core.specs.Event.{is_empty, passes, begin, probe, fetch, check, lock, tick, validate, put, release, give_back, finish, giving, renewing, opener, fresh, gone, forgetting};
ghost use Rattle.stm_core.specs.Core.{are_gathered, others_gathered};
ghost use Rattle.stm_core.specs.declared.limits.TheConstants.{MOST_GRANTS, MOST_TICKS};
ghost use Rattle.stm_core.specs.declared.version.TheConstants.{VERSION_LIMIT};

use crate::pairs::{
    all_below, all_stored, behind, has, has_pair, is_next, may_write, names, none, says_free,
    take_out,
};
use std::alloc::{AllocError, Allocator};
use std::marker::Model;
use stm_core::{MOST_GRANTS, MOST_TICKS};

/// The phase of a client's attempt.
#[derive(Clone, Copy)]
pub(crate) enum Phase {
    Idle,
    Running,
    Ending,
    Committed,
    Finished,
}

/// The last step of a client, with the words that it found.
#[derive(Clone, Copy)]
pub(crate) enum Step {
    Nothing,
    Began { version: u64 },
    Probed { lock: u32, word: u64 },
    Fetched { address: u32, word: u64, value: u64 },
    Checked { address: u32, word: u64, now: u64 },
    Locked { lock: u32, word: u64, now: u64 },
    Ticked { from: u64, now: u64 },
    Validated { lock: u32, word: u64 },
    Ended { version: u64 },
}

/// The state that the core keeps of one client.
#[derive(Drop)]
pub(crate) struct Seat<A: Allocator + Copy> {
    grants: u32,
    is_gathered: bool,
    phase: Phase,
    rv: u64,
    reads: Vec<(u32, u64), A>,
    last: Step,
    gave_back: bool,
    held: Vec<(u32, u64), A>,
    wv: u64,
    tag: Option<u64>,
    writes: Vec<(u32, u64), A>,
    passed: usize,
    stored: Vec<u32, A>,
    ticks: u32,
    next_from: u64,
    began_at: usize,
    ticked_at: usize,
}

impl<A: Allocator + Copy> Model for Seat<A> {
    ghost use Rattle.stm_core.specs.Client.{Client};

    ghost Value = { Client };

    ghost use Rattle.stm_replay.specs.SeatView.{client_of_seat};

    ghost view = { client_of_seat };
}

impl<A: Allocator + Copy> Seat<A> {
    /// Begins a new attempt at the clock's value.
    pub(crate) fn begin(&mut self, clock: u64, place: usize)
        ensures { self.new ≡ seat_after place begin clock self.old }
    {
        self.phase = Phase::Running;
        self.rv = clock;
        self.reads.clear();
        self.last = Step::Began { version: clock };
        self.gave_back = false;
        self.wv = 0;
        self.tag = None;
        self.writes.clear();
        self.passed = 0;
        self.stored.clear();
        self.ticks = 0;
        self.next_from = clock;
        self.began_at = place;
        self.ticked_at = 0;
    }

    /// Records that the word of a lock was loaded.
    pub(crate) fn probe(&mut self, lock: u32, word: u64)
        ensures { self.new ≡ seat_after 0 (probe lock) word self.old }
    {
        self.last = Step::Probed { lock, word };
        self.gave_back = false;
    }

    /// Records that the value of an address was loaded.
    pub(crate) fn fetch(&mut self, address: u32, value: u64)
        ensures { self.new ≡ seat_after 0 (fetch address) value self.old }
    {
        let word = self.word_before();
        self.last = Step::Fetched {
            address,
            word,
            value,
        };
        self.gave_back = false;
    }

    /// Records that the lock word was loaded again. If the word is the same as before, the address
    /// and its value are added to the reads; else the attempt can only abort.
    pub(crate) fn check(&mut self, address: u32, now: u64) -> Result<(), AllocError>
        ensures done { OnOk result (self.new ≡ seat_after 0 (check address) now self.old) }
        ensures kept { OnErr result (self.new ≡ self.old) }
    {
        let word = self.word_before();
        if now == word {
            let value = self.value_fetched();
            self.reads.push((address, value))?;
        } else {
            self.phase = Phase::Ending;
        }
        self.last = Step::Checked { address, word, now };
        self.gave_back = false;
        Ok(())
    }

    /// Records that the exchange of a lock word found the word `now`. If that is the word
    /// expected, the lock is held; else the attempt can only abort.
    pub(crate) fn lock(&mut self, stripe: u32, now: u64) -> Result<(), AllocError>
        ensures done { OnOk result (self.new ≡ seat_after 0 (lock stripe) now self.old) }
        ensures kept { OnErr result (self.new ≡ self.old) }
    {
        let word = self.word_before();
        if now == word {
            self.held.push((stripe, now / 2))?;
        } else {
            self.phase = Phase::Ending;
        }
        self.last = Step::Locked {
            lock: stripe,
            word,
            now,
        };
        self.gave_back = false;
        Ok(())
    }

    /// Records that a value was stored. The parameter `value` is for the contract alone: the
    /// caller stores the word.
    pub(crate) fn put(&mut self, address: u32, value: u64) -> Result<(), AllocError>
        ensures done { OnOk result (self.new ≡ seat_after 0 (put address value) 0 self.old) }
        ensures kept { OnErr result (self.new ≡ self.old) }
    {
        let _ = value;
        self.stored.push(address)?;
        self.last = Step::Nothing;
        self.gave_back = false;
        Ok(())
    }

    /// Records that the exchange of the clock found the value `now`. A won tick gives the write
    /// version. A won tick decides at once if nothing was read or the write version follows the
    /// read version.
    pub(crate) fn tick(
        &mut self,
        from: u64,
        tag: u64,
        writes: Vec<(u32, u64), A>,
        now: u64,
        place: usize,
    )
        requires room { self.old.attempt.ticks < MOST_TICKS }
        requires below { from < VERSION_LIMIT }
        ensures { self.new ≡ seat_after place (tick from (tag ∷ []) writes.items) now self.old }
    {
        if now == from {
            self.wv = from + 1;
            self.tag = Some(tag);
            self.writes = writes;
            self.passed = 0;
            self.stored.clear();
            self.ticked_at = place;
            if self.reads.is_empty() || from == self.rv {
                self.phase = Phase::Committed;
            }
        }
        self.last = Step::Ticked { from, now };
        self.gave_back = false;
        self.ticks += 1;
        self.next_from = now;
    }

    /// Records that the lock of a read address was validated. The last validation that passes
    /// decides; one that fails leaves an attempt that can only abort.
    pub(crate) fn validate(&mut self, stripe: u32, word: u64)
        requires next { self.old.attempt.passed < length self.old.attempt.reads }
        ensures { self.new ≡ seat_after 0 (validate stripe) word self.old }
    {
        if self.passes(stripe, word) {
            self.passed += 1;
            if self.passed == self.reads.len() {
                self.phase = Phase::Committed;
                self.stored.clear();
            }
        } else {
            self.phase = Phase::Ending;
        }
        self.last = Step::Validated { lock: stripe, word };
        self.gave_back = false;
    }

    /// Records that a lock was released with the write version.
    pub(crate) fn release(&mut self, lock: u32)
        ensures { self.new ≡ seat_after 0 (release lock) 0 self.old }
    {
        take_out(&mut self.held, lock);
        self.last = Step::Nothing;
        self.gave_back = false;
    }

    /// Records that a lock was given back with its old version.
    pub(crate) fn give_back(&mut self, lock: u32)
        ensures { self.new ≡ seat_after 0 (give_back lock) 0 self.old }
    {
        take_out(&mut self.held, lock);
        self.wv = 0;
        self.tag = None;
        self.writes.clear();
        self.passed = 0;
        self.phase = Phase::Ending;
        self.gave_back = true;
    }

    /// Records that the attempt ended as a reader.
    pub(crate) fn finish(&mut self, clock: u64)
        ensures { self.new ≡ seat_after 0 (finish []) clock self.old }
    {
        self.last = Step::Ended { version: clock };
        self.gave_back = false;
        self.phase = Phase::Finished;
    }

    /// Returns the first client, with all grants but its own.
    pub(crate) fn opener(alloc: A) -> Seat<A>
        ensures { result ≡ opener }
    {
        Seat::with_grants(alloc, MOST_GRANTS)
    }

    /// Returns a client just split off, without grants.
    pub(crate) fn fresh(alloc: A) -> Seat<A>
        ensures { result ≡ record opener { grants = 0 } }
    {
        Seat::with_grants(alloc, 0)
    }

    fn with_grants(alloc: A, grants: u32) -> Seat<A>
        ensures { result ≡ record opener { grants = grants } }
    {
        Seat {
            grants,
            is_gathered: false,
            phase: Phase::Idle,
            rv: 0,
            reads: Vec::new(alloc),
            last: Step::Nothing,
            gave_back: false,
            held: Vec::new(alloc),
            wv: 0,
            tag: None,
            writes: Vec::new(alloc),
            passed: 0,
            stored: Vec::new(alloc),
            ticks: 0,
            next_from: 0,
            began_at: 0,
            ticked_at: 0,
        }
    }

    /// Gives a grant to a new client.
    pub(crate) fn give(&mut self)
        requires { 0 < self.old.grants }
        ensures { self.new ≡ blank (giving self.old) }
    {
        self.grants -= 1;
        self.last = Step::Nothing;
        self.gave_back = false;
    }

    /// Takes over the grants of a gathered client, and the grant of that client itself.
    pub(crate) fn take(&mut self, grants: u32)
        requires { self.old.grants + grants + 1 ≤ MOST_GRANTS }
        ensures { self.new ≡ blank (record self.old {
          grants = self.old.grants + grants + 1;
          attempt = forgetting self.old.attempt;
        }) }
    {
        self.grants += grants + 1;
        self.last = Step::Nothing;
        self.gave_back = false;
    }

    /// Resets the client for a renewal of the clock: the client then has no attempt.
    pub(crate) fn renew(&mut self, alloc: A)
        ensures { self.new ≡ blank (renewing self.old) }
    {
        *self = Seat::with_grants(alloc, self.grants);
    }

    /// Marks the client as gathered.
    pub(crate) fn leave(&mut self, alloc: A)
        ensures { self.new ≡ gone }
    {
        *self = Seat::with_grants(alloc, 0);
        self.is_gathered = true;
    }

    /// Returns the word that the last probe found if the last step is that probe or its fetch,
    /// else 0.
    pub(crate) fn word_before(&self) -> u64
        ensures { result ≡ word_before self.now.attempt.last }
    {
        match self.last {
            Step::Probed { word, .. } | Step::Fetched { word, .. } => word,
            _ => 0,
        }
    }

    /// Returns the value that the last step fetched, or 0 if the last step is no fetch.
    pub(crate) fn value_fetched(&self) -> u64
        ensures { result ≡ value_fetched self.now.attempt.last }
    {
        match self.last {
            Step::Fetched { value, .. } => value,
            _ => 0,
        }
    }

    /// Returns the word that the last step found, if the last step found one.
    pub(crate) fn found(&self) -> Option<u64>
        ensures { result ≡ found_by self.now }
    {
        if self.gave_back {
            return None;
        }
        match self.last {
            Step::Nothing => None,
            Step::Began { version } | Step::Ended { version } => Some(version),
            Step::Probed { word, .. } | Step::Validated { word, .. } => Some(word),
            Step::Fetched { value, .. } => Some(value),
            Step::Checked { now, .. } | Step::Locked { now, .. } => Some(now),
            Step::Ticked { now, .. } => Some(now),
        }
    }

    /// Returns whether an attempt runs without a write version.
    pub(crate) fn is_reading(&self) -> bool
        ensures { result ≡ is_reading self.now.attempt }
    {
        matches!(self.phase, Phase::Running) && self.wv == 0
    }

    /// Returns whether the last step was a probe of this lock that found the lock free, with a
    /// version of at most the read version.
    pub(crate) fn has_probed(&self, lock: u32) -> bool
        ensures { result ≡ has_probed lock self.now.attempt.rv self.now.attempt.last }
    {
        match self.last {
            Step::Probed { lock: probed, word } => probed == lock
                && says_free(word)
                && word / 2 <= self.rv,
            _ => false,
        }
    }

    /// Returns whether the last step was a probe of this lock that found the lock free.
    pub(crate) fn has_found_free(&self, lock: u32) -> bool
        ensures { result ≡ has_found_free lock self.now.attempt.last }
    {
        match self.last {
            Step::Probed { lock: probed, word } => probed == lock && says_free(word),
            _ => false,
        }
    }

    /// Returns whether the last step was a fetch of this address, after a probe that found the
    /// lock free with a version of at most the read version.
    pub(crate) fn has_fetched(&self, address: u32) -> bool
        ensures { result ≡ has_fetched address self.now.attempt.rv self.now.attempt.last }
    {
        match self.last {
            Step::Fetched {
                address: fetched,
                word,
                ..
            } => fetched == address && says_free(word) && word / 2 <= self.rv,
            _ => false,
        }
    }

    /// Returns whether the client may begin an attempt.
    pub(crate) fn may_begin(&self) -> bool
        ensures { result ≡ may_act (stripe_of 0)
            (record { last = 0; stripes = 0; size = 0 }) begin self.now.attempt }
    {
        none(&self.held)
    }

    /// Returns whether the client may load the word of a lock.
    pub(crate) fn may_probe(&self, lock: u32, stripes: u32) -> bool
        ensures { result ≡ may_act (stripe_of stripes)
            (record { last = 0; stripes = stripes; size = 0 }) (probe lock) self.now.attempt }
    {
        self.is_reading() && lock < stripes
    }

    /// Returns whether the client may load the value of an address.
    pub(crate) fn may_fetch(&self, address: u32, stripes: u32, size: usize) -> bool
        requires { 0 < stripes }
        ensures { result ≡ may_act (stripe_of stripes)
            (record { last = 0; stripes = stripes; size = size })
            (fetch address) self.now.attempt }
    {
        self.is_reading()
            && (address as usize) < size
            && none(&self.held)
            && self.has_probed(address % stripes)
    }

    /// Returns whether the client may check a fetched address. The parameter `stripes` is for the
    /// contract alone.
    pub(crate) fn may_check(&self, address: u32, stripes: u32, size: usize) -> bool
        ensures { result ≡ may_act (stripe_of stripes)
            (record { last = 0; stripes = stripes; size = size })
            (check address) self.now.attempt }
    {
        let _ = stripes;
        self.is_reading()
            && (address as usize) < size
            && none(&self.held)
            && self.has_fetched(address)
    }

    /// Returns whether the client may try to take a lock.
    pub(crate) fn may_lock(&self, stripe: u32, stripes: u32) -> bool
        ensures { result ≡ may_act (stripe_of stripes)
            (record { last = 0; stripes = stripes; size = 0 }) (lock stripe) self.now.attempt }
    {
        self.is_reading()
            && stripe < stripes
            && self.has_found_free(stripe)
            && all_below(&self.held, stripe)
    }

    /// Returns whether the client may try to tick the clock with these writes.
    pub(crate) fn may_tick(
        &self,
        from: u64,
        writes: &[(u32, u64)],
        last: u64,
        stripes: u32,
        size: usize,
    ) -> bool
        requires { 0 < stripes }
        ensures { result ≡ may_act (stripe_of stripes)
            (record { last = last; stripes = stripes; size = size })
            (tick from [] writes.now) self.now.attempt }
    {
        self.is_reading()
            && from == self.next_from
            && from < last
            && self.ticks < MOST_TICKS
            && may_write(writes, &self.held, stripes, size)
    }

    /// Returns whether the client's next validation is of this lock.
    pub(crate) fn may_validate(&self, stripe: u32, stripes: u32) -> bool
        requires { 0 < stripes }
        ensures { result ≡ may_act (stripe_of stripes)
            (record { last = 0; stripes = stripes; size = 0 }) (validate stripe) self.now.attempt }
    {
        matches!(self.phase, Phase::Running)
            && 0 < self.wv
            && is_next(&self.reads, self.passed, stripe, stripes)
    }

    /// Returns whether the client may store this value.
    pub(crate) fn may_put(&self, address: u32, value: u64, stripes: u32) -> bool
        requires { 0 < stripes }
        ensures { result ≡ may_act (stripe_of stripes)
            (record { last = 0; stripes = stripes; size = 0 })
            (put address value) self.now.attempt }
    {
        self.is_committed()
            && has_pair(&self.writes, address, value)
            && names(&self.held, address % stripes)
            && !has(&self.stored, address)
    }

    /// Returns whether the client may release this lock.
    pub(crate) fn may_release(&self, lock: u32, stripes: u32) -> bool
        requires { 0 < stripes }
        ensures { result ≡ may_act (stripe_of stripes)
            (record { last = 0; stripes = stripes; size = 0 }) (release lock) self.now.attempt }
    {
        self.is_committed()
            && names(&self.held, lock)
            && all_stored(&self.writes, &self.stored, lock, stripes)
    }

    /// Returns whether the client may give this lock back.
    pub(crate) fn may_give_back(&self, lock: u32) -> bool
        ensures { result ≡ may_act (stripe_of 0)
            (record { last = 0; stripes = 0; size = 0 }) (give_back lock) self.now.attempt }
    {
        matches!(self.phase, Phase::Running | Phase::Ending) && names(&self.held, lock)
    }

    /// Returns whether the client may end its attempt as a reader.
    pub(crate) fn may_end(&self) -> bool
        ensures { result ≡ may_act (stripe_of 0)
            (record { last = 0; stripes = 0; size = 0 }) (finish []) self.now.attempt }
    {
        self.is_reading() && none(&self.held)
    }

    /// Returns whether the client is a decided writer.
    pub(crate) fn is_committed(&self) -> bool
        ensures { result ≡ is_committed self.now.attempt.phase }
    {
        matches!(self.phase, Phase::Committed)
    }

    /// Returns whether the client is still out, that is, not gathered.
    pub(crate) fn is_out(&self) -> bool
        ensures { result ≡ not self.now.is_gathered }
    {
        !self.is_gathered
    }

    /// Returns whether the client holds no lock.
    pub(crate) fn holds_none(&self) -> bool
        ensures { result ≡ is_empty self.now.attempt.held }
    {
        none(&self.held)
    }

    /// Returns the number of clients that the client may still split off.
    pub(crate) fn grants(&self) -> u32
        ensures { result ≡ self.now.grants }
    {
        self.grants
    }

    /// Returns the write version, or 0 if the attempt has none.
    pub(crate) fn write_version(&self) -> u64
        ensures { result ≡ self.now.attempt.wv }
    {
        self.wv
    }

    /// Returns the read version.
    pub(crate) fn read_version(&self) -> u64
        ensures { result ≡ self.now.attempt.rv }
    {
        self.rv
    }

    /// Returns the old version of a lock that the client holds, or 0 if the client does not hold
    /// the lock.
    pub(crate) fn old_version(&self, lock: u32) -> u64
        ensures { result ≡ old_version self.now.attempt.held lock }
    {
        behind(&self.held, lock)
    }

    /// Returns the position of the attempt's begin in the list of events.
    pub(crate) fn began_at(&self) -> usize
        ensures { result ≡ self.now.attempt.began_at }
    {
        self.began_at
    }

    /// Returns the position of the attempt's won tick in the list of events.
    pub(crate) fn ticked_at(&self) -> usize
        ensures { result ≡ self.now.attempt.ticked_at }
    {
        self.ticked_at
    }

    /// Returns the tag of the attempt's won tick, or 0.
    pub(crate) fn tag(&self) -> u64
        ensures { result ≡ tag_number self.now.attempt.tag }
    {
        self.tag.unwrap_or(0)
    }

    /// Returns whether a validation of this lock passes if it finds this word.
    fn passes(&self, stripe: u32, word: u64) -> bool
        ensures { result ≡ passes stripe word self.now }
    {
        (says_free(word) || names(&self.held, stripe)) && word / 2 <= self.rv
    }

    /// Returns whether a validation of this lock decides if it finds this word.
    pub(crate) fn decides_by(&self, stripe: u32, word: u64) -> bool
        requires { self.now.attempt.passed < length self.now.attempt.reads }
        ensures { result
            ≡ (passes stripe word self.now
            && eqb (self.now.attempt.passed + 1) (length self.now.attempt.reads)) }
    {
        self.passes(stripe, word) && self.passed + 1 == self.reads.len()
    }

    /// Returns whether a tick from `from` that finds the clock at `now` decides at once.
    pub(crate) fn decides_from(&self, from: u64, now: u64) -> bool
        ensures { result
            ≡ (eqb now from
            && (is_empty self.now.attempt.reads || eqb (from + 1) (self.now.attempt.rv + 1))) }
    {
        now == from && (none(&self.reads) || from == self.rv)
    }
}

/// Returns whether every client except the one at position `place` is gathered.
pub(crate) fn others_gathered<A: Allocator + Copy>(seats: &[Seat<A>], place: usize) -> bool
    ensures { result ≡ others_gathered seats.now place }
{
    match seats {
        [] => true,
        [first, rest @ ..] => if place == 0 {
            are_gathered(rest)
        } else {
            first.is_gathered && others_gathered(rest, place - 1)
        },
    }
}

/// Returns whether every client is gathered.
fn are_gathered<A: Allocator + Copy>(seats: &[Seat<A>]) -> bool
    ensures { result ≡ are_gathered seats.now }
{
    match seats {
        [] => true,
        [first, rest @ ..] => first.is_gathered && are_gathered(rest),
    }
}
