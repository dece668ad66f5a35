//! The words, the clients and the decided records of the running core: which events it allows, and
//! how an event changes it.

ghost use Rattle.std.specs.Prelude.{◌≡◌, ◌≢◌, ◌<◌, ◌≤◌, ◌+◌, ◌-◌, ◌*◌, ◌^◌, ◌&&◌, cond, eqb, true, length, slice_index, OnOk, OnErr, IfOk, [], ◌∷◌};
ghost use Rattle.stm_core.specs.Core.{client_of, is_out, others_gathered, splits, gathers, renews};
ghost use Rattle.stm_core.specs.Event.{begin, probe, fetch, check, lock, tick, validate, put, release, give_back, finish, is_empty};
ghost use Rattle.stm_core.specs.Client.{old_version, word_before, IsFree};
ghost use Rattle.stm_replay.specs.Played.{event_of};
ghost use Rattle.stm_replay.specs.Running.{may_run, Running, IsSane, IsThere, stripes_of, run_acts, run_played, run_opened, found_of};
ghost use Rattle.stm_core.specs.declared.limits.TheConstants.{MOST_GRANTS, MOST_RENEWALS, MOST_TICKS};
ghost use Rattle.stm_core.specs.declared.version.TheConstants.{VERSION_LIMIT};

use crate::event::{Entry, Event, Writes};
use crate::limits::MOST_CLIENTS;
use crate::order::Order;
use crate::pairs::free_lock;
use crate::seat::{Seat, others_gathered};
use std::alloc::{AllocError, Allocator};
use std::marker::Model;
use stm_core::{MOST_RENEWALS, VERSION_LIMIT};

/// The state of the running core: its words, its clients and the decided records.
#[derive(Drop)]
pub(crate) struct State<A: Allocator + Copy> {
    last: u64,
    renewal: u32,
    clock: u64,
    stripes: u32,
    locks: Vec<u64, A>,
    cells: Vec<u64, A>,
    seats: Vec<Seat<A>, A>,
    /// Number of events so far, which is the position of the next event.
    events: usize,
    order: Order<A>,
}

impl<A: Allocator + Copy> Model for State<A> {
    ghost use Rattle.stm_replay.specs.Running.{Running};

    ghost Value = { Running };

    ghost use Rattle.stm_replay.specs.StateView.{running_of, HasLockWords};

    ghost view = { running_of };

    ghost invariant = { HasLockWords };
}

impl<A: Allocator + Copy> State<A> {
    /// Returns whether a client has this number and is out.
    fn is_out(&self, client: u32) -> bool
        ensures { result ≡ is_out self.now.core client }
    {
        0 < client && (client as usize - 1) < self.seats.len() && self.seat(client).is_out()
    }

    /// Returns the kept state of a client.
    fn seat(&self, client: u32) -> &Seat<A>
        requires there { client - 1 < length self.now.core.clients }
        requires some { 0 < client }
        ensures { result.now ≡ client_of self.now.core client }
    {
        &self.seats[client as usize - 1]
    }

    /// Returns the word of a lock.
    fn lock_word(&self, stripe: u32) -> u64
        requires { stripe < length self.now.core.locks }
        ensures { result ≡ slice_index self.now.core.locks stripe }
    {
        self.locks[stripe as usize]
    }

    /// Returns the data word of an address.
    fn cell(&self, address: u32) -> u64
        requires { address < length self.now.core.cells }
        ensures { result ≡ slice_index self.now.core.cells address }
    {
        self.cells[address as usize]
    }

    /// Returns the word of the lock that covers an address.
    fn word_of(&self, address: u32) -> u64
        ensures { result
            ≡ slice_index self.now.core.locks (stripes_of self.now.core address) }
    {
        self.lock_word(address % self.stripes)
    }

    /// Returns the number of events with the next one included.
    fn one_more(&self) -> Result<usize, AllocError>
        ensures { IfOk result (λ n. n ≡ self.now.core.events + 1) }
    {
        self.events.checked_add(1).ok_or(AllocError)
    }

    /// Begins an attempt.
    fn begin(&mut self, client: u32) -> Result<(), AllocError>
        requires there { IsThere self.old.core client }
        ensures done { OnOk result (self.new ≡ run_acts client begin self.old) }
        ensures kept { OnErr result (self.new ≡ self.old) }
    {
        let events = self.one_more()?;
        let place = self.events;
        let seat = &mut self.seats[client as usize - 1];
        seat.begin(self.clock, place);
        self.events = events;
        Ok(())
    }

    /// Loads a lock word.
    fn probe(&mut self, client: u32, stripe: u32) -> Result<(), AllocError>
        requires there { IsThere self.old.core client }
        requires inside { stripe < length self.old.core.locks }
        ensures done { OnOk result (self.new ≡ run_acts client (probe stripe) self.old) }
        ensures kept { OnErr result (self.new ≡ self.old) }
    {
        let events = self.one_more()?;
        let word = self.lock_word(stripe);
        let seat = &mut self.seats[client as usize - 1];
        seat.probe(stripe, word);
        self.events = events;
        Ok(())
    }

    /// Loads a data word.
    fn fetch(&mut self, client: u32, address: u32) -> Result<(), AllocError>
        requires there { IsThere self.old.core client }
        requires inside { address < length self.old.core.cells }
        ensures done { OnOk result (self.new ≡ run_acts client (fetch address) self.old) }
        ensures kept { OnErr result (self.new ≡ self.old) }
    {
        let events = self.one_more()?;
        let value = self.cell(address);
        let seat = &mut self.seats[client as usize - 1];
        seat.fetch(address, value);
        self.events = events;
        Ok(())
    }

    /// Loads a lock word again.
    fn check(&mut self, client: u32, address: u32) -> Result<(), AllocError>
        requires there { IsThere self.old.core client }
        ensures done { OnOk result (self.new ≡ run_acts client (check address) self.old) }
        ensures kept { OnErr result (self.new ≡ self.old) }
    {
        let events = self.one_more()?;
        let word = self.word_of(address);
        let seat = &mut self.seats[client as usize - 1];
        seat.check(address, word)?;
        self.events = events;
        Ok(())
    }

    /// Exchanges a lock word that the client's last probe found free.
    fn lock(&mut self, client: u32, stripe: u32) -> Result<(), AllocError>
        requires there { IsThere self.old.core client }
        requires inside { stripe < length self.old.core.locks }
        requires free { IsFree (word_before (client_of self.old.core client).attempt.last) }
        ensures done { OnOk result (self.new ≡ run_acts client (lock stripe) self.old) }
        ensures kept { OnErr result (self.new ≡ self.old) }
    {
        let events = self.one_more()?;
        let word = self.lock_word(stripe);
        let left = exchanged(word, self.seat(client).word_before());
        let seat = &mut self.seats[client as usize - 1];
        seat.lock(stripe, word)?;
        self.locks[stripe as usize] = left;
        self.events = events;
        Ok(())
    }

    /// Stores a value.
    fn put(&mut self, client: u32, address: u32, value: u64) -> Result<(), AllocError>
        requires there { IsThere self.old.core client }
        requires inside { address < length self.old.core.cells }
        ensures done { OnOk result (self.new ≡ run_acts client (put address value) self.old) }
        ensures kept { OnErr result (self.new ≡ self.old) }
    {
        let events = self.one_more()?;
        let seat = &mut self.seats[client as usize - 1];
        seat.put(address, value)?;
        self.cells[address as usize] = value;
        self.events = events;
        Ok(())
    }

    /// Releases a lock with the write version.
    fn release(&mut self, client: u32, stripe: u32) -> Result<(), AllocError>
        requires there { IsThere self.old.core client }
        requires inside { stripe < length self.old.core.locks }
        requires small { (client_of self.old.core client).attempt.wv < VERSION_LIMIT }
        ensures done { OnOk result (self.new ≡ run_acts client (release stripe) self.old) }
        ensures kept { OnErr result (self.new ≡ self.old) }
    {
        let events = self.one_more()?;
        let version = self.seat(client).write_version();
        let seat = &mut self.seats[client as usize - 1];
        seat.release(stripe);
        self.locks[stripe as usize] = free_lock(version);
        self.events = events;
        Ok(())
    }

    /// Gives a lock back with its old version.
    fn give_back(&mut self, client: u32, stripe: u32) -> Result<(), AllocError>
        requires there { IsThere self.old.core client }
        requires inside { stripe < length self.old.core.locks }
        requires small { old_version (client_of self.old.core client).attempt.held stripe
            < VERSION_LIMIT }
        ensures done { OnOk result (self.new ≡ run_acts client (give_back stripe) self.old) }
        ensures kept { OnErr result (self.new ≡ self.old) }
    {
        let events = self.one_more()?;
        let version = self.seat(client).old_version(stripe);
        let seat = &mut self.seats[client as usize - 1];
        seat.give_back(stripe);
        self.locks[stripe as usize] = free_lock(version);
        self.events = events;
        Ok(())
    }

    /// Ends the attempt as a reader.
    fn finish(&mut self, client: u32, tag: u64) -> Result<(), AllocError>
        requires there { IsThere self.old.core client }
        ensures done { OnOk result (self.new ≡ run_acts client (finish (tag ∷ [])) self.old) }
        ensures kept { OnErr result (self.new ≡ self.old) }
    {
        let events = self.one_more()?;
        let seat = self.seat(client);
        let entry = Entry {
            client,
            tag,
            version: seat.read_version(),
            writer: false,
            renewal: self.renewal,
        };
        let place = seat.began_at();
        self.order.enter(entry, place)?;
        let seat = &mut self.seats[client as usize - 1];
        seat.finish(self.clock);
        self.events = events;
        Ok(())
    }

    /// Validates the lock of the next read address.
    fn validate(&mut self, client: u32, stripe: u32) -> Result<(), AllocError>
        requires there { IsThere self.old.core client }
        requires inside { stripe < length self.old.core.locks }
        requires next { (client_of self.old.core client).attempt.passed
            < length (client_of self.old.core client).attempt.reads }
        ensures done { OnOk result (self.new ≡ run_acts client (validate stripe) self.old) }
        ensures kept { OnErr result (self.new ≡ self.old) }
    {
        let events = self.one_more()?;
        let word = self.lock_word(stripe);
        let seat = self.seat(client);
        let decides = seat.decides_by(stripe, word);
        let entry = Entry {
            client,
            tag: seat.tag(),
            version: seat.write_version(),
            writer: true,
            renewal: self.renewal,
        };
        let place = seat.ticked_at();
        self.order.enter_if(decides, entry, place)?;
        let seat = &mut self.seats[client as usize - 1];
        seat.validate(stripe, word);
        self.events = events;
        Ok(())
    }

    /// Tries to exchange the clock for its next value.
    fn tick(
        &mut self,
        client: u32,
        from: u64,
        tag: u64,
        writes: Writes<A>,
    ) -> Result<(), AllocError>
        requires there { IsThere self.old.core client }
        requires room { (client_of self.old.core client).attempt.ticks < MOST_TICKS }
        requires below { from < VERSION_LIMIT }
        ensures done { OnOk result
            (self.new ≡ run_acts client (tick from (tag ∷ []) writes) self.old) }
        ensures kept { OnErr result (self.new ≡ self.old) }
    {
        let events = self.one_more()?;
        let now = self.clock;
        let place = self.events;
        let decides = self.seat(client).decides_from(from, now);
        let entry = Entry {
            client,
            tag,
            version: from + 1,
            writer: true,
            renewal: self.renewal,
        };
        let clock = exchanged(now, from);
        self.order.enter_if(decides, entry, place)?;
        let seat = &mut self.seats[client as usize - 1];
        seat.tick(from, tag, writes.into_pairs(), now, place);
        self.clock = clock;
        self.events = events;
        Ok(())
    }

    /// Splits a client off. Reserves room for the new client first: if memory is refused, nothing
    /// has changed.
    fn split(&mut self, alloc: A, client: u32) -> Result<(), AllocError>
        requires there { IsThere self.old.core client }
        requires grants { 0 < (client_of self.old.core client).grants }
        ensures done { OnOk result (self.new ≡ run_played (splits client) self.old) }
        ensures kept { OnErr result (self.new ≡ self.old) }
    {
        let events = self.one_more()?;
        self.seats.reserve(1)?;
        let seat = &mut self.seats[client as usize - 1];
        seat.give();
        self.seats.push_reserved(Seat::fresh(alloc));
        self.events = events;
        Ok(())
    }

    /// Gathers another client into the client.
    fn gather(&mut self, alloc: A, client: u32, other: u32) -> Result<(), AllocError>
        requires there { IsThere self.old.core client }
        requires other { IsThere self.old.core other }
        requires apart { client ≢ other }
        requires grants { (client_of self.old.core client).grants
            + (client_of self.old.core other).grants + 1 ≤ MOST_GRANTS }
        ensures done { OnOk result (self.new ≡ run_played (gathers client other) self.old) }
        ensures kept { OnErr result (self.new ≡ self.old) }
    {
        let events = self.one_more()?;
        let grants = self.seat(other).grants();
        let seat = &mut self.seats[client as usize - 1];
        seat.take(grants);
        let seat = &mut self.seats[other as usize - 1];
        seat.leave(alloc);
        self.events = events;
        Ok(())
    }

    /// Renews the clock.
    fn renew(&mut self, alloc: A, client: u32, last: u64) -> Result<(), AllocError>
        requires there { IsThere self.old.core client }
        requires few { self.old.core.renewal < MOST_RENEWALS }
        ensures done { OnOk result (self.new ≡ run_played (renews client last) self.old) }
        ensures kept { OnErr result (self.new ≡ self.old) }
    {
        let events = self.one_more()?;
        let locks = vec![in alloc; 0u64; self.stripes as usize]?;
        let seat = &mut self.seats[client as usize - 1];
        seat.renew(alloc);
        self.locks = locks;
        self.clock = 0;
        self.last = last;
        self.renewal += 1;
        self.events = events;
        Ok(())
    }

    /// Returns whether an event is allowed.
    pub(crate) fn allows(&self, event: &Event<A>) -> bool
        ensures { result ≡ may_run (stripes_of self.now.core) (event_of event.now) self.now.core }
    {
        match event {
            Event::Begin { client } => self.is_out(*client) && self.seat(*client).may_begin(),
            Event::Probe { client, lock } => self.is_out(*client)
                && self.seat(*client).may_probe(*lock, self.stripes),
            Event::Fetch { client, addr } => self.is_out(*client)
                && self
                    .seat(*client)
                    .may_fetch(*addr, self.stripes, self.cells.len()),
            Event::Check { client, addr } => self.is_out(*client)
                && self
                    .seat(*client)
                    .may_check(*addr, self.stripes, self.cells.len()),
            Event::Lock { client, lock } => self.is_out(*client)
                && self.seat(*client).may_lock(*lock, self.stripes),
            Event::Tick {
                client,
                from,
                writes,
                ..
            } => self.is_out(*client)
                && self.seat(*client).may_tick(
                    *from,
                    writes.as_slice(),
                    self.last,
                    self.stripes,
                    self.cells.len(),
                ),
            Event::Validate { client, lock } => self.is_out(*client)
                && self.seat(*client).may_validate(*lock, self.stripes),
            Event::Put {
                client,
                addr,
                value,
            } => self.is_out(*client) && self.seat(*client).may_put(*addr, *value, self.stripes),
            Event::Release { client, lock } => self.is_out(*client)
                && self.seat(*client).may_release(*lock, self.stripes),
            Event::GiveBack { client, lock } => self.is_out(*client)
                && self.seat(*client).may_give_back(*lock),
            Event::Finish { client, .. } => self.is_out(*client) && self.seat(*client).may_end(),
            Event::Split { client } => self.may_split(*client),
            Event::Gather { client, other } => self.may_gather(*client, *other),
            Event::Renew { client, last } => self.may_renew(*client, *last),
        }
    }

    /// Returns whether a client is out and holds no lock.
    fn is_free_handed(&self, client: u32) -> bool
        ensures { result
            ≡ (is_out self.now.core client
            && is_empty (client_of self.now.core client).attempt.held) }
    {
        self.is_out(client) && self.seat(client).holds_none()
    }

    /// Returns whether a client may split off another.
    fn may_split(&self, client: u32) -> bool
        ensures { result ≡ may_run (stripes_of self.now.core) (splits client) self.now.core }
    {
        self.is_free_handed(client)
            && 0 < self.seat(client).grants()
            && self.seats.len() < MOST_CLIENTS as usize
    }

    /// Returns whether a client may gather another.
    fn may_gather(&self, client: u32, other: u32) -> bool
        ensures { result
            ≡ may_run (stripes_of self.now.core) (gathers client other) self.now.core }
    {
        self.is_out(client)
            && self.is_out(other)
            && client != other
            && self.seat(client).holds_none()
            && self.seat(other).holds_none()
    }

    /// Returns whether a client is the only one that is out, and holds no lock.
    fn is_alone(&self, client: u32) -> bool
        ensures { result
            ≡ (is_out self.now.core client
            && is_empty (client_of self.now.core client).attempt.held
            && others_gathered self.now.core.clients (client - 1)) }
    {
        self.is_free_handed(client) && others_gathered(&self.seats, client as usize - 1)
    }

    /// Returns whether a client may renew the clock.
    fn may_renew(&self, client: u32, last: u64) -> bool
        ensures { result ≡ may_run (stripes_of self.now.core) (renews client last) self.now.core }
    {
        self.is_alone(client) && 1 <= last && last < VERSION_LIMIT && self.renewal < MOST_RENEWALS
    }

    /// Plays an event that the caller has found allowed.
    pub(crate) fn make(&mut self, alloc: A, event: Event<A>) -> Result<(), AllocError>
        requires may { may_run (stripes_of self.old.core) (event_of event) self.old.core ≡ true }
        requires sane { IsSane self.old.core }
        ensures done { OnOk result (self.new ≡ run_played (event_of event) self.old) }
        ensures kept { OnErr result (self.new ≡ self.old) }
    {
        match event {
            Event::Begin { client } => self.begin(client),
            Event::Probe { client, lock } => self.probe(client, lock),
            Event::Fetch { client, addr } => self.fetch(client, addr),
            Event::Check { client, addr } => self.check(client, addr),
            Event::Lock { client, lock } => self.lock(client, lock),
            Event::Tick {
                client,
                from,
                tag,
                writes,
            } => self.tick(client, from, tag, writes),
            Event::Validate { client, lock } => self.validate(client, lock),
            Event::Put {
                client,
                addr,
                value,
            } => self.put(client, addr, value),
            Event::Release { client, lock } => self.release(client, lock),
            Event::GiveBack { client, lock } => self.give_back(client, lock),
            Event::Finish { client, tag } => self.finish(client, tag),
            Event::Split { client } => self.split(alloc, client),
            Event::Gather { client, other } => self.gather(alloc, client, other),
            Event::Renew { client, last } => self.renew(alloc, client, last),
        }
    }

    /// Returns the word that a client's last step found, if there is one.
    pub(crate) fn found(&self, client: u32) -> Option<u64>
        ensures { result ≡ found_of self.now.core client }
    {
        if 0 < client && (client as usize - 1) < self.seats.len() {
            self.seat(client).found()
        } else {
            None
        }
    }

    /// Returns the decided records in the order of their point steps.
    pub(crate) fn entries(&self) -> &[Entry]
        ensures { result.now ≡ self.now.order.entries }
    {
        self.order.entries()
    }

    /// Returns a core just opened on an image.
    pub(crate) fn open(
        alloc: A,
        image: &[u64],
        last: u64,
        stripes: u32,
    ) -> Result<State<A>, AllocError>
        requires { 0 < stripes }
        ensures { IfOk result (λ s. s ≡ run_opened image.now last stripes) }
    {
        let mut seats = Vec::with_capacity(alloc, 1)?;
        seats.push_reserved(Seat::opener(alloc));
        Ok(State {
            last,
            renewal: 0,
            clock: 0,
            stripes,
            locks: vec![in alloc; 0u64; stripes as usize]?,
            cells: Vec::from_slice(alloc, image)?,
            seats,
            events: 0,
            order: Order::new(alloc),
        })
    }
}

/// Returns the word after a compare-and-exchange: the next number if the word is the wanted one,
/// else the word itself.
fn exchanged(word: u64, wanted: u64) -> u64
    requires { wanted + 1 < 2 ^ 64 }
    ensures { result ≡ cond (eqb word wanted) (word + 1) word }
{
    if word == wanted { word + 1 } else { word }
}
