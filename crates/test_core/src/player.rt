//! A client of a random list, modelled by the events that it was allowed and the words that they
//! found. Nothing here is taken from the core.

use crate::moves::{Kind, Move, Shape};
use std::alloc::{AllocError, Global};

#[derive(Clone, Copy, Debug, PartialEq, Eq)]
pub(crate) enum Stage {
    /// No attempt, or an attempt that ended as a reader.
    Resting,
    Running,
    /// The attempt aborts: it can only give its locks back.
    Ending,
    /// A decided writer.
    Committed,
}

#[derive(Drop)]
pub(crate) struct Player {
    pub out: bool,
    pub grants: u32,
    pub stage: Stage,
    /// The word that the last event found.
    pub seen: Option<u64>,
    pub rv: u64,
    pub wv: u64,
    pub tag: u64,
    /// Positions of the begin and of the won tick among the events played.
    pub began: u64,
    pub ticked: u64,
    pub from: u64,
    pub probed: Option<(u32, u64)>,
    pub fetched: Option<(u32, u64)>,
    pub reads: Vec<(u32, u64)>,
    pub held: Vec<(u32, u64)>,
    pub writes: Vec<(u32, u64)>,
    pub stored: Vec<u32>,
    pub passed: usize,
    /// The plan of the attempt: the number of reads, the next address to read, the writes, and
    /// whether the attempt tries to take the greatest lock first, which the rules forbid.
    pub wanted: usize,
    pub aim: u32,
    pub falls: bool,
    pub goal: Vec<(u32, u64)>,
}

impl Player {
    pub(crate) fn new(alloc: Global, grants: u32) -> Player {
        Player {
            out: true,
            grants,
            stage: Stage::Resting,
            seen: None,
            rv: 0,
            wv: 0,
            tag: 0,
            began: 0,
            ticked: 0,
            from: 0,
            probed: None,
            fetched: None,
            reads: Vec::new(alloc),
            held: Vec::new(alloc),
            writes: Vec::new(alloc),
            stored: Vec::new(alloc),
            passed: 0,
            wanted: 0,
            aim: 0,
            falls: false,
            goal: Vec::new(alloc),
        }
    }

    /// Returns whether the client holds a lock.
    pub(crate) fn holds(&self, lock: u32) -> bool {
        self.held.iter().any(|pair| pair.0 == lock)
    }

    /// Returns whether the client has decided to write an address and has not stored it.
    pub(crate) fn owes(&self, addr: u32) -> bool {
        self.stage == Stage::Committed
            && self.writes.iter().any(|pair| pair.0 == addr)
            && !self.stored.contains(&addr)
    }

    /// Returns whether the client runs an attempt without a write version.
    fn is_reading(&self) -> bool {
        self.stage == Stage::Running && self.wv == 0
    }

    /// Returns whether the last event was a probe of this lock that found it free.
    fn found_free(&self, lock: u32) -> bool {
        self.fetched.is_none()
            && self
                .probed
                .is_some_and(|(probed, word)| probed == lock && word % 2 == 0)
    }

    /// Returns whether the last probe found a version that is not too new.
    fn found_old(&self) -> bool {
        self.probed.is_some_and(|probe| probe.1 / 2 <= self.rv)
    }

    /// Returns whether a tick may carry the planned writes: at least one, all in the region, no
    /// address twice, and their locks exactly the held ones.
    fn is_ready(&self, shape: &Shape) -> bool {
        let twice = match self.goal.as_slice() {
            [first, second] => first.0 == second.0,
            _ => false,
        };
        !twice
            && !self.goal.is_empty()
            && self.goal.iter().all(|pair| pair.0 < shape.words)
            && self.held.iter().all(|pair| self.aims_at(pair.0, shape))
            && self.missing(shape).is_none()
    }

    /// Returns whether the rules allow an event, apart from their conditions on another client.
    pub(crate) fn may(&self, turn: &Move, shape: &Shape) -> bool {
        let place = turn.place;
        let bare = self.held.is_empty();
        let reads = self.is_reading();
        match turn.kind {
            Kind::Begin | Kind::Gather | Kind::Renew => bare,
            Kind::Probe => reads && place < shape.stripes,
            Kind::Fetch => reads
                && bare
                && place < shape.words
                && self.found_free(shape.lock_of(place))
                && self.found_old(),
            Kind::Check => reads && self.fetched.is_some_and(|read| read.0 == place),
            Kind::Lock => reads
                && self.found_free(place)
                && self.held.iter().all(|pair| pair.0 < place),
            Kind::Tick => reads
                && turn.number == self.from
                && self.from < shape.last
                && self.is_ready(shape),
            Kind::Validate => self.stage == Stage::Running
                && self.wv != 0
                && self.next_read(shape) == Some(place),
            Kind::Put => self.owes(place) && self.writes.contains(&(place, turn.number)),
            Kind::Release => self.holds(place)
                && self.stage == Stage::Committed
                && !self.owes_at(place, shape),
            Kind::GiveBack => self.holds(place) && self.stage != Stage::Committed,
            Kind::Finish => reads && bare,
            Kind::Split => bare && self.grants != 0,
        }
    }

    /// Returns whether the client has yet to store an address of a lock.
    fn owes_at(&self, lock: u32, shape: &Shape) -> bool {
        self.writes
            .iter()
            .any(|pair| shape.lock_of(pair.0) == lock && self.owes(pair.0))
    }

    /// Returns the lock of the next read word to be validated.
    fn next_read(&self, shape: &Shape) -> Option<u32> {
        self.reads
            .get(self.passed)
            .map(|read| shape.lock_of(read.0))
    }

    /// Applies an event that was allowed, with the word that it found. Returns whether the event
    /// decides the attempt.
    pub(crate) fn moves(
        &mut self,
        turn: &Move,
        tag: u64,
        place: u64,
        word: u64,
    ) -> Result<bool, AllocError> {
        match turn.kind {
            Kind::Begin => self.begins(place, word),
            Kind::Probe => {
                self.probed = Some((turn.place, word));
                self.fetched = None;
            }
            Kind::Fetch => self.fetched = Some((turn.place, word)),
            Kind::Check => self.checks(word)?,
            Kind::Lock => self.locks(turn.place, word)?,
            Kind::Tick => return self.ticks(turn.number, tag, place, word),
            Kind::Validate => return Ok(self.looks(turn.place, word)),
            Kind::Put => self.stored.push(turn.place)?,
            Kind::Release => self.lets_go(turn.place),
            Kind::GiveBack => self.gives_back(turn.place),
            Kind::Finish => {
                self.tag = tag;
                self.stage = Stage::Resting;
                return Ok(true);
            }
            Kind::Split => {
                self.grants = self.grants.wrapping_sub(1);
                self.forgets();
            }
            Kind::Gather => self.forgets(),
            Kind::Renew => self.renews(),
        }
        Ok(false)
    }

    fn begins(&mut self, place: u64, clock: u64) {
        self.renews();
        self.stage = Stage::Running;
        self.began = place;
        self.rv = clock;
        self.from = clock;
    }

    /// Ends the attempt for a renewal of the clock.
    fn renews(&mut self) {
        self.stage = Stage::Resting;
        self.wv = 0;
        self.passed = 0;
        self.reads.clear();
        self.writes.clear();
        self.stored.clear();
        self.forgets();
    }

    /// Marks the client as gathered by another client.
    pub(crate) fn leaves(&mut self) {
        self.out = false;
        self.stage = Stage::Resting;
        self.seen = None;
    }

    /// Forgets the last probe and the last fetched value.
    fn forgets(&mut self) {
        self.probed = None;
        self.fetched = None;
    }

    /// Applies a check: the value counts as read if the word has not changed.
    fn checks(&mut self, word: u64) -> Result<(), AllocError> {
        let read = self.fetched;
        let found = self.probed.map_or(word, |probe| probe.1);
        self.forgets();
        match read {
            Some(read) if found == word => self.reads.push(read)?,
            _ => self.stage = Stage::Ending,
        }
        Ok(())
    }

    /// Applies a try to take a lock, which succeeds if the word has not changed.
    fn locks(&mut self, lock: u32, word: u64) -> Result<(), AllocError> {
        let found = self.probed.map(|probe| probe.1);
        self.forgets();
        if found == Some(word) {
            self.held.push((lock, word / 2))?;
        } else {
            self.stage = Stage::Ending;
        }
        Ok(())
    }

    /// Applies a try to tick the clock. Returns whether the tick decides the attempt.
    fn ticks(&mut self, from: u64, tag: u64, place: u64, clock: u64) -> Result<bool, AllocError> {
        self.forgets();
        self.from = clock;
        if from != clock {
            return Ok(false);
        }
        self.wv = clock.wrapping_add(1);
        self.tag = tag;
        self.ticked = place;
        self.writes.extend_from_slice(&self.goal)?;
        let decides = self.reads.is_empty() || self.rv == clock;
        if decides {
            self.stage = Stage::Committed;
        }
        Ok(decides)
    }

    /// Applies a validation of the lock of a read word. Returns whether the validation decides the
    /// attempt.
    fn looks(&mut self, lock: u32, word: u64) -> bool {
        let mine = word % 2 == 0 || self.holds(lock);
        if !mine || self.rv < word / 2 {
            self.stage = Stage::Ending;
            return false;
        }
        self.passed = self.passed.wrapping_add(1);
        let decides = self.passed == self.reads.len();
        if decides {
            self.stage = Stage::Committed;
        }
        decides
    }

    fn lets_go(&mut self, lock: u32) {
        self.held.retain(|pair| pair.0 != lock);
    }

    fn gives_back(&mut self, lock: u32) {
        self.lets_go(lock);
        self.stage = Stage::Ending;
        self.wv = 0;
        self.writes.clear();
    }

    /// Returns the client's next move by the rules of an attempt.
    pub(crate) fn next(&self, client: u32, shape: &Shape) -> Move {
        let (kind, place, number) = match self.stage {
            Stage::Resting => (Kind::Begin, 0, 0),
            Stage::Ending => self.give_up(),
            Stage::Committed => self.next_store(),
            Stage::Running => if self.wv != 0 {
                (Kind::Validate, self.next_read(shape).unwrap_or(0), 0)
            } else if let Some((addr, _)) = self.fetched {
                (Kind::Check, addr, 0)
            } else if self.held.is_empty() && self.reads.len() < self.wanted {
                self.next_look(shape)
            } else {
                self.next_lock(shape)
            },
        };
        Move {
            kind,
            client,
            place,
            number,
        }
    }

    /// Returns the next move towards holding no lock, or `None` if the client holds none.
    pub(crate) fn rests(&self, client: u32) -> Option<Move> {
        let (kind, place, number) = if self.stage == Stage::Committed {
            self.next_store()
        } else {
            self.give_up()
        };
        if kind == Kind::Begin {
            return None;
        }
        Some(Move {
            kind,
            client,
            place,
            number,
        })
    }

    /// Returns the move that gives a lock back, or begins anew if none is held.
    fn give_up(&self) -> (Kind, u32, u64) {
        match self.held.first() {
            Some(pair) => (Kind::GiveBack, pair.0, 0),
            None => (Kind::Begin, 0, 0),
        }
    }

    /// Returns the move that stores the next planned write, then releases the locks, then begins
    /// anew.
    fn next_store(&self) -> (Kind, u32, u64) {
        let waiting = self.writes.iter().find(|pair| self.owes(pair.0));
        if let Some(pair) = waiting {
            return (Kind::Put, pair.0, pair.1);
        }
        match self.held.first() {
            Some(pair) => (Kind::Release, pair.0, 0),
            None => (Kind::Begin, 0, 0),
        }
    }

    /// Returns the move that probes the lock of the next address to read, and then fetches the
    /// address. A lock that is held or too new is a conflict.
    fn next_look(&self, shape: &Shape) -> (Kind, u32, u64) {
        let lock = shape.lock_of(self.aim);
        match self.probed {
            Some((probed, word)) if probed == lock => if word % 2 == 0 && word / 2 <= self.rv {
                (Kind::Fetch, self.aim, 0)
            } else {
                self.give_up()
            },
            _ => (Kind::Probe, lock, 0),
        }
    }

    /// Returns the move that probes and takes the locks of the planned writes, and then ticks.
    fn next_lock(&self, shape: &Shape) -> (Kind, u32, u64) {
        let strange = self.held.iter().any(|pair| !self.aims_at(pair.0, shape));
        match self.missing(shape) {
            _ if strange => self.give_up(),
            None if self.goal.is_empty() => (Kind::Finish, 0, 0),
            None => (Kind::Tick, 0, self.from),
            Some(lock) => match self.probed {
                Some((probed, word)) if probed == lock => if word % 2 == 0 {
                    (Kind::Lock, lock, 0)
                } else {
                    self.give_up()
                },
                _ => (Kind::Probe, lock, 0),
            },
        }
    }

    /// Returns whether the plan writes an address of this lock.
    fn aims_at(&self, lock: u32, shape: &Shape) -> bool {
        self.goal.iter().any(|pair| shape.lock_of(pair.0) == lock)
    }

    /// Returns the next lock that the plan needs and the client does not hold.
    fn missing(&self, shape: &Shape) -> Option<u32> {
        let mut missing = (0..shape.stripes).filter(|lock| self.aims_at(*lock, shape)
            && !self.holds(*lock));
        if self.falls {
            missing.last()
        } else {
            missing.next()
        }
    }
}
