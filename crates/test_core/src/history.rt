//! The history of a random list, computed anew from the events that were allowed, and compared
//! with the history that the core shows.

use crate::moves::{Kind, Move, Shape, below};
use crate::player::{Player, Stage};
use rand_pcg::Pcg32;
use std::alloc::{AllocError, Global};
use std::process::Abort;
use stm_core::MOST_GRANTS;
use stm_replay::{Core, Entry, Event};

/// A decided attempt; its point is the position of a writer's won tick, or of a reader's begin,
/// among the events.
#[derive(Drop)]
struct Decided {
    entry: Entry,
    point: u64,
    reads: Vec<(u32, u64)>,
    writes: Vec<(u32, u64)>,
}

#[derive(Drop)]
pub(crate) struct History {
    pub shape: Shape,
    /// The images of the first opening and of the present renewal.
    first: Vec<u64>,
    opening: Vec<u64>,
    renewal: u32,
    clock: u64,
    events: u64,
    values: u64,
    decided: Vec<Decided>,
    pub players: Vec<Player>,
}

impl History {
    pub(crate) fn new(
        alloc: Global,
        shape: Shape,
        opening: Vec<u64>,
    ) -> Result<History, AllocError> {
        let mut players = Vec::new(alloc);
        players.push(Player::new(alloc, MOST_GRANTS))?;
        Ok(History {
            shape,
            first: Vec::from_slice(alloc, &opening)?,
            opening,
            renewal: 0,
            clock: 0,
            events: 0,
            values: 100,
            decided: Vec::new(alloc),
            players,
        })
    }

    /// Returns whether the clock is at the last version.
    pub(crate) fn is_spent(&self) -> bool {
        self.clock == self.shape.last
    }

    /// Returns the number of clients so far.
    pub(crate) fn known(&self) -> u32 {
        self.players.len().min(1000) as u32
    }

    /// Returns the number of clients that are out.
    pub(crate) fn outs(&self) -> u32 {
        let mut outs = 0u32;
        for player in self.players.iter() {
            outs = outs.wrapping_add(u32::from(player.out));
        }
        outs
    }

    /// Returns the client that is out after skipping `others` others, or the last one that is out.
    pub(crate) fn out_after(&self, others: u32) -> u32 {
        let mut left = others.wrapping_add(1);
        let mut client = 0u32;
        let mut chosen = 0;
        for player in self.players.iter() {
            client = client.wrapping_add(1);
            if player.out && left != 0 {
                left -= 1;
                chosen = client;
            }
        }
        chosen
    }

    /// Returns the event of a move; a tick carries the writes that its client plans.
    pub(crate) fn event(&self, alloc: Global, turn: &Move, tag: u64) -> Result<Event, AllocError> {
        match self.player(turn.client) {
            Some(player) => turn.event(alloc, tag, &player.goal),
            None => turn.event(alloc, tag, &[]),
        }
    }

    /// Returns the known state of a client.
    pub(crate) fn player(&self, client: u32) -> Option<&Player> {
        self.players.get(client.wrapping_sub(1) as usize)
    }

    /// Returns the value of an address in the image of a version.
    fn value_at(&self, version: u64, addr: u32) -> u64 {
        let mut newest = 0;
        let mut value = self.opening.get(addr as usize).map_or(0, |word| *word);
        for attempt in self.decided.iter() {
            let present = attempt.entry.renewal == self.renewal;
            if present && newest < attempt.entry.version && attempt.entry.version <= version {
                if let Some(pair) = attempt.writes.iter().find(|pair| pair.0 == addr) {
                    newest = attempt.entry.version;
                    value = pair.1;
                }
            }
        }
        value
    }

    /// Returns the data word of an address: the newest value, without a write that a decided
    /// writer has yet to store.
    fn cell(&self, addr: u32) -> u64 {
        let owed = self.players.iter().find(|player| player.owes(addr));
        let version = owed.map_or(u64::MAX, |player| player.wv.wrapping_sub(1));
        self.value_at(version, addr)
    }

    /// Returns the version of the newest decided writer of a lock that does not hold the lock any
    /// more, with the held bit if the lock is held.
    fn lock_word(&self, lock: u32) -> u64 {
        let mut version = 0;
        for attempt in self.decided.iter() {
            let there = attempt
                .writes
                .iter()
                .any(|pair| self.shape.lock_of(pair.0) == lock);
            if there
                && attempt.entry.renewal == self.renewal
                && version < attempt.entry.version
                && !self.is_kept(attempt.entry.version, lock)
            {
                version = attempt.entry.version;
            }
        }
        let held = self.players.iter().any(|player| player.holds(lock));
        version.wrapping_mul(2).wrapping_add(u64::from(held))
    }

    /// Returns whether the writer of a version still holds a lock.
    fn is_kept(&self, version: u64, lock: u32) -> bool {
        self.players
            .iter()
            .any(|player| player.wv == version && player.holds(lock))
    }

    /// Returns the word that an event will find.
    pub(crate) fn expected(&self, turn: &Move) -> Option<u64> {
        match turn.kind {
            Kind::Begin | Kind::Finish | Kind::Tick => Some(self.clock),
            Kind::Probe | Kind::Lock | Kind::Validate => Some(self.lock_word(turn.place)),
            Kind::Check => Some(self.lock_word(self.shape.lock_of(turn.place))),
            Kind::Fetch => Some(self.cell(turn.place)),
            Kind::Put | Kind::Release | Kind::GiveBack => None,
            Kind::Split | Kind::Gather | Kind::Renew => None,
        }
    }

    /// Returns whether the rules allow an event.
    pub(crate) fn allows(&self, turn: &Move) -> bool {
        let Some(player) = self.player(turn.client).filter(|player| player.out) else {
            return false;
        };
        let other = self.player(turn.place).filter(|other| other.out);
        let others_may = match turn.kind {
            Kind::Gather => turn.client != turn.place
                && other.is_some_and(|other| other.held.is_empty()),
            Kind::Renew => self.outs() == 1 && self.shape.renewed(turn.number).is_some(),
            _ => true,
        };
        player.may(turn, &self.shape) && others_may
    }

    /// Applies an event that was allowed. Returns whether the event decides an attempt.
    pub(crate) fn takes(
        &mut self,
        rt: &impl Abort,
        alloc: Global,
        turn: &Move,
        tag: u64,
        found: Option<u64>,
    ) -> Result<bool, AllocError> {
        let place = self.events;
        self.events = place.wrapping_add(1);
        if turn.kind == Kind::Tick && found == Some(turn.number) {
            self.clock = self.clock.wrapping_add(1);
        }
        let grants = self.comes_and_goes(alloc, turn)?;
        if turn.kind == Kind::Renew {
            self.renews(alloc, turn.number)?;
        }
        let renewal = self.renewal;
        let Some(player) = self.players.get_mut(turn.client.wrapping_sub(1) as usize) else {
            panic!(rt; "an event of nobody was allowed");
        };
        player.seen = found;
        player.grants = player.grants.wrapping_add(grants);
        let decides = player.moves(turn, tag, place, found.unwrap_or(0))?;
        if decides {
            let attempt = Decided::of(alloc, turn.client, renewal, player)?;
            self.decided.push(attempt)?;
        }
        Ok(decides)
    }

    /// Renews the clock on the newest image.
    fn renews(&mut self, alloc: Global, last: u64) -> Result<(), AllocError> {
        let mut image = Vec::new(alloc);
        for addr in 0..self.shape.words {
            image.push(self.value_at(u64::MAX, addr))?;
        }
        self.opening = image;
        self.renewal = self.renewal.wrapping_add(1);
        self.clock = 0;
        if let Some(shape) = self.shape.renewed(last) {
            self.shape = shape;
        }
        Ok(())
    }

    /// Adds a client that is split off, or removes one that is gathered. Returns the grants that a
    /// gathered client leaves, with its own.
    fn comes_and_goes(&mut self, alloc: Global, turn: &Move) -> Result<u32, AllocError> {
        if turn.kind == Kind::Split {
            self.players.push(Player::new(alloc, 0))?;
        }
        if turn.kind != Kind::Gather {
            return Ok(0);
        }
        match self.players.get_mut(turn.place.wrapping_sub(1) as usize) {
            Some(other) => {
                other.leaves();
                Ok(other.grants.wrapping_add(1))
            }
            None => Ok(0),
        }
    }

    /// Drops the client's plan to write if a lock or a tick was refused.
    pub(crate) fn drops(&mut self, turn: &Move) {
        if matches!(turn.kind, Kind::Lock | Kind::Tick) {
            if let Some(player) = self.players.get_mut(turn.client.wrapping_sub(1) as usize) {
                player.goal.clear();
            }
        }
    }

    /// Plans the reads and writes of the attempt that a client begins, and its next read. Now and
    /// then no tick may carry the writes, an address occurs twice or lies outside, or the locks
    /// come in the wrong order.
    pub(crate) fn plans(&mut self, rng: &mut Pcg32, turn: &Move) -> Result<(), AllocError> {
        let words = self.shape.words;
        let aim = below(rng, words);
        let first = if below(rng, 32) == 0 {
            words
        } else {
            below(rng, words)
        };
        let second = below(rng, words);
        let twice = below(rng, 16) == 0;
        let falls = below(rng, 16) == 0;
        let many = below(rng, 3);
        let wanted = below(rng, 3) as usize;
        let value = self.values;
        self.values = value.wrapping_add(2);
        let Some(player) = self.players.get_mut(turn.client.wrapping_sub(1) as usize) else {
            return Ok(());
        };
        player.aim = aim;
        if turn.kind == Kind::Begin {
            player.wanted = wanted;
            player.falls = falls;
            player.goal.clear();
            if 0 < many {
                player.goal.push((first, value))?;
            }
            if 1 < many && (twice || first != second) {
                player.goal.push((second, value.wrapping_add(1)))?;
            }
        }
        Ok(())
    }

    /// Compares the words found and the length of the order with the history.
    pub(crate) fn fits(&self, rt: &impl Abort, core: &Core) {
        let mut client = 0;
        assert_eq!(rt; core.found(client), None);
        for player in self.players.iter() {
            client = client.wrapping_add(1);
            assert_eq!(rt; core.found(client), player.seen);
        }
        assert_eq!(rt; core.found(client.wrapping_add(1)), None);
        assert_eq!(rt; core.order().len(), self.decided.len());
    }

    /// Compares the order and all reads with the history.
    pub(crate) fn fits_whole(
        &self,
        rt: &impl Abort,
        alloc: Global,
        core: &Core,
    ) -> Result<(), AllocError> {
        for player in self.players.iter() {
            self.reads_of_one_version(rt, player);
        }
        self.is_serial(rt, alloc, core.order())
    }

    /// Asserts that an attempt has read words of the image of its read version.
    fn reads_of_one_version(&self, rt: &impl Abort, player: &Player) {
        if player.out && player.stage != Stage::Resting {
            for (addr, value) in player.reads.iter() {
                assert_eq!(rt; self.value_at(player.rv, *addr), *value);
            }
        }
    }

    /// Asserts that the order is serial. Played one by one from the first image on, each decided
    /// attempt reads what is there, and the last leaves the newest image. The points rise, so that
    /// no attempt occurs twice, and so do the versions of a renewal.
    fn is_serial(
        &self,
        rt: &impl Abort,
        alloc: Global,
        entries: &[Entry],
    ) -> Result<(), AllocError> {
        let mut image = Vec::from_slice(alloc, &self.first)?;
        let mut renewal = 0;
        let mut version = 0;
        let mut point = None;
        for entry in entries {
            let Some(attempt) = self.decided.iter().find(|attempt| attempt.entry == *entry) else {
                panic!(rt; "an entry of no attempt");
            };
            assert!(rt; point < Some(attempt.point));
            let later = version < entry.version || (!entry.writer && version == entry.version);
            assert!(rt; renewal < entry.renewal || (renewal == entry.renewal && later));
            point = Some(attempt.point);
            renewal = entry.renewal;
            version = entry.version;
            attempt.plays(rt, &mut image);
        }
        self.is_newest(rt, &image);
        Ok(())
    }

    /// Asserts that an image has the newest values.
    fn is_newest(&self, rt: &impl Abort, image: &[u64]) {
        let mut addr = 0;
        for value in image {
            assert_eq!(rt; self.value_at(u64::MAX, addr), *value);
            addr = addr.wrapping_add(1);
        }
    }
}

impl Decided {
    /// Returns the attempt that a client decides now.
    fn of(
        alloc: Global,
        client: u32,
        renewal: u32,
        player: &Player,
    ) -> Result<Decided, AllocError> {
        let writer = player.stage == Stage::Committed;
        Ok(Decided {
            entry: Entry {
                client,
                tag: player.tag,
                version: if writer { player.wv } else { player.rv },
                writer,
                renewal,
            },
            point: if writer { player.ticked } else { player.began },
            reads: Vec::from_slice(alloc, &player.reads)?,
            writes: Vec::from_slice(alloc, &player.writes)?,
        })
    }

    /// Plays the attempt on an image as one step: asserts its reads and applies its writes.
    fn plays(&self, rt: &impl Abort, image: &mut [u64]) {
        for (addr, value) in self.reads.iter() {
            assert_eq!(rt; image.get(*addr as usize), Some(value));
        }
        lay(image, &self.writes);
    }
}

fn lay(image: &mut [u64], writes: &[(u32, u64)]) {
    for (addr, value) in writes {
        if let Some(word) = image.get_mut(*addr as usize) {
            *word = *value;
        }
    }
}
