//! Random lists of events from fixed seeds, most of them by the rules of an attempt.

use crate::history::History;
use crate::moves::{Kind, Move, Shape, below};
use crate::player::Stage;
use rand_pcg::Pcg32;
use std::alloc::{AllocError, Global};
use std::process::Abort;
use std::test::Fail;
use stm_core::{MOST_GRANTS, VERSION_LIMIT};
use stm_replay::{Core, NotAllowed};

const LISTS: u64 = 2000;

/// Numbers of moves drawn before the renewal, for the one client that is left, and after the
/// renewal.
const EVENTS: [u32; 3] = [48, 8, 32];

/// Counts of what happened in all lists.
#[derive(Clone, Copy, Debug)]
struct Tally {
    refused: u64,
    readers: u64,
    writers: u64,
    /// Number of writers that were decided by their last validation.
    validated: u64,
    lost_locks: u64,
    lost_ticks: u64,
    lost_looks: u64,
    lost_checks: u64,
    spent: u64,
    gathered: u64,
    renewed: u64,
    not_renewed: u64,
}

fn add(count: &mut u64, happens: bool) {
    *count = count.wrapping_add(u64::from(happens));
}

impl Tally {
    fn none() -> Tally {
        Tally {
            refused: 0,
            readers: 0,
            writers: 0,
            validated: 0,
            lost_locks: 0,
            lost_ticks: 0,
            lost_looks: 0,
            lost_checks: 0,
            spent: 0,
            gathered: 0,
            renewed: 0,
            not_renewed: 0,
        }
    }

    fn all(&self) -> [u64; 12] {
        [
            self.refused,
            self.readers,
            self.writers,
            self.validated,
            self.lost_locks,
            self.lost_ticks,
            self.lost_looks,
            self.lost_checks,
            self.spent,
            self.gathered,
            self.renewed,
            self.not_renewed,
        ]
    }

    /// Counts an event that was allowed.
    fn counts(&mut self, history: &History, turn: &Move, decides: bool, found: Option<u64>) {
        let Some(player) = history.player(turn.client) else {
            return;
        };
        let ends = player.stage == Stage::Ending;
        let kind = turn.kind;
        add(&mut self.readers, kind == Kind::Finish);
        add(&mut self.writers, decides && kind != Kind::Finish);
        add(&mut self.validated, decides && kind == Kind::Validate);
        add(&mut self.lost_locks, ends && kind == Kind::Lock);
        add(&mut self.lost_looks, ends && kind == Kind::Validate);
        add(&mut self.lost_checks, ends && kind == Kind::Check);
        add(
            &mut self.lost_ticks,
            kind == Kind::Tick && found != Some(turn.number),
        );
        add(&mut self.gathered, kind == Kind::Gather);
        add(&mut self.renewed, kind == Kind::Renew);
    }
}

fn started(rt: &impl Abort, alloc: Global, image: &[u64], shape: &Shape) -> Core {
    assert!(rt; 1 <= image.len() && image.len() <= 8);
    match Core::start(alloc, image, shape.last, shape.stripes) {
        Ok(core) => core,
        Err(_) => panic!(rt; "no memory for a core"),
    }
}

fn opening(rng: &mut Pcg32, alloc: Global, shape: &Shape) -> Result<Vec<u64>, AllocError> {
    let mut image = Vec::new(alloc);
    for _ in 0..shape.words {
        image.push(u64::from(below(rng, 50)))?;
    }
    Ok(image)
}

/// Draws a move of some client: mostly the next by the rules, now and then any other.
fn drawn(rng: &mut Pcg32, history: &History) -> Move {
    let client = if below(rng, 20) == 0 {
        below(rng, 10)
    } else {
        history.out_after(below(rng, history.outs().min(8).max(1)))
    };
    let turn = match history.player(client) {
        Some(player) => player.next(client, &history.shape),
        None => Move::of(Kind::Begin, client, 0),
    };
    if below(rng, 8) == 0 {
        stray(rng, turn)
    } else {
        turn
    }
}

/// Returns another kind of move for the same client, at the same or another place, with the same
/// or another number.
fn stray(rng: &mut Pcg32, turn: Move) -> Move {
    let place = below(rng, 6);
    let number = u64::from(below(rng, 12));
    Move {
        kind: Kind::drawn(rng),
        client: turn.client,
        place: if below(rng, 2) == 0 {
            turn.place
        } else {
            place
        },
        number: if below(rng, 2) == 0 {
            turn.number
        } else {
            number
        },
    }
}

/// A list under way, beside its core.
#[derive(Drop)]
struct Trial {
    list: u64,
    alloc: Global,
    rng: Pcg32,
    history: History,
    tally: Tally,
    tag: u64,
}

impl Trial {
    /// Plays a move, and compares the state of the core with the history.
    fn plays(&mut self, rt: &impl Abort, core: Core, turn: Move) -> Result<Core, AllocError> {
        self.tag = self.tag.wrapping_add(1);
        let list = self.list;
        let allowed = self.history.allows(&turn);
        let expected = self.history.expected(&turn);
        let event = self.history.event(self.alloc, &turn, self.tag)?;
        let core = match core.play(event) {
            Ok(core) => {
                assert!(rt; allowed, "list {list}: {turn:?} was allowed");
                let found = core.found(turn.client);
                assert_eq!(rt; found, expected, "list {list}: {turn:?}");
                if self.takes(rt, &turn, found)? {
                    self.history.fits_whole(rt, self.alloc, &core)?;
                }
                core
            }
            Err((core, why)) => {
                assert_eq!(rt; why, NotAllowed::Event);
                assert!(rt; !allowed, "list {list}: {turn:?} was refused");
                self.history.drops(&turn);
                add(&mut self.tally.refused, true);
                add(&mut self.tally.not_renewed, turn.kind == Kind::Renew);
                core
            }
        };
        self.history.fits(rt, &core);
        Ok(core)
    }

    /// Plays a move that must be allowed.
    fn must_play(&mut self, rt: &impl Abort, core: Core, turn: Move) -> Result<Core, AllocError> {
        assert!(rt; self.history.allows(&turn));
        self.plays(rt, core, turn)
    }

    /// Applies an event that was allowed. Returns whether the event decides an attempt or is a
    /// check.
    fn takes(
        &mut self,
        rt: &impl Abort,
        turn: &Move,
        found: Option<u64>,
    ) -> Result<bool, AllocError> {
        let decides = self.history.takes(rt, self.alloc, turn, self.tag, found)?;
        self.tally.counts(&self.history, turn, decides, found);
        if matches!(turn.kind, Kind::Begin | Kind::Check) {
            self.history.plans(&mut self.rng, turn)?;
        }
        Ok(decides || turn.kind == Kind::Check)
    }

    /// Plays random moves.
    fn goes_on(&mut self, rt: &impl Abort, core: Core, many: u32) -> Result<Core, AllocError> {
        let mut core = core;
        for _ in 0..many {
            let turn = drawn(&mut self.rng, &self.history);
            core = self.plays(rt, core, turn)?;
        }
        Ok(core)
    }

    /// Splits clients off the first client that is out.
    fn splits(&mut self, rt: &impl Abort, core: Core, many: u32) -> Result<Core, AllocError> {
        let client = self.history.out_after(0);
        let mut core = core;
        for _ in 0..many {
            core = self.must_play(rt, core, Move::of(Kind::Split, client, 0))?;
        }
        Ok(core)
    }

    /// Plays a client's moves until it has stored and released its decided writes, or given back
    /// its locks. Bounded loop: a client has fewer than 16 such moves.
    fn settles(&mut self, rt: &impl Abort, core: Core, client: u32) -> Result<Core, AllocError> {
        let mut core = core;
        for _ in 0..16 {
            let Some(turn) = self
                .history
                .player(client)
                .and_then(|player| player.rests(client))
            else {
                return Ok(core);
            };
            core = self.must_play(rt, core, turn)?;
        }
        panic!(rt; "a client does not come to rest")
    }

    /// Reads every word in one attempt of a client.
    fn sweeps(&mut self, rt: &impl Abort, core: Core, client: u32) -> Result<Core, AllocError> {
        let mut core = self.must_play(rt, core, Move::of(Kind::Begin, client, 0))?;
        for addr in 0..self.history.shape.words {
            let lock = self.history.shape.lock_of(addr);
            core = self.must_play(rt, core, Move::of(Kind::Probe, client, lock))?;
            core = self.must_play(rt, core, Move::of(Kind::Fetch, client, addr))?;
            core = self.must_play(rt, core, Move::of(Kind::Check, client, addr))?;
        }
        self.must_play(rt, core, Move::of(Kind::Finish, client, 0))
    }

    /// Lets one client gather all others, once they hold no lock.
    fn joins(&mut self, rt: &impl Abort, core: Core, client: u32) -> Result<Core, AllocError> {
        let mut core = self.settles(rt, core, client)?;
        for other in 1..=self.history.known() {
            let out = self.history.player(other).is_some_and(|player| player.out);
            if out && other != client {
                core = self.settles(rt, core, other)?;
                core = self.must_play(rt, core, Move::of(Kind::Gather, client, other))?;
            }
        }
        Ok(core)
    }

    /// Renews the clock by a client that is left alone. Before that, plays renewals with other
    /// clients out, with a last version that no region has, and in the middle of an attempt.
    fn renews(&mut self, rt: &impl Abort, core: Core) -> Result<Core, AllocError> {
        let last = 1 + u64::from(below(&mut self.rng, 16));
        let client = self.history.out_after(below(&mut self.rng, 4));
        let core = self.plays(rt, core, Move::renewal(client, last))?;
        let core = self.joins(rt, core, client)?;
        let core = self.plays(rt, core, Move::renewal(client, 0))?;
        let core = self.plays(rt, core, Move::renewal(client, VERSION_LIMIT))?;
        let core = self.goes_on(rt, core, EVENTS[1])?;
        let core = self.plays(rt, core, Move::renewal(client, last))?;
        let client = self.history.out_after(0);
        let core = self.joins(rt, core, client)?;
        self.must_play(rt, core, Move::renewal(client, last))
    }

    /// Brings all clients to rest, and reads every word.
    fn ends(&mut self, rt: &impl Abort, core: Core) -> Result<(), AllocError> {
        let mut core = core;
        let mut reader = 0;
        for client in 1..=self.history.known() {
            if self.history.player(client).is_some_and(|player| player.out) {
                core = self.settles(rt, core, client)?;
                reader = client;
            }
        }
        let _ = self.sweeps(rt, core, reader)?;
        add(&mut self.tally.spent, self.history.is_spent());
        Ok(())
    }
}

/// Plays one list, with a renewal in the middle. In every 32nd list the first client splits off as
/// many clients as it may.
fn one_list(rt: &impl Abort, alloc: Global, list: u64, tally: Tally) -> Result<Tally, AllocError> {
    let mut rng = Pcg32::new(list, 54);
    let shape = Shape::drawn(&mut rng);
    let image = opening(&mut rng, alloc, &shape)?;
    let core = started(rt, alloc, &image, &shape);
    let many = if list % 32 == 0 {
        MOST_GRANTS
    } else {
        1 + below(&mut rng, 4)
    };
    let mut trial = Trial {
        list,
        alloc,
        rng,
        history: History::new(alloc, shape, image)?,
        tally,
        tag: 0,
    };
    let core = trial.splits(rt, core, many)?;
    let core = trial.goes_on(rt, core, EVENTS[0])?;
    let core = trial.renews(rt, core)?;
    let few = 1 + below(&mut trial.rng, 3);
    let core = trial.splits(rt, core, few)?;
    let core = trial.goes_on(rt, core, EVENTS[2])?;
    trial.ends(rt, core)?;
    Ok(trial.tally)
}

#[test]
fn random_lists_beside_a_naive_history(rt: HostRuntime) -> Result<(), Fail> {
    let mut tally = Tally::none();
    for list in 0..LISTS {
        tally = one_list(&rt, rt.alloc(), list, tally)?;
    }
    for count in tally.all() {
        assert!(rt; LISTS / 50 < count, "{tally:?}");
    }
    Ok(())
}
