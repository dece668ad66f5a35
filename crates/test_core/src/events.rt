//! Events with their expected outcomes, as the tests write lists of them down.

use crate::moves::{Kind, Move};
use std::alloc::{AllocError, Allocator};
use std::process::Abort;
use stm_replay::{Core, Event, NotAllowed};

/// An event that a test plays.
#[derive(Clone, Copy)]
pub(crate) enum Act<'a> {
    Plain(Move),
    Tick {
        client: u32,
        from: u64,
        tag: u64,
        writes: &'a [(u32, u64)],
    },
    Finish {
        client: u32,
        tag: u64,
    },
}

/// The expected outcome of an event.
#[derive(Clone, Copy, Debug, PartialEq, Eq)]
pub(crate) enum Outcome {
    /// The event is played, and its client's last step found this word, or none.
    Found(Option<u64>),
    /// The event is not allowed.
    Refused,
}

/// The event is played and finds no word.
pub(crate) const DONE: Outcome = Outcome::Found(None);

/// The event is not allowed.
pub(crate) const REFUSED: Outcome = Outcome::Refused;

/// Returns the outcome of an event that is played and finds a word.
pub(crate) fn finds(word: u64) -> Outcome {
    Outcome::Found(Some(word))
}

pub(crate) fn begin<'a>(client: u32) -> Act<'a> {
    Act::Plain(Move::of(Kind::Begin, client, 0))
}

pub(crate) fn probe<'a>(client: u32, lock: u32) -> Act<'a> {
    Act::Plain(Move::of(Kind::Probe, client, lock))
}

pub(crate) fn fetch<'a>(client: u32, addr: u32) -> Act<'a> {
    Act::Plain(Move::of(Kind::Fetch, client, addr))
}

pub(crate) fn check<'a>(client: u32, addr: u32) -> Act<'a> {
    Act::Plain(Move::of(Kind::Check, client, addr))
}

pub(crate) fn lock<'a>(client: u32, lock: u32) -> Act<'a> {
    Act::Plain(Move::of(Kind::Lock, client, lock))
}

pub(crate) fn tick(client: u32, from: u64, tag: u64, writes: &[(u32, u64)]) -> Act<'_> {
    Act::Tick {
        client,
        from,
        tag,
        writes,
    }
}

pub(crate) fn validate<'a>(client: u32, lock: u32) -> Act<'a> {
    Act::Plain(Move::of(Kind::Validate, client, lock))
}

pub(crate) fn put<'a>(client: u32, addr: u32, value: u64) -> Act<'a> {
    Act::Plain(Move {
        kind: Kind::Put,
        client,
        place: addr,
        number: value,
    })
}

pub(crate) fn release<'a>(client: u32, lock: u32) -> Act<'a> {
    Act::Plain(Move::of(Kind::Release, client, lock))
}

pub(crate) fn give_back<'a>(client: u32, lock: u32) -> Act<'a> {
    Act::Plain(Move::of(Kind::GiveBack, client, lock))
}

pub(crate) fn finish<'a>(client: u32, tag: u64) -> Act<'a> {
    Act::Finish { client, tag }
}

pub(crate) fn split<'a>(client: u32) -> Act<'a> {
    Act::Plain(Move::of(Kind::Split, client, 0))
}

pub(crate) fn gather<'a>(client: u32, other: u32) -> Act<'a> {
    Act::Plain(Move::of(Kind::Gather, client, other))
}

pub(crate) fn renew<'a>(client: u32, last: u64) -> Act<'a> {
    Act::Plain(Move::renewal(client, last))
}

impl<'a> Act<'a> {
    /// Returns the client of the event.
    pub(crate) fn client(&self) -> u32 {
        match self {
            Act::Plain(turn) => turn.client,
            Act::Tick { client, .. } | Act::Finish { client, .. } => *client,
        }
    }

    /// Returns the kind of the event.
    pub(crate) fn kind(&self) -> Kind {
        match self {
            Act::Plain(turn) => turn.kind,
            Act::Tick { .. } => Kind::Tick,
            Act::Finish { .. } => Kind::Finish,
        }
    }

    /// Returns the event itself.
    pub(crate) fn event<A: Allocator + Copy>(&self, alloc: A) -> Result<Event<A>, AllocError> {
        match *self {
            Act::Plain(turn) => turn.event(alloc, 0, &[]),
            Act::Tick {
                client,
                from,
                tag,
                writes,
            } => {
                let turn = Move {
                    kind: Kind::Tick,
                    client,
                    place: 0,
                    number: from,
                };
                turn.event(alloc, tag, writes)
            }
            Act::Finish { client, tag } => Ok(Event::Finish { client, tag }),
        }
    }
}

/// Plays events one by one and compares each outcome with the expected one.
pub(crate) fn played<A: Allocator + Copy>(
    rt: &impl Abort,
    alloc: A,
    core: Core<A>,
    acts: &[(Act<'_>, Outcome)],
) -> Core<A> {
    let mut core = core;
    for (at, (act, want)) in acts.iter().enumerate() {
        let event = act.event(alloc).expect(rt, "there is memory");
        let outcome;
        (core, outcome) = match core.play(event) {
            Ok(core) => {
                let found = core.found(act.client());
                (core, Ok(Outcome::Found(found)))
            }
            Err((core, NotAllowed::Event)) => (core, Ok(Outcome::Refused)),
            Err((core, why)) => (core, Err(why)),
        };
        assert_eq!(rt; outcome, Ok(*want), "at event {at}");
    }
    core
}
