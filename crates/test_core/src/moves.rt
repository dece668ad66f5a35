//! The next event of a client of a random list, as plain numbers.

ghost use Rattle.std.specs.Prelude.{◌<◌, ◌≤◌};
ghost use Rattle.stm_core.specs.declared.version.TheConstants.{VERSION_LIMIT};

use rand_core::utils::NextWord;
use rand_pcg::Pcg32;
use std::alloc::{AllocError, Allocator};
use stm_core::VERSION_LIMIT;
use stm_replay::{Event, Writes};

/// Numbers of words and stripes of a region, and its last version.
#[derive(Clone, Copy, Debug)]
pub(crate) struct Shape {
    pub words: u32,
    pub stripes: u32,
    pub last: u64,
    ghost small: { (1 ≤ words) × (words ≤ 8) × (1 ≤ stripes) × (stripes ≤ 8) },
    ghost versions: { (1 ≤ last) × (last < VERSION_LIMIT) },
}

impl Shape {
    /// Draws few words and stripes, so that clients conflict, and a last version that is often
    /// reached.
    pub(crate) fn drawn(rng: &mut Pcg32) -> Shape {
        Shape {
            words: 1 + below(rng, 5),
            stripes: 1 + below(rng, 4),
            last: 1 + u64::from(below(rng, 16)),
        }
    }

    /// Returns this shape with another last version, if a region may have it.
    pub(crate) fn renewed(self, last: u64) -> Option<Shape> {
        if 1 <= last && last < VERSION_LIMIT {
            Some(Shape {
                words: self.words,
                stripes: self.stripes,
                last,
            })
        } else {
            None
        }
    }

    /// Returns the lock of an address.
    pub(crate) fn lock_of(&self, addr: u32) -> u32 {
        addr % self.stripes
    }
}

/// Returns a random number below a bound.
pub(crate) fn below(rng: &mut Pcg32, bound: u32) -> u32
    requires { 0 < bound }
    ensures { result < bound }
{
    rng.next_word() % bound
}

#[derive(Clone, Copy, Debug, PartialEq, Eq)]
pub(crate) enum Kind {
    Begin,
    Probe,
    Fetch,
    Check,
    Lock,
    Tick,
    Validate,
    Put,
    Release,
    GiveBack,
    Finish,
    Split,
    Gather,
    Renew,
}

impl Kind {
    /// Returns a random kind of event.
    pub(crate) fn drawn(rng: &mut Pcg32) -> Kind {
        match below(rng, 14) {
            0 => Kind::Begin,
            1 => Kind::Probe,
            2 => Kind::Fetch,
            3 => Kind::Check,
            4 => Kind::Lock,
            5 => Kind::Tick,
            6 => Kind::Validate,
            7 => Kind::Put,
            8 => Kind::Release,
            9 => Kind::GiveBack,
            10 => Kind::Finish,
            11 => Kind::Split,
            12 => Kind::Gather,
            _ => Kind::Renew,
        }
    }
}

/// An event without its tag and its writes.
#[derive(Clone, Copy, Debug)]
pub(crate) struct Move {
    pub kind: Kind,
    pub client: u32,
    /// The lock, the address or the other client.
    pub place: u32,
    /// The value to store, the clock value to tick from, or the new last version.
    pub number: u64,
}

impl Move {
    /// Returns a move without a number.
    pub(crate) fn of(kind: Kind, client: u32, place: u32) -> Move {
        Move {
            kind,
            client,
            place,
            number: 0,
        }
    }

    /// Returns a renewal with this last version.
    pub(crate) fn renewal(client: u32, last: u64) -> Move {
        Move {
            kind: Kind::Renew,
            client,
            place: 0,
            number: last,
        }
    }

    /// Returns the event with this tag and these writes.
    pub(crate) fn event<A: Allocator + Copy>(
        &self,
        alloc: A,
        tag: u64,
        writes: &[(u32, u64)],
    ) -> Result<Event<A>, AllocError> {
        let client = self.client;
        let lock = self.place;
        let addr = self.place;
        Ok(match self.kind {
            Kind::Begin => Event::Begin { client },
            Kind::Probe => Event::Probe { client, lock },
            Kind::Fetch => Event::Fetch { client, addr },
            Kind::Check => Event::Check { client, addr },
            Kind::Lock => Event::Lock { client, lock },
            Kind::Tick => Event::Tick {
                client,
                from: self.number,
                tag,
                writes: Writes::of(alloc, writes)?,
            },
            Kind::Validate => Event::Validate { client, lock },
            Kind::Put => Event::Put {
                client,
                addr,
                value: self.number,
            },
            Kind::Release => Event::Release { client, lock },
            Kind::GiveBack => Event::GiveBack { client, lock },
            Kind::Finish => Event::Finish { client, tag },
            Kind::Split => Event::Split { client },
            Kind::Gather => Event::Gather {
                client,
                other: self.place,
            },
            Kind::Renew => Event::Renew {
                client,
                last: self.number,
            },
        })
    }
}
