//! The pauses between the attempts of a call.

ghost use Rattle.std.specs.Prelude.{◌≡◌, ◌-◌, min};

use rand_core::utils::NextWord;
use rand_pcg::Lcg64Xsh32;
use std::{hint, thread};

/// The attempt with the first drawn pause after it. There is no pause after earlier attempts.
const FIRST_DRAWN: u32 = 3;

/// Number of bits of a drawn word that give the idle turns of the first drawn pause.
const FEWEST_BITS: u32 = 4;

/// Growth of the pauses while the client that was met may well be running.
const MET_RUNNING: Growth = Growth {
    after: FIRST_DRAWN,
    most: 9,
};

/// Additional growth of the pauses once the client that was met has probably been stopped.
const MET_STOPPED: Growth = Growth { after: 19, most: 3 };

/// The first attempt whose pause also yields the processor.
const FIRST_YIELD: u32 = 14;

/// Growth of pauses: by one bit for each attempt after the attempt `after`, by `most` bits at
/// most.
#[derive(Clone, Copy, Drop)]
struct Growth {
    after: u32,
    most: u32,
}

impl Growth {
    /// Returns the additional bits of the pause after this attempt.
    fn bits(&self, tried: u32) -> u32
        ensures { result ≡ min (tried - self.now.after) self.now.most }
    {
        tried.saturating_sub(self.after).min(self.most)
    }
}

/// The pauses of a client. Each pause is drawn at random, so that clients that met do not stay in
/// step. The generator is the client's own, so that its pauses can be repeated.
#[derive(Drop)]
pub(crate) struct Pauses {
    generator: Lcg64Xsh32,
}

impl Pauses {
    /// Returns the pauses of the client with this seed.
    pub(crate) fn new(seed: u64) -> Pauses {
        Pauses {
            generator: Lcg64Xsh32::new(seed, 0),
        }
    }

    /// Returns the pauses of a client that is split off, whose seed is drawn.
    pub(crate) fn split(&mut self) -> Pauses {
        Pauses::new(u64::from(self.generator.next_word()))
    }

    /// Pauses after this attempt of a call.
    pub(crate) fn wait(&mut self, tried: u32) {
        if tried < FIRST_DRAWN {
            return;
        }
        let bits = FEWEST_BITS + MET_RUNNING.bits(tried) + MET_STOPPED.bits(tried);
        let turns = self.generator.next_word() >> (u32::BITS - bits);
        for _ in 0..turns {
            hint::spin_loop();
        }
        if tried >= FIRST_YIELD {
            thread::yield_now();
        }
    }
}
