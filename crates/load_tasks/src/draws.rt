//! Sources of the words of a load.

ghost use Rattle.std.specs.Prelude.{◌≡◌, ℕ};
ghost use Rattle.rand_pcg.specs.Lcg.{Lcg, started, increment_of};
ghost use Rattle.rand_pcg.specs.Pcg.{multiplier_64, pcg32};

use rand_core::utils::NextWord;
use rand_pcg::Lcg64Xsh32;
use std::marker::Model;

/// A source of random words.
pub trait Draws {
    /// The relation of a state, the word drawn in it and the next state.
    ghost leads: { Self → ℕ → Self → Type 0 };

    /// Draws a word.
    fn word(&mut self) -> u32
        ensures { leads self.old result self.new };
}

/// The words of a generator `Lcg64Xsh32`.
#[derive(Drop)]
pub struct PcgDraws {
    generator: Lcg64Xsh32,
}

impl Model for PcgDraws {
    ghost Value = { Lcg };

    ghost view = { λ d. d.generator };
}

impl PcgDraws {
    /// Creates this stream of the generator, with this seed.
    pub fn new(seed: u64, stream: u64) -> PcgDraws
        ensures { result ≡ started 64 multiplier_64 seed (increment_of 64 stream) }
    {
        PcgDraws {
            generator: Lcg64Xsh32::new(seed, stream),
        }
    }
}

impl Draws for PcgDraws {
    ghost leads = { λ state word next. (word, next) ≡ pcg32 state };

    fn word(&mut self) -> u32 {
        self.generator.next_word()
    }
}

/// A source that gives the same word at every draw.
#[derive(Clone, Copy, Debug, PartialEq, Eq)]
pub struct FixedDraws(pub u32);

impl Draws for FixedDraws {
    ghost leads = { λ state word next. (word ≡ state.0) × (next ≡ state) };

    fn word(&mut self) -> u32 {
        self.0
    }
}
