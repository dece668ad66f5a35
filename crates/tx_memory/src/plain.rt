//! Plain memory as a transactional memory.

ghost use Rattle.std.specs.Prelude.{◌≡◌, ℕ, List};

use super::memory::{Addr, TxMem, TxRead};
use std::convert::Infallible;
use std::marker::Model;

/// Plain memory, seen as the list of its words. Its calls always return `Ok`.
///
/// Every image of its size fits, nothing of it was read, and all its words are writes.
#[derive(Drop)]
pub struct Flat {
    words: Vec<u64>,
}

impl Model for Flat {
    ghost Value = { List ℕ };

    ghost view = { λ f. f.words.items };
}

impl Flat {
    /// Returns a memory of these words.
    pub fn new(words: Vec<u64>) -> Flat
        ensures { result ≡ words.items }
    {
        Flat { words }
    }

    /// Returns the words of the memory.
    pub fn words(self) -> Vec<u64>
        ensures { result.items ≡ self }
    {
        let Flat { words } = self;
        words
    }
}

impl TxRead for Flat {
    ghost use Rattle.tx_memory.specs.Plain.{flat_view};
    ghost use Rattle.std.proofs.lemmas.Grind.{merely};
    ghost use Rattle.tx_memory.specs.PlainSeen.{flat_seen};

    type Stop = Infallible;

    ghost Origin = { Unit {0} };

    ghost origin = { λ _. tt };

    ghost view = { λ words. flat_view words };

    ghost stopped_for = { λ _ _. ⊥ };

    #[inline]
    fn read(&mut self, addr: Addr) -> Result<u64, Infallible> {
        Ok(self.words[addr.0 as usize])
    }

    ghost seen = { λ words. merely (flat_seen words) };
}

impl TxMem for Flat {
    #[inline]
    fn write(&mut self, addr: Addr, value: u64) -> Result<(), Infallible> {
        self.words[addr.0 as usize] = value;
        Ok(())
    }
}
