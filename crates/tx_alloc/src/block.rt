//! Blocks, by the addresses at which they begin.

ghost use Rattle.std.specs.Prelude.{◌≡◌, ◌+◌, ◌<◌, ◌^◌};

use std::marker::Model;
use tx_memory::Addr;

/// A block, by its first word. In contracts, the address of that word.
#[derive(Clone, Copy, Debug, PartialEq, Eq)]
pub struct Block(pub Addr);

impl Model for Block {
    ghost use Rattle.std.specs.Prelude.{ℕ};

    ghost Value = { ℕ };

    ghost view = { λ block. block.0.0 };

    ghost inverse = { λ a. record { 0 = record { 0 = a } } };
}

impl Block {
    /// Returns the address of the block's first word.
    #[inline]
    pub fn addr(self) -> Addr
        ensures { result.0 ≡ self }
    {
        self.0
    }

    /// Returns the address of the block's word at a place. The first word has place 0.
    #[inline]
    pub fn word(self, place: u32) -> Addr
        requires { self + place < 2 ^ 32 }
        ensures { result.0 ≡ self + place }
    {
        Addr(self.0.0 + place)
    }
}
