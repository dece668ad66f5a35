//! The eight lists of free blocks, by their numbers.

ghost use Rattle.std.specs.Prelude.{◌≡◌, ◌+◌, ◌%◌, ◌<◌};

use crate::place::{FIRST_HEAD, LISTS};
use std::marker::Model;
use tx_memory::Addr;

/// One of the eight lists of free blocks. In contracts, its number, which is below 8.
#[derive(Clone, Copy, Debug, PartialEq, Eq)]
pub struct FreeList {
    number: u32,
}

impl Model for FreeList {
    ghost use Rattle.std.specs.Prelude.{ℕ, ◌<◌};
    ghost use Rattle.tx_alloc.specs.declared.place.TheConstants.{LISTS};

    ghost Value = { ℕ };

    ghost view = { λ list. list.number };

    ghost invariant = { λ list. list.number < LISTS };

    ghost inverse = { λ n. record { number = n } };
}

impl FreeList {
    /// Returns the list with this number.
    #[inline]
    pub fn new(number: u32) -> FreeList
        requires { number < LISTS }
        ensures { result ≡ number }
    {
        FreeList { number }
    }

    /// Returns the next list. List 0 follows list 7.
    #[inline]
    pub fn next(self) -> FreeList
        ensures { result ≡ (self + 1) % LISTS }
    {
        FreeList {
            number: (self.number + 1) % LISTS,
        }
    }

    /// Returns the list's number.
    #[inline]
    pub fn number(self) -> u32
        ensures number { result ≡ self }
        ensures small { result < LISTS }
    {
        self.number
    }

    /// Returns the address of the word that leads to the list's first block.
    #[inline]
    pub fn head(self) -> Addr
        ensures word { result.0 ≡ FIRST_HEAD + self }
        ensures small { self < LISTS }
    {
        Addr(FIRST_HEAD + self.number)
    }
}
