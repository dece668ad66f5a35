//! The iterators of a write log: along the keys of its short log, then along its long log. One of
//! the two has no words.
ghost use Rattle.std.specs.Iterator.{YieldsFirst, YieldsFirstBy, item_count};

use crate::chain;
use crate::keys::POSITIONS;
use crate::short::ShortLog;
use std::alloc::{Allocator, Global};
use std::marker::Model;
use tx_memory::Addr;

/// An iterator over the words of one lock with their values, by ascending address.
#[derive(Drop)]
pub struct Words<'a, A: Allocator = Global> {
    pub(crate) short: &'a ShortLog,
    /// The position of the word in the short log, or 0.
    pub(crate) position: usize,
    pub(crate) long: chain::Words<'a, A>,
}

impl<'a, A: Allocator> Model for Words<'a, A> {
    ghost use Rattle.std.specs.Prelude.{ℕ, ◌<◌, ◌++◌, List};
    ghost use Rattle.stm_logs.specs.declared.keys.TheConstants.{POSITIONS};

    ghost Value = { List (ℕ × ℕ) };

    ghost use Rattle.stm_logs.specs.Short.{word_at};

    ghost view = { λ w. word_at w.short.now w.position ++ w.long };

    ghost invariant = { λ w. w.position < POSITIONS };
}

impl<'a, A: Allocator> Iterator for Words<'a, A> {
    type Item = (Addr, u64);

    ghost next_gives = { YieldsFirstBy (λ item. (item.0.0, item.1)) (λ rest. rest) };

    ghost remaining = { item_count (λ rest. rest) };

    #[inline]
    fn next(&mut self) -> Option<(Addr, u64)> {
        if self.position == 0 {
            return self.long.next();
        }
        let word = self.short.word(self.position);
        self.position = 0;
        Some(word)
    }
}

/// An iterator over the locks of a write log in ascending order, each once.
#[derive(Drop)]
pub struct Locks<'a, A: Allocator = Global> {
    pub(crate) short: &'a ShortLog,
    pub(crate) at: usize,
    /// Number of keys from `at` on.
    pub(crate) left: usize,
    pub(crate) long: chain::Locks<'a, A>,
}

impl<'a, A: Allocator> Model for Locks<'a, A> {
    ghost use Rattle.std.specs.Prelude.{ℕ, ◌+◌, ◌≤◌, ◌++◌, List};
    ghost use Rattle.stm_logs.specs.declared.short.TheConstants.{MOST_WORDS};
    ghost use Rattle.stm_logs.specs.Keys.{key_at};

    ghost Value = { List ℕ };

    ghost use Rattle.stm_logs.specs.Short.{locks_at};

    ghost view = { λ w. locks_at (key_at w.short.now.keys) w.left w.at ++ w.long };

    ghost invariant = { λ w. w.at + w.left ≤ MOST_WORDS };
}

impl<'a, A: Allocator> Iterator for Locks<'a, A> {
    type Item = u32;

    ghost next_gives = { YieldsFirst (λ rest. rest) };

    ghost remaining = { item_count (λ rest. rest) };

    #[inline]
    fn next(&mut self) -> Option<u32> {
        if self.left == 0 {
            return self.long.next();
        }
        let lock = self.short.key(self.at) / POSITIONS as u32;
        self.at += 1;
        self.left -= 1;
        Some(lock)
    }
}

/// An iterator over the words of a write log with their values, by ascending lock. The words of
/// one lock come by ascending address.
#[derive(Drop)]
pub struct Pairs<'a, A: Allocator = Global> {
    pub(crate) short: &'a ShortLog,
    pub(crate) at: usize,
    /// Number of keys from `at` on.
    pub(crate) left: usize,
    pub(crate) long: chain::Pairs<'a, A>,
}

impl<'a, A: Allocator> Model for Pairs<'a, A> {
    ghost use Rattle.std.specs.Prelude.{ℕ, ◌+◌, ◌≤◌, ◌++◌, List};
    ghost use Rattle.stm_logs.specs.declared.short.TheConstants.{MOST_WORDS};

    ghost Value = { List (ℕ × ℕ) };

    ghost use Rattle.stm_logs.specs.Short.{pairs_at};

    ghost view = { λ w. pairs_at w.short.now w.left w.at ++ w.long };

    ghost invariant = { λ w. w.at + w.left ≤ MOST_WORDS };
}

impl<'a, A: Allocator> Iterator for Pairs<'a, A> {
    type Item = (Addr, u64);

    ghost next_gives = { YieldsFirstBy (λ item. (item.0.0, item.1)) (λ rest. rest) };

    ghost remaining = { item_count (λ rest. rest) };

    #[inline]
    fn next(&mut self) -> Option<(Addr, u64)> {
        if self.left == 0 {
            return self.long.next();
        }
        let key = self.short.key(self.at);
        self.at += 1;
        self.left -= 1;
        Some(self.short.word((key % POSITIONS as u32) as usize))
    }
}
