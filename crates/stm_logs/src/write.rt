//! The write log: the addresses that a transaction has written, with their values and locks.
ghost use Rattle.std.specs.Prelude.{◌≡◌, ◌≢◌, ◌↔◌, ℕ, ◌<◌, ◌≤◌, IsOk, None, Some, length, true};
ghost use Rattle.std.specs.FinMap.{get, len};
ghost use Rattle.stm_logs.specs.Refusals.{Becomes};
ghost use Rattle.stm_logs.specs.Held.{with_word};
ghost use Rattle.stm_logs.specs.Log.{LogValue, empty_log, log_locks, pairs_by_lock, pairs_of, SameAddresses};

use crate::long::LongLog;
use crate::short::{ShortLog, lengthen};
use crate::walks::{Locks, Pairs, Words};
use std::alloc::{AllocError, Allocator, Global};
use std::marker::Model;
use stm_core::Writes;
use tx_memory::Addr;

/// A finite map from addresses to values, with the number of each address's lock. The log keeps
/// its memory when it is cleared.
///
/// A log begins as a short log, and becomes a long one at a word that the short log does not take.
#[derive(Drop)]
pub struct WriteLog<A: Allocator + Copy = Global> {
    short: ShortLog,
    long: LongLog<A>,
    is_long: bool,
}

impl<A: Allocator + Copy> Writes for WriteLog<A> {
    ghost use Rattle.stm_logs.specs.Log.{log_pairs};

    ghost pairs = { λ w. log_pairs w };
}

impl<A: Allocator + Copy> Model for WriteLog<A> {
    ghost use Rattle.std.specs.Prelude.{◌≡◌, true, false};
    ghost use Rattle.stm_logs.specs.Log.{LogValue, empty_log, log_code};

    ghost Value = { LogValue };

    ghost coded = { log_code };

    ghost use Rattle.stm_logs.specs.Short.{written, IsShort};

    ghost view = { λ w. written w.short w.long w.is_long };

    ghost invariant = { λ w. IsShort w.short × (w.is_long ≡ true → w.short.count ≡ 0)
        × (w.is_long ≡ false → w.long ≡ empty_log) };
}

impl<A: Allocator + Copy> WriteLog<A> {
    /// Creates an empty log. A log takes no memory until it becomes long.
    pub fn new(alloc: A) -> WriteLog<A>
        ensures { result ≡ empty_log }
    {
        WriteLog {
            short: ShortLog::new(),
            long: LongLog::new(alloc),
            is_long: false,
        }
    }

    /// Returns the number of addresses.
    #[inline]
    pub fn len(&self) -> usize
        ensures { result ≡ len self.now.words }
    {
        if self.is_long {
            self.long.len()
        } else {
            self.short.len()
        }
    }

    /// Puts the value at the address, whose lock has the given number.
    ///
    /// An address that is already in the log must be put with its lock number; that takes no
    /// memory. If memory is refused, the log is unchanged.
    ///
    /// Not said: the layout of the entries in memory, and the cost of a call.
    #[inline]
    pub fn put(&mut self, addr: Addr, lock: u32, value: u64) -> Result<(), AllocError>
        requires { (l : ℕ) → get self.old.locks addr.0 ≡ Some l → l ≡ lock }
        ensures answer { Becomes result self.old self.new (with_word self.old addr.0 lock value) }
        ensures there { get self.old.words addr.0 ≢ None → IsOk result }
    {
        if !self.is_long {
            if self.short.put(addr.0, lock, value) {
                return Ok(());
            }
            lengthen(&mut self.short, &mut self.long)?;
            self.is_long = true;
        }
        self.long.put(addr, lock, value)
    }

    /// Returns the value that was put at the address.
    #[inline]
    pub fn get(&self, addr: Addr) -> Option<u64>
        ensures { result ≡ get self.now.words addr.0 }
    {
        if self.is_long {
            self.long.get(addr)
        } else {
            self.short.get(addr.0)
        }
    }

    /// Returns whether an address with this lock was put.
    #[inline]
    pub fn has_lock(&self, lock: u32) -> bool
        ensures { (result ≡ true) ↔ ((a : ℕ) × (get self.now.locks a ≡ Some lock)) }
    {
        if self.is_long {
            self.long.has_lock(lock)
        } else {
            self.short.word_of(lock) != 0
        }
    }

    /// Returns whether an address with this lock was put. If the given address was put, no walk to
    /// the lock is needed.
    #[inline]
    pub fn holds(&self, addr: Addr, lock: u32) -> bool
        requires { (l : ℕ) → get self.now.locks addr.0 ≡ Some l → l ≡ lock }
        ensures { (result ≡ true) ↔ ((a : ℕ) × (get self.now.locks a ≡ Some lock)) }
    {
        self.same_addresses();
        self.get(addr).is_some() || self.has_lock(lock)
    }

    /// Returns the locks of the addresses in ascending order, each once.
    ///
    /// Not said: that the walk is linear, and that the walks of a put, of `has_lock` and of
    /// `words_of` start near their ends. Both are read in the code.
    #[inline]
    pub fn locks(&self) -> Locks<'_, A>
        ensures { result ≡ log_locks self.now }
    {
        Locks {
            short: &self.short,
            at: 0,
            left: self.short.len(),
            long: self.long.locks(),
        }
    }

    /// Returns the addresses of a lock with their values, by ascending address.
    #[inline]
    pub fn words_of(&self, lock: u32) -> Words<'_, A>
        ensures { result ≡ pairs_of self.now lock }
    {
        Words {
            short: &self.short,
            position: self.short.word_of(lock),
            long: self.long.words_of(lock),
        }
    }

    /// Returns the addresses with their values, by ascending lock. The addresses of one lock come
    /// by ascending address. The iteration is one walk that compares no locks.
    #[inline]
    pub fn pairs_by_lock(&self) -> Pairs<'_, A>
        ensures { result ≡ pairs_by_lock self.now }
    {
        Pairs {
            short: &self.short,
            at: 0,
            left: self.short.len(),
            long: self.long.pairs_by_lock(),
        }
    }

    /// Empties the log, at a cost of at most its size. The memory is kept for the next addresses.
    #[inline]
    pub fn clear(&mut self)
        ensures { self.new ≡ empty_log }
    {
        self.short.clear();
        if self.is_long {
            self.long.clear();
            self.is_long = false;
        }
    }

    /// States that there are no more locks than addresses.
    pub fn few_locks(&self)
        ensures { length (log_locks self.now) ≤ len self.now.words }
    {
        self.same_addresses();
    }

    /// States that the addresses with a value are the addresses with a lock.
    pub fn same_addresses(&self)
        ensures { SameAddresses self.now }
    {
        if self.is_long {
            self.long.same_addresses();
        } else {
            self.short.same_addresses();
        }
    }
}
