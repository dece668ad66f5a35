//! The write log of a transaction that writes many words, or several words under one lock.
ghost use Rattle.std.specs.Prelude.{◌≡◌, ◌≢◌, ◌↔◌, ℕ, ◌<◌, IsOk, None, Some, true};
ghost use Rattle.std.specs.FinMap.{get, len};
ghost use Rattle.stm_logs.specs.Refusals.{Becomes};
ghost use Rattle.stm_logs.specs.Held.{with_word};
ghost use Rattle.stm_logs.specs.Log.{LogValue, empty_log, log_locks, pairs_by_lock, pairs_of, SameAddresses};

use crate::chain::{Locks, Pairs, Words};
use crate::table::Table;
use std::alloc::{AllocError, Allocator};
use std::marker::Model;
use tx_memory::Addr;

/// A finite map from addresses to values, with the number of each address's lock. The log keeps
/// its memory when it is cleared.
#[derive(Drop)]
pub(crate) struct LongLog<A: Allocator + Copy> {
    alloc: A,
    table: Option<Table<A>>,
}

impl<A: Allocator + Copy> Model for LongLog<A> {
    ghost use Rattle.std.specs.Prelude.{◌≡◌};
    ghost use Rattle.stm_logs.specs.Log.{LogValue, log_code};

    ghost Value = { LogValue };

    ghost coded = { log_code };

    ghost use Rattle.stm_logs.specs.Held.{held_value};

    ghost view = { λ w. held_value w.table };
}

impl<A: Allocator + Copy> LongLog<A> {
    /// Creates an empty log. The log takes no memory until the first address.
    pub(crate) fn new(alloc: A) -> LongLog<A>
        ensures { result ≡ empty_log }
    {
        LongLog { alloc, table: None }
    }

    /// Returns the number of addresses.
    #[inline]
    pub(crate) fn len(&self) -> usize
        ensures { result ≡ len self.now.words }
    {
        match &self.table {
            Some(table) => table.len(),
            None => 0,
        }
    }

    /// Puts the value at the address, whose lock has the given number.
    ///
    /// An address that is already in the log must be put with its lock number; that takes no
    /// memory. If memory is refused, the log is unchanged.
    #[cold]
    pub(crate) fn put(&mut self, addr: Addr, lock: u32, value: u64) -> Result<(), AllocError>
        requires { (l : ℕ) → get self.old.locks addr.0 ≡ Some l → l ≡ lock }
        ensures answer { Becomes result self.old self.new (with_word self.old addr.0 lock value) }
        ensures there { get self.old.words addr.0 ≢ None → IsOk result }
    {
        match &mut self.table {
            Some(table) => table.put(addr.0, lock, value),
            None => self.put_first(addr, lock, value),
        }
    }

    /// Puts the first address of a log that has no table yet.
    #[cold]
    fn put_first(&mut self, addr: Addr, lock: u32, value: u64) -> Result<(), AllocError>
        requires { self.old ≡ empty_log }
        ensures { Becomes result self.old self.new (with_word self.old addr.0 lock value) }
    {
        self.table = Some(Table::with_word(self.alloc, addr.0, lock, value)?);
        Ok(())
    }

    /// Returns the value that was put at the address.
    #[cold]
    pub(crate) fn get(&self, addr: Addr) -> Option<u64>
        ensures { result ≡ get self.now.words addr.0 }
    {
        match &self.table {
            Some(table) => table.get(addr.0),
            None => None,
        }
    }

    /// Returns whether an address with this lock was put.
    #[cold]
    pub(crate) fn has_lock(&self, lock: u32) -> bool
        ensures { (result ≡ true) ↔ ((a : ℕ) × (get self.now.locks a ≡ Some lock)) }
    {
        match &self.table {
            Some(table) => table.has_lock(lock),
            None => false,
        }
    }

    /// Returns the locks of the addresses in ascending order, each once.
    #[inline]
    pub(crate) fn locks(&self) -> Locks<'_, A>
        ensures { result ≡ log_locks self.now }
    {
        match &self.table {
            Some(table) => table.locks(),
            None => Locks {
                nodes: None,
                at: 0,
                most: 0,
            },
        }
    }

    /// Returns the addresses of a lock with their values, by ascending address.
    #[inline]
    pub(crate) fn words_of(&self, lock: u32) -> Words<'_, A>
        ensures { result ≡ pairs_of self.now lock }
    {
        match &self.table {
            Some(table) => table.words_of(lock),
            None => Words {
                nodes: None,
                lock,
                at: 0,
                most: 0,
            },
        }
    }

    /// Returns the addresses with their values, by ascending lock. The addresses of one lock come
    /// by ascending address. The iteration is one walk that compares no locks.
    #[inline]
    pub(crate) fn pairs_by_lock(&self) -> Pairs<'_, A>
        ensures { result ≡ pairs_by_lock self.now }
    {
        match &self.table {
            Some(table) => table.pairs_by_lock(),
            None => Pairs {
                nodes: None,
                at: 0,
                most: 0,
            },
        }
    }

    /// Empties the log, at a cost of at most its size. The memory is kept for the next addresses.
    #[inline]
    pub(crate) fn clear(&mut self)
        ensures { self.new ≡ empty_log }
    {
        if let Some(table) = &mut self.table {
            table.clear();
        }
    }

    /// States that the addresses with a value are the addresses with a lock.
    pub(crate) fn same_addresses(&self)
        ensures { SameAddresses self.now }
    {
        if let Some(table) = &self.table {
            table.same_addresses();
        }
    }
}
