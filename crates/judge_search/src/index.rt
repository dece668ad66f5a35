//! An index by hashes.

ghost use Rattle.std.specs.Prelude.{◌≤◌};

use std::alloc::{AllocError, Global};

/// Number of chains of the first entry.
const FIRST_CHAINS: usize = 16;

/// An entry of an index.
#[derive(Clone, Copy)]
struct Entry {
    hash: u64,
    /// The number after that of the entry before it in its chain; 0 if there is none.
    before: usize,
}

/// An index of entries, numbered from 0 on, by their hashes: chains of entries, at least as many
/// chains as entries. Nothing is promised of the index.
#[derive(Drop)]
pub(crate) struct Index {
    alloc: Global,
    entries: Vec<Entry>,
    /// For each chain the number after that of its last entry; 0 if it has none.
    lasts: Vec<usize>,
}

/// Returns the chain of a hash among this many chains.
fn chain_of(hash: u64, chains: usize) -> usize {
    (hash ^ hash >> 32) as usize & chains.wrapping_sub(1)
}

impl Index {
    /// Returns an index without entries.
    pub(crate) fn new(alloc: Global) -> Index {
        Index {
            alloc,
            entries: Vec::new(alloc),
            lasts: Vec::new(alloc),
        }
    }

    /// Returns the number after that of the last entry in the chain of a hash; 0 if it has none.
    pub(crate) fn last(&self, hash: u64) -> usize {
        match self.lasts.get(chain_of(hash, self.lasts.len())) {
            Some(last) => *last,
            None => 0,
        }
    }

    /// Returns whether an entry has this hash.
    pub(crate) fn has_hash(&self, number: usize, hash: u64) -> bool {
        match self.entries.get(number) {
            Some(entry) => entry.hash == hash,
            None => false,
        }
    }

    /// Returns the number after that of the entry before this one in its chain; 0 if there is none.
    pub(crate) fn before(&self, number: usize) -> usize
        ensures { result ≤ number }
    {
        match self.entries.get(number) {
            Some(entry) if entry.before <= number => entry.before,
            _ => 0,
        }
    }

    /// Puts an entry at the end of the chain of its hash, and returns the number after that of the
    /// entry that was the last.
    fn link(&mut self, hash: u64, after: usize) -> usize {
        let chain = chain_of(hash, self.lasts.len());
        match self.lasts.get_mut(chain) {
            Some(last) => {
                let before = *last;
                *last = after;
                before
            }
            None => 0,
        }
    }

    /// Puts an entry at the end of its chain.
    fn link_entry(&mut self, number: usize, after: usize) {
        let hash = match self.entries.get(number) {
            Some(entry) => entry.hash,
            None => return,
        };
        let before = self.link(hash, after);
        if let Some(entry) = self.entries.get_mut(number) {
            entry.before = before;
        }
    }

    /// Puts all entries into twice as many chains.
    fn grow(&mut self) -> Result<(), AllocError> {
        let chains = self.lasts.len().saturating_mul(2).max(FIRST_CHAINS);
        self.lasts = vec![in self.alloc; 0; chains]?;
        'entries: for number in 0..self.entries.len() {
            self.link_entry(number, number + 1);
        }
        Ok(())
    }

    /// Adds an entry with this hash.
    pub(crate) fn push(&mut self, hash: u64) -> Result<(), AllocError> {
        if self.lasts.len() <= self.entries.len() {
            self.grow()?;
        }
        let after = self.entries.len() + 1;
        let before = self.link(hash, after);
        self.entries.push(Entry { hash, before })?;
        Ok(())
    }
}
