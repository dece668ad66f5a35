//! The accesses of a memory.

use crate::memory::Addr;

/// An access that the memory answered: a read or a write of a word.
#[derive(Clone, Copy, Debug, PartialEq, Eq)]
pub enum Access {
    /// The word was read, and had this value.
    Read { addr: Addr, value: u64 },
    /// The word was given this value.
    Write { addr: Addr, value: u64 },
}
