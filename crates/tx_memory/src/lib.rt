//! Memories of words: addresses, the view of a memory that code over it relies on, images, accesses
//! and plain memory. Nothing here knows of versions, locks or clients.
#![tactic(auto)]

mod access;
mod memory;
mod plain;

pub use access::Access;
pub use memory::{Addr, TxMem, TxRead, load, store};
pub use plain::Flat;
