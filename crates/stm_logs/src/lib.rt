//! The read log and the write log of a running transaction.
//!
//! The logs are the read set and the write set of Transactional Locking II (Dice, Shalev, Shavit,
//! DISC 2006). The read log has the addresses whose locks are validated before a commit. The write
//! log has the values to be stored, by address and by lock. A write log of few words stands in
//! arrays; a long one is proved over raw memory.
#![tactic(auto)]

mod chain;
mod finger;
mod grow;
mod index;
mod keys;
mod long;
mod marks;
mod nodes;
mod order;
mod read;
mod row;
mod short;
mod table;
mod walks;
mod write;

pub use marks::Marks;
pub use read::ReadLog;
pub use walks::{Locks, Pairs, Words};
pub use write::WriteLog;
