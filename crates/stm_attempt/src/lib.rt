//! Running transactions over a region, by Transactional Locking II (Dice, Shalev, Shavit, DISC
//! 2006).
//!
//! An `Attempt` is a memory of `tx_memory`: all words that it reads from the region belong to the
//! snapshot at its read version, and its writes stay private until the commit. A `ReadAttempt`
//! only reads, and keeps no log.
#![tactic(auto)]

mod attempt;
mod commit;
mod conflict;
mod gate;
mod locking;
mod logs;
mod read_attempt;
mod reading;
mod standing;
mod storing;
mod theorem;
mod ticking;
mod validating;

pub use attempt::Attempt;
pub use conflict::{Conflict, Refusal, Stop, Stopped};
pub use gate::{Gate, NoGate, Point};
pub use logs::Logs;
pub use read_attempt::ReadAttempt;
pub use theorem::records_keep_fitting;
