//! The transaction core of a word-based software transactional memory after TL2 (Dice, Shalev,
//! Shavit, DISC 2006).
//!
//! `specs/` defines each event of a region, the version invariant, serial histories, and the
//! relation between a list of events and its records. Contracts here and in the crates above cite
//! these definitions. The core as running code, which plays such a list, is the crate
//! `stm_replay`.
//!
//! Besides, the crate has versions, lock words, tags and laws of records, which a transactional
//! memory adds to the data words of `tx_memory` (the encoding of a lock word is this product's
//! own); and progressiveness of the core (Guerraoui, Kapałka, POPL 2009), up to stripes, the bound
//! on ticks and a spent clock: every conflict that aborts an attempt is caused by another client,
//! between the attempt's begin and the step that shows the conflict.
#![tactic(auto)]

mod causation;
mod law;
mod limits;
mod theorem;
mod version;

pub use causation::{
    a_spent_clock_decides_no_writer, conflicts_have_as_many_steps_of_others,
    every_conflict_has_a_cause, untouched_attempts_meet_no_conflict,
    worked_conflicts_have_their_causes,
};
pub use law::{FreeLaw, Law, Tag, Writes, law_keeps_fitting};
pub use limits::{MOST_GRANTS, MOST_RENEWALS, MOST_STRIPES, MOST_TICKS, MOST_WORDS};
pub use theorem::{core_theorem, core_theorem_of, worked_lists_have_their_records};
pub use version::{LockWord, VERSION_LIMIT, Version};
