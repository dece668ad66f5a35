//! The audit of words from anywhere: it walks the heap in a fixed order, and returns a report or
//! the first flaw. The report of a running state is made by `vac_tasks`.
#![tactic(auto)]

mod audit;
mod bookings;
mod laws;
mod lists;
mod notes;
mod pointers;
mod tree;

pub use audit::{AuditFault, MOST_HEAP_WORDS, audit_words};
pub use laws::{
    an_audit_finds_the_balanced_states, damaged_words_have_their_flaws, flaws_have_their_words,
    levels_never_run_out,
};
pub use vac_tasks::{Report, report};

/// A flaw of the words of a heap, with the word at which it was met.
#[derive(Clone, Copy, Debug, PartialEq, Eq)]
pub enum Flaw {
    /// The word is neither 0 nor the first word of a block.
    Pointer(u32),
    /// The word points to a block that was reached before.
    Shared(u32),
    /// Nothing points to the block that begins with this word.
    Lost(u32),
    /// The key, or the kind and the id, are out of range or not above those before them.
    Order(u32),
    /// The colour is no colour, or contradicts the colours of the nodes around it.
    Colour(u32),
    /// The item's numbers are out of range, or used and free units do not make the total.
    Counts(u32),
    /// The booking's units or sum are out of range, its item is missing, or the used units of an
    /// item are not as many as are booked of it.
    Bookings(u32),
}
