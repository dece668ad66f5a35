//! The question that is asked of a history.

use judge_object::Level;

/// The question that is asked of a history, and the bound of the searches for an answer.
#[derive(Clone, Copy, Debug, PartialEq, Eq)]
pub struct Settings {
    /// Number of blocks of the system.
    pub blocks: u32,
    /// The level of consistency that is asked for.
    pub level: Level,
    /// Largest number of steps of each search. At a level below linearizability the exact search of
    /// the history as it is given and the exact search at the level share the steps.
    pub steps: u64,
}
