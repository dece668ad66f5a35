//! The settings of a judge of histories.

use judge_object::Level;

/// The settings of a judge of histories.
#[derive(Clone, Copy, Debug, PartialEq, Eq)]
pub struct Settings {
    /// The level of consistency at which a history is judged.
    pub level: Level,
    /// Largest number of steps of all searches together.
    pub steps: u64,
}
