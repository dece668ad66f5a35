//! The settings of the desks.

ghost use Rattle.std.specs.Prelude.{◌≡◌};
ghost use Rattle.ex_desk.specs.Setting.{is_desk_settings};

use stm_core::{MOST_RENEWALS, VERSION_LIMIT};
use vac_model::limits::{MOST_AMOUNT, MOST_BLOCKS, MOST_TRIES};

/// Largest number of trips of a desk.
pub const MOST_TRIPS: u32 = 1_000_000;

/// Largest number of rounds. Each round begins with a renewal.
pub const MOST_ROUNDS: u32 = MOST_RENEWALS;

/// Settings of the desks.
#[derive(Clone, Copy, Debug, PartialEq, Eq)]
pub struct DeskSettings {
    /// Capacity in entries, 1 to 262,144.
    pub blocks: u32,
    /// Last version of the clock of each round, 1 to 2^62 - 1.
    pub last: u64,
    /// Units of each item, 0 to 1,000,000.
    pub units: u32,
    /// Trips that each desk has to book, 0 to 1,000,000.
    pub trips: u32,
    /// Attempts after which a desk gives a trip up, 1 to 1,048,576.
    pub tries: u32,
    /// Largest number of rounds, 0 to 65,535.
    pub rounds: u32,
}

impl DeskSettings {
    /// Returns whether all numbers are in their ranges.
    pub fn is_in_range(&self) -> bool
        ensures { result ≡ is_desk_settings self.now }
    {
        (1..=MOST_BLOCKS).contains(&self.blocks)
            && (1..VERSION_LIMIT).contains(&self.last)
            && self.units <= MOST_AMOUNT
            && self.trips <= MOST_TRIPS
            && (1..=MOST_TRIES).contains(&self.tries)
            && self.rounds <= MOST_ROUNDS
    }
}
