//! The settings of a load.

ghost use Rattle.std.specs.Prelude.{◌≡◌};
ghost use Rattle.load_tasks.specs.Setting.{is_settings, is_system, is_work};

use vac_model::limits::{MOST_BLOCKS, MOST_PARTS, MOST_TRIES};

/// Largest number of clients of a load.
pub const MOST_CLIENTS: u32 = 64;

/// Largest number of tasks of a client in a round.
pub const MOST_TASKS: u32 = 1_000_000;

/// Largest number of items of a kind, and of customers.
pub const MOST_ITEMS: u32 = 65_536;

/// Number of blocks that a load needs for each id: one for an item of each kind, one for a
/// customer.
pub const BLOCKS_OF_ITEM: u32 = 4;

/// Largest number of rounds of a load.
pub const MOST_ROUNDS: u32 = 100;

/// Bound of the versions of a load's clock: every version is below it, as `stm_core` has it for the
/// memory on which a load runs.
pub const VERSION_LIMIT: u64 = 1 << 62;

/// The whole, of which shares are given in per cent.
pub const PERCENT: u32 = 100;

/// Unit amount: the setup phase adds multiples of this number, and a change adds or deletes this
/// many units.
pub const UNITS: u32 = 100;

/// Number of different prices, and of different amounts of units.
pub const LEVELS: u32 = 5;

/// Difference between neighbouring prices.
pub const PRICE_STEP: u32 = 10;

/// The lowest price.
pub const LOWEST_PRICE: u32 = 50;

/// The settings of a load.
#[derive(Clone, Copy, Debug, PartialEq, Eq)]
pub struct Settings {
    /// Number of clients that run at once, 1 to 64.
    pub clients: u32,
    /// Tasks per client and round, 1 to 1,000,000.
    pub tasks: u32,
    /// Number of items of each kind, and of customers, that the setup phase makes, 1 to 65,536.
    /// All of them must fit into the blocks.
    pub items: u32,
    /// Largest number of asks of a trip, and of changes of an update, 1 to 32.
    pub asks: u32,
    /// Per cent of tasks that are questions, which change nothing, 0 to 100.
    pub reads: u32,
    /// Per cent of the other tasks that are trips, 0 to 100.
    pub user: u32,
    /// Seed of the pseudo-random generator.
    pub seed: u64,
    /// Capacity of the heap in entries, 1 to 262,144.
    pub blocks: u32,
    /// Largest number of attempts of a task, 1 to 1,048,576.
    pub tries: u32,
    /// The version at which the clock of each round ends, 1 to 2^62 - 1.
    pub last: u64,
    /// Number of rounds, 1 to 100. The clock is renewed between two rounds.
    pub rounds: u32,
}

impl Settings {
    /// Returns whether the numbers of clients, rounds and tasks are in their ranges.
    fn is_work_in_range(&self) -> bool
        ensures { result ≡ is_work self.now }
    {
        1 <= self.clients
            && self.clients <= MOST_CLIENTS
            && 1 <= self.tasks
            && self.tasks <= MOST_TASKS
            && 1 <= self.rounds
            && self.rounds <= MOST_ROUNDS
    }

    /// Returns whether the numbers for drawing the tasks and the numbers of the manager are in
    /// their ranges.
    fn is_system_in_range(&self) -> bool
        ensures { result ≡ is_system self.now }
    {
        1 <= self.items
            && self.items <= MOST_ITEMS
            && BLOCKS_OF_ITEM * self.items <= self.blocks
            && 1 <= self.asks
            && self.asks as usize <= MOST_PARTS
            && self.reads <= PERCENT
            && self.user <= PERCENT
            && 1 <= self.blocks
            && self.blocks <= MOST_BLOCKS
            && 1 <= self.tries
            && self.tries <= MOST_TRIES
            && 1 <= self.last
            && self.last < VERSION_LIMIT
    }

    /// Returns whether a load can be run with these settings.
    pub fn is_in_range(&self) -> bool
        ensures { result ≡ is_settings self.now }
    {
        self.is_work_in_range() && self.is_system_in_range()
    }
}
