//! The reasons for which a region refuses a call.

ghost use Rattle.std.specs.Prelude.{◌≡◌};
ghost use Rattle.stm_region.specs.declared.fault.RegionFault.TheVariants.{Memory};

use std::alloc::{AllocError, AllocFailed};
use thiserror::Error;

/// The reason why a region could not be opened, split, closed or renewed.
#[derive(Clone, Copy, Debug, PartialEq, Eq, Error, Drop)]
pub enum RegionFault {
    /// The number of data words is not 1 to [`MOST_WORDS`](crate::MOST_WORDS).
    #[error("the number of data words is not 1 to 4194304")]
    Size,
    /// The last version is not at least 1 and below [`VERSION_LIMIT`](crate::VERSION_LIMIT).
    #[error("the last version is not 1 to 2^62 - 1")]
    Last,
    /// Memory was refused.
    #[error("out of memory")]
    Memory,
    /// The client has no grant left to split off another client.
    #[error("this client has no grant left")]
    Clients,
    /// Other clients are out. `out` is 63 less this client's grants; it counts those clients and
    /// the grants that they hold.
    #[error("{out} other clients are out")]
    StillOut { out: u64 },
    /// The number of lock words is not 1 to [`MOST_STRIPES`](crate::MOST_STRIPES).
    #[error("the number of lock words is not 1 to 1048576")]
    Stripes,
    /// The region was renewed [`MOST_RENEWALS`](crate::MOST_RENEWALS) times already.
    #[error("the region was renewed 65535 times")]
    Renewals,
}

impl From<AllocError> for RegionFault {
    ghost from_gives = { λ _ e. e ≡ Memory };

    fn from(_e: AllocError) -> RegionFault {
        RegionFault::Memory
    }
}
