//! The bounds of a region and of an attempt.

/// Number of clients that the first client of a region may split off.
pub const MOST_GRANTS: u32 = 63;

/// Largest number of data words of a region.
pub const MOST_WORDS: usize = 4_194_304;

/// Largest number of lock words of a region.
pub const MOST_STRIPES: u32 = 1_048_576;

/// Largest number of renewals of a region's clock.
pub const MOST_RENEWALS: u32 = 65_535;

/// Largest number of ticks of an attempt.
pub const MOST_TICKS: u32 = 16;
