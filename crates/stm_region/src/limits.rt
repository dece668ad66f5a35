//! The bound of a region's clients.

pub use stm_core::{MOST_RENEWALS, MOST_STRIPES, MOST_WORDS, VERSION_LIMIT};

/// Number of clients that the first client may split off. A client with this many grants is the
/// only one out.
pub const MOST_GRANTS: u64 = stm_core::MOST_GRANTS as u64;
