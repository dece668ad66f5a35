//! The limits of inputs and outputs.

/// Largest number of reads of an input before the last one.
pub const MOST_READS: u64 = 4_294_967_296;

/// Number of bytes that one read requests; about as many are written at once.
pub const CHUNK_BYTES: usize = 65_536;
