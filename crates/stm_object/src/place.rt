//! The commit position of a record.

use stm_core::Version;

/// The commit position of a record in its region. Records are ordered by renewal, then by version;
/// the writer of a version comes before its readers.
#[derive(Clone, Copy, Debug, PartialEq, Eq)]
pub struct CommitPosition {
    /// Number of renewals of the region before the record.
    pub renewal: u32,
    /// The write version of the transaction, or its read version if it wrote nothing.
    pub version: Version,
    /// True if the transaction wrote.
    pub wrote: bool,
}
