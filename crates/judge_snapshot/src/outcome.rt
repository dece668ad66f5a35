//! Replies of commits.

/// The reply of a commit.
#[derive(Clone, Copy, Debug, PartialEq, Eq)]
pub enum Outcome {
    /// The commit was made.
    Committed,
    /// No choice of snapshots allows the commit.
    Refused,
}
