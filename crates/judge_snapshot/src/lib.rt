//! Snapshot isolation of histories of any sequential object: its three levels, their reduction to
//! levels of consistency of the commits, the hierarchy of the levels, and a judge that searches
//! for an order of the commits.
#![tactic(auto)]

mod anomalies;
mod commit;
mod commits;
mod committing;
mod horizons;
mod judging;
mod laws;
mod outcome;
mod past;
mod version;
mod write_sets;

pub use anomalies::{
    a_dirty_read_is_not_isolated, a_long_fork_is_not_isolated, a_lost_update_is_not_isolated,
    a_read_skew_is_not_isolated, a_stale_read_is_not_strong, an_unseen_write_is_not_session,
    other_levels_are_separated, write_skew_is_isolated,
};
pub use commit::Commit;
pub use commits::Commits;
pub use horizons::commits_of;
pub use judging::{SnapshotVerdict, judge_snapshots};
pub use laws::{
    a_level_is_strong_isolation_without_its_order, forgotten_versions_are_no_snapshots,
    implied_levels_hold, parts_of_isolated_histories_are_isolated,
    parts_of_transactions_may_commit,
    session_snapshot_isolation_is_sequential_consistency_of_commits,
    snapshot_isolation_is_serializability_of_commits,
    strong_snapshot_isolation_is_linearizability_of_commits,
};
pub use outcome::Outcome;
pub use write_sets::WriteSetObject;
