//! Laws of snapshot isolation. Each is the contract of a function that does nothing.

ghost use Rattle.judge_snapshot.specs.Laws.{StrongIsLinearizable, SessionIsSequential, SnapshotIsSerializable};
ghost use Rattle.judge_snapshot.specs.Trimmed.{StrongIsTrimmed};
ghost use Rattle.judge_snapshot.specs.Levels.{LevelIsStrongWithoutOrder};
ghost use Rattle.judge_snapshot.specs.Hierarchy.{ImpliedLevelsHold};
ghost use Rattle.judge_snapshot.specs.Parts.{PartsMayCommit, PartsAreIsolated};

use crate::write_sets::WriteSetObject;

/// States that a history is strong snapshot isolated if and only if its commits are linearizable.
pub fn strong_snapshot_isolation_is_linearizability_of_commits<M: WriteSetObject>()
    ensures { StrongIsLinearizable M.rules M.write_sets }
{}

/// States that a history is strong session snapshot isolated if and only if its commits are
/// sequentially consistent.
pub fn session_snapshot_isolation_is_sequential_consistency_of_commits<M: WriteSetObject>()
    ensures { SessionIsSequential M.rules M.write_sets }
{}

/// States that a history is snapshot isolated if and only if its commits are serializable.
pub fn snapshot_isolation_is_serializability_of_commits<M: WriteSetObject>()
    ensures { SnapshotIsSerializable M.rules M.write_sets }
{}

/// States that a history is strong snapshot isolated if and only if its commits are linearizable
/// by the rules that forget the versions that no later call can have as its snapshot.
pub fn forgotten_versions_are_no_snapshots<M: WriteSetObject>()
    ensures { StrongIsTrimmed M.rules M.write_sets }
{}

/// States that a history is snapshot isolated at a level if and only if it is strong snapshot
/// isolated once the order is taken from its calls that the level does not keep. So a judge of
/// strong snapshot isolation decides each level.
pub fn a_level_is_strong_isolation_without_its_order<M: WriteSetObject>()
    ensures { LevelIsStrongWithoutOrder M.rules M.write_sets }
{}

/// States that a history at a level of isolation is at each level that the table of implications
/// says the level implies.
pub fn implied_levels_hold<M: WriteSetObject>()
    ensures { ImpliedLevelsHold M.rules M.write_sets }
{}

/// States that the parts of calls may commit in the order in which the calls may commit.
pub fn parts_of_transactions_may_commit<M: WriteSetObject, N: WriteSetObject>()
    ensures { PartsMayCommit M.rules M.write_sets N.rules N.write_sets }
{}

/// States that each part of a strong snapshot isolated history is strong snapshot isolated. So a
/// history is not if a part of it is not.
pub fn parts_of_isolated_histories_are_isolated<M: WriteSetObject, N: WriteSetObject>()
    ensures { PartsAreIsolated M.rules M.write_sets N.rules N.write_sets }
{}
