//! The judge of snapshot isolation: an exact search for an order of the commits.

ghost use Rattle.std.specs.Prelude.{IfOk};
ghost use Rattle.judge_search.specs.Calls.{calls_of};
ghost use Rattle.judge_search.specs.Walk.{IsWhole};
ghost use Rattle.judge_snapshot.specs.Judging.{IsVerdictOn};

use crate::commits::Commits;
use crate::horizons::commits_of;
use crate::write_sets::WriteSetObject;
use judge_object::{Line, Watcher};
use judge_search::{Calls, Finding, Found, find_linearization};
use std::alloc::{AllocError, Global};

/// The verdict on a history.
#[derive(Clone, Copy, Debug, PartialEq, Eq)]
pub enum SnapshotVerdict {
    /// The history is strong snapshot isolated.
    Isolated,
    /// The history is not strong snapshot isolated.
    NotIsolated,
    /// All steps were made without a result.
    Undecided,
}

/// Judges whether the calls of lines are strong snapshot isolated from a state on, in at most
/// `steps` steps of a search for a linearization of their commits. Lines without the order that a
/// level does not keep (`relaxed_line` of `judge_object`) are judged at that level.
pub fn judge_snapshots<M: WriteSetObject + Drop, P: Watcher>(
    alloc: Global,
    lines: Vec<Line<M::Op>>,
    first: M,
    steps: u64,
    watcher: &mut P,
) -> Result<SnapshotVerdict, AllocError>
    requires whole { IsWhole (calls_of lines.items) }
    ensures { IfOk result (λ verdict.
        IsVerdictOn M.rules M.write_sets first (calls_of lines.items) steps verdict) }
{
    let commits = commits_of(alloc, lines)?;
    let calls = Calls::new(alloc, commits)?;
    let start = Commits::new(alloc, first)?;
    let Found { finding, steps: _ } = find_linearization(alloc, &calls, start, steps, watcher)?;
    match finding {
        Finding::Order(_) => Ok(SnapshotVerdict::Isolated),
        Finding::NoOrder(..) => Ok(SnapshotVerdict::NotIsolated),
        Finding::Unknown(_) => Ok(SnapshotVerdict::Undecided),
    }
}
