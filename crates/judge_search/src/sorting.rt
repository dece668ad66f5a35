//! Sorts lines by the ends of their calls.

ghost use Rattle.std.specs.Prelude.{◌≡◌, ◌&&◌, IfOk, true, nat_lt, if◌then◌else◌};
ghost use Rattle.judge_object.specs.Orders.{IsMerge};
ghost use Rattle.judge_search.specs.Walk.{InTurn};
ghost use Rattle.judge_search.specs.Calls.{calls_of, are_sorted, soonest_of};
ghost use Rattle.judge_search.specs.Sorting.{AreSortOf};

use judge_object::{Line, NEVER};
use std::alloc::AllocError;

/// Returns the lesser of two times if the first counts, and otherwise the second.
fn lesser(counts: bool, begin: u64, soonest: u64) -> u64
    ensures { result ≡ (if counts && nat_lt begin soonest then begin else soonest) }
{
    if counts && begin < soonest {
        begin
    } else {
        soonest
    }
}

/// Returns the time of the completed calls, or that of the pending ones.
fn of_kind(is_completed: bool, completed: u64, pending: u64) -> u64
    ensures { result ≡ (if is_completed then completed else pending) }
{
    if is_completed { completed } else { pending }
}

/// Sets for each line the least BEGIN of the line and of those after it, among the completed calls
/// or among the pending ones.
fn keep_soonest<O: Drop>(lines: &mut [Line<O>])
    ensures { lines.new ≡ soonest_of lines.old }
{
    let mut completed = u64::MAX;
    let mut pending = u64::MAX;
    'lines: for back in 0..lines.len() {
        let place = lines.len() - 1 - back;
        let begin = lines[place].begin;
        let is_completed = lines[place].end < NEVER;
        completed = lesser(is_completed, begin, completed);
        pending = lesser(!is_completed, begin, pending);
        lines[place].soonest = of_kind(is_completed, completed, pending);
    }
}

/// Sorts the lines by the ends of their calls, and keeps the order of lines with equal ends.
pub(crate) fn sorted_lines<O: Drop>(mut lines: Vec<Line<O>>) -> Result<Vec<Line<O>>, AllocError>
    ensures sorted { IfOk result (λ sorted. are_sorted sorted.items ≡ true) }
    ensures same { IfOk result (λ sorted. AreSortOf lines.items sorted.items) }
    ensures merges { IfOk result (λ sorted. InTurn (calls_of lines.items) →
        IsMerge (calls_of lines.items) (calls_of sorted.items)) }
{
    lines.sort_by_key(|line| line.end)?;
    keep_soonest(lines.as_mut_slice());
    Ok(lines)
}
