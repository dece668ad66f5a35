//! Searches for a part of a history that has no order.

ghost use Rattle.std.specs.Prelude.{◌≡◌, true, IfOk, IfSome};
ghost use Rattle.std.specs.List.{list_all};
ghost use Rattle.judge_reservations.specs.Lines.{has_part};
ghost use Rattle.judge_search.specs.Calls.{calls_of};
ghost use Rattle.judge_search.specs.Walk.{IsWhole};
ghost use Rattle.judge_linear.specs.Judged.{HasNoOrderOf};

use crate::moments::{WrongPart, first_end_without_order};
use crate::proposals::Proposals;
use judge_object::Watcher;
use judge_reservations::{Names, Reservations, Scope, part_of_history, scope_of};
use judge_search::Calls;
use std::alloc::{AllocError, Global};
use vac_model::ValidTask;
use vac_model::limits::MOST_BLOCKS;

/// Largest number of proposed scopes whose parts are checked.
const MOST_CHECKS: u64 = 4;

/// Largest number of steps of each exact search of a part.
const MOST_STEPS: u64 = 1_000_000;

/// A part of a history that has no order.
#[derive(Drop)]
pub(crate) struct IllegalPart {
    /// The scope of the part.
    pub scope: Scope,
    /// The calls of the part in the order in which they ended.
    pub calls: Calls<ValidTask>,
    /// The calls of the part as they stood at the end of a call.
    pub wrong: WrongPart,
}

/// Searches for the first call at whose end the part of a history on a scope has no order, in at
/// most `steps` steps for each end that is tried. Returns the part if there is such a call.
fn part_without_order<P: Watcher>(
    alloc: Global,
    calls: &Calls<ValidTask>,
    scope: Scope,
    steps: u64,
    watcher: &mut P,
) -> Result<Option<IllegalPart>, AllocError>
    requires whole { IsWhole (calls_of calls.now.lines.items) }
    requires fits { list_all (has_part scope) (calls_of calls.now.lines.items) ≡ true }
    ensures { IfOk result (λ found. IfSome found (HasNoOrderOf calls.now.lines.items)) }
{
    let lines = part_of_history(alloc, &scope, calls.as_slice())?;
    let part = Calls::new(alloc, lines)?;
    match first_end_without_order(alloc, &part, steps, watcher)? {
        Some(wrong) => Ok(Some(IllegalPart {
            scope,
            calls: part,
            wrong,
        })),
        None => Ok(None),
    }
}

/// Returns the part of a history on the scope of these names, if exact searches show that the part
/// has no order. The part is searched once for each end that is tried, each time in at most `steps`
/// steps.
fn checked_part<P: Watcher>(
    alloc: Global,
    calls: &Calls<ValidTask>,
    names: &Names,
    steps: u64,
    watcher: &mut P,
) -> Result<Option<IllegalPart>, AllocError>
    requires whole { IsWhole (calls_of calls.now.lines.items) }
    ensures { IfOk result (λ found. IfSome found (HasNoOrderOf calls.now.lines.items)) }
{
    let (customers, items) = (names.customers.as_slice(), names.items.as_slice());
    match scope_of(alloc, customers, items, calls.as_slice())? {
        Some(scope) => part_without_order(alloc, calls, scope, steps, watcher),
        None => Ok(None),
    }
}

/// Searches for a part of a history that has no order, among the parts on a few proposed scopes.
/// A part that is checked is searched once for each end that is tried, each time in at most `steps`
/// steps, and at most [`MOST_STEPS`]. With no steps no scope is proposed.
///
/// Not said: that a part is found if there is one.
pub(crate) fn find_illegal_part<P: Watcher>(
    alloc: Global,
    calls: &Calls<ValidTask>,
    steps: u64,
    watcher: &mut P,
) -> Result<Option<IllegalPart>, AllocError>
    requires whole { IsWhole (calls_of calls.now.lines.items) }
    ensures { IfOk result (λ found. IfSome found (HasNoOrderOf calls.now.lines.items)) }
{
    if steps == 0 {
        return Ok(None);
    }
    let few = steps.min(MOST_STEPS);
    let empty = Reservations::empty(alloc, MOST_BLOCKS)?;
    let mut proposals = Proposals::new(alloc, calls.as_slice(), empty)?;
    for _ in 0..MOST_CHECKS {
        let Some(names) = proposals.next_names(alloc)? else {
            return Ok(None);
        };
        if let Some(part) = checked_part(alloc, calls, &names, few, watcher)? {
            return Ok(Some(part));
        }
    }
    Ok(None)
}
