//! Searches for a linearization of the calls of a history.

ghost use Rattle.std.specs.Prelude.{◌≡◌, ◌≢◌, ◌≤◌, IfOk, IfSome};
ghost use Rattle.vac_model.specs.State.{empty_state};
ghost use Rattle.judge_object.specs.declared.level.Level.TheVariants.{Linearizable};
ghost use Rattle.judge_reservations.specs.Reserving.{reserving};
ghost use Rattle.judge_search.specs.Calls.{calls_of};
ghost use Rattle.judge_search.specs.Judging.{IsLinearizedBy, IsFoundIn};
ghost use Rattle.judge_search.specs.Point.{point_at};
ghost use Rattle.judge_search.specs.Walk.{IsWhole};
ghost use Rattle.judge_linear.specs.Judged.{IsJudged, IsJudgedAs, IsJudgedAt};
ghost use Rattle.judge_linear.specs.Reading.{IsHeld};

use crate::history::History;
use crate::part::{IllegalPart, find_illegal_part};
use crate::relaxed::relaxed_calls;
use crate::settings::Settings;
use judge_heuristic::find_quickly;
use judge_object::{Level, Object, Watcher};
use judge_reservations::Reservations;
use judge_search::{Calls, Finding, Found, Point, find_linearization, is_linearization};
use std::alloc::{AllocError, Global};
use vac_model::ValidTask;
use vac_model::limits::MOST_BLOCKS;

/// Returns the proposed positions if they are an order of the calls that is a linearization from a
/// state on. The check runs each call, one after the other.
///
/// Not said: that the positions are returned if they are such an order.
fn checked_order(
    alloc: Global,
    machine: Reservations,
    calls: &Calls<ValidTask>,
    proposed: Option<Vec<usize>>,
) -> Result<Option<Vec<usize>>, AllocError>
    requires whole { IsWhole (calls_of calls.now.lines.items) }
    ensures { IfOk result (λ found. IfSome found (λ places.
        IsLinearizedBy reserving machine (calls_of calls.now.lines.items) places.items)) }
{
    let Some(places) = proposed else {
        return Ok(None);
    };
    if is_linearization(alloc, machine, calls, places.as_slice())? {
        return Ok(Some(places));
    }
    Ok(None)
}

/// The finding on the calls of a history.
#[derive(Drop)]
pub(crate) enum SearchResult {
    /// The finding of a search of all calls, and the number of steps of the exact search.
    AllCalls(Found<Point<Reservations>>),
    /// A part of the history has no order.
    Part(IllegalPart),
}

/// Searches quickly for a linearization of the calls from a state on. The quick search proposes an
/// order, which is checked.
///
/// Not said: that an order is found if there is one.
fn find_fast<P: Watcher>(
    alloc: Global,
    calls: &Calls<ValidTask>,
    machine: &Reservations,
    steps: u64,
    watcher: &mut P,
) -> Result<Option<Vec<usize>>, AllocError>
    requires whole { IsWhole (calls_of calls.now.lines.items) }
    ensures { IfOk result (λ found. IfSome found (λ places.
        IsLinearizedBy reserving machine.now (calls_of calls.now.lines.items) places.items)) }
{
    let proposed = find_quickly(alloc, calls.as_slice(), machine.copy()?, steps, watcher)?;
    let first = machine.copy()?;
    checked_order(alloc, first, calls, proposed)
}

/// Searches for a linearization of the calls from a state on: quickly, then in parts of the
/// history, and then exactly. Each search of all calls or of a checked part makes at most `steps`
/// steps.
fn judge_order<P: Watcher>(
    alloc: Global,
    calls: &Calls<ValidTask>,
    machine: Reservations,
    steps: u64,
    watcher: &mut P,
) -> Result<SearchResult, AllocError>
    requires whole { IsWhole (calls_of calls.now.lines.items) }
    ensures { IfOk result (IsJudged machine calls.now steps) }
{
    if let Some(places) = find_fast(alloc, calls, &machine, steps, watcher)? {
        return Ok(SearchResult::AllCalls(Found {
            finding: Finding::Order(places),
            steps: 0,
        }));
    }
    if let Some(part) = find_illegal_part(alloc, calls, steps, watcher)? {
        return Ok(SearchResult::Part(part));
    }
    let found = find_linearization(alloc, calls, machine, steps, watcher)?;
    Ok(SearchResult::AllCalls(found))
}

/// Searches for a linearization of all calls from a state on, quickly and then exactly, in at most
/// `steps` steps each.
fn find_whole<P: Watcher>(
    alloc: Global,
    calls: &Calls<ValidTask>,
    machine: Reservations,
    steps: u64,
    watcher: &mut P,
) -> Result<Found<Point<Reservations>>, AllocError>
    requires whole { IsWhole (calls_of calls.now.lines.items) }
    ensures { IfOk result (λ found. IsFoundIn reserving (point_at reserving calls.now) machine
        (calls_of calls.now.lines.items) steps found) }
{
    match find_fast(alloc, calls, &machine, steps, watcher)? {
        Some(places) => Ok(Found {
            finding: Finding::Order(places),
            steps: 0,
        }),
        None => find_linearization(alloc, calls, machine, steps, watcher),
    }
}

/// The calls of a history as the search keeps them, and the finding. The finding of a search of all
/// calls names positions in them; an illegal part has calls of its own.
#[derive(Drop)]
pub(crate) struct SearchedCalls {
    /// The calls in the order in which they ended.
    pub calls: Calls<ValidTask>,
    /// The finding of the searches.
    pub judged: SearchResult,
}

/// Searches for an order of the calls of a history at a level below linearizability. Since a
/// linearization is an order at each level, and since a search is harder without the times, the
/// history is searched first as it is given, in half of the steps.
fn judge_below<P: Watcher>(
    alloc: Global,
    history: History,
    how: Settings,
    watcher: &mut P,
) -> Result<SearchedCalls, AllocError>
    requires some { 1 ≤ how.blocks }
    requires most { how.blocks ≤ MOST_BLOCKS }
    requires held { IsHeld history }
    requires below { how.level ≢ Linearizable }
    ensures { IfOk result
        (IsJudgedAt how.level (empty_state how.blocks) history.lines.items how.steps) }
{
    let machine = Reservations::empty(alloc, how.blocks)?;
    let calls = Calls::new(alloc, history.lines)?;
    let found = find_whole(alloc, &calls, machine.copy()?, how.steps / 2, watcher)?;
    if let Finding::Order(_) = &found.finding {
        let judged = SearchResult::AllCalls(found);
        return Ok(SearchedCalls { calls, judged });
    }
    let relaxed = relaxed_calls(alloc, how.level, calls.as_slice())?;
    let left = how.steps - found.steps;
    let judged = judge_order(alloc, &relaxed, machine, left, watcher)?;
    Ok(SearchedCalls {
        calls: relaxed,
        judged,
    })
}

/// Searches for a linearization of the calls of a history.
fn judge_given<P: Watcher>(
    alloc: Global,
    history: History,
    how: Settings,
    watcher: &mut P,
) -> Result<SearchedCalls, AllocError>
    requires some { 1 ≤ how.blocks }
    requires most { how.blocks ≤ MOST_BLOCKS }
    requires held { IsHeld history }
    ensures { IfOk result
        (IsJudgedAs Linearizable (empty_state how.blocks) history.lines.items how.steps) }
{
    let machine = Reservations::empty(alloc, how.blocks)?;
    let calls = Calls::new(alloc, history.lines)?;
    let judged = judge_order(alloc, &calls, machine, how.steps, watcher)?;
    Ok(SearchedCalls { calls, judged })
}

/// Searches for an order of the calls of a history at a level.
pub(crate) fn judge_lines<P: Watcher>(
    alloc: Global,
    history: History,
    how: Settings,
    watcher: &mut P,
) -> Result<SearchedCalls, AllocError>
    requires some { 1 ≤ how.blocks }
    requires most { how.blocks ≤ MOST_BLOCKS }
    requires held { IsHeld history }
    ensures { IfOk result
        (IsJudgedAt how.level (empty_state how.blocks) history.lines.items how.steps) }
{
    match how.level {
        Level::Linearizable => judge_given(alloc, history, how, watcher),
        Level::Sequential | Level::Serializable => judge_below(alloc, history, how, watcher),
    }
}
