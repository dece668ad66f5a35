//! The calls of a part of a history as they stood at a moment, and the first moment at which they
//! have no order.

ghost use Rattle.std.specs.Prelude.{◌≡◌, ◌<◌, ◌≤◌, true, IfOk, IfSome, map, length};
ghost use Rattle.judge_reservations.specs.Lines.{numbered};
ghost use Rattle.judge_search.specs.Calls.{calls_of};
ghost use Rattle.judge_search.specs.Walk.{IsWhole};
ghost use Rattle.judge_linear.specs.Moments.{AreCutCalls, EndsAt, IsEndIn, HadNoOrder};
ghost use Rattle.judge_linear.specs.Moments.{HadNoOrderAt, IsWrongPart};
ghost use Rattle.judge_linear.specs.Possible.{HadStatesBefore};

use crate::possible::possible_states;
use crate::relaxed::copied_line;
use judge_object::{Line, NEVER, Watcher, cut_lines};
use judge_reservations::Reservations;
use judge_search::{Calls, Finding, Stuck, find_linearization, stuck_calls};
use std::alloc::{AllocError, Global};
use vac_model::limits::MOST_BLOCKS;
use vac_model::{Reply, ValidTask};

/// Calls as they stood at a moment, which have no order.
#[derive(Drop)]
pub(crate) struct CutPart {
    pub moment: u64,
    /// The calls in the order in which they ended.
    pub calls: Calls<ValidTask>,
    /// The calls that are blocked after as many calls as can be placed.
    pub stuck: Vec<Stuck<Reply>>,
}

/// Returns copies of lines.
fn copied_lines(
    alloc: Global,
    lines: &[Line<ValidTask>],
) -> Result<Vec<Line<ValidTask>>, AllocError>
    ensures { IfOk result (λ copies. map numbered copies.items ≡ map numbered lines.now) }
{
    let mut copies = Vec::new(alloc);
    'lines: for at in 0..lines.len() {
        copies.push(copied_line(alloc, &lines[at])?)?;
    }
    Ok(copies)
}

/// Returns the calls of lines as they stood at a moment, as a search keeps them.
fn cut_calls(
    alloc: Global,
    moment: u64,
    lines: &[Line<ValidTask>],
) -> Result<Calls<ValidTask>, AllocError>
    ensures { IfOk result (AreCutCalls moment lines.now) }
{
    let copies = copied_lines(alloc, lines)?;
    let cut = cut_lines(alloc, moment, copies)?;
    Calls::new(alloc, cut)
}

/// Searches, in at most `steps` steps, for a linearization of some calls as they stood at a moment.
/// Returns these calls if the search shows that there is none, and `None` if there is one or the
/// steps do not decide.
fn cut_without_order<P: Watcher>(
    alloc: Global,
    calls: &Calls<ValidTask>,
    moment: u64,
    steps: u64,
    watcher: &mut P,
) -> Result<Option<CutPart>, AllocError>
    requires whole { IsWhole (calls_of calls.now.lines.items) }
    ensures none { IfOk result (λ found. IfSome found (HadNoOrder calls.now.lines.items)) }
    ensures moment { IfOk result (λ found. IfSome found (λ part. part.moment ≡ moment)) }
{
    let part = cut_calls(alloc, moment, calls.as_slice())?;
    let machine = Reservations::empty(alloc, MOST_BLOCKS)?;
    let found = find_linearization(alloc, &part, machine, steps, watcher)?;
    let Finding::NoOrder(_, point) = &found.finding else {
        return Ok(None);
    };
    let stuck = stuck_calls(alloc, &part, point)?;
    // For the clause, which promises a blocked call. The list is never empty: of the completed
    // calls that are left, the one that ended first may come next. No clause of `stuck_calls` says
    // so.
    if stuck.is_empty() {
        return Ok(None);
    }
    Ok(Some(CutPart {
        moment,
        calls: part,
        stuck,
    }))
}

/// Returns the moment at which the call at a position ended, if the call is completed.
fn end_of(lines: &[Line<ValidTask>], place: usize) -> Option<u64>
    requires { place < length lines.now }
    ensures { IfSome result (EndsAt lines.now place) }
{
    let end = lines[place].end;
    if end < NEVER { Some(end as u64) } else { None }
}

/// Searches, in at most `steps` steps, for a linearization of some calls as they stood at the end
/// of the call at a position. Returns these calls if the search shows that there is none, and
/// `None` if there is one, the steps do not decide, or the call at the position is pending.
fn cut_at_end<P: Watcher>(
    alloc: Global,
    calls: &Calls<ValidTask>,
    place: usize,
    steps: u64,
    watcher: &mut P,
) -> Result<Option<CutPart>, AllocError>
    requires whole { IsWhole (calls_of calls.now.lines.items) }
    requires place { place < length calls.now.lines.items }
    ensures { IfOk result (λ found. IfSome found
        (HadNoOrderAt calls.now.lines.items place)) }
{
    match end_of(calls.as_slice(), place) {
        Some(moment) => cut_without_order(alloc, calls, moment, steps, watcher),
        None => Ok(None),
    }
}

/// Returns the number of lines before the first pending call. The lines are in the order in which
/// their calls ended, so these are the completed calls.
fn completed_count(lines: &[Line<ValidTask>]) -> usize
    ensures { result ≤ length lines.now }
{
    match lines.iter().position(|line| NEVER <= line.end) {
        Some(place) => place,
        None => lines.len(),
    }
}

/// Returns whether the call at a position is completed and ended at a moment.
fn has_end(lines: &[Line<ValidTask>], place: usize, moment: u64) -> bool
    requires { place < length lines.now }
    ensures { result ≡ true → EndsAt lines.now place moment }
{
    match end_of(lines, place) {
        Some(end) => end == moment,
        None => false,
    }
}

/// Calls as they stood at the end of the call at a position, which have no order.
#[derive(Drop)]
struct CutAt {
    place: usize,
    part: CutPart,
}

/// Searches for the first call at whose end some calls have no order, by bisection of the ends. The
/// last end is tried first; returns `None` if no end is found to be the end of such a call.
///
/// Not said: that the calls have an order at earlier ends. If a search of earlier calls makes all
/// its steps without a result, a later end may be returned.
fn first_cut<P: Watcher>(
    alloc: Global,
    calls: &Calls<ValidTask>,
    steps: u64,
    watcher: &mut P,
) -> Result<Option<CutAt>, AllocError>
    requires whole { IsWhole (calls_of calls.now.lines.items) }
    ensures { IfOk result (λ found. IfSome found (λ first.
        HadNoOrderAt calls.now.lines.items first.place first.part)) }
{
    let count = completed_count(calls.as_slice());
    if count == 0 {
        return Ok(None);
    }
    let mut high = count - 1;
    let Some(last) = cut_at_end(alloc, calls, high, steps, watcher)? else {
        return Ok(None);
    };
    let mut part = last;
    let mut low = 0;
    'ends: while low < high {
        let middle = low + (high - low) / 2;
        if has_end(calls.as_slice(), middle, part.moment) {
            high = middle;
        } else if let Some(found) = cut_at_end(alloc, calls, middle, steps, watcher)? {
            part = found;
            high = middle;
        } else {
            low = middle + 1;
        }
    }
    Ok(Some(CutAt { place: high, part }))
}

/// Returns the position of the call of the line with a number, if the call is completed and ended
/// at a moment.
fn place_of(lines: &[Line<ValidTask>], number: u64, moment: u64) -> Option<usize>
    ensures { IfSome result (λ place. EndsAt lines.now place moment) }
{
    let place = lines.iter().position(|line| line.number == number)?;
    if place < lines.len() && has_end(lines, place, moment) {
        Some(place)
    } else {
        None
    }
}

/// Returns the position of the first blocked call that ended at the moment.
fn blocked_place(lines: &[Line<ValidTask>], part: &CutPart) -> Option<usize>
    ensures { IfSome result (λ place. EndsAt lines.now place part.now.moment) }
{
    let kept = part.calls.as_slice();
    let stuck = part.stuck.as_slice();
    'stuck: for number in 0..stuck.len() {
        let place = stuck[number].place;
        if place < kept.len() {
            let found = place_of(lines, kept[place].number, part.moment);
            if found.is_some() {
                return found;
            }
        }
    }
    None
}

/// Returns the number of a call that ended at the moment: of the first blocked call that ended
/// then, or else of the call at the position.
fn number_of_end(lines: &[Line<ValidTask>], first: &CutAt) -> u64
    requires { EndsAt lines.now first.now.place first.now.part.moment }
    ensures { IsEndIn lines.now result first.now.part.moment }
{
    let place = match blocked_place(lines, &first.part) {
        Some(place) => place,
        None => first.place,
    };
    lines[place].number
}

/// Calls as they stood at the end of a call, which have no order.
#[derive(Drop)]
pub(crate) struct WrongPart {
    /// The number of the call.
    pub line: u64,
    pub part: CutPart,
    /// The number of states that are possible just before the end of the call, if it is known.
    pub states: Option<u64>,
}

/// Returns the number of states that are possible after some calls as they stood just before a
/// moment, for a system of the greatest number of blocks: the states that the linearizations of
/// these calls leave.
///
/// Not said: that the number is returned. It is not returned if there are too many states, or none.
fn states_before(
    alloc: Global,
    calls: &Calls<ValidTask>,
    moment: u64,
) -> Result<Option<u64>, AllocError>
    requires whole { IsWhole (calls_of calls.now.lines.items) }
    ensures { IfOk result (λ found. IfSome found
        (HadStatesBefore (calls_of calls.now.lines.items) moment)) }
{
    if moment == 0 {
        return Ok(None);
    }
    let before = cut_calls(alloc, moment - 1, calls.as_slice())?;
    possible_states(alloc, &before)
}

/// Searches for the first call at whose end some calls have no order, in at most `steps` steps for
/// each end that is tried. Returns its number, the calls as they stood then, and the number of
/// states that were possible just before. The steps do not bound the count of states, which has a
/// bound of its own.
///
/// Not said: that the calls have an order at all earlier ends, unless the number of states is
/// returned; which number is returned if several calls ended at the moment.
pub(crate) fn first_end_without_order<P: Watcher>(
    alloc: Global,
    calls: &Calls<ValidTask>,
    steps: u64,
    watcher: &mut P,
) -> Result<Option<WrongPart>, AllocError>
    requires whole { IsWhole (calls_of calls.now.lines.items) }
    ensures { IfOk result (λ found. IfSome found (IsWrongPart calls.now.lines.items)) }
{
    let Some(first) = first_cut(alloc, calls, steps, watcher)? else {
        return Ok(None);
    };
    let line = number_of_end(calls.as_slice(), &first);
    let states = states_before(alloc, calls, first.part.moment)?;
    Ok(Some(WrongPart {
        line,
        part: first.part,
        states,
    }))
}
