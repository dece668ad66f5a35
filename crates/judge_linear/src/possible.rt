//! The number of states that are possible after calls.

ghost use Rattle.std.specs.Prelude.{◌≡◌, ◌↔◌, true, IfOk, OnOk, IfSome};
ghost use Rattle.std.specs.List.{Contains};
ghost use Rattle.judge_search.specs.Calls.{calls_of};
ghost use Rattle.judge_search.specs.Walk.{IsWhole};
ghost use Rattle.judge_linear.specs.Possible.{AreSameOnce, AddsOnce, HaveStates};

use judge_reservations::Reservations;
use judge_search::{Calls, states_left};
use std::alloc::{AllocError, Global};
use vac_model::ValidTask;
use vac_model::limits::MOST_BLOCKS;

/// Largest number of points of a search through which possible states are counted. The number of
/// points can double with each pending call.
const MOST_POINTS: usize = 20_000;

/// Largest number of states that are counted. The states of all points without completed calls are
/// compared with them.
const MOST_STATES: usize = 1_000;

/// Returns whether a state is among others.
fn has_state(states: &[Reservations], state: &Reservations) -> bool
    ensures { (result ≡ true) ↔ Contains states.now state.now }
{
    'states: for number in 0..states.len() {
        if states[number].equals(state) {
            return true;
        }
    }
    false
}

/// Adds a state unless it is there.
fn add_state(states: &mut Vec<Reservations>, state: Reservations) -> Result<(), AllocError>
    ensures { OnOk result (AddsOnce state states.old.items states.new.items) }
{
    if has_state(states.as_slice(), &state) {
        return Ok(());
    }
    states.push(state)?;
    Ok(())
}

/// Returns the states, each once, or `None` if there are more than [`MOST_STATES`].
///
/// Not said: that there is a result.
fn each_once(
    alloc: Global,
    states: Vec<Reservations>,
) -> Result<Option<Vec<Reservations>>, AllocError>
    ensures { IfOk result (λ found. IfSome found (λ once.
        AreSameOnce states.items once.items)) }
{
    let mut once = Vec::new(alloc);
    'states: for state in states {
        add_state(&mut once, state)?;
        if MOST_STATES < once.len() {
            return Ok(None);
        }
    }
    Ok(Some(once))
}

/// Returns the number of states that the linearizations of these calls leave, for a system of the
/// greatest number of blocks, if there is such a state.
///
/// Not said: that the number is returned. It is not returned if there are more than [`MOST_STATES`]
/// states, or if the search has more than [`MOST_POINTS`] points.
pub(crate) fn possible_states(
    alloc: Global,
    calls: &Calls<ValidTask>,
) -> Result<Option<u64>, AllocError>
    requires whole { IsWhole (calls_of calls.now.lines.items) }
    ensures { IfOk result (λ found. IfSome found
        (HaveStates (calls_of calls.now.lines.items))) }
{
    let machine = Reservations::empty(alloc, MOST_BLOCKS)?;
    let Some(states) = states_left(alloc, calls, machine, MOST_POINTS)? else {
        return Ok(None);
    };
    let Some(once) = each_once(alloc, states)? else {
        return Ok(None);
    };
    if once.is_empty() {
        return Ok(None);
    }
    Ok(Some(once.len() as u64))
}
