//! Marks of the calls that have a position in the order: all calls before a place, and some beyond.

ghost use Rattle.std.specs.Prelude.{◌≡◌, ◌≤◌, ◌<◌, ℕ, IfOk, true, false};
ghost use Rattle.judge_search.specs.Marks.{is_made, MarksOneMore};

use std::alloc::AllocError;

/// Returns whether the call at a place has a position in the order.
pub(crate) fn is_made(low: usize, beyond: &[usize], place: usize) -> bool
    ensures { result ≡ is_made low beyond.now place }
{
    place < low || beyond.contains(&place)
}

/// Returns the first of `count` places whose call has no position in the order, or `count`.
pub(crate) fn first_left(low: usize, beyond: &[usize], count: usize) -> usize
    ensures within { result ≤ count }
    ensures below { (place : ℕ) → place < result → is_made low beyond.now place ≡ true }
    ensures left { result < count → is_made low beyond.now result ≡ false }
{
    'places: for place in low..count {
        if !is_made(low, beyond, place) {
            return place;
        }
    }
    count
}

/// Marks one more place, which is the first without a mark.
fn mark_low(low: usize, mut beyond: Vec<usize>) -> (usize, Vec<usize>)
    requires { low < usize.MAX }
    ensures { MarksOneMore low beyond.items low (result.0, result.1.items) }
{
    let mut next = low + 1;
    let mut passed = 0;
    'marks: while passed < beyond.len() && beyond[passed] == next && next < usize::MAX {
        next += 1;
        passed += 1;
    }
    beyond.drain(..passed);
    (next, beyond)
}

/// Marks one more place beyond the first without a mark.
fn mark_beyond(mut beyond: Vec<usize>, place: usize) -> Result<Vec<usize>, AllocError>
    ensures { IfOk result (λ marks. (low : ℕ) →
        MarksOneMore low beyond.items place (low, marks.items)) }
{
    let mut number = 0;
    'marks: while number < beyond.len() && beyond[number] < place {
        number += 1;
    }
    beyond.insert(number, place)?;
    Ok(beyond)
}

/// Marks one more place.
pub(crate) fn mark(
    low: usize,
    beyond: Vec<usize>,
    place: usize,
) -> Result<(usize, Vec<usize>), AllocError>
    requires { place < usize.MAX }
    ensures { IfOk result (λ marks. MarksOneMore low beyond.items place (marks.0, marks.1.items)) }
{
    if place == low {
        return Ok(mark_low(low, beyond));
    }
    Ok((low, mark_beyond(beyond, place)?))
}
