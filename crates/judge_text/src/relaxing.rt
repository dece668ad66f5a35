//! The lines of a history without the order that a level does not keep.

ghost use Rattle.std.specs.Prelude.{IfOk};
ghost use Rattle.judge_object.specs.Relaxed.{IsRelaxed};
ghost use Rattle.judge_search.specs.Calls.{calls_of};
ghost use Rattle.judge_text.specs.Relaxing.{AreRelaxed, IsTurnAt};

use crate::turns::{Turns, find_turns};
use judge_object::{Level, Line, relaxed_line};
use std::alloc::{AllocError, Global};

/// Returns the place of the first call that is out of turn, at a level below linearizability. At
/// linearizability returns `None`: the judge of the calls looks for this place.
pub(crate) fn find_broken<O: Drop>(
    alloc: Global,
    level: Level,
    lines: &[Line<O>],
) -> Result<Option<usize>, AllocError>
    ensures { IfOk result (λ place. IsTurnAt level (calls_of lines.now) place) }
{
    match level {
        Level::Linearizable => Ok(None),
        Level::Sequential | Level::Serializable => match find_turns(alloc, lines)? {
            Turns::Broken(place) => Ok(Some(place)),
            Turns::Held(_) => Ok(None),
        },
    }
}

/// Returns a line without the order that the level does not keep. A line whose number is no number
/// of a client is refused as one of a history that is too large for the memory.
fn relaxed<O: Drop>(level: Level, line: Line<O>) -> Result<Line<O>, AllocError>
    ensures { IfOk result (IsRelaxed level line) }
{
    match relaxed_line(level, line) {
        Some(line) => Ok(line),
        None => Err(AllocError),
    }
}

/// Returns the lines without the order that the level does not keep.
pub(crate) fn relaxed_lines<O: Drop>(
    alloc: Global,
    level: Level,
    lines: Vec<Line<O>>,
) -> Result<Vec<Line<O>>, AllocError>
    ensures { IfOk result (λ relaxed. AreRelaxed level lines.items relaxed.items) }
{
    let mut found = Vec::with_capacity(alloc, lines.len())?;
    for line in lines {
        found.push(relaxed(level, line)?)?;
    }
    Ok(found)
}
