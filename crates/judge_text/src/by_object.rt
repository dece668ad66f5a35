//! Judging a history of many objects.

ghost use Rattle.std.specs.Prelude.{◌≡◌, IfOk};
ghost use Rattle.judge_text.specs.Classing.{object_of, for_object};
ghost use Rattle.judge_text.specs.Starts.{start_of};
ghost use Rattle.judge_text.specs.Verdict.{IsVerdictOn};

use crate::named::Named;
use crate::names::Names;
use crate::parts::{Blocked, Judged, Undecided, judge_parts};
use crate::runs::is_of_one;
use crate::starts::Starts;
use crate::turns::{Turns, find_turns};
use judge_object::{Line, Watcher};
use std::alloc::{AllocError, Global};

/// The verdict on a history of many objects.
#[derive(Drop)]
pub enum Verdict<O, M> {
    /// The call at this position is the first that is out of turn: it ends before it begins, or
    /// begins before an earlier call of its client has ended.
    OutOfTurn(usize),
    /// Some order of all calls is a linearization.
    Linearizable,
    /// No order is one: the calls of this object have none. It is the first such object in the
    /// order of names.
    NotLinearizable(Blocked<O, M>),
    /// Neither is known: the search among the calls of this object made all steps that the searches
    /// among those of other objects had left. All objects with earlier names have a linearization.
    Unknown(Undecided<O>),
    /// Neither is known: the calls are of several objects, and each object's have a linearization,
    /// but some client began a call at the very time at which an earlier one of its own ended.
    Touching,
}

/// Judges a history of the objects that these names stand for, each of which begins in the state
/// that is given for its name, in at most `steps` steps for all objects together.
pub fn judge_many<M: Named + Drop, P: Watcher>(
    alloc: Global,
    names: &Names,
    lines: Vec<Line<M::Op>>,
    starts: &Starts<M>,
    steps: u64,
    watcher: &mut P,
) -> Result<Verdict<M::Op, M>, AllocError>
    ensures { IfOk result (λ verdict.
        IsVerdictOn M.rules (for_object (object_of names.now) M.name) (start_of starts.now) steps
        lines.items verdict) }
{
    let is_strict = match find_turns(alloc, lines.as_slice())? {
        Turns::Broken(place) => return Ok(Verdict::OutOfTurn(place)),
        Turns::Held(is_strict) => is_strict,
    };
    let is_one = is_of_one::<M>(names, lines.as_slice());
    match judge_parts(alloc, names, lines, starts, steps, watcher)? {
        Judged::Linearizable => {
            if is_strict {
                Ok(Verdict::Linearizable)
            } else if is_one {
                Ok(Verdict::Linearizable)
            } else {
                Ok(Verdict::Touching)
            }
        }
        Judged::NotLinearizable(blocked) => Ok(Verdict::NotLinearizable(blocked)),
        Judged::Unknown(undecided) => Ok(Verdict::Unknown(undecided)),
    }
}
