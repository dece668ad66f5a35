//! Judging each object's calls.

ghost use Rattle.std.specs.Prelude.{IfOk};
ghost use Rattle.judge_search.specs.Calls.{calls_of};
ghost use Rattle.judge_search.specs.Walk.{IsWhole};
ghost use Rattle.judge_text.specs.ByObject.{SearchesRun, JudgesParts};
ghost use Rattle.judge_text.specs.Classing.{object_of, for_object};
ghost use Rattle.judge_text.specs.Starts.{start_of};

use crate::named::Named;
use crate::names::Names;
use crate::runs::runs_by_name;
use crate::starts::Starts;
use judge_object::{Line, Watcher};
use judge_search::{Calls, Finding, Found, Point, find_linearization};
use std::alloc::{AllocError, Global};

/// An object whose calls have no linearization.
#[derive(Drop)]
pub struct Blocked<O, M> {
    /// Its calls, in the order in which they ended.
    pub calls: Calls<O>,
    /// The most completed calls that can be placed one after the other.
    pub most: u64,
    /// A configuration in which that many are placed.
    pub point: Point<M>,
}

/// An object of whose calls it is not known whether they have a linearization.
#[derive(Drop)]
pub struct Undecided<O> {
    /// Its calls, in the order in which they ended.
    pub calls: Calls<O>,
    /// The most completed calls that the search had placed anywhere.
    pub most: u64,
}

/// A finding on the calls of one object, or on those of many.
#[derive(Drop)]
pub enum Judged<O, M> {
    /// Each object's calls have a linearization.
    Linearizable,
    /// Those of this object have none.
    NotLinearizable(Blocked<O, M>),
    /// Of those of this object neither is known.
    Unknown(Undecided<O>),
}

/// The finding on the calls of one object, and the number of steps of the search.
#[derive(Drop)]
struct Searched<O, M> {
    judged: Judged<O, M>,
    steps: u64,
}

/// Judges the calls of one object, from the state of a machine on, in at most `steps` steps.
fn judge_run<M: Named + Drop, P: Watcher>(
    alloc: Global,
    run: Vec<Line<M::Op>>,
    machine: M,
    steps: u64,
    watcher: &mut P,
) -> Result<Searched<M::Op, M>, AllocError>
    requires whole { IsWhole (calls_of run.items) }
    ensures { IfOk result (λ searched. SearchesRun M.rules machine steps run.items searched) }
{
    let calls = Calls::new(alloc, run)?;
    let Found {
        finding,
        steps: made,
    } = find_linearization(alloc, &calls, machine, steps, watcher)?;
    match finding {
        Finding::Order(_) => Ok(Searched {
            judged: Judged::Linearizable,
            steps: made,
        }),
        Finding::NoOrder(most, point) => Ok(Searched {
            judged: Judged::NotLinearizable(Blocked { calls, most, point }),
            steps: made,
        }),
        Finding::Unknown(most) => Ok(Searched {
            judged: Judged::Unknown(Undecided { calls, most }),
            steps: made,
        }),
    }
}

/// Judges the calls of the objects that these names stand for, each from the state on that is given
/// for its name, one object after the other in the order of their names, in at most `steps` steps
/// of all searches together. Stops at the first object whose calls have no linearization, or of
/// which neither is known when all steps are made.
pub fn judge_parts<M: Named + Drop, P: Watcher>(
    alloc: Global,
    names: &Names,
    lines: Vec<Line<M::Op>>,
    starts: &Starts<M>,
    steps: u64,
    watcher: &mut P,
) -> Result<Judged<M::Op, M>, AllocError>
    requires whole { IsWhole (calls_of lines.items) }
    ensures { IfOk result (λ judged.
        JudgesParts M.rules (for_object (object_of names.now) M.name) (start_of starts.now)
        steps lines.items judged) }
{
    let mut left = runs_by_name::<M>(alloc, names, lines)?;
    let mut rest = steps;
    'runs: while let Some((name, run)) = left.pop_first() {
        let machine = starts.get(name.as_slice())?;
        let Searched {
            judged,
            steps: made,
        } = judge_run(alloc, run, machine, rest, watcher)?;
        match judged {
            Judged::Linearizable => rest -= made,
            Judged::NotLinearizable(blocked) => return Ok(Judged::NotLinearizable(blocked)),
            Judged::Unknown(undecided) => return Ok(Judged::Unknown(undecided)),
        }
    }
    Ok(Judged::Linearizable)
}
