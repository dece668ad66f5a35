//! The verdict on a text.

ghost use Rattle.std.specs.Prelude.{IfOk};
ghost use Rattle.judge_text.specs.Starts.{start_of};
ghost use Rattle.judge_text.specs.Reading.{AreNumbered};
ghost use Rattle.judge_text.specs.Judging.{IsVerdictOnLines, IsVerdictOnText, DecidesLegal};

use crate::by_object::{Verdict, judge_many};
use crate::counting::{Counts, count_clients};
use crate::fault::CallFault;
use crate::history::{Reading, read_history};
use crate::named::Named;
use crate::names::Names;
use crate::relaxing::{find_broken, relaxed_lines};
use crate::settings::Settings;
use crate::starts::Starts;
use crate::worded::TextObject;
use judge_object::{Line, Watcher};
use std::alloc::{AllocError, Global};

/// The verdict on a text.
#[derive(Drop)]
pub enum TextVerdict<O, M> {
    /// The number of its first line that is no call, from 1 on, and why it is none.
    Fault(u64, CallFault),
    /// The objects that its names stand for, and the verdict on the calls of its lines.
    Judged(Names, Counts, Verdict<O, M>),
}

/// Judges the calls of lines as a history of objects, each of which begins in the state that is
/// given for its name, at a level. The calls of one client count as those of one, also at a level
/// that does not keep their order.
fn judge_lines<M: Named + Drop, P: Watcher>(
    alloc: Global,
    lines: Vec<Line<M::Op>>,
    starts: &Starts<M>,
    how: Settings,
    watcher: &mut P,
) -> Result<TextVerdict<M::Op, M>, AllocError>
    requires { AreNumbered 1 lines.items }
    ensures { IfOk result (IsVerdictOnLines M.rules M.name M.naming (start_of starts.now) how
        lines.items) }
{
    let clients = count_clients(alloc, lines.as_slice())?;
    let broken = find_broken(alloc, how.level, lines.as_slice())?;
    let relaxed = relaxed_lines(alloc, how.level, lines)?;
    let names = M::names(alloc, relaxed.as_slice())?;
    let counts = Counts::of::<M>(alloc, clients, &names, relaxed.as_slice())?;
    match broken {
        Some(place) => {
            let verdict = Verdict::OutOfTurn(place);
            Ok(TextVerdict::Judged(names, counts, verdict))
        }
        None => {
            let verdict = judge_many(alloc, &names, relaxed, starts, how.steps, watcher)?;
            Ok(TextVerdict::Judged(names, counts, verdict))
        }
    }
}

/// Judges a text as a history of objects, each of which begins in the state that is given for its
/// name, at a level of consistency, in at most as many steps for all objects together as the
/// settings say.
pub fn judge_text<M: TextObject + Drop, P: Watcher>(
    alloc: Global,
    text: &[u8],
    starts: &Starts<M>,
    how: Settings,
    watcher: &mut P,
) -> Result<TextVerdict<M::Op, M>, AllocError>
    ensures verdict { IfOk result (λ verdict.
        IsVerdictOnText M.rules M.name M.naming M.language (start_of starts.now) text.now how
        verdict) }
    ensures legal { IfOk result (λ verdict.
        DecidesLegal M.rules M.name M.naming M.language how.level (start_of starts.now) text.now
        verdict) }
{
    match read_history::<M>(alloc, text)? {
        Reading::Fault(number, fault) => Ok(TextVerdict::Fault(number, fault)),
        Reading::History(lines) => judge_lines(alloc, lines, starts, how, watcher),
    }
}
