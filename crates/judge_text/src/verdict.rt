//! The text of a verdict.

ghost use Rattle.std.specs.Prelude.{◌≡◌, ◌++◌, ◌<◌, Some, IfOk, OnOk, flat_map, length};
ghost use Rattle.judge_text.specs.Classing.{object_of, for_object};
ghost use Rattle.judge_text.specs.Texts.{named_text, part_text, stuck_text};
ghost use Rattle.judge_text.specs.Texts.{kind_of, outcome_of, AreWithin, HasPlace, HasPlaceIn};
ghost use Rattle.judge_text.specs.Texts.{IsPrinted, IsBlockedText, IsTextOn, IsTextOf};

use crate::by_object::Verdict;
use crate::counting::Counts;
use crate::fault::CallFault;
use crate::judging::TextVerdict;
use crate::named::Named;
use crate::names::Names;
use crate::parts::Blocked;
use crate::quoting::Quoted;
use judge_object::{Line, Object};
use judge_search::{Stuck, stuck_calls};
use std::alloc::{AllocError, Global};
use std::fmt;
use std::fmt::{Display, Formatter};
use vac_lines::print;

/// The kind of a verdict.
#[derive(Clone, Copy, Debug, PartialEq, Eq)]
pub enum Outcome {
    /// The calls of the history have a linearization.
    Legal,
    /// A line is no call, a call is out of turn, or the calls have no linearization.
    Illegal,
    /// Neither is known.
    Undecided,
}

/// The first line of the verdict that the calls of an object have no linearization: the number of
/// the line of a blocked call, and the name of the object.
#[derive(Clone, Copy)]
struct IllegalPartLine<'a> {
    number: u64,
    name: &'a [u8],
}

impl Display for IllegalPartLine<'_> {
    ghost output = { λ part. Some (named_text part.number part.name.now) };

    fn fmt<W: fmt::Write>(&self, f: &mut Formatter<W>) -> fmt::Result {
        let name = Quoted { bytes: self.name };
        write!(f, "illegal part {} {name}\n", self.number)
    }
}

/// Appends the line of the first blocked call, and the name of its object, if a call is blocked.
fn print_part<M: Named>(
    names: &Names,
    lines: &[Line<M::Op>],
    stuck: &[Stuck<M::Reply>],
    out: &mut Vec<u8>,
) -> Result<(), AllocError>
    requires { AreWithin lines.now stuck.now }
    ensures { OnOk result
        (out.new.items ≡ out.old.items
        ++ part_text (for_object (object_of names.now) M.name) lines.now stuck.now) }
{
    match stuck {
        [first, ..] => {
            let Line { number, op, .. } = &lines[first.place];
            let name = names.name::<M>(op);
            print(
                IllegalPartLine {
                    number: *number,
                    name,
                },
                out,
            )
        }
        [] => Ok(()),
    }
}

/// Appends the line of a blocked call, with the reply that its object would give.
fn print_stuck<M: Object>(
    lines: &[Line<M::Op>],
    stuck: &Stuck<M::Reply>,
    out: &mut Vec<u8>,
) -> Result<(), AllocError>
    requires { stuck.now.place < length lines.now }
    ensures { OnOk result
        (out.new.items ≡ out.old.items ++ stuck_text M.rules lines.now stuck.now) }
{
    print(format_args!("stuck {} ", lines[stuck.place].number), out)?;
    M::print(&stuck.expected, out)?;
    out.extend_from_slice(b"\n")
}

/// Appends the lines of the blocked calls.
fn print_all_stuck<M: Object>(
    lines: &[Line<M::Op>],
    stuck: &[Stuck<M::Reply>],
    out: &mut Vec<u8>,
) -> Result<(), AllocError>
    requires { AreWithin lines.now stuck.now }
    ensures { OnOk result
        (out.new.items ≡ out.old.items ++ flat_map (stuck_text M.rules lines.now) stuck.now) }
{
    'stuck: for place in 0..stuck.len() {
        print_stuck::<M>(lines, &stuck[place], out)?;
    }
    Ok(())
}

/// Appends the verdict on a history in which the calls of an object have no linearization: the
/// line of the blocked call that ended first, the object's name, and all blocked calls.
fn print_blocked<M: Named + Drop>(
    alloc: Global,
    names: &Names,
    blocked: &Blocked<M::Op, M>,
    out: &mut Vec<u8>,
) -> Result<(), AllocError>
    ensures { OnOk result
        (IsPrinted (IsBlockedText M.rules (for_object (object_of names.now) M.name) blocked.now)
        out.old.items out.new.items) }
{
    let lines = blocked.calls.as_slice();
    let stuck = stuck_calls(alloc, &blocked.calls, &blocked.point)?;
    print_part::<M>(names, lines, stuck.as_slice(), out)?;
    print_all_stuck::<M>(lines, stuck.as_slice(), out)
}

/// Appends the text of a verdict on calls, and returns its kind.
fn print_judged<M: Named + Drop>(
    alloc: Global,
    names: &Names,
    counts: Counts,
    verdict: &Verdict<M::Op, M>,
    out: &mut Vec<u8>,
) -> Result<Outcome, AllocError>
    requires { HasPlace counts verdict.now }
    ensures kind { IfOk result (λ outcome. outcome ≡ kind_of verdict.now) }
    ensures text { OnOk result
        (IsPrinted (IsTextOn M.rules (for_object (object_of names.now) M.name) counts verdict.now)
        out.old.items out.new.items) }
{
    match verdict {
        Verdict::Linearizable => {
            let Counts {
                calls,
                clients,
                objects,
            } = counts;
            print(
                format_args!("legal calls={calls} clients={clients} objects={objects}\n"),
                out,
            )?;
            Ok(Outcome::Legal)
        }
        Verdict::OutOfTurn(place) => {
            print(format_args!("illegal client {}\n", *place as u64 + 1), out)?;
            Ok(Outcome::Illegal)
        }
        Verdict::NotLinearizable(blocked) => {
            print_blocked::<M>(alloc, names, blocked, out)?;
            Ok(Outcome::Illegal)
        }
        Verdict::Unknown(undecided) => {
            print(format_args!("undecided {}\n", undecided.most), out)?;
            Ok(Outcome::Undecided)
        }
        Verdict::Touching => {
            print("touching\n", out)?;
            Ok(Outcome::Undecided)
        }
    }
}

/// Returns the kind and the text of a verdict on a text.
pub(crate) fn print_verdict<M: Named + Drop>(
    alloc: Global,
    verdict: &TextVerdict<M::Op, M>,
) -> Result<(Outcome, Vec<u8>), AllocError>
    requires { HasPlaceIn verdict.now }
    ensures kind { IfOk result (λ printed. printed.0 ≡ outcome_of verdict.now) }
    ensures text { IfOk result (λ printed.
        IsTextOf M.rules M.name verdict.now printed.1.items) }
{
    let mut out = Vec::new(alloc);
    let outcome = match verdict {
        TextVerdict::Fault(number, fault) => {
            print(format_args!("fault {} {number}\n", fault.name()), &mut out)?;
            Outcome::Illegal
        }
        TextVerdict::Judged(names, counts, verdict) => {
            print_judged::<M>(alloc, names, *counts, verdict, &mut out)?
        }
    };
    Ok((outcome, out))
}
