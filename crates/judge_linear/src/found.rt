//! The texts of the results for a history.

ghost use Rattle.std.specs.Prelude.{◌≡◌, ◌++◌, OnOk, Some, flat_map};
ghost use Rattle.judge_linear.specs.Found.{placed_text, stuck_text, told_by, scope_text, states_text, part_text};
ghost use Rattle.judge_linear.specs.Reading.{texts_of, numbers_of};

use crate::part::IllegalPart;
use judge_object::Line;
use judge_reservations::Scope;
use judge_search::Stuck;
use std::alloc::AllocError;
use std::fmt;
use std::fmt::{Display, Formatter};
use vac_model::{Reply, ValidTask};

/// Appends the lines at these positions. A position without a line gives an empty line.
pub(crate) fn print_order(
    lines: &[Line<ValidTask>],
    places: &[usize],
    out: &mut Vec<u8>,
) -> Result<(), AllocError>
    ensures { OnOk result
        (out.new.items ≡ out.old.items ++ placed_text (texts_of lines.now) places.now) }
{
    for place in places {
        let text = lines
            .get(*place)
            .map_or(b"".as_slice(), |line| line.text.as_slice());
        out.extend_from_slice(text)?;
        out.push(b'\n')?;
    }
    Ok(())
}

/// The lines of blocked calls, each with its number and the expected reply. A position without a
/// line has number 0.
#[derive(Clone, Copy)]
pub(crate) struct BlockedCalls<'a> {
    /// The calls in which the blocked calls have their positions.
    pub lines: &'a [Line<ValidTask>],
    /// The blocked calls.
    pub stuck: &'a [Stuck<Reply>],
}

impl Display for BlockedCalls<'_> {
    ghost output = { λ calls. Some
        (flat_map stuck_text (told_by (numbers_of calls.lines.now) calls.stuck.now)) };

    fn fmt<W: fmt::Write>(&self, f: &mut Formatter<W>) -> fmt::Result {
        for one in self.stuck {
            let number = self.lines.get(one.place).map_or(0, |line| line.number);
            writeln!(f, "stuck {number} {}", one.expected)?;
        }
        Ok(())
    }
}

/// The customers and items of a scope, each after a space.
#[derive(Clone, Copy)]
struct ScopeNames<'a> {
    scope: &'a Scope,
}

impl Display for ScopeNames<'_> {
    ghost output = { λ names. Some
        (scope_text names.scope.now.customers.items names.scope.now.items.items) };

    fn fmt<W: fmt::Write>(&self, f: &mut Formatter<W>) -> fmt::Result {
        for customer in self.scope.customers.as_slice() {
            write!(f, " customer {customer}")?;
        }
        for (kind, id) in self.scope.items.as_slice() {
            write!(f, " {kind} {id}")?;
        }
        Ok(())
    }
}

/// The line of the number of possible states, or nothing if the number is not known.
#[derive(Clone, Copy)]
struct StatesLine {
    states: Option<u64>,
}

impl Display for StatesLine {
    ghost output = { λ line. Some (states_text line.states) };

    fn fmt<W: fmt::Write>(&self, f: &mut Formatter<W>) -> fmt::Result {
        match self.states {
            Some(states) => writeln!(f, "states {states}"),
            None => Ok(()),
        }
    }
}

impl Display for IllegalPart {
    ghost output = { λ part. Some (part_text part.wrong.line part.scope.customers.items
        part.scope.items.items (told_by (numbers_of part.wrong.part.calls.lines.items)
        part.wrong.part.stuck.items) part.wrong.states) };

    fn fmt<W: fmt::Write>(&self, f: &mut Formatter<W>) -> fmt::Result {
        let names = ScopeNames { scope: &self.scope };
        let blocked = BlockedCalls {
            lines: self.wrong.part.calls.as_slice(),
            stuck: self.wrong.part.stuck.as_slice(),
        };
        let line = self.wrong.line;
        let states = StatesLine {
            states: self.wrong.states,
        };
        write!(f, "illegal part {line}{names}\n{blocked}{states}")
    }
}
