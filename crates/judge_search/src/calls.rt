//! The calls of a history in the order in which the search keeps them.

ghost use Rattle.std.specs.Prelude.{◌≡◌, ◌<◌, true, IfOk, get_or, length};
ghost use Rattle.judge_object.specs.Orders.{IsMerge};
ghost use Rattle.judge_search.specs.Calls.{are_sorted, calls_of};
ghost use Rattle.judge_search.specs.Links.{AreLinked, ArePartedAt, IsLink};
ghost use Rattle.judge_search.specs.Walk.{InTurn};
ghost use Rattle.judge_search.specs.Sorting.{AreSortOf};

use crate::links::{completed_of, links_of};
use crate::sorting::sorted_lines;
use judge_object::Line;
use std::alloc::{AllocError, Global};

/// Calls in the order in which they ended.
#[derive(Drop)]
pub struct Calls<O> {
    lines: Vec<Line<O>>,
    /// The number of completed calls, which come first.
    completed: usize,
    /// For each call the place after that of its client's call before it; 0 if there is none.
    links: Vec<usize>,
    ghost sorted: { are_sorted lines.items ≡ true },
    ghost parted: { ArePartedAt lines.items completed },
    ghost linked: { AreLinked lines.items links.items },
}

impl<O: Drop> Calls<O> {
    /// The calls of these lines in the order in which they ended, each client's as they are in
    /// them.
    pub fn new(alloc: Global, lines: Vec<Line<O>>) -> Result<Calls<O>, AllocError>
        ensures same { IfOk result (λ calls. AreSortOf lines.items calls.lines.items) }
        ensures merges { IfOk result (λ calls. InTurn (calls_of lines.items) →
            IsMerge (calls_of lines.items) (calls_of calls.lines.items)) }
    {
        let lines = sorted_lines(lines)?;
        let completed = completed_of(lines.as_slice());
        let links = links_of(alloc, lines.as_slice())?;
        Ok(Calls {
            lines,
            completed,
            links,
        })
    }

    /// Returns the lines.
    pub fn as_slice(&self) -> &[Line<O>]
        ensures { result.now ≡ self.now.lines.items }
    {
        self.lines.as_slice()
    }

    /// Returns the number of completed calls, which come first.
    pub(crate) fn completed(&self) -> usize
        ensures { result ≡ self.now.completed }
    {
        self.completed
    }

    /// Returns the place after that of the call before this one of the same client; 0 if there is
    /// none.
    pub(crate) fn link(&self, place: usize) -> usize
        requires { place < length self.now.lines.items }
        ensures { IsLink self.now.lines.items place result }
    {
        let links = self.links.as_slice();
        links[place]
    }
}
