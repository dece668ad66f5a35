//! A quick search for an order. Nothing is proved of the search, and the order that it proposes is
//! checked.
//!
//! In this crate "the call that ends first" is the unplaced call with the least end, and two calls
//! meet if they name an item or a customer in common.
//!
//! The call that ends first is placed next if it gives its reply. Another call goes before it in
//! two cases: if only in that order both calls give their replies, or if the call that ends first
//! gives its reply only after the other call. Among several such calls the search takes the one
//! after which most of the following calls give their replies.
//!
//! If both orders of two calls are correct and reach different states, the search records a choice
//! point. If no call fits, some of the last choice points close to the blocked call are tried the
//! other way: the calls after the choice point are made again, and undone if the blocked call
//! still does not fit. If no try helps, the last choice point is decided the other way all the
//! same. If there is no choice point, the search backtracks, and from then on deviates from these
//! rules at random.

use crate::beam::find_by_beam;
use crate::layout::Layout;
use crate::search::{Quick, QuickSearch};
use crate::trail::places_of;
use judge_object::{Line, Object, Watcher};
use std::alloc::{AllocError, Global};
use vac_model::{Reply, ValidTask};

impl<M: Object<Op = ValidTask, Reply = Reply> + Drop> QuickSearch<M> {
    /// Makes one step of the search.
    fn step(
        &mut self,
        alloc: Global,
        lines: &[Line<ValidTask>],
        layout: &Layout,
    ) -> Result<Quick, AllocError> {
        let next = match self.planned(lines, layout)? {
            Some(place) => Some(place),
            None => self.unplanned(alloc, lines, layout)?,
        };
        match next {
            Some(place) => self.go_on(lines, layout, place),
            None => self.turn_back(alloc, lines, layout),
        }
    }
}

/// Searches for an order of the calls, which are given in the order of their ends. Returns the
/// positions of the calls in the order that is found. If a call is pending, a beam search comes
/// first. Each search makes at most `steps` steps. If no call is completed, nothing is searched.
///
/// Not said: anything of the order that is found, or that an order is found.
pub fn find_quickly<M: Object<Op = ValidTask, Reply = Reply> + Drop, P: Watcher>(
    alloc: Global,
    lines: &[Line<ValidTask>],
    machine: M,
    steps: u64,
    watcher: &mut P,
) -> Result<Option<Vec<usize>>, AllocError> {
    let layout = Layout::new(alloc, lines)?;
    if layout.completed == 0 {
        return Ok(None);
    }
    if layout.completed < lines.len() as u64
        && let Some(places) = find_by_beam(alloc, lines, &layout, &machine, steps, watcher)?
    {
        return Ok(Some(places));
    }
    let mut search = QuickSearch::new(alloc, machine, &layout)?;
    for made in 0..steps {
        watcher.tell(search.trail.placed, made);
        match search.step(alloc, lines, &layout)? {
            Quick::On => {}
            Quick::Found => return Ok(Some(places_of(alloc, search.trail.path.as_slice())?)),
            Quick::Missed => return Ok(None),
        }
    }
    Ok(None)
}
