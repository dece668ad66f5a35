//! The data of a quick search: its current position and the way there.

use crate::choice_points::{ChoicePoint, ChoicePoints, Pair};
use crate::counts::SearchCounts;
use crate::layout::Layout;
use crate::saved_states::{SavedState, SavedStates};
use crate::trail::{Tail, Trail};
use judge_object::{Line, Object, is_right};
use std::alloc::{AllocError, Global};
use vac_model::{Reply, ValidTask};

/// A part that was cut off the trail: the number of calls before it, its calls, its choice points
/// and its kept states, each with the earliest last, and the state at the end of the trail.
#[derive(Drop)]
pub(crate) struct Cut<M> {
    pub(crate) at: usize,
    pub(crate) tail: Tail,
    pub(crate) choice_points: Vec<ChoicePoint>,
    pub(crate) saved_states: Vec<SavedState<M>>,
    pub(crate) machine: Option<M>,
}

/// The data of a quick search.
#[derive(Drop)]
pub(crate) struct QuickSearch<M> {
    /// The state after the calls of the trail; `None` while it changes.
    pub(crate) machine: Option<M>,
    /// Kept states of earlier points of the search.
    pub(crate) saved_states: SavedStates<M>,
    /// The calls made so far.
    pub(crate) trail: Trail,
    /// The planned calls, the next one last.
    pub(crate) plan: Vec<usize>,
    /// The choice points that may have been decided wrongly.
    pub(crate) choice_points: ChoicePoints,
    /// The cut part that is put back if a try does not help.
    pub(crate) cut: Option<Cut<M>>,
    /// Counts and random numbers of the search.
    pub(crate) counts: SearchCounts,
    /// Buffer for the text of the last compared reply.
    pub(crate) text: Vec<u8>,
}

/// The result of one step of a quick search.
#[derive(Drop)]
pub(crate) enum Quick {
    On,
    Found,
    Missed,
}

/// Runs a call, and returns the next state if the call gives its reply. The given state is used
/// up, and the buffer is overwritten with the text of the reply.
pub(crate) fn led_from<M: Object<Op = ValidTask, Reply = Reply> + Drop>(
    text: &mut Vec<u8>,
    machine: M,
    lines: &[Line<ValidTask>],
    place: usize,
) -> Result<Option<M>, AllocError> {
    let Some(line) = lines.get(place) else {
        return Ok(None);
    };
    let (next, reply) = machine.made(&line.op)?;
    if is_right::<M>(text, &line.reply, &reply)? {
        Ok(Some(next))
    } else {
        Ok(None)
    }
}

/// Runs a call on a copy of the state, and returns the next state if the call gives its reply.
pub(crate) fn led_to<M: Object<Op = ValidTask, Reply = Reply> + Drop>(
    text: &mut Vec<u8>,
    machine: Option<&M>,
    lines: &[Line<ValidTask>],
    place: usize,
) -> Result<Option<M>, AllocError> {
    match machine {
        Some(machine) => led_from(text, machine.copy()?, lines, place),
        None => Ok(None),
    }
}

impl<M: Object<Op = ValidTask, Reply = Reply> + Drop> QuickSearch<M> {
    /// Creates a search at its beginning.
    pub(crate) fn new(
        alloc: Global,
        machine: M,
        layout: &Layout,
    ) -> Result<QuickSearch<M>, AllocError> {
        Ok(QuickSearch {
            machine: Some(machine),
            saved_states: SavedStates::new(alloc),
            trail: Trail::new(alloc, layout)?,
            plan: Vec::new(alloc),
            choice_points: ChoicePoints::new(alloc),
            cut: None,
            counts: SearchCounts::new(layout.completed),
            text: Vec::new(alloc),
        })
    }

    /// Records a choice between two calls.
    pub(crate) fn add_choice_point(
        &mut self,
        taken: usize,
        other: usize,
    ) -> Result<(), AllocError> {
        self.choice_points
            .add(self.trail.path.len(), Pair { taken, other })
    }

    /// Keeps the current state, if the next one is due.
    fn keep(&mut self) -> Result<(), AllocError> {
        match &self.machine {
            Some(machine) => self.saved_states.keep(self.trail.path.len(), machine),
            None => Ok(()),
        }
    }

    /// Forgets the states to which the search cannot go back.
    fn forget(&mut self) {
        let mut needed = self.trail.settle();
        if let Some(first) = self.choice_points.first() {
            needed = needed.min(first);
        }
        if let Some(cut) = &self.cut {
            needed = needed.min(cut.at).min(cut.tail.settled);
        }
        self.saved_states.forget(needed);
    }

    /// Rebuilds the state after all calls of the trail: runs the calls again from the last kept
    /// state.
    pub(crate) fn make_again(&mut self, lines: &[Line<ValidTask>]) -> Result<(), AllocError> {
        self.machine = None;
        self.machine = self
            .saved_states
            .made_again(lines, self.trail.path.as_slice())?;
        Ok(())
    }

    /// Makes the call at a position, if the call gives its reply. Returns whether it does.
    pub(crate) fn attempt(
        &mut self,
        lines: &[Line<ValidTask>],
        place: usize,
    ) -> Result<bool, AllocError> {
        self.keep()?;
        let Some(machine) = self.machine.take() else {
            return Ok(false);
        };
        self.machine = led_from(&mut self.text, machine, lines, place)?;
        if self.machine.is_some() {
            return Ok(true);
        }
        self.make_again(lines)?;
        Ok(false)
    }

    /// Replaces the current state by the state that a call leads to.
    pub(crate) fn move_to(&mut self, machine: M) -> Result<(), AllocError> {
        self.keep()?;
        self.machine = Some(machine);
        Ok(())
    }

    /// Appends the call at a position, which the current state includes, to the trail.
    pub(crate) fn go_on(
        &mut self,
        lines: &[Line<ValidTask>],
        layout: &Layout,
        place: usize,
    ) -> Result<Quick, AllocError> {
        self.trail.go_on(lines, layout, place)?;
        self.forget();
        if self.counts.rises_to(self.trail.placed) {
            self.choice_points.leave();
            self.cut = None;
        }
        if self.trail.placed == layout.completed {
            return Ok(Quick::Found);
        }
        Ok(Quick::On)
    }
}
