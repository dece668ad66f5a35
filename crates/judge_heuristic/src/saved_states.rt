//! Kept states of a quick search, from which it rebuilds the state after going back.

use crate::trail::Turn;
use judge_object::{Line, Object};
use std::alloc::{AllocError, Global};
use std::collections::VecDeque;
use vac_model::{Reply, ValidTask};

/// Largest number of calls between two kept states. A kept state shares its data with the running
/// one, so the calls after it copy what they change; going back makes fewer calls again than were
/// made since.
const MOST_STRIDE: usize = 131_072;

/// Number of states that are kept before some are dropped.
const MOST_KEPT: usize = 8_192;

/// A kept state, and the number of calls that were made before it.
#[derive(Drop)]
pub(crate) struct SavedState<M> {
    pub(crate) at: usize,
    pub(crate) machine: M,
}

/// The kept states, in the order of their calls. The longer nothing was taken back, the fewer
/// states are kept.
#[derive(Drop)]
pub(crate) struct SavedStates<M> {
    kept: VecDeque<SavedState<M>>,
    /// Number of calls until the next state is kept.
    stride: usize,
    /// Number of states that are kept before some are dropped.
    most: usize,
}

impl<M: Object<Op = ValidTask, Reply = Reply> + Drop> SavedStates<M> {
    /// Creates an empty collection of states.
    pub(crate) fn new(alloc: Global) -> SavedStates<M> {
        SavedStates {
            kept: VecDeque::new(alloc),
            stride: 1,
            most: MOST_KEPT,
        }
    }

    /// Drops every second state, unless more than `MOST_STRIDE` calls would then lie between two
    /// states. The first and the last state stay.
    fn thin(&mut self) -> Result<(), AllocError> {
        let count = self.kept.len();
        let mut last = 0;
        let mut stays = false;
        for number in 0..count {
            let Some(saved_state) = self.kept.pop_front() else {
                return Ok(());
            };
            let next = match self.kept.front() {
                Some(next) if number + 1 < count => next.at,
                _ => usize::MAX,
            };
            stays = !stays || MOST_STRIDE < next.saturating_sub(last);
            if stays {
                last = saved_state.at;
                self.kept.push_back(saved_state)?;
            }
        }
        Ok(())
    }

    /// Keeps a copy of the state after `at` calls.
    fn push(&mut self, at: usize, machine: &M) -> Result<(), AllocError> {
        let machine = machine.copy()?;
        self.kept.push_back(SavedState { at, machine })?;
        if self.most < self.kept.len() {
            self.thin()?;
            self.most = self.kept.len().saturating_mul(2).max(MOST_KEPT);
        }
        Ok(())
    }

    /// Keeps the state after `at` calls, if it is due.
    pub(crate) fn keep(&mut self, at: usize, machine: &M) -> Result<(), AllocError> {
        if let Some(last) = self.kept.back()
            && at < last.at.saturating_add(self.stride)
        {
            return Ok(());
        }
        self.push(at, machine)?;
        self.stride = self.stride.saturating_mul(2).min(MOST_STRIDE);
        Ok(())
    }

    /// Keeps the state after `at` of `length` calls, if at least as many calls were made since the
    /// last kept state as are left.
    fn keep_halfway(&mut self, at: usize, length: usize, machine: &M) -> Result<(), AllocError> {
        let since = match self.kept.back() {
            Some(last) => at.saturating_sub(last.at),
            None => 0,
        };
        if since != 0 && length.saturating_sub(at) <= since {
            self.push(at, machine)?;
        }
        Ok(())
    }

    /// Rebuilds the state after the calls of a path: runs the calls again from the last kept
    /// state. Further states are kept on the way, more densely toward the end. Then a state is
    /// kept after the next call, and later ones more and more seldom. No kept state comes after
    /// more calls than the path has.
    pub(crate) fn made_again(
        &mut self,
        lines: &[Line<ValidTask>],
        path: &[Turn],
    ) -> Result<Option<M>, AllocError> {
        self.stride = 1;
        let Some(last) = self.kept.back() else {
            return Ok(None);
        };
        let (at, mut machine) = (last.at, last.machine.copy()?);
        for number in at..path.len() {
            self.keep_halfway(number, path.len(), &machine)?;
            let Some(line) = lines.get(path[number].place) else {
                return Ok(None);
            };
            machine = machine.made(&line.op)?.0;
        }
        Ok(Some(machine))
    }

    /// Drops the states that are not needed to go back to `at` calls or more.
    pub(crate) fn forget(&mut self, at: usize) {
        for _ in 0..self.kept.len() {
            match self.kept.get(1) {
                Some(second) if second.at <= at => {}
                _ => return,
            }
            self.kept.pop_front();
        }
    }

    /// Removes the states after more than `at` calls, and returns them, the last one first.
    pub(crate) fn cut(
        &mut self,
        alloc: Global,
        at: usize,
    ) -> Result<Vec<SavedState<M>>, AllocError> {
        let mut cut = Vec::new(alloc);
        for _ in 0..self.kept.len() {
            match self.kept.back() {
                Some(last) if at < last.at => {}
                _ => break,
            }
            if let Some(last) = self.kept.pop_back() {
                cut.push(last)?;
            }
        }
        Ok(cut)
    }

    /// Puts back the states that were removed. A state is then kept after the next call.
    pub(crate) fn put_back(&mut self, mut cut: Vec<SavedState<M>>) -> Result<(), AllocError> {
        for _ in 0..cut.len() {
            if let Some(saved_state) = cut.pop() {
                self.kept.push_back(saved_state)?;
            }
        }
        self.stride = 1;
        Ok(())
    }
}
