//! Backtracking in a quick search when no call fits.

use crate::choice_points::Pair;
use crate::layout::Layout;
use crate::search::{Cut, Quick, QuickSearch, led_to};
use crate::trail::places_of;
use judge_object::{Line, Object};
use std::alloc::{AllocError, Global};
use vac_model::{Reply, ValidTask};

impl<M: Object<Op = ValidTask, Reply = Reply> + Drop> QuickSearch<M> {
    /// Cuts the trail after `at` calls, with its choice points and kept states, and returns the
    /// cut part.
    fn cut_to(
        &mut self,
        alloc: Global,
        lines: &[Line<ValidTask>],
        layout: &Layout,
        at: usize,
    ) -> Result<Cut<M>, AllocError> {
        let choice_points = self.choice_points.cut_to(alloc, at)?;
        let tail = self.trail.cut_to(alloc, lines, layout, at)?;
        let saved_states = self.saved_states.cut(alloc, at)?;
        Ok(Cut {
            at,
            tail,
            choice_points,
            saved_states,
            machine: self.machine.take(),
        })
    }

    /// Empties the plan.
    fn plan_none(&mut self, alloc: Global) {
        self.plan = Vec::new(alloc);
        self.choice_points.again = Vec::new(alloc);
    }

    /// Puts back the last cut part, in the place of all calls made since. Returns whether there
    /// was a cut part.
    fn undo(
        &mut self,
        alloc: Global,
        lines: &[Line<ValidTask>],
        layout: &Layout,
    ) -> Result<bool, AllocError> {
        let Some(cut) = self.cut.take() else {
            return Ok(false);
        };
        let Cut {
            at,
            tail,
            choice_points,
            saved_states,
            machine,
        } = cut;
        self.cut_to(alloc, lines, layout, at)?;
        self.machine = machine;
        self.trail.put_back(lines, layout, tail)?;
        self.choice_points.put_back(choice_points)?;
        self.saved_states.put_back(saved_states)?;
        self.plan_none(alloc);
        Ok(true)
    }

    /// Decides a choice point the other way, and plans the calls after it again, with their choice
    /// points. If the other call does not give its reply there, the trail stays and the plan is
    /// empty.
    fn jump(
        &mut self,
        alloc: Global,
        lines: &[Line<ValidTask>],
        layout: &Layout,
        pair: Pair,
    ) -> Result<Option<Quick>, AllocError> {
        let Some(at) = self.choice_points.last_of(&self.trail, pair) else {
            return Ok(None);
        };
        self.cut = Some(self.cut_to(alloc, lines, layout, at)?);
        self.trail.settled = self.trail.settled.min(at);
        self.make_again(lines)?;
        let machine = self.machine.as_ref();
        let Some(next) = led_to(&mut self.text, machine, lines, pair.other)? else {
            self.undo(alloc, lines, layout)?;
            return Ok(None);
        };
        self.move_to(next)?;
        if let Some(cut) = &self.cut {
            self.plan = places_of(alloc, cut.tail.turns.as_slice())?;
            self.choice_points
                .plan(alloc, cut.choice_points.as_slice())?;
        }
        Ok(Some(self.go_on(lines, layout, pair.other)?))
    }

    /// Tries the next choice point the other way.
    fn try_next(
        &mut self,
        alloc: Global,
        lines: &[Line<ValidTask>],
        layout: &Layout,
    ) -> Result<Option<Quick>, AllocError> {
        for _ in 0..self.choice_points.tries.len() {
            let Some(pair) = self.choice_points.next_try() else {
                break;
            };
            if let Some(quick) = self.jump(alloc, lines, layout, pair)? {
                return Ok(Some(quick));
            }
        }
        Ok(None)
    }

    /// Decides the last collected choice point the other way, although no try helped.
    fn try_last(
        &mut self,
        alloc: Global,
        lines: &[Line<ValidTask>],
        layout: &Layout,
    ) -> Result<Option<Quick>, AllocError> {
        if !self.counts.may_jump() {
            return Ok(None);
        }
        let Some(last) = self.choice_points.take_tried(alloc) else {
            return Ok(None);
        };
        let quick = self.jump(alloc, lines, layout, last)?;
        if quick.is_some() {
            self.cut = None;
        }
        Ok(quick)
    }

    /// Goes back a random number of calls, which tends to grow with the number of backtracks.
    /// Gives up after too many backtracks.
    fn backtrack(
        &mut self,
        alloc: Global,
        lines: &[Line<ValidTask>],
        layout: &Layout,
    ) -> Result<Quick, AllocError> {
        let Some(count) = self.counts.count_fail() else {
            return Ok(Quick::Missed);
        };
        self.plan_none(alloc);
        for _ in 0..count {
            let Some(length) = self.trail.go_back(lines, layout) else {
                break;
            };
            self.choice_points.forget(length);
        }
        self.saved_states.cut(alloc, self.trail.path.len())?;
        self.make_again(lines)?;
        Ok(Quick::On)
    }

    /// Continues the search when no call fits: undoes the last try, or collects choice points to
    /// try if there was none, and tries the next one.
    pub(crate) fn turn_back(
        &mut self,
        alloc: Global,
        lines: &[Line<ValidTask>],
        layout: &Layout,
    ) -> Result<Quick, AllocError> {
        if !self.undo(alloc, lines, layout)? && self.counts.count_jump() {
            self.choice_points.find_tries(alloc, &self.trail, layout)?;
        }
        if let Some(quick) = self.try_next(alloc, lines, layout)? {
            return Ok(quick);
        }
        if let Some(quick) = self.try_last(alloc, lines, layout)? {
            return Ok(quick);
        }
        self.backtrack(alloc, lines, layout)
    }
}
