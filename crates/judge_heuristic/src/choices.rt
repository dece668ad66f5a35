//! The choice of the next call in a quick search.

use crate::layout::Layout;
use crate::search::{QuickSearch, led_from, led_to};
use crate::trail::{Trail, is_completed};
use judge_object::{Line, Object};
use std::alloc::{AllocError, Global};
use vac_model::{Reply, ValidTask};

/// Largest number of following calls by which the quality of a choice is measured.
const FARTHEST: u64 = 128;

/// Number of calls that one measurement of a choice counts as.
const MADE: u64 = 16;

/// A call after which the call that ends first gives its reply: the number of following calls that
/// then give theirs, the call's position and the state after the call.
#[derive(Drop)]
struct Help<M> {
    reach: u64,
    place: usize,
    machine: M,
}

/// Returns the number of calls that give their replies in the order of their ends, from the state
/// `machine` on. In that state the call at position `made` is placed besides the calls of the
/// trail. Counting stops at the first call that does not give its reply, or at `FARTHEST`.
fn reach_of<M: Object<Op = ValidTask, Reply = Reply> + Drop>(
    text: &mut Vec<u8>,
    trail: &Trail,
    lines: &[Line<ValidTask>],
    layout: &Layout,
    made: usize,
    mut machine: M,
) -> Result<u64, AllocError> {
    let mut count: u64 = 0;
    for place in trail.low..lines.len() {
        if place == made || trail.is_made(layout, place) {
            continue;
        }
        let Some(next) = led_from(text, machine, lines, place)? else {
            return Ok(count);
        };
        machine = next;
        count = count.wrapping_add(1);
        if FARTHEST <= count {
            return Ok(count);
        }
    }
    Ok(count)
}

impl<M: Object<Op = ValidTask, Reply = Reply> + Drop> QuickSearch<M> {
    /// Returns whether the candidate must precede the call that ends first; a random deviation may
    /// reverse the result. The candidate leads to the state `now`, the call that ends first to the
    /// state `after`.
    fn is_first(
        &mut self,
        lines: &[Line<ValidTask>],
        place: usize,
        now: &M,
        after: &M,
    ) -> Result<bool, AllocError> {
        let low = self.trail.low;
        let Some(both) = led_to(&mut self.text, Some(now), lines, low)? else {
            return Ok(false);
        };
        let is_needed = match led_to(&mut self.text, Some(after), lines, place)? {
            None => is_completed(lines, place),
            Some(later) if later.hash() == both.hash() => return Ok(false),
            Some(_) => false,
        };
        let is_first = is_needed != self.counts.deviates(4);
        if is_first {
            self.add_choice_point(place, low)?;
        } else {
            self.add_choice_point(low, place)?;
        }
        Ok(is_first)
    }

    /// As `is_first`, for two calls that conflict only through the capacity. The candidate's reply
    /// says that no block is left, and the candidate does not give its reply after the call that
    /// ends first.
    fn is_full_first(&mut self, lines: &[Line<ValidTask>], now: &M) -> Result<bool, AllocError> {
        if let Some(machine) = &self.machine
            && machine.hash() == now.hash()
        {
            return Ok(true);
        }
        if !self.counts.deviates(2) {
            return Ok(false);
        }
        Ok(led_to(&mut self.text, Some(now), lines, self.trail.low)?.is_some())
    }

    /// Returns the state after a candidate, if the candidate must precede the call that ends
    /// first. That call leads to the state `after`.
    fn rival(
        &mut self,
        lines: &[Line<ValidTask>],
        layout: &Layout,
        place: usize,
        after: &M,
    ) -> Result<Option<M>, AllocError> {
        let Some(now) = led_to(&mut self.text, self.machine.as_ref(), lines, place)? else {
            return Ok(None);
        };
        let is_first = if layout.meets(self.trail.low, place) {
            self.is_first(lines, place, &now, after)?
        } else {
            is_completed(lines, place)
                && led_to(&mut self.text, Some(after), lines, place)?.is_none()
                && self.is_full_first(lines, &now)?
        };
        if is_first { Ok(Some(now)) } else { Ok(None) }
    }

    /// Searches the candidates for one that must precede the call that ends first, which leads to
    /// the state `after`.
    fn guard(
        &mut self,
        lines: &[Line<ValidTask>],
        layout: &Layout,
        rivals: &[usize],
        after: &M,
    ) -> Result<Option<(usize, M)>, AllocError> {
        for number in 0..rivals.len() {
            let place = rivals[number];
            if !self.counts.may_look(MADE) {
                return Ok(None);
            }
            if let Some(now) = self.rival(lines, layout, place, after)? {
                return Ok(Some((place, now)));
            }
        }
        Ok(None)
    }

    /// Returns a call that may come next, if the call that ends first gives its reply after it.
    /// The measure of the call is a random number if `is_drawn`.
    fn help(
        &mut self,
        lines: &[Line<ValidTask>],
        layout: &Layout,
        place: usize,
        is_drawn: bool,
    ) -> Result<Option<Help<M>>, AllocError> {
        if place == self.trail.low || !self.trail.is_open(lines, place) {
            return Ok(None);
        }
        let Some(machine) = led_to(&mut self.text, self.machine.as_ref(), lines, place)? else {
            return Ok(None);
        };
        let copy = machine.copy()?;
        let mut reach = reach_of(&mut self.text, &self.trail, lines, layout, place, copy)?;
        if reach == 0 {
            return Ok(None);
        }
        if is_drawn {
            reach = self.counts.draw(FARTHEST);
        }
        Ok(Some(Help {
            reach,
            place,
            machine,
        }))
    }

    /// Returns the best helping call among the next calls of all clients, and the position of
    /// another helping call, if there is one.
    fn best_help(
        &mut self,
        lines: &[Line<ValidTask>],
        layout: &Layout,
        is_drawn: bool,
    ) -> Result<(Option<Help<M>>, usize), AllocError> {
        let mut best: Option<Help<M>> = None;
        let mut other = lines.len();
        for client in 0..self.trail.heads.len() {
            let place = self.trail.head(client);
            let Some(help) = self.help(lines, layout, place, is_drawn)? else {
                continue;
            };
            let Some(old) = &best else {
                best = Some(help);
                continue;
            };
            if old.reach < help.reach || old.reach == help.reach && place < old.place {
                other = old.place;
                best = Some(help);
            } else {
                other = place;
            }
        }
        Ok((best, other))
    }

    /// Makes a call after which the call that ends first gives its reply: the call after which
    /// most of the following calls give theirs, or a random one. Returns `None` if no call helps,
    /// or if the calls of all clients may not be looked at.
    fn look_ahead(
        &mut self,
        lines: &[Line<ValidTask>],
        layout: &Layout,
        may_look: bool,
    ) -> Result<Option<usize>, AllocError> {
        let is_drawn = self.counts.deviates(2);
        if !may_look {
            return Ok(None);
        }
        let (best, other) = self.best_help(lines, layout, is_drawn)?;
        let Some(
            Help {
                reach: _,
                place,
                machine,
            },
        ) = best
        else {
            return Ok(None);
        };
        if other < lines.len() {
            self.add_choice_point(place, other)?;
        }
        self.move_to(machine)?;
        Ok(Some(place))
    }

    /// Makes the next planned call, and returns its position. A planned call that does not give
    /// its reply is left out. Returns `None` if the plan is empty, if the next planned call may
    /// not come next, or if it is the call that ends first and does not give its reply.
    pub(crate) fn planned(
        &mut self,
        lines: &[Line<ValidTask>],
        layout: &Layout,
    ) -> Result<Option<usize>, AllocError> {
        for _ in 0..self.plan.len() {
            let Some(place) = self.plan.pop() else {
                return Ok(None);
            };
            if self.trail.head(layout.spot(place).client) != place {
                continue;
            }
            let is_open = self.trail.is_open(lines, place);
            if is_open && self.attempt(lines, place)? {
                self.choice_points.note_again(&self.trail, layout, place)?;
                return Ok(Some(place));
            }
            if place == self.trail.low || !is_open {
                self.plan.push(place)?;
                return Ok(None);
            }
        }
        Ok(None)
    }

    /// Makes the call that ends first, or a candidate that must precede it. If the call that ends
    /// first does not give its reply, makes a call after which it does.
    fn decide(
        &mut self,
        lines: &[Line<ValidTask>],
        layout: &Layout,
        rivals: &[usize],
    ) -> Result<Option<usize>, AllocError> {
        let low = self.trail.low;
        let Some(after) = led_to(&mut self.text, self.machine.as_ref(), lines, low)? else {
            return self.look_ahead(lines, layout, true);
        };
        if let Some((place, now)) = self.guard(lines, layout, rivals, &after)? {
            self.move_to(now)?;
            return Ok(Some(place));
        }
        self.move_to(after)?;
        Ok(Some(low))
    }

    /// Makes a call that is not planned, and returns its position.
    pub(crate) fn unplanned(
        &mut self,
        alloc: Global,
        lines: &[Line<ValidTask>],
        layout: &Layout,
    ) -> Result<Option<usize>, AllocError> {
        let low = self.trail.low;
        let may_look = self.counts.may_look(self.trail.heads.len() as u64);
        if may_look {
            let rivals = self.trail.rivals(alloc, lines, layout)?;
            if !rivals.is_empty() {
                return self.decide(lines, layout, rivals.as_slice());
            }
        }
        if self.attempt(lines, low)? {
            return Ok(Some(low));
        }
        self.look_ahead(lines, layout, may_look)
    }
}
