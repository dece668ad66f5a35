//! The configurations to which a beam search may go on from a configuration.

use crate::configuration::{Chain, Configuration};
use crate::layout::Layout;
use crate::search::led_to;
use crate::trail::is_completed;
use judge_object::{Line, Object};
use std::alloc::{AllocError, Global};
use vac_model::{Reply, ValidTask};

/// Costs: of a completed call that comes before the call that ends first although that call gives
/// its reply in either order, or gives it in neither order; of such a call after which the call
/// that ends first does not give its reply; of a pending call that is needed, and of one that is
/// not; of two pending calls, or of a pending call before another completed call.
const BEFORE: u64 = 1;

const BLOCKING: u64 = 2;

const NEEDED: u64 = 1;

const EAGER: u64 = 2;

const TWO: u64 = 3;

/// A configuration, and the calls that lead to it.
#[derive(Drop)]
pub(crate) struct Successor<M> {
    pub(crate) chain: Chain,
    pub(crate) configuration: Configuration<M>,
}

/// The configurations that are offered.
#[derive(Drop)]
pub(crate) struct Successors<M> {
    alloc: Global,
    pub(crate) offered: Vec<Successor<M>>,
    /// Buffer for the text of the last compared reply.
    text: Vec<u8>,
    /// True if pending calls that are not needed, and all completed calls that may come next, are
    /// tried.
    is_wide: bool,
}

impl<M: Object<Op = ValidTask, Reply = Reply> + Drop> Successors<M> {
    /// Creates an empty collection.
    pub(crate) fn new(alloc: Global, is_wide: bool) -> Successors<M> {
        Successors {
            alloc,
            offered: Vec::new(alloc),
            text: Vec::new(alloc),
            is_wide,
        }
    }

    /// Offers the configuration after these calls, which lead to a state and have a cost.
    fn add(
        &mut self,
        layout: &Layout,
        from: &Configuration<M>,
        chain: Chain,
        reached: (M, u64),
    ) -> Result<(), AllocError> {
        let configuration = from.after(self.alloc, layout, chain, reached)?;
        self.offered.push(Successor {
            chain,
            configuration,
        })?;
        Ok(())
    }

    /// Returns the cost of a completed call that comes before the call that ends first, if that
    /// order is worth a try: 0 if the completed call does not give its reply after the other one.
    /// The completed call leads to the state `now`, the call that ends first to the state `after`.
    fn cost_before(
        &mut self,
        lines: &[Line<ValidTask>],
        low: usize,
        place: usize,
        now: &M,
        after: &M,
    ) -> Result<Option<u64>, AllocError> {
        let Some(both) = led_to(&mut self.text, Some(now), lines, low)? else {
            return Ok(Some(BLOCKING));
        };
        match led_to(&mut self.text, Some(after), lines, place)? {
            None => Ok(Some(0)),
            Some(later) if later.hash() == both.hash() => Ok(None),
            Some(_) => Ok(Some(BEFORE)),
        }
    }

    /// Offers a completed call before the call that ends first, which leads to the state `after`.
    /// Returns whether only that order is correct.
    fn add_before(
        &mut self,
        lines: &[Line<ValidTask>],
        layout: &Layout,
        from: &Configuration<M>,
        place: usize,
        after: &M,
    ) -> Result<bool, AllocError> {
        let meets = layout.may_meet(from.low, place);
        let leads = self.is_wide || from.leads(lines, layout, place);
        if !meets && !leads {
            return Ok(false);
        }
        let Some(now) = led_to(&mut self.text, Some(&from.machine), lines, place)? else {
            if self.is_wide && meets {
                self.add_unblocking(lines, layout, from, place)?;
            }
            return Ok(false);
        };
        let mut cost = None;
        if meets {
            cost = self.cost_before(lines, from.low, place, &now, after)?;
        }
        if cost.is_none() && leads {
            cost = Some(BEFORE);
        }
        let Some(cost) = cost else {
            return Ok(false);
        };
        self.add(layout, from, layout.one(place), (now, cost))?;
        Ok(cost == 0)
    }

    /// Offers a pending call before the call that ends first, which leads to the state `after`, if
    /// their order matters.
    fn add_eager(
        &mut self,
        lines: &[Line<ValidTask>],
        layout: &Layout,
        from: &Configuration<M>,
        place: usize,
        after: &M,
    ) -> Result<(), AllocError> {
        let Some(now) = self.effect(lines, layout, from, place)? else {
            return Ok(());
        };
        let Some(both) = led_to(&mut self.text, Some(&now), lines, from.low)? else {
            return self.add_second(lines, layout, from, place, &now);
        };
        if let Some(later) = led_to(&mut self.text, Some(after), lines, place)?
            && later.hash() == both.hash()
        {
            return Ok(());
        }
        self.add(layout, from, layout.two(place, from.low), (both, EAGER))
    }

    /// Returns the state after a pending call that may conflict with the call that ends first, if
    /// the pending call changes the state.
    fn effect(
        &mut self,
        lines: &[Line<ValidTask>],
        layout: &Layout,
        from: &Configuration<M>,
        place: usize,
    ) -> Result<Option<M>, AllocError> {
        if !layout.may_meet(from.low, place) {
            return Ok(None);
        }
        let Some(now) = led_to(&mut self.text, Some(&from.machine), lines, place)? else {
            return Ok(None);
        };
        if now.hash() == from.machine.hash() {
            return Ok(None);
        }
        Ok(Some(now))
    }

    /// Offers a pending call, another one that led to the state `now` before it, and the call that
    /// ends first.
    fn add_second(
        &mut self,
        lines: &[Line<ValidTask>],
        layout: &Layout,
        from: &Configuration<M>,
        first: usize,
        now: &M,
    ) -> Result<(), AllocError> {
        let low = from.low;
        for client in 0..from.heads.len() {
            let second = from.heads[client];
            if second == first || !from.is_open(lines, second) || is_completed(lines, second) {
                continue;
            }
            if !layout.may_meet(low, second) {
                continue;
            }
            let Some(next) = led_to(&mut self.text, Some(now), lines, second)? else {
                continue;
            };
            if next.hash() == now.hash() {
                continue;
            }
            if let Some(both) = led_to(&mut self.text, Some(&next), lines, low)? {
                let chain = Chain {
                    first,
                    second,
                    place: low,
                };
                self.add(layout, from, chain, (both, TWO))?;
            }
        }
        Ok(())
    }

    /// Offers a pending call before the call that ends first, which does not give its reply, and
    /// two pending calls of which this one is the first.
    fn add_needed(
        &mut self,
        lines: &[Line<ValidTask>],
        layout: &Layout,
        from: &Configuration<M>,
        place: usize,
    ) -> Result<(), AllocError> {
        let Some(now) = self.effect(lines, layout, from, place)? else {
            return Ok(());
        };
        if let Some(both) = led_to(&mut self.text, Some(&now), lines, from.low)? {
            self.add(layout, from, layout.two(place, from.low), (both, NEEDED))?;
        }
        self.add_second(lines, layout, from, place, &now)
    }

    /// Offers pending calls before a completed call that does not give its reply.
    fn add_unblocking(
        &mut self,
        lines: &[Line<ValidTask>],
        layout: &Layout,
        from: &Configuration<M>,
        place: usize,
    ) -> Result<(), AllocError> {
        for client in 0..from.heads.len() {
            let first = from.heads[client];
            if !from.is_open(lines, first) || is_completed(lines, first) {
                continue;
            }
            if !layout.may_meet(place, first) {
                continue;
            }
            let now = led_to(&mut self.text, Some(&from.machine), lines, first)?;
            if let Some(both) = led_to(&mut self.text, now.as_ref(), lines, place)? {
                self.add(layout, from, layout.two(first, place), (both, TWO))?;
            }
        }
        Ok(())
    }

    /// Offers a completed call before the call that ends first, which does not give its reply.
    fn add_beside(
        &mut self,
        lines: &[Line<ValidTask>],
        layout: &Layout,
        from: &Configuration<M>,
        place: usize,
    ) -> Result<(), AllocError> {
        let Some(now) = led_to(&mut self.text, Some(&from.machine), lines, place)? else {
            if layout.may_meet(from.low, place) {
                return self.add_unblocking(lines, layout, from, place);
            }
            return Ok(());
        };
        let cost = match led_to(&mut self.text, Some(&now), lines, from.low)? {
            Some(_) => 0,
            None => BEFORE,
        };
        self.add(layout, from, layout.one(place), (now, cost))
    }

    /// Offers calls if the call that ends first does not give its reply.
    fn expand_blocked(
        &mut self,
        lines: &[Line<ValidTask>],
        layout: &Layout,
        from: &Configuration<M>,
    ) -> Result<(), AllocError> {
        for client in 0..from.heads.len() {
            let place = from.heads[client];
            if !from.is_open(lines, place) {
                continue;
            }
            if is_completed(lines, place) {
                self.add_beside(lines, layout, from, place)?;
            } else {
                self.add_needed(lines, layout, from, place)?;
            }
        }
        Ok(())
    }

    /// Offers calls if the call that ends first gives its reply, and leads to the state `after`.
    fn expand_open(
        &mut self,
        lines: &[Line<ValidTask>],
        layout: &Layout,
        from: &Configuration<M>,
        after: M,
    ) -> Result<(), AllocError> {
        let mut cost = 0;
        for client in 0..from.heads.len() {
            let place = from.heads[client];
            if !from.is_open(lines, place) {
                continue;
            }
            if !is_completed(lines, place) {
                if self.is_wide {
                    self.add_eager(lines, layout, from, place, &after)?;
                }
            } else if self.add_before(lines, layout, from, place, &after)? {
                cost = BEFORE;
            }
        }
        self.add(layout, from, layout.one(from.low), (after, cost))
    }

    /// Offers the configurations after one more completed call.
    pub(crate) fn expand(
        &mut self,
        lines: &[Line<ValidTask>],
        layout: &Layout,
        from: &Configuration<M>,
    ) -> Result<(), AllocError> {
        match led_to(&mut self.text, Some(&from.machine), lines, from.low)? {
            Some(after) => self.expand_open(lines, layout, from, after),
            None => self.expand_blocked(lines, layout, from),
        }
    }
}
