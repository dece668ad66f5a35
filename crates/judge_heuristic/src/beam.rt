//! A beam search for an order of the calls of a history with pending calls. Nothing is proved of
//! the search, and the order that it proposes is checked.
//!
//! The search places one completed call after another, and keeps a number of configurations: those
//! of the least costs. A pending call takes effect only directly before a completed call: because
//! the completed call then gives its reply, or because the order of the two calls matters. Each
//! pending call that takes effect has a cost, and so has each completed call that does not come in
//! the order of the ends. If no configuration is left, the search goes back to a checkpoint, and
//! keeps more configurations from there until it is past the calls that were hard to place.

use crate::configuration::{Chain, Configuration};
use crate::layout::Layout;
use crate::successors::{Successor, Successors};
use judge_object::{Line, Object, Watcher};
use std::alloc::{AllocError, Global};
use std::collections::BTreeSet;
use vac_model::{Reply, ValidTask};

/// Largest number of times that the search turns back before it places more calls than ever.
const MOST_RESTARTS: u64 = 5;

/// Number of completed calls between two checkpoints.
const STRIDE: u64 = 32;

/// Number of completed calls that the search places beyond those at which it turned back, before
/// it is narrow again.
const PAST: u64 = 64;

/// Largest number of checkpoints.
const MOST_CHECKPOINTS: usize = 64;

/// Largest number of configurations from which the search goes on, for each call and in all.
const MOST_FOR_EACH: usize = 128;

const MOST_IN_ALL: usize = 4_194_304;

/// Largest difference of the costs of two configurations that are kept.
const MOST_SPREAD: u64 = 24;

/// A call that was placed: its position, and the number of the step before; 0 if there is none.
/// Steps count from 1.
#[derive(Clone, Copy)]
struct Step {
    place: usize,
    before: usize,
}

/// The way in which the search goes on.
#[derive(Clone, Copy)]
struct Plan {
    /// Largest number of configurations that are kept.
    width: usize,
    /// True if pending calls that are not needed, and all completed calls that may come next, are
    /// tried.
    is_wide: bool,
    /// Number of completed calls that the search goes back.
    back: u64,
}

/// The configurations that were kept when this number of completed calls was placed.
#[derive(Drop)]
struct Checkpoint<M> {
    level: u64,
    kept: Vec<Configuration<M>>,
}

/// A beam search.
#[derive(Drop)]
struct Beam<M> {
    alloc: Global,
    plan: Plan,
    /// The configurations that are kept. Each has the same number of completed calls.
    kept: Vec<Configuration<M>>,
    level: u64,
    /// The hashes of the configurations that are kept.
    seen: BTreeSet<u64>,
    /// The calls that were placed, in all configurations.
    steps: Vec<Step>,
    checkpoints: Vec<Checkpoint<M>>,
    /// Largest number of completed calls that were placed when the search turned back, and the
    /// number of times that it has turned back since.
    most: u64,
    tries: u64,
    /// Number of configurations from which the search went on.
    expanded: usize,
}

/// Returns the way in which the search goes on after it has turned back this many times.
fn plan_of(tries: u64) -> Plan {
    let (width, is_wide, back) = match tries {
        0 => (16, false, 0),
        1 => (64, true, 128),
        2 => (128, true, 256),
        3 => (256, true, 384),
        4 => (256, true, 768),
        _ => (512, true, 768),
    };
    Plan {
        width,
        is_wide,
        back,
    }
}

/// Returns copies of configurations.
fn copies<M: Object<Op = ValidTask, Reply = Reply> + Drop>(
    alloc: Global,
    kept: &[Configuration<M>],
) -> Result<Vec<Configuration<M>>, AllocError> {
    let mut copies = Vec::new(alloc);
    for configuration in kept {
        copies.push(configuration.copy(alloc)?)?;
    }
    Ok(copies)
}

/// Returns the least cost of a configuration.
fn least_cost<M>(successors: &[Successor<M>]) -> u64 {
    let mut least = u64::MAX;
    for successor in successors {
        least = least.min(successor.configuration.cost);
    }
    least
}

impl<M: Object<Op = ValidTask, Reply = Reply> + Drop> Beam<M> {
    /// Creates a search that begins at a configuration.
    fn new(alloc: Global, start: Configuration<M>) -> Result<Beam<M>, AllocError> {
        let mut kept = Vec::new(alloc);
        kept.push(start)?;
        Ok(Beam {
            alloc,
            plan: plan_of(0),
            kept,
            level: 0,
            seen: BTreeSet::new(alloc),
            steps: Vec::new(alloc),
            checkpoints: Vec::new(alloc),
            most: 0,
            tries: 0,
            expanded: 0,
        })
    }

    /// Notes that a call was placed, unless there is none at this position, and returns the number
    /// of the last step.
    fn note(&mut self, count: usize, place: usize, before: usize) -> Result<usize, AllocError> {
        if count <= place {
            return Ok(before);
        }
        self.steps.push(Step { place, before })?;
        Ok(self.steps.len())
    }

    /// Keeps a configuration, unless an equal one is kept.
    fn keep(&mut self, count: usize, successor: Successor<M>) -> Result<(), AllocError> {
        let Successor {
            chain,
            mut configuration,
        } = successor;
        let hash = configuration.key ^ configuration.machine.hash();
        if self.plan.width <= self.kept.len() || !self.seen.insert(hash)? {
            return Ok(());
        }
        let Chain {
            first,
            second,
            place,
        } = chain;
        let mut last = self.note(count, first, configuration.last)?;
        last = self.note(count, second, last)?;
        configuration.last = self.note(count, place, last)?;
        self.kept.push(configuration)?;
        Ok(())
    }

    /// Keeps the configurations of this cost, and returns the others.
    fn keep_cost(
        &mut self,
        count: usize,
        mut successors: Vec<Successor<M>>,
        cost: u64,
    ) -> Result<Vec<Successor<M>>, AllocError> {
        let mut others = Vec::new(self.alloc);
        for _ in 0..successors.len() {
            let Some(successor) = successors.pop() else {
                break;
            };
            if successor.configuration.cost == cost {
                self.keep(count, successor)?;
            } else {
                others.push(successor)?;
            }
        }
        Ok(others)
    }

    /// Keeps the configurations of the least costs.
    fn keep_best(
        &mut self,
        count: usize,
        mut successors: Vec<Successor<M>>,
    ) -> Result<(), AllocError> {
        self.seen = BTreeSet::new(self.alloc);
        let least = least_cost(successors.as_slice());
        for more in 0..MOST_SPREAD {
            if successors.is_empty() || self.plan.width <= self.kept.len() {
                break;
            }
            successors = self.keep_cost(count, successors, least.wrapping_add(more))?;
        }
        Ok(())
    }

    /// Places one more completed call in each configuration.
    fn go_on(&mut self, lines: &[Line<ValidTask>], layout: &Layout) -> Result<(), AllocError> {
        let mut successors = Successors::new(self.alloc, self.plan.is_wide);
        self.expanded = self.expanded.saturating_add(self.kept.len());
        for _ in 0..self.kept.len() {
            if let Some(configuration) = self.kept.pop() {
                successors.expand(lines, layout, &configuration)?;
            }
        }
        self.keep_best(lines.len(), successors.offered)
    }

    /// Notes a checkpoint, if the next one is due.
    fn note_checkpoint(&mut self) -> Result<(), AllocError> {
        let level = self.level;
        if let Some(last) = self.checkpoints.last()
            && level < last.level.saturating_add(STRIDE)
        {
            return Ok(());
        }
        if MOST_CHECKPOINTS <= self.checkpoints.len() {
            self.checkpoints.remove(0);
        }
        let kept = copies(self.alloc, self.kept.as_slice())?;
        self.checkpoints.push(Checkpoint { level, kept })?;
        Ok(())
    }

    /// Drops the last checkpoints, unless they are far enough back.
    fn drop_checkpoints(&mut self) {
        for _ in 0..self.checkpoints.len() {
            let count = self.checkpoints.len();
            if count < 2 {
                return;
            }
            let last = self.checkpoints[count - 1].level;
            if last.saturating_add(self.plan.back) <= self.level {
                return;
            }
            self.checkpoints.pop();
        }
    }

    /// Goes back to a checkpoint. Returns whether the search may go on.
    fn turn_back(&mut self) -> Result<bool, AllocError> {
        if self.most < self.level {
            self.most = self.level;
            self.tries = 0;
        }
        self.tries = self.tries.wrapping_add(1);
        self.plan = plan_of(self.tries);
        self.drop_checkpoints();
        let count = self.checkpoints.len();
        if MOST_RESTARTS < self.tries || count == 0 {
            return Ok(false);
        }
        let last = &self.checkpoints[count - 1];
        let level = last.level;
        let kept = copies(self.alloc, last.kept.as_slice())?;
        self.kept = kept;
        self.level = level;
        Ok(true)
    }

    /// Makes a step of the search. Returns whether the search may go on.
    fn step(&mut self, lines: &[Line<ValidTask>], layout: &Layout) -> Result<bool, AllocError> {
        self.note_checkpoint()?;
        self.go_on(lines, layout)?;
        if self.kept.is_empty() {
            return self.turn_back();
        }
        self.level = self.level.wrapping_add(1);
        if self.most.saturating_add(PAST) < self.level {
            self.tries = 0;
            self.plan = plan_of(0);
        }
        Ok(true)
    }

    /// Returns the positions of the calls of the best configuration, if one is kept.
    fn places(&self) -> Result<Option<Vec<usize>>, AllocError> {
        if self.kept.is_empty() {
            return Ok(None);
        }
        let mut number = self.kept[0].last;
        let mut places = Vec::new(self.alloc);
        for _ in 0..self.steps.len() {
            if number == 0 || self.steps.len() < number {
                break;
            }
            let step = self.steps[number - 1];
            places.push(step.place)?;
            number = step.before;
        }
        places.reverse();
        Ok(Some(places))
    }
}

/// Searches, in at most `steps` steps, for an order of the calls, which are given in the order of
/// their ends. Returns the positions of the calls in the order that is found.
pub(crate) fn find_by_beam<M: Object<Op = ValidTask, Reply = Reply> + Drop, P: Watcher>(
    alloc: Global,
    lines: &[Line<ValidTask>],
    layout: &Layout,
    machine: &M,
    steps: u64,
    watcher: &mut P,
) -> Result<Option<Vec<usize>>, AllocError> {
    let firsts = Vec::from_slice(alloc, layout.firsts.as_slice())?;
    let mut beam = Beam::new(alloc, Configuration::new(machine.copy()?, firsts))?;
    let most = lines.len().saturating_mul(MOST_FOR_EACH).min(MOST_IN_ALL);
    for made in 0..steps {
        watcher.tell(beam.level, made);
        if beam.level == layout.completed {
            return beam.places();
        }
        if most < beam.expanded || !beam.step(lines, layout)? {
            return Ok(None);
        }
    }
    Ok(None)
}
