//! Counts of a client's tasks by their result.

ghost use Rattle.std.specs.Prelude.{◌≡◌, ◌≢◌, ◌<◌, ◌^◌, ◌+◌, IfErr};
ghost use Rattle.load_run.specs.Looping.{nothing, counted, total, plus};

use crate::sums::added_up;
use vac_manager::Fault;

/// Counts of tasks by their result.
#[derive(Clone, Copy, Debug, PartialEq, Eq, Default)]
pub struct Outcomes {
    /// Tasks that completed.
    pub answered: u64,
    /// Tasks that met a conflict in each allowed attempt.
    pub busy: u64,
    /// Tasks that were refused memory, before the call or in it.
    pub memory: u64,
    /// Tasks that found the clock at its last version.
    pub spent: u64,
}

impl Outcomes {
    /// Returns the counts of no task.
    pub(crate) fn new() -> Outcomes
        ensures { result ≡ nothing }
    {
        Outcomes::default()
    }

    /// Counts a task by its result. The result is never that a number is out of its range, because
    /// no such task is issued.
    pub(crate) fn count(&mut self, end: &Result<(), Fault>)
        requires few { total self.old < 2 ^ 32 }
        requires in_range { IfErr end.now (λ fault. fault ≢ Fault.Arguments) }
        ensures { self.new ≡ counted end.now self.old }
    {
        match end {
            Ok(()) => self.answered += 1,
            Err(Fault::Arguments) => unreachable!(),
            Err(Fault::Memory) => self.memory += 1,
            Err(Fault::Busy(_)) => self.busy += 1,
            Err(Fault::Spent { .. }) => self.spent += 1,
        }
    }

    /// Adds up both counts.
    pub(crate) fn plus(self, other: Outcomes) -> Outcomes
        requires fits { total self + total other < 2 ^ 63 }
        ensures { result ≡ plus self other }
    {
        added_up!(Outcomes: self + other; answered, busy, memory, spent)
    }
}
