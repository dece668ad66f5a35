//! Counts of tasks by their result, with the attempt statistics of their calls.

ghost use Rattle.std.specs.Prelude.{◌≡◌, ◌≢◌, ◌<◌, ◌≤◌, ◌^◌, ◌+◌, IfErr};
ghost use Rattle.vac_model.specs.declared.limits.TheConstants.{MOST_TRIES};
ghost use Rattle.load_run.specs.Attempted.{AreStatistics, no_attempts, uncounted, with_call};
ghost use Rattle.load_run.specs.Looping.{nothing, counted, total, plus};

use crate::outcomes::Outcomes;
use crate::statistics::AttemptStatistics;
use std::marker::Model;
use vac_manager::{CallStatistics, Fault};

/// Counts of tasks by their result, each with at most `tries` attempts, and the attempt statistics
/// of their calls. Contracts see the counts, the limit on attempts, and the number of attempts.
#[derive(Drop)]
pub struct TaskCounts {
    outcomes: Outcomes,
    statistics: AttemptStatistics,
    tries: u32,
}

impl Model for TaskCounts {
    ghost use Rattle.std.specs.Prelude.{◌≤◌};
    ghost use Rattle.vac_model.specs.declared.limits.TheConstants.{MOST_TRIES};
    ghost use Rattle.load_run.specs.Attempted.{TaskCountsShown, AreStatistics};

    ghost Value = { TaskCountsShown };

    ghost view = { λ c. record {
      outcomes = c.outcomes;
      tries = c.tries;
      attempts = c.statistics.attempts;
    } };

    ghost invariant = { λ c. AreStatistics c.tries c.outcomes c.statistics × (c.tries ≤
        MOST_TRIES) };
}

impl TaskCounts {
    /// Returns the counts of no task, with at most `tries` attempts for each.
    pub fn new(tries: u32) -> TaskCounts
        requires few { tries ≤ MOST_TRIES }
        ensures { result ≡ uncounted tries }
    {
        TaskCounts {
            outcomes: Outcomes::new(),
            statistics: AttemptStatistics::new(),
            tries,
        }
    }

    /// Counts a task by its result, and adds the attempt statistics of its call. The result is
    /// never that a number is out of its range, because no such task is issued.
    pub(crate) fn count(&mut self, end: &Result<(), Fault>, statistics: &CallStatistics)
        requires few { total self.old.outcomes < 2 ^ 32 }
        requires in_range { IfErr end.now (λ fault. fault ≢ Fault.Arguments) }
        requires took { AreStatistics self.old.tries (counted end.now nothing)
            (with_call statistics.now no_attempts) }
        ensures { self.new ≡ record self.old {
          outcomes = counted end.now self.old.outcomes;
          attempts = self.old.attempts + statistics.now.attempts;
        } }
    {
        self.outcomes.count(end);
        self.statistics.add(statistics);
    }

    /// Adds up the counts of both.
    ///
    /// Not said: that the counts of conflicts are added up. The clause of `apart` says which sums
    /// fit.
    pub fn plus(self, other: TaskCounts) -> TaskCounts
        requires fits { total self.outcomes + total other.outcomes < 2 ^ 43 }
        requires same { other.tries ≡ self.tries }
        ensures { result ≡ record self {
          outcomes = plus self.outcomes other.outcomes;
          attempts = self.attempts + other.attempts;
        } }
    {
        TaskCounts {
            outcomes: self.outcomes.plus(other.outcomes),
            statistics: self.statistics.plus(other.statistics),
            tries: self.tries,
        }
    }

    /// Returns the counts of the tasks and the attempt statistics of their calls.
    pub fn apart(self) -> (Outcomes, AttemptStatistics)
        ensures outcomes { result.0 ≡ self.outcomes }
        ensures statistics { AreStatistics self.tries result.0 result.1 }
        ensures attempts { result.1.attempts ≡ self.attempts }
    {
        (self.outcomes, self.statistics)
    }
}
