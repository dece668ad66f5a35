//! A task that can be submitted.

ghost use Rattle.std.specs.Prelude.{◌≡◌, true};
ghost use Rattle.vac_model.specs.Ranges.{is_task};

use crate::tasks::Task;
use std::marker::Model;

/// A task that can be submitted: its numbers are in their ranges. Contracts see the task.
#[derive(Drop)]
pub struct ValidTask {
    task: Task,
    ghost asked: { is_task task ≡ true },
}

impl Model for ValidTask {
    ghost use Rattle.vac_model.specs.declared.tasks.Task.{Task};

    ghost Value = { Task };

    ghost view = { λ a. a.task };
}

impl ValidTask {
    /// Wraps a task whose numbers are in their ranges.
    pub fn new(task: Task) -> ValidTask
        requires { is_task task ≡ true }
        ensures { result ≡ task }
    {
        ValidTask { task }
    }

    /// Returns the task.
    pub fn task(&self) -> &Task
        ensures task { result.now ≡ self.now }
        ensures asked { is_task result.now ≡ true }
    {
        &self.task
    }
}
