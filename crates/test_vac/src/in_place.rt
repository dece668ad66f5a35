//! Random tasks that change the plain manager in place, with and without a copy that is kept.

use crate::draws::{BLOCKS, TASKS, draw_task};
use crate::same::{holds, same};
use rand_pcg::Pcg32;
use std::alloc::Global;
use std::process::Abort;
use vac_model::{Reply, Report, Task};
use vac_sequential::Sequential;

/// Number of seeds from which random tasks are drawn.
const SEEDS: u64 = 4;

/// Number of tasks for which a copy is kept.
const KEPT: u32 = 25;

fn open(rt: &impl Abort, alloc: Global) -> Sequential {
    Sequential::new(alloc, BLOCKS).expect(rt, "the blocks are in range")
}

fn copy_of(rt: &impl Abort, manager: &Sequential) -> Sequential {
    manager.copy().expect(rt, "there is memory")
}

fn draw(rt: &impl Abort, alloc: Global, draws: &mut Pcg32) -> Task {
    draw_task(alloc, draws).expect(rt, "there is memory")
}

/// Runs a task of the manager, which copies what it changes.
fn run(rt: &impl Abort, manager: &mut Sequential, task: &Task) -> Reply {
    manager.run(task).expect(rt, "the task is in range")
}

/// Runs a task of the manager in place, and compares the reply.
fn change(rt: &impl Abort, manager: Sequential, task: &Task, wanted: Reply) -> Sequential {
    let (manager, reply) = manager.after(task).expect(rt, "the task is in range");
    same(rt, &reply, &wanted);
    manager
}

/// Asserts that two managers have one state, one report and one hash.
fn same_states(rt: &impl Abort, one: &Sequential, other: &Sequential) {
    same(rt, &one.report(), &other.report());
    same(rt, &one.hash(), &other.hash());
    holds(rt, one.is_same(other));
}

/// A copy, the report at the time of the copy, and another manager's copy of the same state.
#[derive(Drop)]
struct Kept {
    copy: Sequential,
    report: Report,
    other: Sequential,
}

impl Kept {
    fn of(rt: &impl Abort, manager: &Sequential, plain: &Sequential) -> Kept {
        Kept {
            copy: copy_of(rt, manager),
            report: plain.report(),
            other: copy_of(rt, plain),
        }
    }

    /// Returns whether the copy is as it was.
    fn is_unchanged(&self) -> bool {
        self.copy.report() == self.report && self.copy.is_same(&self.other)
    }
}

/// Runs a task of both managers, the first of which is changed in place.
fn both(rt: &impl Abort, manager: Sequential, plain: &mut Sequential, task: &Task) -> Sequential {
    let wanted = run(rt, plain, task);
    change(rt, manager, task, wanted)
}

/// Runs random tasks of a manager that shares nothing with a copy, beside a manager that copies
/// what it changes.
fn alone(rt: &impl Abort, alloc: Global, seed: u64) {
    let mut draws = Pcg32::new(seed, 4);
    let mut plain = open(rt, alloc);
    let mut manager = open(rt, alloc);
    for _ in 0..TASKS {
        let task = draw(rt, alloc, &mut draws);
        manager = both(rt, manager, &mut plain, &task);
    }
    same_states(rt, &manager, &plain);
}

/// Runs some tasks beside a copy, which stays as it was.
fn with_copy(
    rt: &impl Abort,
    alloc: Global,
    draws: &mut Pcg32,
    manager: Sequential,
    plain: &mut Sequential,
) -> Sequential {
    let kept = Kept::of(rt, &manager, plain);
    let mut manager = manager;
    for _ in 0..KEPT {
        let task = draw(rt, alloc, draws);
        manager = both(rt, manager, plain, &task);
        holds(rt, kept.is_unchanged());
    }
    manager
}

/// Runs random tasks of a manager of which a copy is kept, beside a manager that copies what it
/// changes.
fn beside_copies(rt: &impl Abort, alloc: Global, seed: u64) {
    let mut draws = Pcg32::new(seed, 4);
    let mut plain = open(rt, alloc);
    let mut manager = open(rt, alloc);
    for _ in 0..TASKS / KEPT {
        manager = with_copy(rt, alloc, &mut draws, manager, &mut plain);
    }
    same_states(rt, &manager, &plain);
}

#[test]
fn random_tasks_in_place(rt: HostRuntime) {
    for seed in 0..SEEDS {
        alone(&rt, rt.alloc(), seed);
        beside_copies(&rt, rt.alloc(), seed);
    }
}
