//! Random tasks over a region, compared with the plain manager.
ghost use Rattle.std.specs.Prelude.{◌≡◌};

use crate::draws::{BLOCKS, TASKS, draw_task};
use crate::managers::{open, open_striped};
use crate::same::{holds, same};
use crate::scripts::LAST;
use rand_core::Rng;
use rand_pcg::Pcg32;
use std::alloc::Global;
use std::process::Abort;
use vac_manager::{Caller, call};
use vac_sequential::Sequential;

/// The generator of the tasks with their allocator, and the plain manager that runs the tasks.
#[derive(Drop)]
struct Plain {
    alloc: Global,
    draws: Pcg32,
    manager: Sequential,
}

impl Plain {
    fn new(rt: &impl Abort, alloc: Global, seed: u64) -> Plain {
        Plain {
            alloc,
            draws: Pcg32::new(seed, 1),
            manager: Sequential::new(alloc, BLOCKS).expect(rt, "it opens"),
        }
    }

    /// Draws a task, and compares the client's reply with the plain manager's.
    fn compare(&mut self, rt: &impl Abort, caller: &mut Caller<'_>)
        ensures { caller.new.shared ≡ caller.old.shared }
    {
        let task = draw_task(self.alloc, &mut self.draws).expect(rt, "there is memory");
        let wanted = self.manager.run(&task).expect(rt, "the task is in range");
        same(rt, &call(caller, &task, 1), &Ok(wanted));
    }

    /// Draws a task, and compares the reply to the client whose turn it is.
    fn compare_one(
        &mut self,
        rt: &impl Abort,
        turn: u32,
        a: &mut Caller<'_>,
        b: &mut Caller<'_>,
        c: &mut Caller<'_>,
    )
        ensures a { a.new.shared ≡ a.old.shared }
        ensures b { b.new.shared ≡ b.old.shared }
        ensures c { c.new.shared ≡ c.old.shared }
    {
        match turn {
            0 => self.compare(rt, a),
            1 => self.compare(rt, b),
            _ => self.compare(rt, c),
        }
    }
}

/// Compares random tasks of one client, which is alone: each call returns a reply in its one
/// attempt.
fn alone(rt: &impl Abort, alloc: Global, caller: &mut Caller<'_>) {
    let mut plain = Plain::new(rt, alloc, 7);
    for _ in 0..TASKS {
        plain.compare(rt, caller);
    }
}

#[test]
fn random_tasks_of_one_client(rt: HostRuntime) {
    let alloc = rt.alloc();
    let (manager, client) = open(&rt, alloc, BLOCKS, LAST);
    alone(&rt, alloc, &mut manager.caller(client));
}

/// Each lock word covers fifty-two words.
#[test]
fn random_tasks_of_one_client_with_four_lock_words(rt: HostRuntime) {
    let alloc = rt.alloc();
    let (manager, client) = open_striped(&rt, alloc, BLOCKS, LAST, 4);
    alone(&rt, alloc, &mut manager.caller(client));
}

/// Compares random tasks of three clients that take turns.
fn in_turns(
    rt: &impl Abort,
    alloc: Global,
    a: &mut Caller<'_>,
    b: &mut Caller<'_>,
    c: &mut Caller<'_>,
)
    ensures a { a.new.shared ≡ a.old.shared }
    ensures b { b.new.shared ≡ b.old.shared }
    ensures c { c.new.shared ≡ c.old.shared }
{
    let mut plain = Plain::new(rt, alloc, 11);
    let mut turns = Pcg32::new(11, 2);
    for _ in 0..TASKS {
        plain.compare_one(rt, turns.next_u32() % 3, a, b, c);
    }
}

#[test]
fn random_tasks_of_three_clients_in_turns(rt: HostRuntime) {
    let alloc = rt.alloc();
    let (manager, client) = open_striped(&rt, alloc, BLOCKS, LAST, 16);
    let mut a = manager.caller(client);
    let mut b = a.split().expect(&rt, "there are grants");
    let mut c = a.split().expect(&rt, "there are grants");
    in_turns(&rt, alloc, &mut a, &mut b, &mut c);
    b.gather(c);
    a.gather(b);
    let client = a.into_user();
    holds(&rt, manager.close(client).is_ok());
}
