//! Tasks of a load that another client's calls keep busy.
ghost use Rattle.std.specs.Prelude.{◌≡◌, true};
ghost use Rattle.load_tasks.specs.Setting.{is_settings};

use crate::loading::opened;
use crate::same::same;
use crate::small_load::SETTINGS;
use load_run::{Outcomes, count_loop};
use load_tasks::{FixedDraws, Settings};
use std::alloc::Global;
use stm_attempt::{Gate, Point};
use vac_manager::{Caller, NoRecorder, call};
use vac_model::{Command, Kind, Task};

const RIVAL: Task = Task::One(Command::Reserve {
    customer: 1,
    kind: Kind::Car,
    id: 1,
    num: 1,
});

/// A gate at which another client books the car that the task is about to book.
#[derive(Drop)]
struct Rival<'a> {
    other: Caller<'a>,
    answered: u32,
}

impl<'a> Gate for Rival<'a> {
    fn at(&mut self, point: Point) {
        if point == Point::ReadsDone && call(&mut self.other, &RIVAL, 1).is_ok() {
            self.answered = self.answered.saturating_add(1);
        }
    }
}

/// Returns the counts of a client's tasks beside a rival client, and the number of the rival's
/// bookings.
fn loop_beside_rival(
    alloc: Global,
    settings: &Settings,
    caller: &mut Caller<'_>,
    other: Caller<'_>,
) -> (Outcomes, u32)
    requires { is_settings settings.now ≡ true }
{
    let mut gate = Rival { other, answered: 0 };
    let mut draws = FixedDraws(0);
    let counts = count_loop(
        alloc,
        caller,
        &mut draws,
        settings,
        &mut gate,
        &mut NoRecorder,
    );
    let (outcomes, _efforts) = counts.apart();
    (outcomes, gate.answered)
}

/// Gives each task one attempt, and books its car between its reads and its commit.
#[test]
fn each_task_is_busy(rt: HostRuntime) {
    let alloc = rt.alloc();
    let settings = Settings {
        tries: 1,
        ..SETTINGS
    };
    let (manager, client) = opened(alloc, &settings, &mut FixedDraws(0)).expect(
        &rt,
        "there is memory",
    );
    let mut caller = manager.caller(client);
    let other = caller.split().expect(&rt, "there are grants");
    let found = loop_beside_rival(alloc, &settings, &mut caller, other);
    let busy = Outcomes {
        busy: u64::from(settings.tasks),
        ..Outcomes::default()
    };
    same(&rt, &found, &(busy, settings.tasks));
}
