//! The setup phase of a load, and the loop of one client.

ghost use Rattle.std.specs.Prelude.{◌≡◌, true};
ghost use Rattle.load_tasks.specs.Setting.{is_settings};

use crate::loading::opened;
use crate::same::same;
use crate::small_load::{SETTINGS, THREE_TRIPS, all_answered, spent_at};
use load_run::{Outcomes, count_loop};
use load_tasks::{Draws, FixedDraws, PcgDraws, Settings};
use std::alloc::Global;
use stm_attempt::{Gate, Point};
use vac_manager::{Fault, NoRecorder, call};
use vac_model::{Command, Reply, Task};

/// A gate that counts the completed calls.
#[derive(Drop)]
struct Answers(u64);

impl Gate for Answers {
    fn at(&mut self, point: Point) {
        if point == Point::Answered {
            self.0 = self.0.saturating_add(1);
        }
    }
}

/// Runs the loop of one client, and returns the counts of its tasks, the completed calls that its
/// gate counted, and a report afterwards.
fn loop_alone<D: Draws>(
    alloc: Global,
    settings: &Settings,
    opening: &mut D,
    draws: &mut D,
) -> Result<(Outcomes, u64, Reply), Fault>
    requires { is_settings settings.now ≡ true }
{
    let mut gate = Answers(0);
    let (manager, client) = opened(alloc, settings, opening)?;
    let mut caller = manager.caller(client);
    let counts = count_loop(
        alloc,
        &mut caller,
        draws,
        settings,
        &mut gate,
        &mut NoRecorder,
    );
    let (outcomes, _efforts) = counts.apart();
    let audit = call(&mut caller, &Task::One(Command::Audit), 1)?;
    Ok((outcomes, gate.0, audit))
}

#[test]
fn a_client_alone(rt: HostRuntime) {
    let (mut opening, mut draws) = (FixedDraws(0), FixedDraws(0));
    let found = loop_alone(rt.alloc(), &SETTINGS, &mut opening, &mut draws);
    let wants = (all_answered(3), 3, Reply::Report(THREE_TRIPS));
    same(&rt, &found, &Ok(wants));
}

#[test]
fn drawn_tasks_are_answered(rt: HostRuntime) {
    let settings = Settings {
        tasks: 200,
        items: 16,
        asks: 32,
        tries: 1,
        ..SETTINGS
    };
    let (manager, client) = opened(rt.alloc(), &settings, &mut PcgDraws::new(1, 0)).expect(
        &rt,
        "there is memory",
    );
    let mut caller = manager.caller(client);
    let (mut draws, mut gate) = (PcgDraws::new(1, 1), Answers(0));
    let alloc = rt.alloc();
    let counts = count_loop(
        alloc,
        &mut caller,
        &mut draws,
        &settings,
        &mut gate,
        &mut NoRecorder,
    );
    let (outcomes, _efforts) = counts.apart();
    same(&rt, &(outcomes, gate.0), &(all_answered(200), 200));
}

#[test]
fn a_clock_too_short_for_the_opening(rt: HostRuntime) {
    let settings = Settings {
        last: 5,
        ..SETTINGS
    };
    let Err(fault) = opened(rt.alloc(), &settings, &mut FixedDraws(0)) else {
        panic!(rt; "the clock has time")
    };
    same(&rt, &spent_at(fault), &Some(5));
}
