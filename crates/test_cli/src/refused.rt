//! Loads with memory refused. Such a load names its fault or counts the task that was refused, and
//! the load that is run again afterwards gives the correct replies. The script
//! `tests/refused_calls.sh` runs this test with each allocation refused in turn, and reads lines
//! that the test prints. In any other run no allocation is refused.

use crate::loading::load_of_zeros;
use crate::same::same;
use crate::small_load::{SETTINGS, SIX_TRIPS, all_answered};
use load_run::{LoadFault, LoadReport, Outcomes};
use load_tasks::Settings;
use std::process::Abort;
use vac_manager::Fault;

/// A load of six trips by one client, in two rounds.
const TWO_ROUNDS: Settings = Settings {
    rounds: 2,
    ..SETTINGS
};

/// Returns what was refused, if anything was: the load, its thread, a command of its setup phase,
/// or a task that the load then counts as refused memory. Any other fault fails the test.
fn refused(rt: &impl Abort, loaded: &Result<LoadReport, LoadFault>) -> Option<&'static str> {
    match loaded {
        Ok(
            LoadReport {
                outcomes: Outcomes { memory: 0, .. },
                ..
            },
        ) => None,
        Ok(_) => Some("a task of a load"),
        Err(LoadFault::Memory) => Some("a load"),
        Err(LoadFault::Spawn) => Some("a thread"),
        Err(LoadFault::Opening(Fault::Memory)) => Some("an opening"),
        Err(_) => panic!(rt; "memory was refused, and another fault is named"),
    }
}

#[test]
fn a_refused_load_is_run_again(rt: HostRuntime) {
    let mut loaded = load_of_zeros(&rt, &TWO_ROUNDS);
    if let Some(call) = refused(&rt, &loaded) {
        println!(&rt; "refused: {call}").expect(&rt, "the line is written");
        loaded = load_of_zeros(&rt, &TWO_ROUNDS);
    }
    let wants = LoadReport {
        outcomes: all_answered(6),
        report: SIX_TRIPS,
    };
    same(&rt, &loaded, &Ok(wants));
}
