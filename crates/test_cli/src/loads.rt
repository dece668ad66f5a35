//! Loads of one client, and arguments that are refused.

use crate::loading::{load_of_seed, load_of_zeros, load_with};
use crate::same::same;
use crate::small_load::{SETTINGS, THREE_TRIPS, all_answered, spent_at};
use load_run::{LoadFault, LoadReport};
use load_tasks::{FixedDraws, MOST_ROUNDS, Settings};
use stm_attempt::NoGate;

#[test]
fn trips_of_one_client(rt: HostRuntime) {
    let wants = LoadReport {
        outcomes: all_answered(3),
        report: THREE_TRIPS,
    };
    same(&rt, &load_of_zeros(&rt, &SETTINGS), &Ok(wants));
}

/// Returns the version at which the setup phase found the clock spent, if that ended the load.
fn spent_in_opening(loaded: Result<LoadReport, LoadFault>) -> Option<u64> {
    match loaded {
        Err(LoadFault::Opening(fault)) => spent_at(fault),
        _ => None,
    }
}

#[test]
fn an_opening_finds_its_clock_spent(rt: HostRuntime) {
    for (last, spent) in [(5, Some(5)), (7, Some(7)), (8, None)] {
        let settings = Settings { last, ..SETTINGS };
        let found = spent_in_opening(load_of_zeros(&rt, &settings));
        same(&rt, &(last, found), &(last, spent));
    }
}

#[test]
fn arguments_are_looked_at(rt: HostRuntime) {
    let none = Vec::<(FixedDraws, NoGate)>::new(rt.alloc());
    let refused = load_with(&rt, &SETTINGS, FixedDraws(0), none);
    same(&rt, &refused, &Err(LoadFault::Arguments));
    for (items, rounds) in [(300, 1), (2, 0), (2, MOST_ROUNDS.saturating_add(1))] {
        let settings = Settings {
            items,
            rounds,
            ..SETTINGS
        };
        let refused = load_of_seed(&rt, &settings);
        let wants = (items, rounds, Err(LoadFault::Arguments));
        same(&rt, &(items, rounds, refused), &wants);
    }
}
