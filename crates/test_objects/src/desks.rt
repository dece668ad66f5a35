//! Desks that book their trips, compared with the results that are stored here.

use ex_desk::{Desk, DeskFault, DeskReport, DeskSettings, run_desks};
use std::alloc::{AllocError, Global};
use std::test::Fail;
use vac_model::Report;

/// Trips that each desk has to book.
const TRIPS: u32 = 25;

/// The greatest last version of a clock.
const LAST: u64 = (1 << 62) - 1;

/// Returns settings with a clock that ends at this version, and `units` units of each item.
fn settings(last: u64, units: u32) -> DeskSettings {
    DeskSettings {
        blocks: 1_000,
        last,
        units,
        trips: TRIPS,
        tries: 1_000_000,
        rounds: 10_000,
    }
}

/// Returns a desk that has booked all of its trips.
fn done(number: u32) -> Desk {
    Desk {
        number,
        booked: TRIPS,
        given_up: 0,
    }
}

/// Returns the stored result of a run that booked all trips, with `units` units in all, `used` of
/// them in use, and this number of rounds.
fn stored(alloc: Global, units: u64, used: u64, rounds: u32) -> Result<DeskReport, AllocError> {
    Ok(DeskReport {
        desks: vec![in alloc; done(0), done(1), done(2), done(3)]?,
        rounds,
        report: Report {
            cars: 2,
            flights: 2,
            rooms: 2,
            customers: 100,
            bookings: used,
            used,
            free: units.wrapping_sub(used),
            total: units,
            billed: used.wrapping_mul(50),
        },
    })
}

#[test]
fn all_trips_on_one_clock(rt: HostRuntime) -> Result<(), Fail> {
    let found = run_desks(&rt, settings(LAST, 100))?;
    assert_eq!(rt; found, stored(rt.alloc(), 600, 300, 1)?);
    Ok(())
}

#[test]
fn all_trips_on_many_clocks(rt: HostRuntime) -> Result<(), Fail> {
    let found = run_desks(&rt, settings(7, 100))?;
    assert!(rt; found.rounds >= 15);
    let rounds = found.rounds;
    assert_eq!(rt; found, stored(rt.alloc(), 600, 300, rounds)?);
    Ok(())
}

#[test]
fn all_trips_with_too_few_units(rt: HostRuntime) -> Result<(), Fail> {
    let found = run_desks(&rt, settings(LAST, 10))?;
    assert_eq!(rt; found, stored(rt.alloc(), 60, 60, 1)?);
    Ok(())
}

#[test]
fn one_round_on_a_clock_that_ends_at_three(rt: HostRuntime) -> Result<(), Fail> {
    let settings = DeskSettings {
        rounds: 1,
        ..settings(3, 100)
    };
    let found = run_desks(&rt, settings)?;
    let booked = found
        .desks
        .iter()
        .fold(0u32, |sum, desk| sum.wrapping_add(desk.booked));
    assert_eq!(rt; found.rounds, 1);
    assert!(rt; booked <= 3);
    assert_eq!(rt; found.report.customers, u64::from(booked));
    Ok(())
}

#[test]
fn settings_out_of_range(rt: HostRuntime) {
    let no_tries = DeskSettings {
        tries: 0,
        ..settings(7, 100)
    };
    let found = [run_desks(&rt, settings(0, 100)), run_desks(&rt, no_tries)];
    assert_eq!(rt;
        found,
        [Err(DeskFault::Arguments), Err(DeskFault::Arguments)]
    );
}
