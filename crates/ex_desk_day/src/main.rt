//! A day at the desks: four desks book 25 trips each, in threads of their own, by clients of one
//! manager. Each trip is booked, whatever conflicts the desks meet.
#![tactic(auto)]

use ex_desk::{DeskReport, DeskSettings, run_desks};
use std::io;
use std::process::ExitCode;

/// Settings with room for a thousand entries, the greatest last version, and a hundred units of
/// each item.
const SETTINGS: DeskSettings = DeskSettings {
    blocks: 1_000,
    last: (1 << 62) - 1,
    units: 100,
    trips: 25,
    tries: 1_000_000,
    rounds: 10_000,
};

/// Prints a line for each desk, and a line for the report.
fn tell(rt: &HostRuntime, found: &DeskReport) -> io::Result<()> {
    for desk in &found.desks {
        println!(rt;
            "desk {} booked {} trips and gave {} up",
            desk.number, desk.booked, desk.given_up
        )?;
    }
    let report = &found.report;
    println!(rt;
        "customers {} bookings {} used {} free {} billed {}",
        report.customers, report.bookings, report.used, report.free, report.billed
    )
}

fn main(rt: HostRuntime) -> ExitCode {
    let found = match run_desks(&rt, SETTINGS) {
        Ok(found) => found,
        Err(fault) => {
            let _ = eprintln!(rt; "{fault}");
            return ExitCode::FAILURE;
        }
    };
    match tell(&rt, &found) {
        Ok(()) => ExitCode::SUCCESS,
        Err(_) => ExitCode::FAILURE,
    }
}
