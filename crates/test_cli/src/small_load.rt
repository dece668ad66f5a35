//! The settings of a small load, and its reports if each task is a trip to the first car.

use load_run::Outcomes;
use load_tasks::Settings;
use vac_manager::Fault;
use vac_model::Report;

pub(crate) const SETTINGS: Settings = Settings {
    clients: 1,
    tasks: 3,
    items: 2,
    asks: 4,
    reads: 0,
    user: 50,
    seed: 1,
    blocks: 1024,
    tries: 64,
    last: (1 << 62) - 1,
    rounds: 1,
};

/// The report after three trips.
pub(crate) const THREE_TRIPS: Report = Report {
    cars: 2,
    flights: 2,
    rooms: 2,
    customers: 2,
    bookings: 3,
    used: 3,
    free: 597,
    total: 600,
    billed: 150,
};

/// The report after six trips.
pub(crate) const SIX_TRIPS: Report = Report {
    cars: 2,
    flights: 2,
    rooms: 2,
    customers: 2,
    bookings: 6,
    used: 6,
    free: 594,
    total: 600,
    billed: 300,
};

/// Returns the counts of a load in which each task completed.
pub(crate) fn all_answered(answered: u64) -> Outcomes {
    Outcomes {
        answered,
        busy: 0,
        memory: 0,
        spent: 0,
    }
}

/// Returns the version at which the clock was found spent, if the fault is a spent clock.
pub(crate) fn spent_at(fault: Fault) -> Option<u64> {
    match fault {
        Fault::Spent { version } => Some(version.get()),
        _ => None,
    }
}
