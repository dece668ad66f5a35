//! Attempts that are written for a heap that is too small.

use crate::small_load::SETTINGS;
use load_record::{AttemptRecorder, StampClock, write_attempts};
use load_run::{Load, Recorders};
use load_tasks::Settings;
use std::process::Abort;
use std::sync::Wait;
use std::thread::Threads;
use stm_attempt::NoGate;

/// A clock that always shows 0.
#[derive(Clone, Copy, Drop)]
pub(crate) struct Still;

impl StampClock for Still {
    ghost shows = { λ _ _ _. Unit {0} };

    fn read(&mut self) -> u64 {
        0
    }
}

/// The settings of a load with one question.
const ONE_QUESTION: Settings = Settings {
    tasks: 1,
    items: 1,
    reads: 100,
    blocks: 4,
    ..SETTINGS
};

/// The recorders of a load's attempts.
type Kept = Recorders<AttemptRecorder<Still>>;

/// Runs a load and returns the number of its clients' attempts, and the recorders of all attempts.
fn attempted<R: Threads + Wait + Abort + AllocGlobal>(rt: &R, settings: &Settings) -> (u64, Kept) {
    let alloc = rt.alloc();
    let mut clients = Vec::new(alloc);
    for _ in 0..settings.clients {
        clients
            .push(AttemptRecorder::new(alloc, Still))
            .expect(rt, "there is memory");
    }
    let opening = AttemptRecorder::new(alloc, Still);
    let recorders = Recorders { opening, clients };
    let Ok(load) = Load::by_seed(alloc, settings, NoGate, recorders) else {
        panic!(rt; "a setting is out of its range")
    };
    let Ok((_, statistics, kept)) = load.run(rt) else {
        panic!(rt; "the load stopped")
    };
    (statistics.attempts, kept)
}

/// The heap of one block ends before word 24, which the second command writes.
#[test]
fn attempts_outside_of_the_heap(rt: HostRuntime) {
    let (_, kept) = attempted(&rt, &ONE_QUESTION);
    let clients = kept.clients.as_slice();
    assert_eq!(rt; clients.len(), 1);
    let mut out = Vec::new(rt.alloc());
    let written = write_attempts(rt.alloc(), 1, &kept.opening, clients, &mut out);
    assert!(rt; matches!(written, Ok(false)));
    assert_eq!(rt; out.len(), 0);
}
