//! Loads of several rounds, each on a new clock.
ghost use Rattle.std.specs.Prelude.{◌≡◌};

use crate::loading::{load_of_zeros, load_with};
use crate::same::same;
use crate::small_load::{SETTINGS, SIX_TRIPS, all_answered};
use load_run::{LoadFault, LoadReport, Outcomes};
use load_tasks::{Draws, Settings};
use std::sync::Wait;
use std::sync::atomic::{AtomicU32, Ordering};
use std::thread::Threads;
use stm_attempt::{Gate, Point};

#[test]
fn a_clock_that_ends_is_renewed(rt: HostRuntime) {
    let spent = Settings {
        tasks: 6,
        last: 11,
        ..SETTINGS
    };
    let renewed = Settings {
        last: 11,
        rounds: 2,
        ..SETTINGS
    };
    let half = Outcomes {
        spent: 3,
        ..all_answered(3)
    };
    let whole = LoadReport {
        outcomes: all_answered(6),
        report: SIX_TRIPS,
    };
    let in_one = load_of_zeros(&rt, &spent).map(|loaded| loaded.outcomes);
    let in_two = load_of_zeros(&rt, &renewed);
    same(&rt, &(in_one, in_two), &(Ok(half), Ok(whole)));
}

/// Words that count up; the next word is shown in a shared counter.
#[derive(Drop)]
struct Recording<'a> {
    next: u32,
    shown: &'a AtomicU32,
}

impl<'a> Draws for Recording<'a> {
    ghost leads = { λ state word next. word ≡ state.next };

    fn word(&mut self) -> u32 {
        let word = self.next;
        self.next = word.wrapping_add(1);
        self.shown.store(self.next, Ordering::SeqCst);
        word
    }
}

/// A gate that counts the completed calls in a shared counter.
#[derive(Drop)]
struct Counting<'a>(&'a AtomicU32);

impl<'a> Gate for Counting<'a> {
    fn at(&mut self, point: Point) {
        if point == Point::Answered {
            self.0.fetch_add(1, Ordering::SeqCst);
        }
    }
}

/// Shared counters: the words drawn by the setup phase, the words drawn by the client, and the
/// completed calls.
#[derive(Drop)]
struct Shown {
    opening: AtomicU32,
    words: AtomicU32,
    answers: AtomicU32,
}

/// Runs a load of one client with words that count up, and shows how many were drawn.
fn counted_load<'a, R: Threads + Wait + AllocGlobal>(
    rt: &R,
    settings: &Settings,
    shown: &'a Shown,
) -> Result<LoadReport, LoadFault> {
    let draws = Recording {
        next: 0,
        shown: &shown.words,
    };
    let Ok(clients) = vec![in rt.alloc(); (draws, Counting(&shown.answers))] else {
        return Err(LoadFault::Memory);
    };
    let opening = Recording {
        next: 7,
        shown: &shown.opening,
    };
    load_with(rt, settings, opening, clients)
}

/// Returns the result of the load, the number of words that the client drew, and the number of
/// completed calls.
fn counted<R: Threads + Wait + AllocGlobal>(
    rt: &R,
    settings: &Settings,
) -> (Result<LoadReport, LoadFault>, u32, u32) {
    let shown = Shown {
        opening: AtomicU32::new(0),
        words: AtomicU32::new(0),
        answers: AtomicU32::new(0),
    };
    let loaded = counted_load(rt, settings, &shown);
    let words = shown.words.load(Ordering::SeqCst);
    (loaded, words, shown.answers.load(Ordering::SeqCst))
}

#[test]
fn draws_and_gates_go_on_from_round_to_round(rt: HostRuntime) {
    let rounds = Settings {
        tasks: 5,
        rounds: 4,
        ..SETTINGS
    };
    let one_round = Settings {
        tasks: 20,
        ..SETTINGS
    };
    let in_rounds = counted(&rt, &rounds);
    same(&rt, &in_rounds, &counted(&rt, &one_round));
    same(&rt, &in_rounds.2, &20);
}
