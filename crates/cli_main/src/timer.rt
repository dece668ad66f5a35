//! The time that the clients of a load take.

use std::sync::atomic::{AtomicU32, AtomicU64, Ordering};
use std::thread;
use std::time::{Clock, Instant};
use stm_attempt::{Gate, Point};

/// Largest number of times that a ready client yields to other threads before it begins without
/// them.
const MOST_TURNS: u32 = 1_000_000;

/// A timer of the clients of a load, and their gate. The time runs from the moment when all clients
/// are ready for the first time until the last client is done in the last round. The time is 0 if
/// the clock cannot be read.
#[derive(Drop)]
pub(crate) struct LoadTimer<'a, T> {
    rt: &'a T,
    clients: u32,
    /// The time at which the nanoseconds begin to count.
    start: Option<Instant>,
    /// Number of ready clients.
    ready: AtomicU32,
    /// Number of clients that are done.
    done: AtomicU32,
    /// Number of times that all clients were ready.
    rounds: AtomicU32,
    /// Nanoseconds from the start until all clients were ready for the first time.
    begin: AtomicU64,
    /// Nanoseconds from the start until all clients were done for the last time.
    end: AtomicU64,
}

impl<'a, T: Clock> LoadTimer<'a, T> {
    /// Returns a timer for `clients` clients that have not begun.
    pub(crate) fn new(rt: &'a T, clients: u32) -> LoadTimer<'a, T> {
        LoadTimer {
            rt,
            clients,
            start: Instant::now(rt).ok(),
            ready: AtomicU32::new(0),
            done: AtomicU32::new(0),
            rounds: AtomicU32::new(0),
            begin: AtomicU64::new(0),
            end: AtomicU64::new(0),
        }
    }

    /// Returns the nanoseconds that the clients took.
    pub(crate) fn nanos(&self) -> u64 {
        let end = self.end.load(Ordering::SeqCst);
        end.saturating_sub(self.begin.load(Ordering::SeqCst))
    }

    /// Returns the nanoseconds since the start.
    fn passed(&self) -> u64 {
        let Some(start) = self.start else {
            return 0;
        };
        match start.elapsed(self.rt) {
            Ok(since) => u64::try_from(since.as_nanos()).unwrap_or(u64::MAX),
            Err(_) => 0,
        }
    }

    /// Adds a client to this count, and returns whether all clients are counted. If they are, the
    /// count is reset to zero.
    fn count_client(&self, clients: &AtomicU32) -> bool {
        let before = clients.fetch_add(1, Ordering::SeqCst);
        if before.saturating_add(1) < self.clients {
            return false;
        }
        clients.store(0, Ordering::SeqCst);
        true
    }

    /// Yields to other threads until all clients are ready. Bounded loop: if a client cannot be
    /// started, the others begin without it.
    fn wait_for_all(&self, round: u32) {
        for _ in 0..MOST_TURNS {
            if self.rounds.load(Ordering::SeqCst) != round {
                return;
            }
            thread::yield_now();
        }
    }

    /// Returns once all clients are ready. If a client cannot be started, the others begin without
    /// it.
    fn stand_ready(&self) {
        let round = self.rounds.load(Ordering::SeqCst);
        if !self.count_client(&self.ready) {
            return self.wait_for_all(round);
        }
        if round == 0 {
            self.begin.store(self.passed(), Ordering::SeqCst);
        }
        self.rounds.fetch_add(1, Ordering::SeqCst);
    }

    /// Stores the time once all clients are done.
    fn end_one(&self) {
        if self.count_client(&self.done) {
            self.end.store(self.passed(), Ordering::SeqCst);
        }
    }
}

impl<T: Clock> Gate for &LoadTimer<'_, T> {
    #[inline]
    fn at(&mut self, _point: Point) {}

    fn ready(&mut self) {
        self.stand_ready();
    }

    fn done(&mut self) {
        self.end_one();
    }
}
