//! The source of the times of a history.

ghost use Rattle.std.specs.Prelude.{ℕ};

use std::time::{Clock, Instant};

/// A clock from which a call recorder reads its times.
pub trait StampClock {
    /// The relation between the state before a reading, the number read, and the state after it.
    ghost shows: { Self → ℕ → Self → Type 0 };

    /// Reads the clock, in nanoseconds since a start that all call recorders of a history share.
    fn read(&mut self) -> u64
        ensures { shows self.old result self.new };
}

/// A clock whose time counts from a start.
#[derive(Drop)]
#[derive_where(Clone, Copy)]
pub struct ElapsedClock<'a, C> {
    clock: &'a C,
    start: Option<Instant>,
}

impl<'a, C: Clock> ElapsedClock<'a, C> {
    /// Returns the clock, counting from this start.
    pub fn new(clock: &'a C, start: Option<Instant>) -> ElapsedClock<'a, C> {
        ElapsedClock { clock, start }
    }
}

impl<C: Clock> StampClock for ElapsedClock<'_, C> {
    ghost shows = { λ _ _ _. Unit {0} };

    /// Returns the nanoseconds since the start.
    ///
    /// Not said: that the reading is the time of the clock, because no contract speaks of a
    /// clock's time. The reading is 0 if the clock cannot be read.
    fn read(&mut self) -> u64 {
        let Some(start) = self.start else {
            return 0;
        };
        let Ok(since) = start.elapsed(self.clock) else {
            return 0;
        };
        u64::try_from(since.as_nanos()).unwrap_or(u64::MAX)
    }
}
