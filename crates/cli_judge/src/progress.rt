//! The progress of a search, on standard error.

use cli_common::{has_passed, write_text};
use judge_object::Watcher;
use std::io::Write;
use std::time::{Clock, Instant};

/// Number of steps between two readings of the clock.
const STRIDE: u64 = 4_096;

/// A watcher that writes the progress of a search at most twice a second.
#[derive(Drop)]
pub(crate) struct ProgressWatcher<'a, 'b, T, E> {
    rt: &'a T,
    errors: &'b mut E,
    last: Option<Instant>,
}

impl<'a, 'b, T: Clock, E: Write> ProgressWatcher<'a, 'b, T, E> {
    /// Returns the watcher of a search that begins.
    pub(crate) fn new(rt: &'a T, errors: &'b mut E) -> ProgressWatcher<'a, 'b, T, E> {
        ProgressWatcher {
            rt,
            errors,
            last: Instant::now(rt).ok(),
        }
    }
}

impl<T: Clock + AllocGlobal, E: Write> Watcher for ProgressWatcher<'_, '_, T, E> {
    fn tell(&mut self, placed: u64, steps: u64) {
        if steps % STRIDE != 0 || !has_passed(self.rt, self.last) {
            return;
        }
        write_text(
            self.rt.alloc(),
            format_args!("placed {placed} steps {steps}\n"),
            self.errors,
        );
        self.last = Instant::now(self.rt).ok();
    }
}
