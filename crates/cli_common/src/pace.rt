//! The pace of progress lines.

use std::time::{Clock, Duration, Instant};

/// Least time between two lines, in milliseconds.
const PAUSE_MILLIS: u64 = 500;

/// Returns the least time between two lines.
pub fn pause() -> Duration {
    Duration::from_millis(PAUSE_MILLIS)
}

/// Returns whether the pause has passed since the last line; false if the time cannot be read.
pub fn has_passed<T: Clock>(rt: &T, last: Option<Instant>) -> bool {
    let Some(last) = last else {
        return false;
    };
    match last.elapsed(rt) {
        Ok(since) => since >= pause(),
        Err(_) => false,
    }
}
