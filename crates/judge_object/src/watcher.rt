//! The progress of a search.

/// Receives the progress of a search.
pub trait Watcher {
    /// Called before each step of a search, with the number of completed calls that have a position
    /// at that point and the number of steps made before.
    fn tell(&mut self, placed: u64, steps: u64) {
        let _ = (placed, steps);
    }
}

/// Ignores the progress.
impl Watcher for () {}
