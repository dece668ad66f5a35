//! Instrumentation points, at which a commit reports its progress.

/// A point that a commit or its caller reports.
#[derive(Clone, Copy, Debug, PartialEq, Eq)]
pub enum Point {
    /// All reads and writes were made. Reported before the first lock is taken.
    ReadsDone,
    /// All locks are held.
    Locked,
    /// The clock was ticked, and the commit has its write version.
    Ticked,
    /// Nothing can stop the commit any more.
    Decided,
    /// All values are stored. Reported before the first lock is released.
    Written,
    /// The result was returned. Reported by callers, never by a commit.
    Answered,
}

/// A receiver of the points that commits and callers report. A gate may use other clients of the
/// region.
pub trait Gate {
    /// Called once at each point that the commit reaches.
    ///
    /// Not said: when the function is called. Tests see each point reported once and in its order.
    /// Not in a contract: Decided comes after the last validation. The code shows this order.
    fn at(&mut self, point: Point);

    /// Called right before the first of a client's calls in a round of a load. Reported by
    /// callers, never by a commit.
    ///
    /// Not said: that the function is called, which is read in the code.
    fn ready(&mut self) {}

    /// Called right after the last of a client's calls in a round of a load. Reported by callers,
    /// never by a commit.
    ///
    /// Not said: that the function is called, which is read in the code.
    fn done(&mut self) {}
}

/// A gate that does nothing.
#[derive(Clone, Copy)]
pub struct NoGate;

impl Gate for NoGate {
    #[inline]
    fn at(&mut self, _point: Point) {}
}
