//! The state of a search.

use crate::known::Known;

/// A step of the path: the point before it, the number of completed calls with a position there,
/// the place of the call that was made, and the first place from which calls are left to try.
#[derive(Drop)]
pub(crate) struct Frame<P> {
    pub(crate) point: P,
    pub(crate) placed: u64,
    pub(crate) place: usize,
    pub(crate) next: usize,
}

/// The state of a search.
#[derive(Drop)]
pub(crate) struct Walk<P> {
    /// The current point.
    pub(crate) point: P,
    /// The number of completed calls with a position there.
    pub(crate) placed: u64,
    /// The first place from which calls are left to try.
    pub(crate) next: usize,
    /// The steps that led there.
    pub(crate) path: Vec<Frame<P>>,
    /// The dead points: those from which nothing is left to try.
    pub(crate) known: Known<P>,
    /// The number of the deepest dead point.
    pub(crate) best: usize,
    /// The number of completed calls with a position there.
    pub(crate) most: u64,
}
