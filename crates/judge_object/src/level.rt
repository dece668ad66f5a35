//! Levels of consistency.

/// A level of consistency: how much of the order of the calls of a history must be kept by an order
/// in which the calls give their replies.
#[derive(Clone, Copy, Debug, PartialEq, Eq)]
pub enum Level {
    /// The order of each client's calls, and the order of two calls if one had ended before the
    /// other began.
    Linearizable,
    /// The order of each client's calls.
    Sequential,
    /// No order.
    Serializable,
}
