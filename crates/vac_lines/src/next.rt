//! The answer of a sink to a line.

/// The answer of a sink to a line.
#[derive(Clone, Copy, Debug, PartialEq, Eq)]
pub enum Next {
    /// The sink wants the lines that follow.
    GoOn,
    /// The sink has heard enough, and gets no more lines.
    Stop,
}
