//! A call of a history, as its line gives it.

ghost use Rattle.std.specs.Prelude.{◌≡◌, ◌||◌, is_none, is_some, true};

use vac_model::Task;

/// A call of a history.
#[derive(Drop)]
pub struct CallLine<'a> {
    /// The client that made the call.
    pub client: u32,
    /// A reading of the clock before the call began.
    pub begin: u64,
    /// A reading of the clock after the call completed, or `None` for a pending call.
    pub end: Option<u64>,
    /// The task that the call submitted.
    pub task: Task,
    /// The text of the reply, or `None` if the reply is not known. A pending call with a reply is
    /// undetermined: it took effect with this reply, or never took effect.
    pub reply: Option<&'a [u8]>,
    ghost ended: { (is_some reply || is_none end) ≡ true },
}
