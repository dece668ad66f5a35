//! A line of a history, as a search keeps it.

ghost use Rattle.std.specs.Prelude.{◌≡◌, ◌||◌, nat_le, is_some, true};
ghost use Rattle.judge_object.specs.declared.span.TheConstants.{NEVER};

/// A call of a client, with the line of the history that holds it.
#[derive(Drop)]
pub struct Line<O> {
    /// The number of the line, the first being 1.
    pub number: u64,
    /// The bytes of the line, without the line end.
    pub text: Vec<u8>,
    /// The number of the client.
    pub client: u32,
    /// A reading of the clock before the call began.
    pub begin: u64,
    /// A reading of the clock after the call returned; later than all readings if it is pending.
    pub end: u128,
    /// The operation.
    pub op: O,
    /// The text of the reply. A pending call has one if its reply is known: then the call gave this
    /// reply, or never took effect.
    pub reply: Option<Vec<u8>>,
    /// A lower bound on BEGIN of this line and of all lines after it, set by a search.
    pub soonest: u64,
    ghost ended: { (is_some reply || nat_le NEVER end) ≡ true },
}
