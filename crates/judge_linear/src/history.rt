//! The calls of a history while it is read, each client's in turn.

ghost use Rattle.std.specs.Prelude.{◌≡◌, true, [], not, IfOk, MatchBool};
ghost use Rattle.vac_model.specs.Ranges.{is_task};
ghost use Rattle.judge_calls.specs.Order.{call_breaks_client};
ghost use Rattle.judge_calls.specs.Parts.{shown_call};
ghost use Rattle.judge_search.specs.Calls.{calls_of};
ghost use Rattle.judge_linear.specs.Reading.{IsHeld, Took};

use judge_calls::CallLine;
use judge_object::{Ends, Line};
use std::alloc::{AllocError, Global};
use vac_model::ValidTask;

/// The calls that were read, in the order of their lines, and the end of the last call of each
/// client.
#[derive(Drop)]
pub(crate) struct History {
    pub(crate) lines: Vec<Line<ValidTask>>,
    pub(crate) ends: Ends,
}

impl History {
    /// Creates a history without calls.
    pub(crate) fn new(alloc: Global) -> History
        ensures held { IsHeld result }
        ensures lines { result.lines.items ≡ [] }
    {
        History {
            lines: Vec::new(alloc),
            ends: Ends::new(alloc),
        }
    }

    /// Returns whether a call is in turn after the calls of its client.
    fn is_in_turn(&self, call: &CallLine<'_>) -> bool
        ensures { IsHeld self.now →
            result ≡ not (call_breaks_client (calls_of self.now.lines.items)
            (shown_call call.now)) }
    {
        let begin = u128::from(call.begin);
        if call.end_or_never() < begin {
            return false;
        }
        match self.ends.get(call.client) {
            Some(last) => last <= begin,
            None => true,
        }
    }

    /// Takes the call of a line with this text, if the call is in turn. Returns whether the call
    /// was taken.
    pub(crate) fn take(
        &mut self,
        alloc: Global,
        text: &[u8],
        call: CallLine<'_>,
    ) -> Result<bool, AllocError>
        requires { is_task call.task ≡ true }
        ensures { IfOk result (λ taken. IsHeld self.old → MatchBool taken
            (Took self.old self.new text.now (shown_call call.entry))
            (call_breaks_client (calls_of self.old.lines.items) (shown_call call.entry) ≡ true)) }
    {
        if !self.is_in_turn(&call) {
            return Ok(false);
        }
        let number = self.lines.len() as u64 + 1;
        let client = call.client;
        let end = call.end_or_never();
        let line = call.into_line(alloc, number, text)?;
        self.ends.insert(client, end)?;
        self.lines.push(line)?;
        Ok(true)
    }
}
