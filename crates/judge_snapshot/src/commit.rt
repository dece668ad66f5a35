//! Commits of calls, as operations of the derived object.

ghost use Rattle.std.specs.Prelude.{◌≡◌};
ghost use Rattle.judge_object.specs.Call.{span_of};
ghost use Rattle.judge_object.specs.Rules.{given_text};

use judge_object::Span;
use std::marker::Model;

/// The commit of a call. Contracts see the call and its horizon: a time from which on all calls
/// begin that may come after it in an order.
#[derive(Drop)]
pub struct Commit<O> {
    /// The client and the interval of the call.
    pub(crate) span: Span,
    /// The operation of the call.
    pub(crate) op: O,
    /// The text of its reply, if it is known.
    pub(crate) reply: Option<Vec<u8>>,
    /// The horizon.
    pub(crate) horizon: u64,
}

impl<O> Model for Commit<O> {
    ghost use Rattle.judge_object.specs.Rules.{given_text};
    ghost use Rattle.judge_snapshot.specs.Trimmed as spec;

    ghost Value = { spec.Claim O };

    ghost view = { λ c. record {
      call = record {
        client = c.span.client;
        begin = c.span.begin;
        end = c.span.end;
        op = c.op;
        reply = given_text c.reply;
      };
      horizon = c.horizon;
    } };
}

impl<O: Drop> Commit<O> {
    /// Returns the client and the interval of the call.
    pub(crate) fn span(&self) -> Span
        ensures { result ≡ span_of self.now.call }
    {
        self.span
    }

    /// Returns the horizon.
    pub(crate) fn horizon(&self) -> u64
        ensures { result ≡ self.now.horizon }
    {
        self.horizon
    }

    /// Returns the operation of the call.
    pub(crate) fn op(&self) -> &O
        ensures { result.now ≡ self.now.call.op }
    {
        &self.op
    }

    /// Returns the text of the reply, if it is known.
    pub(crate) fn reply(&self) -> &Option<Vec<u8>>
        ensures { given_text result.now ≡ self.now.call.reply }
    {
        &self.reply
    }
}
