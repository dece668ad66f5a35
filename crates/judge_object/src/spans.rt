//! Spans, one after the other.

ghost use Rattle.std.specs.Prelude.{◌≡◌, ◌<◌, ◌+◌, ◌^◌, OnOk, List, [], ◌∷◌, None};
ghost use Rattle.judge_object.specs.Order.{itself, misplaced, clients_of};
ghost use Rattle.judge_object.specs.Keeping.{Keeps};

use crate::ends::Ends;
use crate::span::{Misplaced, Span};
use std::alloc::{AllocError, Global};

/// A summary of spans that come one after the other: one number for each client, the latest
/// BEGIN, and how many there are.
#[derive(Drop)]
pub struct Spans {
    /// When the last span of each client ended.
    ends: Ends,
    /// The latest BEGIN.
    latest: u64,
    /// Number of spans.
    count: u64,
}

impl Spans {
    /// No spans.
    pub fn new(alloc: Global) -> Spans
        ensures { Keeps result [] }
    {
        Spans {
            ends: Ends::new(alloc),
            latest: 0,
            count: 0,
        }
    }

    /// Number of spans.
    pub fn count(&self) -> u64
        ensures { result ≡ self.now.count }
    {
        self.count
    }

    /// Returns the number of clients.
    pub fn clients(&self) -> u64
        ensures { (earlier : List Span) → Keeps self.now earlier →
            result ≡ clients_of itself earlier }
    {
        self.ends.len()
    }

    /// Returns the fault of a span after these.
    pub fn find(&self, span: &Span) -> Option<Misplaced>
        ensures { (earlier : List Span) → Keeps self.now earlier →
            misplaced itself earlier span.now ≡ result }
    {
        let begin = u128::from(span.begin);
        if span.end < begin {
            return Some(Misplaced::Client);
        }
        if let Some(last) = self.ends.get(span.client) {
            if begin < last {
                return Some(Misplaced::Client);
            }
        }
        if span.end < u128::from(self.latest) {
            return Some(Misplaced::Time);
        }
        None
    }

    /// Puts a span after these.
    pub fn push(&mut self, span: &Span) -> Result<(), AllocError>
        requires { self.old.count + 1 < 2 ^ 64 }
        ensures count { OnOk result (self.new.count ≡ self.old.count + 1) }
        ensures kept { OnOk result ((earlier : List Span) → Keeps self.old earlier →
            misplaced itself earlier span.now ≡ None → Keeps self.new (span.now ∷ earlier)) }
    {
        self.ends.insert(span.client, span.end)?;
        self.latest = self.latest.max(span.begin);
        self.count += 1;
        Ok(())
    }
}
