//! The calls of other clients that run when a call begins.

ghost use Rattle.std.specs.Prelude.{◌≡◌, IfOk};
ghost use Rattle.judge_coverage.specs.Coverage.{met_by, overlapped_in, most_at_once_in};
ghost use Rattle.judge_coverage.specs.Meetings.{AreMeetings};

use crate::moments::{Moments, Reached};
use judge_object::Span;
use std::alloc::{AllocError, Global};

/// Number of clients for which the numbers reached are kept apart. Clients with equal remainders
/// share them.
const CLIENTS: usize = 64;

/// The overlaps of calls.
#[derive(Clone, Copy)]
pub(crate) struct Overlaps {
    /// Number of calls that began while a call of another client ran.
    pub(crate) overlapped: u64,
    /// Greatest number of calls that ran at one moment.
    pub(crate) most_at_once: u64,
}

/// Calls with their moments, of all calls together and apart by client.
#[derive(Drop)]
pub(crate) struct Meetings<'a> {
    calls: &'a [Span],
    together: Moments,
    apart: Moments,
}

impl Meetings<'_> {
    /// Sorts the moments of calls.
    pub(crate) fn of(alloc: Global, calls: &[Span]) -> Result<Meetings<'_>, AllocError>
        ensures meetings { IfOk result (λ meetings. AreMeetings meetings) }
        ensures calls { IfOk result (λ meetings. meetings.calls.now ≡ calls.now) }
    {
        Ok(Meetings {
            calls,
            together: Moments::of(alloc, false, calls)?,
            apart: Moments::of(alloc, true, calls)?,
        })
    }

    /// Returns the number of calls of other clients that run when a call begins. The numbers that
    /// were reached before, among all calls and among those of the client, only make the search
    /// faster.
    fn met_by(&self, call: &Span, all: &mut Reached, own: &mut Reached) -> u64
        requires { AreMeetings self.now }
        ensures { result ≡ met_by self.now.calls.now call.now }
    {
        let running = self.together.running(0, call.begin, all);
        running.saturating_sub(self.apart.running(call.client, call.begin, own))
    }

    /// Counts the overlaps of the calls.
    pub(crate) fn count(&self) -> Overlaps
        requires { AreMeetings self.now }
        ensures overlapped { result.overlapped ≡ overlapped_in self.now.calls.now }
        ensures most_at_once { result.most_at_once ≡ most_at_once_in self.now.calls.now }
    {
        let mut all = Reached::NONE;
        let mut own = [Reached::NONE; CLIENTS];
        let mut overlapped = 0;
        let mut most_at_once = 0;
        'calls: for place in 0..self.calls.len() {
            let call = &self.calls[place];
            let met = self.met_by(call, &mut all, &mut own[call.client as usize % CLIENTS]);
            if met > 0 {
                overlapped += 1;
            }
            most_at_once = met.saturating_add(1).max(most_at_once);
        }
        Overlaps {
            overlapped,
            most_at_once,
        }
    }
}
