//! The figures of a log of calls.

ghost use Rattle.std.specs.Prelude.{◌≡◌, IfOk};
ghost use Rattle.judge_coverage.specs.Coverage.{clients_in, pending_in, coverage_of};

use crate::meetings::Meetings;
use judge_object::{NEVER, Span};
use std::alloc::{AllocError, Global};
use std::collections::BTreeSet;

/// The figures of a log of calls. A call runs from its BEGIN until its END, and no longer at its
/// END.
#[derive(Clone, Copy, Debug, PartialEq, Eq)]
pub struct Coverage {
    /// Number of calls.
    pub calls: u64,
    /// Number of clients that made the calls.
    pub clients: u64,
    /// Number of calls that never ended.
    pub pending: u64,
    /// Number of calls that began while a call of another client ran.
    pub overlapped: u64,
    /// Greatest number of calls that ran at one moment: when a call began, that call and the calls
    /// of other clients that ran then. 0 if there is no call.
    pub most_at_once: u64,
}

/// Returns the number of clients that made calls.
fn count_clients(alloc: Global, calls: &[Span]) -> Result<u64, AllocError>
    ensures { IfOk result (λ count. count ≡ clients_in calls.now) }
{
    let mut clients = BTreeSet::new(alloc);
    'calls: for place in 0..calls.len() {
        clients.insert(calls[place].client)?;
    }
    Ok(clients.len() as u64)
}

/// Returns the number of calls that never ended.
fn count_pending(calls: &[Span]) -> u64
    ensures { result ≡ pending_in calls.now }
{
    let mut count = 0;
    'calls: for place in 0..calls.len() {
        if calls[place].end >= NEVER {
            count += 1;
        }
    }
    count
}

/// Measures the coverage of calls, which may be given in any order.
///
/// Not said: that the function takes 64 bytes for each call while it runs, and a time that grows
/// with the number of calls times its logarithm.
pub fn measure_calls(alloc: Global, calls: &[Span]) -> Result<Coverage, AllocError>
    ensures { IfOk result (λ coverage. coverage ≡ coverage_of calls.now) }
{
    let overlaps = Meetings::of(alloc, calls)?.count();
    Ok(Coverage {
        calls: calls.len() as u64,
        clients: count_clients(alloc, calls)?,
        pending: count_pending(calls),
        overlapped: overlaps.overlapped,
        most_at_once: overlaps.most_at_once,
    })
}
