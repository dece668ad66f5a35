//! The remaining calls of each client, and the call that is written next.

ghost use Rattle.std.specs.Prelude.{◌≡◌, ◌+◌, length, List, IfSome, IfNone};
ghost use Rattle.stm_object.specs.Places.{rank_of};
ghost use Rattle.load_record.specs.Order.{Entry, entries_of, list_at, precedes};
ghost use Rattle.load_record.specs.Picking.{Picks, IsEmpty};
ghost use Rattle.load_record.specs.Rests.{left_of, picked_entry, IsBest};

use vac_manager::{CommitPosition, CompletedCall};

/// The remaining calls of a client.
#[derive(Clone, Copy, Drop)]
pub(crate) struct RemainingCalls<'j> {
    pub(crate) client: u32,
    pub(crate) notes: &'j [CompletedCall],
}

/// A call that is written next, and the number of its client.
#[derive(Clone, Copy, Drop)]
pub(crate) struct NextCall<'j> {
    pub(crate) client: u32,
    pub(crate) note: &'j CompletedCall,
}

/// Returns the rank of a record within its renewal: by version, the writer of a version before its
/// readers.
pub fn rank(place: CommitPosition) -> u64
    ensures { result ≡ rank_of place }
{
    let reader = if place.wrote { 0 } else { 1 };
    2 * place.version.get() + reader
}

/// Returns whether a call is written before another.
fn precedes(a: &CompletedCall, b: &CompletedCall) -> bool
    ensures { result ≡ precedes a.now b.now }
{
    if a.place.renewal != b.place.renewal {
        return a.place.renewal < b.place.renewal;
    }
    let (left, right) = (rank(a.place), rank(b.place));
    left < right || left == right && a.begin < b.begin
}

/// Returns the client at this position if its first call precedes the best call of the clients
/// before it, and otherwise the best of those clients.
fn better<'j>(
    best: Option<(usize, &'j CompletedCall)>,
    place: usize,
    rest: RemainingCalls<'j>,
) -> Option<(usize, &'j CompletedCall)>
    ensures { (lists : List (List Entry)) →
        list_at lists place ≡ entries_of rest.entry.client rest.entry.notes.now →
        IsBest lists place best.entry → IsBest lists (place + 1) result }
{
    let Some(note) = rest.notes.first() else {
        return best;
    };
    match best {
        Some((_, least)) if !precedes(note, least) => best,
        _ => Some((place, note)),
    }
}

/// Returns the client whose next call is written next, and that call; None if no call remains.
fn least<'j>(rests: &[RemainingCalls<'j>]) -> Option<(usize, &'j CompletedCall)>
    ensures { IsBest (left_of rests.now) (length rests.now) result }
{
    let mut best: Option<(usize, &'j CompletedCall)> = None;
    'clients: for place in 0..rests.len() {
        best = better(best, place, rests[place]);
    }
    best
}

/// Removes and returns the call that is written next; None if no call remains.
pub(crate) fn take_least<'j>(rests: &mut [RemainingCalls<'j>]) -> Option<NextCall<'j>>
    ensures some { IfSome result (λ picked.
        Picks (picked_entry picked) (left_of rests.old) (left_of rests.new)) }
    ensures none { IfNone result (IsEmpty (left_of rests.old)) }
{
    let (place, note) = least(rests)?;
    let rest = rests[place];
    let (client, notes) = (rest.client, &rest.notes[1..]);
    rests[place] = RemainingCalls { client, notes };
    Some(NextCall { client, note })
}
