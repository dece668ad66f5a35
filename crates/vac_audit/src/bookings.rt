//! Lists of bookings.

ghost use Rattle.std.specs.Prelude.{◌≡◌, ◌+◌, ◌*◌, ◌<◌, ◌≤◌, ◌≢◌, ℕ, IfOk, OnOk};
ghost use Rattle.std.specs.Prelude.{MatchOption, length, nat_le, slice_index};
ghost use Rattle.tx_alloc.specs.declared.place.TheConstants.{BLOCK_WORDS};
ghost use Rattle.vac_bookings.specs.Bookings.{IsKey, code_of, place_code};
ghost use Rattle.vac_audit.specs.Marks.{IsMarked, BookingLooked, Counting, BookingsRan};
ghost use Rattle.vac_audit.specs.Marks.{unmarked};
ghost use Rattle.vac_audit.specs.Noted.{codes_in, InOrder, HasShortId, least_next};
ghost use Rattle.vac_audit.specs.declared.audit.TheConstants.{MOST_HEAP_WORDS};

use crate::Flaw;
use crate::notes::{NotedItem, Notes};
use crate::pointers::follow;
use crate::tree::LAST_ID;
use vac_bookings::{Key, place};
use vac_model::limits::{MOST_AMOUNT, MOST_UNITS};

const ID: usize = place::ID as usize;

const SUM: usize = place::SUM as usize;

const NEXT: usize = place::NEXT as usize;

const UNITS: usize = place::UNITS as usize;

/// Returns the index of the item with this key, if there is one.
fn find(items: &[NotedItem], key: Key) -> Option<usize>
    requires order { InOrder items.now }
    requires key { IsKey key }
    ensures found { MatchOption result
        ((i : ℕ) → i < length items.now → slice_index (codes_in items.now) i ≢ code_of key)
        (λ i. (i < length items.now) × (slice_index (codes_in items.now) i ≡ code_of key)) }
{
    items.binary_search_by_key(&key, |item| item.key).ok()
}

/// Returns whether a key may follow the last one.
fn may_follow(key: Key, last: Option<Key>) -> bool
    requires key { IsKey key }
    requires last { HasShortId last }
    ensures follows { result ≡ nat_le (least_next last) (code_of key) }
{
    match last {
        None => true,
        Some(last) => last < key,
    }
}

/// Tests a booking, whose key must be above the last one, and returns the index of its item.
fn look_at_booking(
    words: &[u64],
    items: &[NotedItem],
    booking: usize,
    last: Option<Key>,
) -> Result<usize, Flaw>
    requires inside { booking + BLOCK_WORDS ≤ length words.now }
    requires few { length words.now ≤ MOST_HEAP_WORDS }
    requires order { InOrder items.now }
    requires last { HasShortId last }
    ensures item { IfOk result (λ i. (i < length items.now)
        × (slice_index (codes_in items.now) i ≡ place_code (slice_index words.now) booking)) }
    ensures units { OnOk result (slice_index words.now (booking + UNITS) ≤ MOST_UNITS) }
    ensures sum { OnOk result (slice_index words.now (booking + SUM) ≤ MOST_UNITS * MOST_AMOUNT) }
    ensures looked { BookingLooked words.now (codes_in items.now) booking (least_next last) result }
{
    let key = Key {
        kind: words[booking],
        id: words[booking + ID],
    };
    if key.kind >= place::KINDS || key.id == 0 || key.id > LAST_ID || !may_follow(key, last) {
        return Err(Flaw::Order(booking as u32));
    }
    let units = words[booking + UNITS];
    if units == 0 || units > MOST_UNITS || words[booking + SUM] > units * MOST_AMOUNT as u64 {
        return Err(Flaw::Bookings(booking as u32));
    }
    find(items, key).ok_or(Flaw::Bookings(booking as u32))
}

/// Walks a list of bookings, and counts the units of each item. Bounded loop: the prover needs a
/// measure; each level reaches one more block.
pub fn walk_bookings(
    words: &[u64],
    reached: &mut Vec<bool>,
    notes: &mut Notes,
    head: usize,
) -> Result<(), Flaw>
    requires marked { IsMarked words.now reached.old.items }
    requires inside { head < length words.now }
    requires counting { Counting notes.old (unmarked reached.old.items) }
    ensures size { length reached.new.items ≡ length reached.old.items }
    ensures fewer { OnOk result (unmarked reached.new.items ≤ unmarked reached.old.items) }
    ensures counting { OnOk result (Counting notes.new (unmarked reached.new.items)) }
    ensures ran { BookingsRan words.now reached.old.items reached.new.items notes.old notes.new
        head result }
{
    let mut at = head;
    let mut last: Option<Key> = None;
    for _level in 0..reached.len() + 1 {
        match follow(words, reached, at)? {
            None => return Ok(()),
            Some(booking) => {
                let index = look_at_booking(words, notes.items.as_slice(), booking, last)?;
                let item = &mut notes.items[index];
                item.booked += words[booking + UNITS];
                last = Some(item.key);
                notes.tally.bookings += words[booking + UNITS];
                notes.tally.billed += words[booking + SUM];
                at = booking + NEXT;
            }
        }
    }
    Err(Flaw::Shared(at as u32))
}
