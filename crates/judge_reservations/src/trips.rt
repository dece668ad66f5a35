//! The part of a completed trip.

ghost use Rattle.std.specs.Prelude.{◌≡◌, ◌==◌, IfOk};
ghost use Rattle.std.specs.List.{before_first, after_first};
ghost use Rattle.std.specs.Option.{option_map};
ghost use Rattle.judge_reservations.specs.Tasks.{answered};
ghost use Rattle.judge_reservations.specs.Completed.{made};
ghost use Rattle.judge_reservations.specs.Trips as spec;

use crate::answers::{AnsweredTask, Seen, customer_exists, owned};
use crate::scope::Scope;
use crate::words::join_words;
use std::alloc::{AllocError, Global};
use vac_lines::{cut_at, read_memory_word};
use vac_model::{Command, Kind, Refusal, Task};

/// Largest number of digits of an id in a reply. Leading zeros count.
const ID_DIGITS: usize = 10;

/// A pick that a word of the reply shows: the id of an item, and the word for the result of the
/// booking.
type Shown<'a> = (u32, &'a [u8]);

/// The words of the reply to a trip, without the first one.
#[derive(Clone, Copy)]
struct TripWords<'a> {
    customer: &'a [u8],
    car: &'a [u8],
    flight: &'a [u8],
    room: &'a [u8],
}

/// Returns the part of a completed trip.
pub(crate) fn trip_part(
    alloc: Global,
    scope: &Scope,
    customer: u32,
    asks: &[(Kind, u32)],
    text: &[u8],
) -> Result<Option<AnsweredTask>, AllocError>
    ensures { IfOk result (λ part.
        made part ≡ spec.trip_part scope.now customer asks.now text.now) }
{
    match trip_words(text) {
        Some(words) if scope.has_customer(customer) && joins(words.customer) => {
            picked_part(alloc, scope, customer, asks, words)
        }
        _ => Ok(None),
    }
}

/// Returns the part of a trip of a customer of the scope that exists after the trip.
fn picked_part(
    alloc: Global,
    scope: &Scope,
    customer: u32,
    asks: &[(Kind, u32)],
    words: TripWords<'_>,
) -> Result<Option<AnsweredTask>, AllocError>
    ensures { IfOk result (λ part.
        made part ≡ spec.picked_part scope.now customer asks.now (spec.words words.entry)) }
{
    let asks = words.kept_asks(alloc, scope, asks)?;
    if words.has_kept_pick(scope) && 1 <= asks.len() {
        Ok(Some(AnsweredTask {
            task: Task::trip(alloc, customer, asks.as_slice())?,
            text: words.kept_text(alloc, scope)?,
        }))
    } else {
        owned(alloc, joined_part(customer, words.customer))
    }
}

/// Returns whether all bookings of a completed trip leave closed items closed and whole customers
/// whole.
pub(crate) fn trip_fits(scope: &Scope, customer: u32, text: &[u8]) -> bool
    ensures { result ≡ spec.trip_fits scope.now customer text.now }
{
    match trip_words(text) {
        Some(words) => {
            pick_fits(scope, customer, Kind::Car, words.car)
                && pick_fits(scope, customer, Kind::Flight, words.flight)
                && pick_fits(scope, customer, Kind::Room, words.room)
        }
        None => true,
    }
}

/// Cuts the reply to a trip into its words.
fn trip_words(text: &[u8]) -> Option<TripWords<'_>>
    ensures { option_map spec.words result ≡ spec.trip_words text.now }
{
    let (_, rest) = cut_at(b' ', text)?;
    let (customer, rest) = cut_at(b' ', rest)?;
    let (car, rest) = cut_at(b' ', rest)?;
    let (flight, room) = cut_at(b' ', rest)?;
    match cut_at(b' ', room) {
        Some(_) => None,
        None => Some(TripWords {
            customer,
            car,
            flight,
            room,
        }),
    }
}

impl<'a> TripWords<'a> {
    /// Returns the word for a kind.
    fn word(&self, kind: Kind) -> &'a [u8]
        ensures { result.now ≡ spec.word_for (spec.words self.now) kind }
    {
        match kind {
            Kind::Car => self.car,
            Kind::Flight => self.flight,
            Kind::Room => self.room,
        }
    }

    /// Returns whether a pick is kept.
    fn has_kept_pick(&self, scope: &Scope) -> bool
        ensures { result ≡ spec.has_kept_pick scope.now (spec.words self.now) }
    {
        has_kept(scope, Kind::Car, self.car)
            || has_kept(scope, Kind::Flight, self.flight)
            || has_kept(scope, Kind::Room, self.room)
    }

    /// Returns the asks for items of the scope, of the kinds whose words are kept.
    fn kept_asks(
        &self,
        alloc: Global,
        scope: &Scope,
        asks: &[(Kind, u32)],
    ) -> Result<Vec<(Kind, u32)>, AllocError>
        ensures { IfOk result (λ kept.
            kept.items ≡ spec.kept_asks scope.now (spec.words self.now) asks.now) }
    {
        asks.iter()
            .copied()
            .filter(|ask| scope.has_item(ask.0, ask.1) && is_kept(scope, ask.0, self.word(ask.0)))
            .collect(alloc)
    }

    /// Returns the reply that has the picks that are kept, and no others.
    fn kept_text(&self, alloc: Global, scope: &Scope) -> Result<Vec<u8>, AllocError>
        ensures { IfOk result (λ text.
            text.items ≡ spec.kept_text scope.now (spec.words self.now)) }
    {
        let kept = [
            self.customer,
            kept_word(scope, Kind::Car, self.car),
            kept_word(scope, Kind::Flight, self.flight),
            kept_word(scope, Kind::Room, self.room),
        ];
        join_words(alloc, b"trip", kept.as_slice())
    }
}

/// Reads the id that a word writes.
fn read_id(word: &[u8]) -> Option<u32>
    ensures { result ≡ spec.id_of word.now }
{
    if word.len() > ID_DIGITS {
        return None;
    }
    match read_memory_word(word) {
        Some(id) if 1 <= id && id <= u64::from(u32::MAX) => Some(id as u32),
        _ => None,
    }
}

/// Returns the bytes before and after the first occurrence of a byte: all bytes and none, if the
/// byte does not occur.
fn split_first(byte: u8, bytes: &[u8]) -> (&[u8], &[u8])
    ensures before { result.0.now ≡ before_first (λ b. b == byte) bytes.now }
    ensures after { result.1.now ≡ after_first (λ b. b == byte) bytes.now }
{
    match cut_at(byte, bytes) {
        Some(cut) => cut,
        None => (bytes, b""),
    }
}

/// Returns the pick that a word shows.
fn shown_pick(word: &[u8]) -> Option<Shown<'_>>
    ensures { spec.shown result ≡ spec.shown_pick word.now }
{
    let (_, value) = split_first(b'=', word);
    let (id, seen) = split_first(b':', value);
    match read_id(id) {
        Some(id) => Some((id, seen)),
        None => None,
    }
}

/// Returns whether a pick is kept.
fn keeps_pick(scope: &Scope, kind: Kind, pick: Shown<'_>) -> bool
    ensures { result ≡ spec.keeps_pick scope.now kind (pick.entry.0, pick.entry.1.now) }
{
    scope.has_item(kind, pick.0)
        && pick.1 != Refusal::Full.name().as_bytes()
        && (pick.1 != Refusal::SoldOut.name().as_bytes() || scope.is_closed(kind, pick.0))
}

/// Returns whether a word shows a pick that is kept.
fn has_kept(scope: &Scope, kind: Kind, word: &[u8]) -> bool
    ensures { result ≡ spec.has_kept scope.now kind word.now }
{
    match shown_pick(word) {
        Some(pick) => keeps_pick(scope, kind, pick),
        None => false,
    }
}

/// Returns whether all that a word shows of a kind is kept.
fn is_kept(scope: &Scope, kind: Kind, word: &[u8]) -> bool
    ensures { result ≡ spec.is_kept scope.now kind word.now }
{
    match shown_pick(word) {
        Some(pick) => keeps_pick(scope, kind, pick),
        None => true,
    }
}

/// Returns the word for a kind without a pick.
fn no_pick(kind: Kind) -> &'static [u8]
    ensures { result.now ≡ spec.no_pick kind }
{
    match kind {
        Kind::Car => b"car=-",
        Kind::Flight => b"flight=-",
        Kind::Room => b"room=-",
    }
}

/// Returns a word that is kept, or the word for a kind without a pick.
fn kept_word<'a>(scope: &Scope, kind: Kind, word: &'a [u8]) -> &'a [u8]
    ensures { result.now ≡ spec.kept_word scope.now kind word.now }
{
    if is_kept(scope, kind, word) {
        word
    } else {
        no_pick(kind)
    }
}

/// Returns whether the word for the customer shows that the customer exists after the trip.
fn joins(word: &[u8]) -> bool
    ensures { result ≡ spec.joins word.now }
{
    word == b"cust=true".as_slice() || word == b"cust=exists".as_slice()
}

/// Returns a command that shows that a customer was added, or existed.
fn joined_part<'a>(customer: u32, word: &[u8]) -> Option<Seen<'a>>
    ensures { answered result ≡ spec.joined_part customer word.now }
{
    if word == b"cust=true".as_slice() {
        Some((Command::NewCustomer { id: customer }, b"true"))
    } else {
        customer_exists(customer)
    }
}

/// Returns whether the booking of a pick, if there is one, leaves closed items closed and whole
/// customers whole.
fn pick_fits(scope: &Scope, customer: u32, kind: Kind, word: &[u8]) -> bool
    ensures { result ≡ spec.pick_fits scope.now customer kind word.now }
{
    match shown_pick(word) {
        Some((id, seen)) => seen != b"true".as_slice() || scope.allows(customer, kind, id),
        None => true,
    }
}
