//! The keys of a store with their values.

ghost use Rattle.std.specs.Prelude.{◌≡◌, ◌∷◌, ◌++◌, ◌≤◌, ℕ, List, IfOk, true, length, take, drop};
ghost use Rattle.std.specs.Ordering.{is_lt, nat_cmp};
ghost use Rattle.std.specs.Cmp.Lexicographic.{slice_cmp};
ghost use Rattle.judge_kv.specs.Stores as spec;
ghost use Rattle.judge_kv.specs.Stores.{IsPlaceOf};

use crate::value::Value;
use std::alloc::{AllocError, Global};
use std::cmp::Ordering;
use std::marker::Model;
use std::rc::Rc;

/// A key and its value.
#[derive(Drop)]
pub(crate) struct Entry {
    pub(crate) key: Rc<Value>,
    pub(crate) value: Rc<Value>,
}

impl Model for Entry {
    ghost use Rattle.std.specs.Prelude.{ℕ, List};
    ghost use Rattle.std.specs.Coded.{coded_ℕ, coded_list, coded×};

    ghost Value = { List ℕ × List ℕ };

    ghost coded = { coded× (coded_list coded_ℕ) (coded_list coded_ℕ) };

    ghost view = { λ e. (e.key.value, e.value.value) };
}

impl Entry {
    /// Returns an entry that shares its key and its value with this one.
    fn shared(&self) -> Result<Entry, AllocError>
        ensures { IfOk result (λ other. other ≡ self.now) }
    {
        Ok(Entry {
            key: self.key.clone()?,
            value: self.value.clone()?,
        })
    }

    /// The key.
    fn key(&self) -> &[u8]
        ensures { result.now ≡ self.now.0 }
    {
        self.key.as_slice()
    }

    /// A number of which nothing is promised.
    pub(crate) fn hash(&self) -> u64 {
        self.key.hash().rotate_left(17) ^ self.value.hash()
    }

    /// Returns whether two entries are known to be equal.
    fn is_same(&self, other: &Entry) -> bool
        ensures { result ≡ true → self.now ≡ other.now }
    {
        self.key.is_same(&other.key) && self.value.is_same(&other.value)
    }
}

/// Returns the place of the first entry with this key.
pub(crate) fn place_of(entries: &[Entry], key: &[u8]) -> Option<usize>
    ensures { IsPlaceOf key.now entries.now result }
{
    'entries: for place in 0..entries.len() {
        if entries[place].key() == key {
            return Some(place);
        }
    }
    None
}

/// Takes the entries with this key out.
pub(crate) fn take_out(entries: &mut Vec<Entry>, key: &[u8])
    ensures { entries.new.items ≡ spec.without key.now entries.old.items }
{
    let mut place = 0;
    'entries: while place < entries.len() {
        if entries[place].key() == key {
            entries.remove(place);
        } else {
            place += 1;
        }
    }
}

/// Returns whether bytes come before others in their order.
fn is_before(bytes: &[u8], others: &[u8]) -> bool
    ensures { result ≡ is_lt (slice_cmp nat_cmp bytes.now others.now) }
{
    match bytes.cmp(others) {
        Ordering::Less => true,
        _ => false,
    }
}

/// Returns the place at which an entry with this key stands among the others.
pub(crate) fn place_among(entries: &[Entry], key: &[u8]) -> usize
    ensures within { result ≤ length entries.now }
    ensures among { (value : List ℕ) → spec.among key.now value entries.now
        ≡ take result entries.now ++ (key.now, value) ∷ drop result entries.now }
{
    'entries: for place in 0..entries.len() {
        if !is_before(entries[place].key(), key) {
            return place;
        }
    }
    entries.len()
}

/// Returns entries that share their keys and values with these.
pub(crate) fn shared(alloc: Global, entries: &[Entry]) -> Result<Vec<Entry>, AllocError>
    ensures { IfOk result (λ others. others.items ≡ entries.now) }
{
    let mut others = Vec::with_capacity(alloc, entries.len())?;
    'entries: for place in 0..entries.len() {
        others.push(entries[place].shared()?)?;
    }
    Ok(others)
}

/// Returns whether all entries are known to be equal.
pub(crate) fn are_same(entries: &[Entry], others: &[Entry]) -> bool
    ensures { result ≡ true → entries.now ≡ others.now }
{
    if entries.len() != others.len() {
        return false;
    }
    'entries: for place in 0..entries.len() {
        if !entries[place].is_same(&others[place]) {
            return false;
        }
    }
    true
}
