//! The customers and items that words name.

ghost use Rattle.std.specs.Prelude.{◌≡◌, IfOk, map};
ghost use Rattle.std.specs.Option.{option_map};
ghost use Rattle.judge_part_text.specs.Naming as spec;

use judge_reservations::Names;
use std::alloc::{AllocError, Global};
use vac_lines::read_memory_word;
use vac_model::Kind;
use vac_model::limits::MOST_ID;

/// Largest number of customers that words may name, and of items.
pub const MOST_NAMES: usize = 64;

/// Largest number of digits of an id. Leading zeros count.
const ID_DIGITS: usize = 10;

/// Returns the id that a word writes.
fn id_of(word: &str) -> Option<u32>
    ensures { result ≡ spec.id_of word.now }
{
    if word.len() > ID_DIGITS {
        return None;
    }
    match read_memory_word(word.as_bytes()) {
        Some(id) if 1 <= id && id <= u64::from(MOST_ID) => Some(id as u32),
        _ => None,
    }
}

/// Returns the kind of item that a word names.
fn kind_of(word: &str) -> Option<Kind>
    ensures { result ≡ spec.kind_of word.now }
{
    if word == "car" {
        Some(Kind::Car)
    } else if word == "flight" {
        Some(Kind::Flight)
    } else if word == "room" {
        Some(Kind::Room)
    } else {
        None
    }
}

/// Returns the item that two words name.
fn item_of(kind: &str, id: &str) -> Option<(Kind, u32)>
    ensures { result ≡ spec.item_of kind.now id.now }
{
    Some((kind_of(kind)?, id_of(id)?))
}

/// Returns the ids that some words write, or `None` if a word writes no id.
fn ids_of(alloc: Global, words: &[&str]) -> Result<Option<Vec<u32>>, AllocError>
    ensures { IfOk result (λ ids.
        option_map (λ ids. ids.items) ids ≡ spec.ids_of (map (λ word. word.now) words.now)) }
{
    let mut ids = Vec::new(alloc);
    'words: for at in 0..words.len() {
        match id_of(words[at]) {
            Some(id) => ids.push(id)?,
            None => return Ok(None),
        }
    }
    Ok(Some(ids))
}

/// Returns the items that some words name, two words for each, or `None` if two words name no item
/// or the last kind has no id.
fn items_of(alloc: Global, words: &[&str]) -> Result<Option<Vec<(Kind, u32)>>, AllocError>
    ensures { IfOk result (λ items.
        option_map (λ items. items.items) items
        ≡ spec.items_of (map (λ word. word.now) words.now)) }
{
    let mut items = Vec::new(alloc);
    let mut at = 0;
    'words: while at < words.len() {
        let kind = words[at];
        at += 1;
        if at == words.len() {
            return Ok(None);
        }
        match item_of(kind, words[at]) {
            Some(item) => items.push(item)?,
            None => return Ok(None),
        }
        at += 1;
    }
    Ok(Some(items))
}

/// Returns whether some customers and items are few enough, and at least one.
fn are_few(customers: usize, items: usize) -> bool
    ensures { result ≡ spec.are_few customers items }
{
    customers <= MOST_NAMES && items <= MOST_NAMES && (1 <= customers || 1 <= items)
}

/// Returns the customers and items that words name: the ids of customers, and a kind and an id for
/// each item. Returns `None` if a word is no such name, if nothing is named, or if more than
/// [`MOST_NAMES`] customers or items are named.
pub fn read_names(
    alloc: Global,
    customers: &[&str],
    items: &[&str],
) -> Result<Option<Names>, AllocError>
    ensures { IfOk result (λ names. option_map spec.shown names
        ≡ spec.names_of (map (λ word. word.now) customers.now)
        (map (λ word. word.now) items.now)) }
{
    let Some(customers) = ids_of(alloc, customers)? else {
        return Ok(None);
    };
    let Some(items) = items_of(alloc, items)? else {
        return Ok(None);
    };
    if are_few(customers.len(), items.len()) {
        Ok(Some(Names { customers, items }))
    } else {
        Ok(None)
    }
}
