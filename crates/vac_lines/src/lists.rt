//! Lines on several items: `trip` and `update`.

ghost use Rattle.std.specs.Prelude.{◌≡◌, ◌≢◌, ◌≤◌, ◌+◌, ◌*◌, ◌/◌, ◌&&◌, true, length, IfOk, IfErr, OnOk};
ghost use Rattle.std.specs.List.{list_all};
ghost use Rattle.vac_model.specs.Amounts.{is_id};
ghost use Rattle.vac_model.specs.Ranges.{is_change, is_command, is_task};
ghost use Rattle.vac_lines.specs.Lines.{texts};
ghost use Rattle.vac_lines.specs.Words as spec;
ghost use Rattle.vac_lines.specs.LineTable.{asks_of, changes_of, cut_parts, trip_line, change_line, update_line};

use crate::fault::LineFault;
use crate::item_lines::{read_add, read_del};
use crate::names::{LineName, is_name, line_name};
use crate::words::{id_at, place_at};
use arrayvec::ArrayVec;
use std::alloc::Global;
use vac_model::limits::MOST_PARTS;
use vac_model::{Command, Kind, Task};

/// The asks of a trip.
type Asks = ArrayVec<(Kind, u32), MOST_PARTS>;

/// The changes of an update.
type Changes = ArrayVec<Command, MOST_PARTS>;

/// Reads `trip ID KIND ID ..`, with 1 to 32 pairs `KIND ID`, after its name.
pub(crate) fn read_trip(alloc: Global, words: &[&[u8]]) -> Result<Task, LineFault>
    ensures task { result ≢ Err LineFault.Memory → result ≡ trip_line (texts words.now) }
    ensures inline { length words.now ≤ 17 → result ≡ trip_line (texts words.now) }
    ensures in_range { IfOk result (λ task. is_task task ≡ true) }
{
    let Some((customer, pairs)) = words.split_first() else {
        return Err(LineFault::BadCount);
    };
    if pairs.is_empty() || pairs.len() % 2 != 0 || pairs.len() / 2 > MOST_PARTS {
        return Err(LineFault::BadCount);
    }
    let customer = id_at(customer)?;
    let asks = read_asks(pairs)?;
    Task::trip(alloc, customer, asks.as_slice()).map_err(|_| LineFault::Memory)
}

/// Reads the asks that pairs of words write.
fn read_asks(pairs: &[&[u8]]) -> Result<Asks, LineFault>
    requires { length pairs.now ≤ 2 * MOST_PARTS }
    ensures ok { IfOk result (λ asks. asks_of (texts pairs.now) ≡ Ok asks.items) }
    ensures err { IfErr result (λ fault. asks_of (texts pairs.now) ≡ Err fault) }
    ensures len { IfOk result (λ asks. length asks.items ≡ length pairs.now / 2) }
    ensures in_range { IfOk result (λ asks. list_all (λ ask. is_id ask.1) asks.items ≡ true) }
{
    let mut asks = ArrayVec::new();
    for pair in pairs.chunks_exact(2) {
        let [kind, id] = pair else { unreachable!() };
        asks.push(place_at(kind, id)?);
    }
    Ok(asks)
}

/// Reads `update CHANGE ; CHANGE ..`, with 1 to 32 changes, after its name.
pub(crate) fn read_update(alloc: Global, words: &[&[u8]]) -> Result<Task, LineFault>
    ensures task { result ≢ Err LineFault.Memory → result ≡ update_line (texts words.now) }
    ensures inline { length words.now ≤ 8 → result ≡ update_line (texts words.now) }
    ensures in_range { IfOk result (λ task. is_task task ≡ true) }
{
    if words.is_empty() || count_parts(words) > MOST_PARTS {
        return Err(LineFault::BadCount);
    }
    let changes = read_changes(words)?;
    Task::update(alloc, changes.as_slice()).map_err(|_| LineFault::Memory)
}

/// Returns the number of parts of an update.
fn count_parts(words: &[&[u8]]) -> usize
    ensures count { result ≡ length (cut_parts (texts words.now)) }
    ensures some { 1 ≤ result }
{
    let mut parts = 1;
    for word in words {
        if is_separator(word) {
            parts += 1;
        }
    }
    parts
}

/// Reads the changes that the parts of an update write.
fn read_changes(words: &[&[u8]]) -> Result<Changes, LineFault>
    requires { length (cut_parts (texts words.now)) ≤ MOST_PARTS }
    ensures ok { IfOk result (λ changes. changes_of (texts words.now) ≡ Ok changes.items) }
    ensures err { IfErr result (λ fault. changes_of (texts words.now) ≡ Err fault) }
    ensures len { IfOk result
        (λ changes. length changes.items ≡ length (cut_parts (texts words.now))) }
    ensures short { IfOk result (λ changes. 2 * length changes.items ≤ length words.now + 1) }
    ensures in_range { IfOk result
        (λ changes. list_all (λ c. is_change c && is_command c) changes.items ≡ true) }
{
    let mut changes = ArrayVec::new();
    for part in words.split(|word| is_separator(word)) {
        changes.push(read_change(part)?);
    }
    Ok(changes)
}

/// Returns whether a word separates two parts of an update.
fn is_separator(word: &[u8]) -> bool
    ensures { result ≡ spec.is_separator word.now }
{
    is_name(word, b";")
}

/// Reads a part of an update: an `add` or a `del` line.
fn read_change(words: &[&[u8]]) -> Result<Command, LineFault>
    ensures change { result ≡ change_line (texts words.now) }
    ensures in_range { IfOk result (λ command. is_command command ≡ true) }
    ensures of_tables { IfOk result (λ command. is_change command ≡ true) }
    ensures some { OnOk result (1 ≤ length words.now) }
{
    let Some((name, rest)) = words.split_first() else {
        return Err(LineFault::BadCommand);
    };
    match line_name(name) {
        Some(LineName::Add) => read_add(rest),
        Some(LineName::Del) => read_del(rest),
        _ => Err(LineFault::BadCommand),
    }
}
