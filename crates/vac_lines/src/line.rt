//! Reading a line: its task, or its first fault.

ghost use Rattle.std.specs.Prelude.{◌≡◌, ◌≢◌, ◌≤◌, true, length, IfOk, Err};
ghost use Rattle.std.specs.List.{list_any};
ghost use Rattle.vac_model.specs.Ranges.{is_task};
ghost use Rattle.vac_lines.specs.Lines.{words_of, texts};
ghost use Rattle.vac_lines.specs.LineTable.{words_task, task_named, line_task, is_bad_byte, leave_line};

use crate::booking_lines::{
    read_audit, read_bill, read_cancel, read_drop_customer, read_new_customer, read_reserve,
};
use crate::cutting::split_words;
use crate::fault::LineFault;
use crate::item_lines::{read_add, read_del, read_free, read_id, read_price};
use crate::lists::{read_trip, read_update};
use crate::names::{LineName, line_name};
use std::alloc::Global;
use vac_model::Task;

/// Largest number of bytes of a line, without its end.
pub const LINE_BYTES: usize = 1024;

/// Reads a line, given without its line end, and returns its task or its first fault, in the order
/// of [`LineFault`].
///
/// A line of up to eight words takes no memory.
pub fn read_line(alloc: Global, line: &[u8]) -> Result<Task, LineFault>
    ensures task { result ≢ Err LineFault.Memory → result ≡ line_task line.now }
    ensures inline { length (words_of line.now) ≤ 8 → result ≡ line_task line.now }
    ensures in_range { IfOk result (λ task. is_task task ≡ true) }
{
    if line.len() > LINE_BYTES {
        return Err(LineFault::LongLine);
    }
    if has_bad_byte(line) {
        return Err(LineFault::BadByte);
    }
    let words = split_words(alloc, line).map_err(|_| LineFault::Memory)?;
    read_words(alloc, words.as_slice())
}

/// Returns whether a byte of the line is below 32 or above 126.
pub fn has_bad_byte(line: &[u8]) -> bool
    ensures { result ≡ list_any is_bad_byte line.now }
{
    line.iter().any(|byte| *byte < 32 || *byte > 126)
}

/// Reads the task of the words of a line.
fn read_words(alloc: Global, words: &[&[u8]]) -> Result<Task, LineFault>
    ensures task { result ≢ Err LineFault.Memory → result ≡ words_task (texts words.now) }
    ensures inline { length words.now ≤ 8 → result ≡ words_task (texts words.now) }
    ensures in_range { IfOk result (λ task. is_task task ≡ true) }
{
    let Some((word, rest)) = words.split_first() else {
        return Err(LineFault::BadCommand);
    };
    match line_name(word) {
        Some(name) => read_named(alloc, name, rest),
        None => Err(LineFault::BadCommand),
    }
}

/// Reads the task of a line with this name and these words after the name.
fn read_named(alloc: Global, name: LineName, words: &[&[u8]]) -> Result<Task, LineFault>
    ensures task { result ≢ Err LineFault.Memory → result ≡ task_named name (texts words.now) }
    ensures inline { length words.now ≤ 8 → result ≡ task_named name (texts words.now) }
    ensures in_range { IfOk result (λ task. is_task task ≡ true) }
{
    let command = match name {
        LineName::Add => read_add(words)?,
        LineName::Del => read_del(words)?,
        LineName::NewCustomer => read_new_customer(words)?,
        LineName::DropCustomer => read_drop_customer(words)?,
        LineName::Free => read_free(words)?,
        LineName::Price => read_price(words)?,
        LineName::Bill => read_bill(words)?,
        LineName::Reserve => read_reserve(words)?,
        LineName::Cancel => read_cancel(words)?,
        LineName::Audit => read_audit(words)?,
        LineName::Trip => return read_trip(alloc, words),
        LineName::Leave => return read_leave(words),
        LineName::Update => return read_update(alloc, words),
    };
    Ok(Task::One(command))
}

/// Reads `leave ID` after its name.
fn read_leave(words: &[&[u8]]) -> Result<Task, LineFault>
    ensures task { result ≡ leave_line (texts words.now) }
    ensures in_range { IfOk result (λ task. is_task task ≡ true) }
{
    let customer = read_id(words)?;
    Ok(Task::Leave { customer })
}
