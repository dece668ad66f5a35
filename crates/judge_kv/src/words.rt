//! Operations and replies as words of a line.

ghost use Rattle.std.specs.Prelude.{◌≡◌, IfOk};
ghost use Rattle.std.specs.Str.{bytes_eq};
ghost use Rattle.judge_kv.specs.Shared.{value_in};
ghost use Rattle.judge_kv.specs.Commands.{makes};
ghost use Rattle.vac_lines.specs.Words.{memory_word_of};
ghost use Rattle.vac_lines.specs.Lines.{texts};
ghost use Rattle.judge_text.specs.Quoting.{unquoted};
ghost use Rattle.judge_kv.specs.Words as spec;

use crate::answer::Answer;
use crate::cell::Cell;
use crate::command::{Change, Command, Operation, Transaction};
use crate::reader::{Reader, read_value};
use crate::value::Value;
use judge_text::{TextObject, read_quoted};
use std::alloc::{AllocError, Global};
use std::rc::Rc;
use vac_lines::read_memory_word;

/// Returns whether a word is this name.
pub(crate) fn is_name(word: &[u8], name: &[u8]) -> bool
    ensures { result ≡ bytes_eq word.now name.now }
{
    word == name
}

/// Returns the reply with the value that a quoted word writes.
fn read_value_answer(
    alloc: Global,
    reader: &mut Reader,
    word: &[u8],
) -> Result<Option<Answer>, AllocError>
    ensures { IfOk result (λ read. spec.value_word (unquoted word.now) ≡ read) }
{
    match reader.read_value(alloc, word)? {
        Some(value) => Ok(Some(Answer::value(value))),
        None => Ok(None),
    }
}

/// Returns the command of this name without values.
fn plain_command(name: &[u8]) -> Option<Command>
    ensures { spec.plain_command name.now ≡ spec.asked_by result }
{
    if is_name(name, b"get") {
        Some(Command::Get)
    } else if is_name(name, b"delete") {
        Some(Command::Delete)
    } else {
        None
    }
}

/// Returns the command of this name with one value.
fn value_command(name: &[u8], value: Rc<Value>) -> Option<Command>
    ensures { spec.value_command name.now value.value ≡ spec.asked_by result }
{
    if is_name(name, b"put") {
        Some(Command::Put(value))
    } else if is_name(name, b"append") {
        Some(Command::Append(value))
    } else if is_name(name, b"put-if-absent") {
        Some(Command::PutIfAbsent(value))
    } else if is_name(name, b"get-and-set") {
        Some(Command::GetAndSet(value))
    } else if is_name(name, b"increment") {
        increment_command(value)
    } else {
        None
    }
}

/// Returns the command that adds the number that a value writes.
fn increment_command(value: Rc<Value>) -> Option<Command>
    ensures { spec.increment_by (memory_word_of value.value) ≡ spec.asked_by result }
{
    match read_memory_word(value.as_slice()) {
        Some(by) => Some(Command::Increment(by)),
        None => None,
    }
}

/// Returns the command of two values, if it is a compare-and-set and both were read.
fn pair_command(name: &[u8], old: Option<Rc<Value>>, new: Option<Rc<Value>>) -> Option<Command>
    ensures { spec.pair_command name.now (value_in old) (value_in new) ≡ spec.asked_by result }
{
    if !is_name(name, b"cas") {
        return None;
    }
    match (old, new) {
        (Some(old), Some(new)) => Some(Command::CompareAndSet(old, new)),
        _ => None,
    }
}

/// Returns what a key has, as a word writes it: a value, or none.
pub fn read_held(alloc: Global, word: &[u8]) -> Result<Option<Option<Rc<Value>>>, AllocError>
    ensures { IfOk result (λ read. spec.held_word word.now ≡ spec.held_in read) }
{
    if is_name(word, b"-") {
        return Ok(Some(None));
    }
    match read_value(alloc, word)? {
        Some(value) => Ok(Some(Some(value))),
        None => Ok(None),
    }
}

/// Returns the change that a word writes.
fn read_change(alloc: Global, word: &[u8]) -> Result<Option<Change>, AllocError>
    ensures { IfOk result (λ read. spec.change_word word.now ≡ spec.change_in read) }
{
    if is_name(word, b"=") {
        return Ok(Some(Change::Keep));
    }
    match read_held(alloc, word)? {
        Some(held) => Ok(Some(Change::Become(held))),
        None => Ok(None),
    }
}

/// Returns the transaction of this name.
fn transaction(name: &[u8], it: Box<Transaction>) -> Option<Command>
    ensures { spec.transaction name.now (value_in it.value.old) (makes it.value.first)
        (makes it.value.second) ≡ spec.asked_by result }
{
    if is_name(name, b"txn") {
        Some(Command::Transact(it))
    } else if is_name(name, b"txn-get") {
        Some(Command::TransactAndGet(it))
    } else {
        None
    }
}

/// Returns the transaction of this name, if all of it was read.
fn whole_transaction(
    alloc: Global,
    name: &[u8],
    old: Option<Option<Rc<Value>>>,
    first: Option<Change>,
    second: Option<Change>,
) -> Result<Option<Command>, AllocError>
    ensures { IfOk result (λ read. spec.whole_transaction name.now (spec.held_in old)
        (spec.change_in first) (spec.change_in second) ≡ spec.asked_by read) }
{
    match (old, first, second) {
        (Some(old), Some(first), Some(second)) => {
            let it = Box::new(alloc, Transaction { old, first, second })?;
            Ok(transaction(name, it))
        }
        _ => Ok(None),
    }
}

/// Returns the command that a name, two words and those behind them write.
fn read_longer(
    alloc: Global,
    reader: &mut Reader,
    name: &[u8],
    old: &[u8],
    new: &[u8],
    rest: &[&[u8]],
) -> Result<Option<Command>, AllocError>
    ensures { IfOk result (λ read.
        spec.longer_does name.now old.now new.now (texts rest.now) ≡ spec.asked_by read) }
{
    match rest {
        [] => {
            let old = reader.read_value(alloc, old)?;
            let new = reader.read_value(alloc, new)?;
            Ok(pair_command(name, old, new))
        }
        [second] => {
            let old = read_held(alloc, old)?;
            let first = read_change(alloc, new)?;
            let second = read_change(alloc, second)?;
            let read = whole_transaction(alloc, name, old, first, second)?;
            Ok(read)
        }
        _ => Ok(None),
    }
}

/// Returns the command that a name and the words behind it write.
fn read_command(
    alloc: Global,
    reader: &mut Reader,
    name: &[u8],
    words: &[&[u8]],
) -> Result<Option<Command>, AllocError>
    ensures { IfOk result (λ read.
        spec.words_does name.now (texts words.now) ≡ spec.asked_by read) }
{
    match words {
        [] => Ok(plain_command(name)),
        [value] => match reader.read_value(alloc, value)? {
            Some(value) => Ok(value_command(name, value)),
            None => Ok(None),
        },
        [old, new, rest @ ..] => read_longer(alloc, reader, name, old, new, rest),
    }
}

impl TextObject for Cell {
    ghost use Rattle.judge_kv.specs.Words.{store_language};

    type Reader = Reader;

    ghost language = { store_language };

    fn reader(alloc: Global) -> Reader {
        Reader::new(alloc)
    }

    fn read_operation(
        alloc: Global,
        reader: &mut Reader,
        words: &[&[u8]],
    ) -> Result<Option<Operation>, AllocError> {
        match words {
            [name, key, values @ ..] => {
                let Some(key) = read_quoted(alloc, key)? else {
                    return Ok(None);
                };
                match read_command(alloc, reader, name, values)? {
                    Some(command) => Ok(Some(Operation::new(key, command))),
                    None => Ok(None),
                }
            }
            _ => Ok(None),
        }
    }

    fn read_reply(
        alloc: Global,
        reader: &mut Reader,
        word: &[u8],
    ) -> Result<Option<Answer>, AllocError> {
        if is_name(word, b"ok") {
            Ok(Some(Answer::done()))
        } else if is_name(word, b"true") {
            Ok(Some(Answer::truth(true)))
        } else if is_name(word, b"false") {
            Ok(Some(Answer::truth(false)))
        } else if is_name(word, b"-") {
            Ok(Some(Answer::has(None)))
        } else {
            read_value_answer(alloc, reader, word)
        }
    }
}
