//! The running state of one key.

ghost use Rattle.std.specs.Prelude.{◌≡◌, true, None, Some, is_some, Ok, IfOk, codes};
ghost use Rattle.judge_object.specs.Rules.{given_text};
ghost use Rattle.judge_kv.specs.Shared.{value_in};
ghost use Rattle.judge_kv.specs.Commands.{does, makes};
ghost use Rattle.judge_kv.specs.Operations.{CompareAndSet};
ghost use Rattle.judge_kv.specs.Rules as spec;
ghost use Rattle.judge_kv.specs.Rules.{cell, held_after, has, extended, increased, changed_by};

use crate::answer::Answer;
use crate::command::{Change, Command, Operation};
use crate::value::Value;
use judge_object::{Line, Object};
use judge_text::{Named, Names};
use std::alloc::{AllocError, Global};
use std::marker::Model;
use std::rc::Rc;
use vac_lines::{append, read_memory_word};

/// The state of a key. Contracts see the bytes of its value, if it has one.
#[derive(Drop)]
pub struct Cell {
    alloc: Global,
    value: Option<Rc<Value>>,
}

impl Model for Cell {
    ghost use Rattle.std.specs.Prelude.{ℕ, List, Option};
    ghost use Rattle.std.specs.Coded.{coded_ℕ, coded_list, coded_option};

    ghost Value = { Option (List ℕ) };

    ghost coded = { coded_option (coded_list coded_ℕ) };

    ghost use Rattle.judge_kv.specs.Shared.{value_in};

    ghost view = { λ c. value_in c.value };
}

/// Returns whether a reply is known to be `false`.
fn is_false(reply: &Option<Vec<u8>>) -> bool
    ensures { result ≡ true → given_text reply.now ≡ Some (codes "false") }
{
    match reply {
        Some(text) => text.as_slice() == b"false".as_slice(),
        None => false,
    }
}

/// Returns a value that shares its place in memory with this one.
fn shared(value: &Option<Rc<Value>>) -> Result<Option<Rc<Value>>, AllocError>
    ensures { IfOk result (λ other. value_in other ≡ value_in value.now) }
{
    match value {
        None => Ok(None),
        Some(value) => Ok(Some(value.clone()?)),
    }
}

impl Cell {
    /// A key that has no value.
    pub fn new(alloc: Global) -> Cell
        ensures { result ≡ None }
    {
        Cell { alloc, value: None }
    }

    /// A key that has this value, or none.
    pub fn of(alloc: Global, value: Option<Rc<Value>>) -> Cell
        ensures { result ≡ value_in value }
    {
        Cell { alloc, value }
    }

    /// Returns the value of the key, or `None` for no value, and drops the rest of the state.
    pub fn into_held(self) -> Option<Rc<Value>>
        ensures { value_in result ≡ self }
    {
        self.value
    }

    /// A key that has this value.
    pub(crate) fn with(alloc: Global, bytes: Vec<u8>) -> Result<Cell, AllocError>
        ensures { IfOk result (λ cell. cell ≡ Some bytes.items) }
    {
        let value = Some(Rc::new(alloc, Value::from_bytes(bytes))?);
        Ok(Cell { alloc, value })
    }

    /// Returns whether it has a value.
    pub fn has_value(&self) -> bool
        ensures { result ≡ is_some self.now }
    {
        self.value.is_some()
    }

    /// Returns whether it has just this value.
    fn has(&self, bytes: &Value) -> bool
        ensures { result ≡ has self.now bytes.now }
    {
        match &self.value {
            None => false,
            Some(value) => value.as_slice() == bytes.as_slice(),
        }
    }

    /// Returns what it has with more behind it.
    fn extended(&self, more: &Rc<Value>) -> Result<Rc<Value>, AllocError>
        ensures { IfOk result (λ made. made.value ≡ extended self.now more.now.value) }
    {
        match &self.value {
            None => Ok(more.clone()?),
            Some(value) => Ok(Rc::new(self.alloc, value.with(self.alloc, more.as_slice())?)?),
        }
    }

    /// Returns the number that its value writes; 0 if it has none.
    fn number(&self) -> Option<u64>
        ensures { result ≡ spec.number_of self.now }
    {
        match &self.value {
            None => Some(0),
            Some(value) => read_memory_word(value.as_slice()),
        }
    }

    /// Returns its number with another one added, if there is a sum.
    fn summed(&self, by: u64) -> Option<u64>
        ensures { result ≡ spec.summed (spec.number_of self.now) by }
    {
        self.number()?.checked_add(by)
    }

    /// Returns the state after a number was added, and the reply.
    fn increased(self, by: u64) -> Result<(Cell, Answer), AllocError>
        ensures { IfOk result (λ made.
            increased self (spec.summed (spec.number_of self) by) ≡ (made.0, made.1)) }
    {
        let alloc = self.alloc;
        match self.summed(by) {
            None => Ok((self, Answer::truth(false))),
            Some(sum) => {
                let value = Rc::new(alloc, Value::from_number(alloc, sum)?)?;
                let answer = Answer::value(value.clone()?);
                let value = Some(value);
                Ok((Cell { alloc, value }, answer))
            }
        }
    }

    /// Returns whether it has just this value, or none.
    pub fn is_held(&self, old: &Option<Rc<Value>>) -> bool
        ensures { result ≡ spec.is_held self.now (value_in old.now) }
    {
        match old {
            None => !self.value.is_some(),
            Some(old) => self.has(old),
        }
    }

    /// Returns the state after a change.
    fn changed(self, change: &Change) -> Result<Cell, AllocError>
        ensures { IfOk result (λ made. changed_by self (makes change.now) ≡ made) }
    {
        match change {
            Change::Keep => Ok(self),
            Change::Become(value) => Ok(Cell {
                alloc: self.alloc,
                value: shared(value)?,
            }),
        }
    }

    /// Returns the state after a transaction, and whether it made the first change.
    fn transacted(
        self,
        old: &Option<Rc<Value>>,
        first: &Change,
        second: &Change,
    ) -> Result<(Cell, bool), AllocError>
        ensures { IfOk result (λ made.
            spec.transacted self (value_in old.now) (makes first.now) (makes second.now)
            ≡ (made.0, made.1)) }
    {
        if self.is_held(old) {
            Ok((self.changed(first)?, true))
        } else {
            Ok((self.changed(second)?, false))
        }
    }

    /// Returns the state after a compare-and-set, and the reply.
    fn compared(self, old: &Rc<Value>, new: &Rc<Value>) -> Result<(Cell, Answer), AllocError>
        ensures { IfOk result (λ made.
            held_after self (CompareAndSet old.now.value new.now.value) ≡ (made.0, made.1)) }
    {
        let alloc = self.alloc;
        if self.has(old) {
            let value = Some(new.clone()?);
            Ok((Cell { alloc, value }, Answer::truth(true)))
        } else {
            Ok((self, Answer::truth(false)))
        }
    }

    /// Returns the state after a command, and the reply.
    fn after(self, command: &Command) -> Result<(Cell, Answer), AllocError>
        ensures { IfOk result (λ made. held_after self (does command.now) ≡ (made.0, made.1)) }
    {
        let alloc = self.alloc;
        match command {
            Command::Get => {
                let answer = Answer::has(shared(&self.value)?);
                Ok((self, answer))
            }
            Command::Put(value) => {
                let value = Some(value.clone()?);
                Ok((Cell { alloc, value }, Answer::done()))
            }
            Command::Delete => Ok((Cell { alloc, value: None }, Answer::done())),
            Command::CompareAndSet(old, new) => self.compared(old, new),
            Command::Append(more) => {
                let value = Some(self.extended(more)?);
                Ok((Cell { alloc, value }, Answer::done()))
            }
            Command::PutIfAbsent(value) => {
                if self.value.is_some() {
                    Ok((self, Answer::truth(false)))
                } else {
                    let value = Some(value.clone()?);
                    Ok((Cell { alloc, value }, Answer::truth(true)))
                }
            }
            Command::GetAndSet(value) => {
                let answer = Answer::has(shared(&self.value)?);
                let value = Some(value.clone()?);
                Ok((Cell { alloc, value }, answer))
            }
            Command::Increment(by) => self.increased(*by),
            Command::Transact(it) => {
                let (cell, is_first) = self.transacted(&it.old, &it.first, &it.second)?;
                Ok((cell, Answer::truth(is_first)))
            }
            Command::TransactAndGet(it) => {
                let answer = Answer::has(shared(&self.value)?);
                let (cell, _) = self.transacted(&it.old, &it.first, &it.second)?;
                Ok((cell, answer))
            }
        }
    }

    /// Returns whether two are known to have the same value.
    fn is_alike(&self, other: &Cell) -> bool
        ensures { result ≡ true → self.now ≡ other.now }
    {
        match (&self.value, &other.value) {
            (None, None) => true,
            (Some(a), Some(b)) => a.is_same(b),
            _ => false,
        }
    }
}

impl Object for Cell {
    type Op = Operation;

    type Reply = Answer;

    ghost rules = { cell };

    fn copy(&self) -> Result<Cell, AllocError> {
        Ok(Cell {
            alloc: self.alloc,
            value: shared(&self.value)?,
        })
    }

    fn made(self, op: &Operation) -> Result<(Cell, Answer), AllocError> {
        self.after(op.command())
    }

    fn is_same(&self, other: &Cell) -> bool {
        self.is_alike(other)
    }

    fn hash(&self) -> u64 {
        match &self.value {
            None => 0,
            Some(value) => value.hash(),
        }
    }

    fn is_read_only(op: &Operation, reply: &Option<Vec<u8>>) -> bool {
        match op.command() {
            Command::Get => true,
            Command::CompareAndSet(..) | Command::PutIfAbsent(_) => is_false(reply),
            Command::Put(_)
            | Command::Delete
            | Command::Append(_)
            | Command::GetAndSet(_)
            | Command::Increment(_)
            | Command::Transact(_)
            | Command::TransactAndGet(_) => false,
        }
    }

    fn print(reply: &Answer, out: &mut Vec<u8>) -> Result<(), AllocError> {
        append(reply, out)
    }
}

impl Named for Cell {
    ghost use Rattle.judge_text.specs.Classing.{AreOwn};

    ghost name = { λ op. op.key };

    ghost naming = { λ calls objects. AreOwn objects };

    fn name(op: &Operation) -> &[u8] {
        op.key()
    }

    fn names(_alloc: Global, _lines: &[Line<Operation>]) -> Result<Names, AllocError> {
        Ok(Names::Alone)
    }
}
