//! The operations of a key-value store.

ghost use Rattle.std.specs.Prelude.{◌≡◌};
ghost use Rattle.judge_kv.specs.Commands.{does};

use crate::value::Value;
use smallvec::SmallVec;
use std::marker::Model;
use std::rc::Rc;

/// The effect of a transaction on the value of its key.
#[derive(Drop)]
pub enum Change {
    /// The key keeps its value.
    Keep,
    /// The key has this value afterwards, or none.
    Become(Option<Rc<Value>>),
}

/// A transaction. It stands in a box of its own, since few calls are transactions and a call is to
/// take little memory.
#[derive(Drop)]
pub struct Transaction {
    /// The value that the key is to have, or none.
    pub old: Option<Rc<Value>>,
    /// The change if the key has this value.
    pub first: Change,
    /// The change if it has not.
    pub second: Change,
}

/// An operation on a key.
#[derive(Drop)]
pub enum Command {
    /// Returns its value.
    Get,
    /// Sets its value.
    Put(Rc<Value>),
    /// Removes its value.
    Delete,
    /// Sets the second value if it has the first.
    CompareAndSet(Rc<Value>, Rc<Value>),
    /// Sets this behind the value it has.
    Append(Rc<Value>),
    /// Sets its value if it has none.
    PutIfAbsent(Rc<Value>),
    /// Sets its value and returns the one before.
    GetAndSet(Rc<Value>),
    /// Adds a number to the one that its value writes.
    Increment(u64),
    /// Makes the first change if it has just this value, or none; else the second.
    Transact(Box<Transaction>),
    /// Does so, and returns what it had before.
    TransactAndGet(Box<Transaction>),
}

/// An operation: a command and the key that it is for. Contracts see both. A key of at most 16
/// bytes stands in the operation itself.
#[derive(Drop)]
pub struct Operation {
    key: SmallVec<u8, 16>,
    command: Command,
}

impl Model for Operation {
    ghost use Rattle.judge_kv.specs.Operations.{Asked};

    ghost Value = { Asked };

    ghost use Rattle.judge_kv.specs.Commands.{does};

    ghost view = { λ o. record { key = o.key.items; does = does o.command } };
}

impl Operation {
    /// Returns the operation of a command for a key.
    pub fn new(key: Vec<u8>, command: Command) -> Operation
        ensures { result ≡ record { key = key.items; does = does command } }
    {
        Operation {
            key: SmallVec::from_vec(key),
            command,
        }
    }

    /// The key.
    pub fn key(&self) -> &[u8]
        ensures { result.now ≡ self.now.key }
    {
        self.key.as_slice()
    }

    /// The command.
    pub fn command(&self) -> &Command
        ensures { does result.now ≡ self.now.does }
    {
        &self.command
    }
}
