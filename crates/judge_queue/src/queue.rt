//! The states of the object.

ghost use Rattle.std.specs.Prelude.{◌≡◌, IfOk, []};
ghost use Rattle.judge_queue.specs.Rules.{queue, put, taken};

use crate::op::{Op, Reply};
use judge_object::{Line, Object};
use judge_text::{Named, Names};
use std::alloc::{AllocError, Global};
use std::marker::Model;
use vac_lines::append;

/// Most numbers in a queue.
pub const CAPACITY: usize = 4;

/// A bounded queue. Contracts see its numbers, the first one first.
#[derive(Drop)]
pub struct Queue {
    alloc: Global,
    numbers: Vec<u64>,
}

impl Model for Queue {
    ghost use Rattle.std.specs.Prelude.{ℕ, List};
    ghost use Rattle.std.specs.Coded.{coded_ℕ, coded_list};

    ghost Value = { List ℕ };

    ghost coded = { coded_list coded_ℕ };

    ghost view = { λ q. q.numbers.items };
}

impl Queue {
    /// An empty queue.
    pub fn new(alloc: Global) -> Queue
        ensures { result ≡ [] }
    {
        Queue {
            alloc,
            numbers: Vec::new(alloc),
        }
    }

    /// Puts a number behind all others, if there is room.
    fn put(mut self, number: u64) -> Result<(Queue, Reply), AllocError>
        ensures { IfOk result (λ made. put self number ≡ (made.0, made.1)) }
    {
        if self.numbers.len() < CAPACITY {
            self.numbers.push(number)?;
            Ok((self, Reply::Put(true)))
        } else {
            Ok((self, Reply::Put(false)))
        }
    }

    /// Takes the first number out.
    fn taken(mut self) -> (Queue, Reply)
        ensures { taken self ≡ (result.0, result.1) }
    {
        if self.numbers.is_empty() {
            return (self, Reply::Empty);
        }
        let number = self.numbers.remove(0);
        (self, Reply::Taken(number))
    }
}

impl Object for Queue {
    type Op = Op;

    type Reply = Reply;

    ghost rules = { queue };

    fn copy(&self) -> Result<Queue, AllocError> {
        Ok(Queue {
            alloc: self.alloc,
            numbers: Vec::from_slice(self.alloc, self.numbers.as_slice())?,
        })
    }

    fn made(self, op: &Op) -> Result<(Queue, Reply), AllocError> {
        match op {
            Op::Enqueue(number) => self.put(*number),
            Op::Dequeue => Ok(self.taken()),
        }
    }

    fn is_same(&self, other: &Queue) -> bool {
        self.numbers.as_slice() == other.numbers.as_slice()
    }

    fn hash(&self) -> u64 {
        let mut hash = 0u64;
        for number in self.numbers.as_slice() {
            hash = (hash ^ *number).wrapping_mul(0x0000_0100_0000_01b3);
        }
        hash
    }

    fn print(reply: &Reply, out: &mut Vec<u8>) -> Result<(), AllocError> {
        append(reply, out)
    }
}

impl Named for Queue {
    ghost use Rattle.judge_text.specs.Classing.{AreOwn};

    ghost name = { λ op. [] };

    ghost naming = { λ calls objects. AreOwn objects };

    fn name(_op: &Op) -> &[u8] {
        b""
    }

    fn names(_alloc: Global, _lines: &[Line<Op>]) -> Result<Names, AllocError> {
        Ok(Names::Alone)
    }
}
