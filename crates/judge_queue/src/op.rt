//! Operations and replies.

ghost use Rattle.std.specs.Prelude.{Some};
ghost use Rattle.judge_queue.specs.Rules.{reply_text};

use std::fmt;
use std::fmt::{Display, Formatter};

/// An operation of a bounded queue.
#[derive(Drop)]
pub enum Op {
    /// Puts a number behind all others, if there is room.
    Enqueue(u64),
    /// Takes the first number out.
    Dequeue,
}

/// A reply of a bounded queue.
#[derive(Drop)]
pub enum Reply {
    /// The number was put in, or there was no room.
    Put(bool),
    /// This number was taken out.
    Taken(u64),
    /// There was no number.
    Empty,
}

impl Display for Reply {
    ghost output = { λ reply. Some (reply_text reply) };

    fn fmt<W: fmt::Write>(&self, f: &mut Formatter<W>) -> fmt::Result {
        match self {
            Reply::Put(done) => write!(f, "{done}"),
            Reply::Taken(number) => write!(f, "{number}"),
            Reply::Empty => write!(f, "-"),
        }
    }
}
