//! The replies of a key-value store.

ghost use Rattle.std.specs.Prelude.{◌≡◌, Some};
ghost use Rattle.judge_kv.specs.Replies.{Done, Truth, Has, answer_text, value_answer};
ghost use Rattle.judge_kv.specs.Shared.{value_in};

use crate::value::Value;
use judge_text::Quoted;
use std::fmt;
use std::fmt::{Display, Formatter};
use std::marker::Model;
use std::rc::Rc;

/// A reply of a key.
#[derive(Drop)]
enum Said {
    Done,
    Truth(bool),
    Has(Rc<Value>),
    Missing,
}

/// A reply of a key-value store.
#[derive(Drop)]
pub struct Answer {
    said: Said,
}

impl Model for Answer {
    ghost use Rattle.judge_kv.specs.Replies.{Answered};

    ghost Value = { Answered };

    ghost use Rattle.judge_kv.specs.Commands.{answered};

    ghost view = { λ a. answered a.said };
}

impl Answer {
    /// The reply that it was done.
    pub(crate) fn done() -> Answer
        ensures { result ≡ Done }
    {
        Answer { said: Said::Done }
    }

    /// The reply whether it was done.
    pub fn truth(is: bool) -> Answer
        ensures { result ≡ Truth is }
    {
        Answer {
            said: Said::Truth(is),
        }
    }

    /// The reply with what a key has.
    pub fn has(value: Option<Rc<Value>>) -> Answer
        ensures { result ≡ value_answer (value_in value) }
    {
        match value {
            Some(value) => Answer {
                said: Said::Has(value),
            },
            None => Answer {
                said: Said::Missing,
            },
        }
    }

    /// The reply with this value.
    pub(crate) fn value(value: Rc<Value>) -> Answer
        ensures { result ≡ Has value.value }
    {
        Answer {
            said: Said::Has(value),
        }
    }
}

impl Display for Answer {
    ghost output = { λ answer. Some (answer_text answer) };

    fn fmt<W: fmt::Write>(&self, f: &mut Formatter<W>) -> fmt::Result {
        match &self.said {
            Said::Done => write!(f, "ok"),
            Said::Truth(done) => write!(f, "{done}"),
            Said::Has(value) => {
                let bytes = value.as_slice();
                write!(f, "{}", Quoted { bytes })
            }
            Said::Missing => write!(f, "-"),
        }
    }
}
