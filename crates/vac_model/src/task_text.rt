//! The plain lines of tasks, without a line end: numbers without leading zeros, no word for one
//! unit of a reservation, and `-` for no price.

ghost use Rattle.std.specs.Prelude.{◌≡◌, Some};
ghost use Rattle.vac_model.specs.TaskText.{kind_word, price_word, units_words, asks_words, changes_words, spaced};
ghost use Rattle.vac_model.specs.TaskText.{command_words, words_text, task_text};

use crate::commands::Command;
use crate::items::Kind;
use crate::tasks::{Asks, Changes, Task};
use std::fmt;
use std::fmt::{Display, Formatter};

impl Kind {
    /// Returns the word for the kind.
    pub fn name(self) -> &'static str
        ensures { result.now ≡ kind_word self }
    {
        match self {
            Kind::Car => "car",
            Kind::Flight => "flight",
            Kind::Room => "room",
        }
    }
}

/// The word for the kind.
impl Display for Kind {
    ghost output = { λ kind. Some (kind_word kind) };

    fn fmt<W: fmt::Write>(&self, f: &mut Formatter<W>) -> fmt::Result {
        write!(f, "{}", self.name())
    }
}

/// A price, or `-` for none.
#[derive(Clone, Copy)]
struct PriceWord {
    price: Option<u32>,
}

impl Display for PriceWord {
    ghost output = { λ word. Some (price_word word.price) };

    fn fmt<W: fmt::Write>(&self, f: &mut Formatter<W>) -> fmt::Result {
        match self.price {
            None => write!(f, "-"),
            Some(price) => write!(f, "{price}"),
        }
    }
}

/// A number of units after a space, or nothing for one unit.
#[derive(Clone, Copy)]
struct UnitsWord {
    units: u32,
}

impl Display for UnitsWord {
    ghost output = { λ word. Some (spaced (units_words word.units)) };

    fn fmt<W: fmt::Write>(&self, f: &mut Formatter<W>) -> fmt::Result {
        if self.units == 1 {
            return Ok(());
        }
        write!(f, " {}", self.units)
    }
}

/// The command as a line of a script, without its end.
impl Display for Command {
    ghost output = { λ command. Some (words_text (command_words command)) };

    fn fmt<W: fmt::Write>(&self, f: &mut Formatter<W>) -> fmt::Result {
        match *self {
            Command::Add {
                kind,
                id,
                num,
                price,
            } => write!(f, "add {kind} {id} {num} {}", PriceWord { price }),
            Command::Delete { kind, id, num } => write!(f, "del {kind} {id} {num}"),
            Command::DropFlight { id } => write!(f, "del flight {id}"),
            Command::NewCustomer { id } => write!(f, "newcust {id}"),
            Command::DropCustomer { id } => write!(f, "dropcust {id}"),
            Command::Free { kind, id } => write!(f, "free {kind} {id}"),
            Command::Price { kind, id } => write!(f, "price {kind} {id}"),
            Command::Bill { id } => write!(f, "bill {id}"),
            Command::Reserve {
                customer,
                kind,
                id,
                num,
            } => write!(
                f,
                "reserve {customer} {kind} {id}{}",
                UnitsWord { units: num }
            ),
            Command::Cancel { customer, kind, id } => write!(f, "cancel {customer} {kind} {id}"),
            Command::Audit => write!(f, "audit"),
        }
    }
}

/// The items, each as ` KIND ID`, with a space in front.
impl Display for Asks {
    ghost output = { λ asks. Some (spaced (asks_words asks)) };

    fn fmt<W: fmt::Write>(&self, f: &mut Formatter<W>) -> fmt::Result {
        for (kind, id) in self.as_slice() {
            write!(f, " {kind} {id}")?;
        }
        Ok(())
    }
}

/// The changes, with ` ;` between every two, and with a space in front of each.
impl Display for Changes {
    ghost output = { λ changes. Some (spaced (changes_words changes)) };

    fn fmt<W: fmt::Write>(&self, f: &mut Formatter<W>) -> fmt::Result {
        let Some((first, rest)) = self.as_slice().split_first() else {
            return Ok(());
        };
        write!(f, " {first}")?;
        for change in rest {
            write!(f, " ; {change}")?;
        }
        Ok(())
    }
}

/// The task as a line of a script, without its end.
impl Display for Task {
    ghost output = { λ task. Some (task_text task) };

    fn fmt<W: fmt::Write>(&self, f: &mut Formatter<W>) -> fmt::Result {
        match self {
            Task::One(command) => write!(f, "{command}"),
            Task::Trip { customer, asks } => write!(f, "trip {customer}{asks}"),
            Task::Leave { customer } => write!(f, "leave {customer}"),
            Task::Update { changes } => write!(f, "update{changes}"),
        }
    }
}
