//! The line of an attempt.

ghost use Rattle.std.specs.Prelude.{◌++◌, Some};
ghost use Rattle.load_record.specs.Lines.{accesses_text, head_text, line_entry};

use std::fmt;
use std::fmt::{Display, Formatter};
use tx_memory::Access;
use vac_manager::TracedAttempt;

/// An attempt to be written, and the number of its client.
#[derive(Clone, Copy, Drop)]
pub(crate) struct Line<'a> {
    pub(crate) client: u32,
    pub(crate) attempt: &'a TracedAttempt,
}

impl Display for Line<'_> {
    ghost output = { λ line. Some
        (head_text (line_entry line) ++ accesses_text line.attempt.now.accesses.items) };

    fn fmt<W: fmt::Write>(&self, f: &mut Formatter<W>) -> fmt::Result {
        let (client, begin, end) = (self.client, self.attempt.begin, self.attempt.end);
        let outcome = if self.attempt.commits {
            "commit"
        } else {
            "abort"
        };
        let accesses = AccessList {
            accesses: self.attempt.accesses.as_slice(),
        };
        write!(f, "{client} {begin} {end} {outcome}{accesses}")
    }
}

/// Reads and writes, each after a space.
#[derive(Clone, Copy)]
struct AccessList<'a> {
    accesses: &'a [Access],
}

impl Display for AccessList<'_> {
    ghost output = { λ list. Some (accesses_text list.accesses.now) };

    fn fmt<W: fmt::Write>(&self, f: &mut Formatter<W>) -> fmt::Result {
        for access in self.accesses {
            match *access {
                Access::Read { addr, value } => write!(f, " r {} {value}", addr.0)?,
                Access::Write { addr, value } => write!(f, " w {} {value}", addr.0)?,
            }
        }
        Ok(())
    }
}
