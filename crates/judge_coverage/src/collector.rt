//! Collecting the entries of a log while its bytes pass.

ghost use Rattle.std.specs.Prelude.{◌<◌, ◌≤◌, ◌+◌, ◌^◌, vec_len};

use crate::entries::Entries;
use std::alloc::{AllocError, Global};
use vac_lines::cut_at;

/// A collector of the entries of a log.
#[derive(Drop)]
pub(crate) struct Collector {
    /// Largest number of bytes of a line that can be an entry.
    longest: usize,
    /// Largest number of entries.
    most: usize,
    /// The line that has begun, up to one byte more than the longest: enough to see that it is too
    /// long.
    line: Vec<u8>,
    /// The entries of the lines that have ended.
    entries: Entries,
    ghost fits: { longest < 2 ^ 63 },
    ghost short: { vec_len line ≤ longest + 1 },
}

impl Collector {
    ghost use Rattle.std.specs.Prelude.{◌≡◌, ◌++◌, ℕ, List, [], take, OnOk, IfOk};
    ghost use Rattle.vac_lines.specs.Told.{message_of};
    ghost use Rattle.judge_coverage.specs.Passing.{TakesLine, HasTaken, AreEntriesOf};

    /// Returns a collector of at most `most` entries that was fed nothing.
    pub(crate) fn new(alloc: Global, longest: usize, most: usize) -> Collector
        requires { longest < 2 ^ 63 }
        ensures { HasTaken longest result [] }
    {
        Collector {
            longest,
            most,
            line: Vec::new(alloc),
            entries: Entries::new(alloc),
        }
    }

    /// Appends bytes to the line that has begun, as far as they are needed.
    fn keep(&mut self, more: &[u8]) -> Result<(), AllocError>
        ensures longest { OnOk result (self.new.longest ≡ self.old.longest) }
        ensures entries { OnOk result (self.new.entries ≡ self.old.entries) }
        ensures line { OnOk result (self.new.line.items
            ≡ take (self.old.longest + 1) (self.old.line.items ++ more.now)) }
    {
        let room = self.longest + 1 - self.line.len();
        let kept = room.min(more.len());
        self.line.extend_from_slice(&more[..kept])
    }

    /// Takes the line that has begun, with its rest.
    fn end_line(&mut self, rest: &[u8]) -> Result<(), AllocError>
        ensures { OnOk result (TakesLine self.old self.new
            (message_of self.old.longest (self.old.line.items ++ rest.now))) }
    {
        if self.line.is_empty() {
            return self.entries.take_line(self.longest, self.most, rest);
        }
        self.keep(rest)?;
        self.entries
            .take_line(self.longest, self.most, self.line.as_slice())?;
        self.line.clear();
        Ok(())
    }

    /// Takes the lines that end in a chunk of the log, and keeps the line that begins after them.
    pub(crate) fn feed(&mut self, chunk: &[u8]) -> Result<(), AllocError>
        ensures { OnOk result ((longest : ℕ) (bytes : List ℕ) → HasTaken longest self.old bytes →
            HasTaken longest self.new (bytes ++ chunk.now)) }
    {
        let mut rest = chunk;
        'lines: while let Some((line, behind)) = cut_at(b'\n', rest) {
            self.end_line(line)?;
            rest = behind;
        }
        self.keep(rest)?;
        Ok(())
    }

    /// Takes the last line if it has no end.
    fn end_last(&mut self) -> Result<(), AllocError>
        ensures { OnOk result ((longest : ℕ) (bytes : List ℕ) → HasTaken longest self.old bytes →
            AreEntriesOf longest bytes self.new.entries) }
    {
        if self.line.is_empty() {
            return Ok(());
        }
        self.end_line(&[])
    }

    /// Takes the last line if it has no end, and returns all entries.
    pub(crate) fn finish(mut self) -> Result<Entries, AllocError>
        ensures { IfOk result (λ entries. (longest : ℕ) (bytes : List ℕ) →
            HasTaken longest self bytes → AreEntriesOf longest bytes entries) }
    {
        self.end_last()?;
        let Collector { entries, .. } = self;
        Ok(entries)
    }
}
