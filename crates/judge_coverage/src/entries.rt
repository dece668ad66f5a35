//! The entries of a log: the client and the interval that a line begins with, and the outcome of an
//! attempt.

ghost use Rattle.std.specs.Prelude.{◌≡◌, ◌∷◌, ℕ, List, [], None, Some, MatchOption, OnOk};
ghost use Rattle.vac_lines.specs.Lines.{words_of};
ghost use Rattle.vac_lines.specs.Told.{message_of};
ghost use Rattle.judge_coverage.specs.Entries.{head_of, shown_head, end_of, interval_of, has_write, outcome_of};
ghost use Rattle.judge_coverage.specs.Passing.{AddsLine};

use crate::attempts::Outcome;
use judge_object::{NEVER, Span};
use std::alloc::{AllocError, Global};
use vac_lines::{cut_at, read_client, read_memory_word};

/// Largest number of entries for which there is usually memory. Keeping and measuring that many
/// takes 400 megabytes.
pub const MOST_ENTRIES: usize = 1 << 22;

/// The word in the place of END that marks a pending call.
const NO_END: &[u8] = b"-";

/// The outcome of an attempt that committed.
const COMMIT: &[u8] = b"commit";

/// The outcome of an attempt that was aborted.
const ABORT: &[u8] = b"abort";

/// The first words of a line.
#[derive(Clone, Copy)]
pub(crate) struct Head<'a> {
    pub(crate) client: &'a [u8],
    pub(crate) begin: &'a [u8],
    pub(crate) end: &'a [u8],
    /// The word after END: the outcome of an attempt, or the first word of the line of a task.
    pub(crate) next: &'a [u8],
}

/// Returns the first word of a text.
fn first_word(text: &[u8]) -> &[u8]
    ensures { (more : List (List ℕ)) × (words_of text.now ≡ result.now ∷ more) }
{
    match cut_at(b' ', text) {
        Some((word, _)) => word,
        None => text,
    }
}

/// Cuts the first four words off a line. Returns `None` if there are fewer.
fn cut_head(line: &[u8]) -> Option<Head<'_>>
    ensures { MatchOption result (head_of (words_of line.now) ≡ None)
        (λ head. head_of (words_of line.now) ≡ Some (shown_head head)) }
{
    let (client, rest) = cut_at(b' ', line)?;
    let (begin, rest) = cut_at(b' ', rest)?;
    let (end, rest) = cut_at(b' ', rest)?;
    Some(Head {
        client,
        begin,
        end,
        next: first_word(rest),
    })
}

/// Reads a word as an END, which is [`NEVER`] for a pending call.
fn end_of(word: &[u8]) -> Option<u128>
    ensures { result ≡ end_of word.now }
{
    if word == NO_END {
        return Some(NEVER);
    }
    let end = read_memory_word(word)?;
    Some(u128::from(end))
}

/// Reads the client and the interval of the first words of a line.
fn interval_of(head: Head<'_>) -> Option<Span>
    ensures { result ≡ interval_of (shown_head head.entry) }
{
    let client = read_client(head.client)?;
    let begin = read_memory_word(head.begin)?;
    let end = end_of(head.end)?;
    Some(Span { client, begin, end })
}

/// Returns whether the line of an attempt has a write. Only the kind of a write has the letter w.
fn has_write(line: &[u8]) -> bool
    ensures { result ≡ has_write line.now }
{
    line.contains(&b'w')
}

/// Reads the outcome of an attempt from the word after its interval and from its line.
fn outcome_of(word: &[u8], line: &[u8]) -> Option<Outcome>
    ensures { result ≡ outcome_of word.now line.now }
{
    let commits = word == COMMIT;
    if commits || word == ABORT {
        let writes = has_write(line);
        return Some(Outcome { commits, writes });
    }
    None
}

/// The entries of lines.
#[derive(Drop)]
pub(crate) struct Entries {
    /// The intervals of calls and of attempts.
    pub(crate) intervals: Vec<Span>,
    /// The outcomes of attempts.
    pub(crate) outcomes: Vec<Outcome>,
}

impl Entries {
    /// Returns no entries.
    pub(crate) fn new(alloc: Global) -> Entries
        ensures intervals { result.intervals.items ≡ [] }
        ensures outcomes { result.outcomes.items ≡ [] }
    {
        Entries {
            intervals: Vec::new(alloc),
            outcomes: Vec::new(alloc),
        }
    }

    /// Appends the entry of a line, if there is one. A line longer than `longest` is no entry.
    ///
    /// # Errors
    /// Memory is refused beyond `most` entries too.
    pub(crate) fn take_line(
        &mut self,
        longest: usize,
        most: usize,
        line: &[u8],
    ) -> Result<(), AllocError>
        ensures { OnOk result (AddsLine self.old self.new (message_of longest line.now)) }
    {
        if line.len() > longest {
            return Ok(());
        }
        let Some(head) = cut_head(line) else {
            return Ok(());
        };
        if self.intervals.len() >= most {
            return Err(AllocError);
        }
        if let Some(interval) = interval_of(head) {
            self.intervals.push(interval)?;
        }
        if let Some(outcome) = outcome_of(head.next, line) {
            self.outcomes.push(outcome)?;
        }
        Ok(())
    }
}
