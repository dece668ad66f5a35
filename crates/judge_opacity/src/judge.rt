//! Judging one attempt after another.

ghost use Rattle.std.specs.Prelude.{◌≡◌, ◌≢◌, ℕ, ◌+◌, ◌<◌, ◌^◌, ◌∷◌, length, IfOk, OnOk, IfErr, MatchOption, None, is_none, List, [], if◌then◌else◌, Err};
ghost use Rattle.vac_lines.specs.declared.stream_fault.StreamFault.TheVariants.{Write};
ghost use Rattle.judge_opacity.specs.Attempt.{Attempt, text_attempt};
ghost use Rattle.judge_opacity.specs.Parts.{AllAmong, attempt_of};
ghost use Rattle.judge_opacity.specs.Verdict.{counts_of, violation_of};
ghost use Rattle.judge_opacity.specs.Logs.{IsSameJudge};
ghost use Rattle.judge_opacity.specs.Judging.{FollowsAttempts, JudgesAttempt, TakesAttempt, DecidesFinding};

use crate::attempt::{Access, Head, read_attempt};
use crate::finding::{AttemptViolation, Counts, Finding};
use crate::memory::Memory;
use judge_object::Spans;
use std::alloc::{AllocError, Global};
use vac_lines::{LineFault, StreamFault};

/// A judge of attempts that are given line by line: the words that the committed attempts leave,
/// and the data by which the position of the next attempt is judged.
#[derive(Drop)]
pub(crate) struct Judge {
    memory: Memory,
    spans: Spans,
    /// Number of committed attempts.
    committed: u64,
    /// The accesses of the line that is judged. The vector is kept so that its room is used again.
    accesses: Vec<Access>,
}

/// Returns the number of committed attempts after one more attempt.
fn count_commit(committed: u64, commits: bool) -> Result<u64, StreamFault>
    ensures count { IfOk result (λ count.
        count ≡ (if commits then committed + 1 else committed)) }
    ensures refused { IfErr result (λ fault. fault ≢ Write) }
{
    if commits {
        committed.checked_add(1).ok_or(StreamFault::Bound)
    } else {
        Ok(committed)
    }
}

impl Judge {
    /// Creates a judge of attempts at `words` words, which has seen no attempts.
    pub(crate) fn new(alloc: Global, words: u32) -> Result<Judge, AllocError>
        ensures { IfOk result (λ judge. FollowsAttempts words judge []) }
    {
        Ok(Judge {
            memory: Memory::new(alloc, words)?,
            spans: Spans::new(alloc),
            committed: 0,
            accesses: Vec::new(alloc),
        })
    }

    /// Returns the number of the next line.
    fn next_line(&self) -> Result<u64, StreamFault>
        ensures line { IfOk result (λ line. line ≡ self.now.spans.count + 1) }
        ensures refused { IfErr result (λ fault. fault ≢ Write) }
    {
        self.spans.count().checked_add(1).ok_or(StreamFault::Bound)
    }

    /// Judges the attempt with this head and the accesses just read, and takes the attempt if it
    /// has no fault.
    fn judge_attempt(&mut self, head: &Head) -> Result<Option<AttemptViolation>, StreamFault>
        requires among { AllAmong (length self.old.memory.words.items) self.old.accesses.items }
        requires room { self.old.spans.count + 1 < 2 ^ 64 }
        ensures judged { IfOk result (λ found. (words : ℕ) (earlier : List Attempt) →
            FollowsAttempts words self.old earlier → JudgesAttempt words self.new earlier
            (attempt_of head.now self.old.accesses.items) found) }
        ensures refused { IfErr result (λ fault. fault ≢ Write) }
    {
        if let Some(wrong) = self.spans.find(&head.span) {
            return Ok(Some(AttemptViolation::Place(wrong)));
        }
        let committed = count_commit(self.committed, head.commits)?;
        self.memory.keep();
        if let Some(violation) = self.memory.run(self.accesses.as_slice())? {
            return Ok(Some(violation));
        }
        self.spans.push(&head.span)?;
        self.committed = committed;
        if !head.commits {
            self.memory.undo();
        }
        Ok(None)
    }

    /// Returns whether an attempt has no fault after the attempts judged so far.
    pub(crate) fn fits(&mut self, head: &Head, accesses: &[Access]) -> Result<bool, AllocError>
        requires { AllAmong (length self.old.memory.words.items) accesses.now }
        ensures same { OnOk result (IsSameJudge self.old self.new) }
        ensures fits { IfOk result (λ fits. (words : ℕ) (earlier : List Attempt) →
            FollowsAttempts words self.old earlier →
            fits ≡ is_none (violation_of earlier (attempt_of head.now accesses.now))) }
    {
        if self.spans.find(&head.span).is_some() {
            return Ok(false);
        }
        self.memory.keep();
        let wrong = self.memory.run(accesses)?;
        self.memory.undo();
        Ok(wrong.is_none())
    }

    /// Takes an attempt that has no fault after the attempts judged so far.
    pub(crate) fn take(&mut self, head: &Head, accesses: &[Access]) -> Result<(), StreamFault>
        requires { AllAmong (length self.old.memory.words.items) accesses.now }
        ensures size { OnOk result (length self.new.memory.words.items
            ≡ length self.old.memory.words.items) }
        ensures taken { OnOk result ((words : ℕ) (earlier : List Attempt) →
            FollowsAttempts words self.old earlier →
            violation_of earlier (attempt_of head.now accesses.now) ≡ None →
            FollowsAttempts words self.new (attempt_of head.now accesses.now ∷ earlier)) }
        ensures refused { IfErr result (λ fault. fault ≢ Write) }
    {
        let _line = self.next_line()?;
        let committed = count_commit(self.committed, head.commits)?;
        self.memory.keep();
        self.memory.run(accesses)?;
        self.spans.push(&head.span)?;
        self.committed = committed;
        if !head.commits {
            self.memory.undo();
        }
        Ok(())
    }

    /// Judges a line, which is not too long and is given without its end. Returns the verdict if
    /// the line decides it, whatever lines follow. Returns `None` if the attempt of the line has
    /// no fault; the attempt is then taken.
    pub(crate) fn judge_line(&mut self, text: &[u8]) -> Result<Option<Finding>, StreamFault>
        ensures judged { IfOk result (λ found. MatchOption found
            (TakesAttempt self.old self.new (λ words. text_attempt words text.now))
            (λ finding. DecidesFinding self.old (λ words. text_attempt words text.now) finding)) }
        ensures refused { IfErr result (λ fault. fault ≢ Write) }
    {
        let line = self.next_line()?;
        match read_attempt(self.memory.size(), text, &mut self.accesses)? {
            Ok(head) => match self.judge_attempt(&head)? {
                Some(violation) => Ok(Some(Finding::Illegal { line, violation })),
                None => Ok(None),
            },
            Err(fault) => Ok(Some(Finding::Fault { line, fault })),
        }
    }

    /// Returns the verdict for an overlong line.
    pub(crate) fn long_line(&self) -> Result<Finding, StreamFault>
        ensures judged { IfOk result (λ finding.
            DecidesFinding self.now (λ words. Err LineFault.LongLine) finding) }
        ensures refused { IfErr result (λ fault. fault ≢ Write) }
    {
        let line = self.next_line()?;
        Ok(Finding::Fault {
            line,
            fault: LineFault::LongLine,
        })
    }

    /// Returns the counts of the attempts judged so far.
    pub(crate) fn counts(&self) -> Counts
        ensures { (words : ℕ) (earlier : List Attempt) → FollowsAttempts words self.now earlier →
            result ≡ counts_of earlier }
    {
        Counts {
            attempts: self.spans.count(),
            committed: self.committed,
            clients: self.spans.clients(),
        }
    }
}
