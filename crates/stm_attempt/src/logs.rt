//! The private logs of an attempt.
ghost use Rattle.std.specs.Prelude.{◌≡◌, ℕ, [], false};
ghost use Rattle.stm_logs.specs.Log.{empty_log};
ghost use Rattle.stm_logs.specs.Marks.{is_marked};

use std::alloc::{Allocator, Global};
use stm_logs::{Marks, ReadLog, WriteLog};

/// A read log and a write log, used by one attempt after the other.
#[derive(Drop)]
pub struct Logs<A: Allocator + Copy = Global> {
    pub(crate) reads: ReadLog<A>,
    pub(crate) writes: WriteLog<A>,
    /// Marks of the addresses at which a read looks for a write of the attempt, and for a conflict
    /// that an earlier read has met. A conflict marks all addresses.
    pub(crate) marks: Marks,
    /// True while an attempt runs that has not come to its commit.
    pub(crate) in_use: bool,
}

impl<A: Allocator + Copy> Logs<A> {
    /// Creates empty logs. The logs take memory as an attempt reads and writes, and keep it.
    pub fn new(alloc: A) -> Logs<A>
        ensures { (result.reads ≡ []) × (result.writes ≡ empty_log) × (result.in_use ≡ false) }
    {
        Logs {
            reads: ReadLog::new(alloc),
            writes: WriteLog::new(alloc),
            marks: Marks::new(),
            in_use: false,
        }
    }

    pub(crate) fn clear(&mut self)
        ensures empty { (self.new.reads ≡ []) × (self.new.writes ≡ empty_log) }
        ensures unmarked { (a : ℕ) → is_marked self.new.marks a ≡ false }
        ensures use_same { self.new.in_use ≡ self.old.in_use }
    {
        self.reads.clear();
        self.writes.clear();
        self.marks.clear();
    }
}
