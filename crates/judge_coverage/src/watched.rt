//! Readers of logs that are watched: the bytes pass unchanged, and what they show is measured.

ghost use Rattle.std.specs.Prelude.{◌≡◌, ◌<◌, ◌^◌, ◌++◌, ℕ, List, [], take, IfOk, IfSome, OnErr};
ghost use Rattle.std.specs.Io.{ReadsAtMost};
ghost use Rattle.std.specs.Io.KnownBytes.{ReadConsumes};
ghost use Rattle.judge_coverage.specs.Coverage.{coverage_of};
ghost use Rattle.judge_coverage.specs.Attempts.{attempts_coverage_of};
ghost use Rattle.judge_coverage.specs.Entries.{intervals_in, outcomes_in};
ghost use Rattle.judge_coverage.specs.Watching.{inner_of, HasPassed};

use crate::attempts::{AttemptCoverage, measure_attempts};
use crate::collector::Collector;
use crate::coverage::{Coverage, measure_calls};
use std::alloc::Global;
use std::io;
use std::io::Read;

/// A reader that passes on what another reader gives. While a log is watched, the calls or attempts
/// in the bytes that pass are collected.
#[derive(Drop)]
pub struct Watched<R> {
    inner: R,
    alloc: Global,
    /// The collector, or `None` if no log is watched or if memory was refused.
    collector: Option<Collector>,
}

impl<R> Watched<R> {
    /// Returns a reader that passes on what the inner reader gives, and watches no log yet.
    pub fn new(alloc: Global, inner: R) -> Watched<R>
        ensures { inner_of result ≡ inner }
    {
        Watched {
            inner,
            alloc,
            collector: None,
        }
    }

    /// Begins to watch a log, from the next byte on. A line longer than `longest` bytes counts as
    /// no call. Of a log with more than `most` calls there will be no figures, and nothing more of
    /// the log is kept once they are more: `most` bounds the memory and the time of watching.
    pub fn watch(&mut self, longest: usize, most: usize)
        requires { longest < 2 ^ 63 }
        ensures inner { inner_of self.new ≡ inner_of self.old }
        ensures passed { HasPassed longest self.new [] }
    {
        self.collector = Some(Collector::new(self.alloc, longest, most));
    }

    /// Feeds bytes that pass to the collector.
    fn pass(&mut self, chunk: &[u8])
        ensures inner { inner_of self.new ≡ inner_of self.old }
        ensures passed { (longest : ℕ) (bytes : List ℕ) → HasPassed longest self.old bytes →
            HasPassed longest self.new (bytes ++ chunk.now) }
    {
        let Some(mut collector) = self.collector.take() else {
            return;
        };
        if collector.feed(chunk).is_ok() {
            self.collector = Some(collector);
        }
    }

    /// Ends the watching. Returns the figures of the calls in the bytes that passed, or `None` if
    /// no log was watched, if memory was refused, or if the log has more calls than were to be
    /// watched.
    pub fn measure_calls(&mut self) -> Option<Coverage>
        ensures inner { inner_of self.new ≡ inner_of self.old }
        ensures coverage { (longest : ℕ) (bytes : List ℕ) → HasPassed longest self.old bytes →
            IfSome result (λ coverage. coverage ≡ coverage_of (intervals_in longest bytes)) }
    {
        let entries = self.collector.take()?.finish().ok()?;
        measure_calls(self.alloc, entries.intervals.as_slice()).ok()
    }

    /// Ends the watching. Returns the figures of the attempts in the bytes that passed, or `None`
    /// if no log was watched, if memory was refused, or if the log has more attempts than were to
    /// be watched.
    pub fn measure_attempts(&mut self) -> Option<AttemptCoverage>
        ensures inner { inner_of self.new ≡ inner_of self.old }
        ensures coverage { (longest : ℕ) (bytes : List ℕ) → HasPassed longest self.old bytes →
            IfSome result (λ coverage. coverage
            ≡ attempts_coverage_of (intervals_in longest bytes) (outcomes_in longest bytes)) }
    {
        let entries = self.collector.take()?.finish().ok()?;
        let intervals = entries.intervals.as_slice();
        measure_attempts(self.alloc, intervals, entries.outcomes.as_slice()).ok()
    }
}

impl<R: Read> Read for Watched<R> {
    ghost remaining = { λ watched. R.remaining (inner_of watched) };

    fn read(&mut self, buf: &mut [u8]) -> io::Result<usize>
        ensures bound { ReadsAtMost result buf.new }
        ensures bytes { ReadConsumes (R.remaining (inner_of self.old))
            (R.remaining (inner_of self.new)) result buf.new }
        ensures passed { IfOk result (λ count. (longest : ℕ) (bytes : List ℕ) →
            HasPassed longest self.old bytes →
            HasPassed longest self.new (bytes ++ take count buf.new)) }
        ensures kept { OnErr result ((longest : ℕ) (bytes : List ℕ) →
            HasPassed longest self.old bytes → HasPassed longest self.new bytes) }
    {
        let count = self.inner.read(buf)?;
        self.pass(&buf[..count]);
        Ok(count)
    }
}
