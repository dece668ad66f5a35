//! The figures of a log of attempts.

ghost use Rattle.std.specs.Prelude.{◌≡◌, IfOk};
ghost use Rattle.judge_coverage.specs.Attempts.{aborted_in, read_only_in, attempts_coverage_of};

use crate::coverage::{Coverage, measure_calls};
use judge_object::Span;
use std::alloc::{AllocError, Global};

/// The end of an attempt at a transaction, and whether the attempt wrote.
#[derive(Clone, Copy, Debug, PartialEq, Eq)]
pub struct Outcome {
    /// True if the attempt committed, false if it was aborted.
    pub commits: bool,
    /// True if the attempt wrote a word.
    pub writes: bool,
}

/// The figures of a log of attempts.
#[derive(Clone, Copy, Debug, PartialEq, Eq)]
pub struct AttemptCoverage {
    /// The figures of the intervals, with an attempt in the place of a call.
    pub intervals: Coverage,
    /// Number of attempts that were aborted.
    pub aborted: u64,
    /// Number of attempts that wrote no word, whether they committed or not.
    pub read_only: u64,
}

/// Returns the number of attempts that were aborted.
fn count_aborted(outcomes: &[Outcome]) -> u64
    ensures { result ≡ aborted_in outcomes.now }
{
    let mut count = 0;
    'outcomes: for place in 0..outcomes.len() {
        if !outcomes[place].commits {
            count += 1;
        }
    }
    count
}

/// Returns the number of attempts that wrote no word.
fn count_read_only(outcomes: &[Outcome]) -> u64
    ensures { result ≡ read_only_in outcomes.now }
{
    let mut count = 0;
    'outcomes: for place in 0..outcomes.len() {
        if !outcomes[place].writes {
            count += 1;
        }
    }
    count
}

/// Measures the coverage of attempts, which may be given in any order: their intervals and their
/// outcomes.
pub fn measure_attempts(
    alloc: Global,
    intervals: &[Span],
    outcomes: &[Outcome],
) -> Result<AttemptCoverage, AllocError>
    ensures { IfOk result (λ coverage.
        coverage ≡ attempts_coverage_of intervals.now outcomes.now) }
{
    Ok(AttemptCoverage {
        intervals: measure_calls(alloc, intervals)?,
        aborted: count_aborted(outcomes),
        read_only: count_read_only(outcomes),
    })
}
