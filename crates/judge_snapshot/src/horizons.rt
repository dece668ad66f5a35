//! The commits of the calls of a history, with their horizons.

ghost use Rattle.std.specs.Prelude.{◌≡◌, ◌≤◌, IfOk, map};
ghost use Rattle.judge_object.specs.Call.{span_of};
ghost use Rattle.judge_search.specs.Calls.{call_of, calls_of};
ghost use Rattle.judge_snapshot.specs.Horizons.{IsHorizon, AreCommitsOf};
ghost use Rattle.judge_snapshot.specs.Trimmed.{claim_call};

use crate::commit::Commit;
use judge_object::{Line, Span};
use std::alloc::{AllocError, Global};

/// Returns the client and the interval of the call of each line.
fn spans_of<O: Drop>(alloc: Global, lines: &[Line<O>]) -> Result<Vec<Span>, AllocError>
    ensures { IfOk result (λ spans. spans.items ≡ map span_of (calls_of lines.now)) }
{
    let mut spans = Vec::with_capacity(alloc, lines.len())?;
    'lines: for place in 0..lines.len() {
        let line = &lines[place];
        spans.push(Span {
            client: line.client,
            begin: line.begin,
            end: line.end,
        })?;
    }
    Ok(spans)
}

/// Returns the horizon after one more call: the earlier of the horizon so far and BEGIN of the
/// call, if the call ends at `begin` or later.
fn nearer(horizon: u64, begin: u64, span: &Span) -> u64
    ensures less { result ≤ horizon }
    ensures reaches { begin ≤ span.now.end → result ≤ span.now.begin }
{
    if u128::from(begin) <= span.end {
        horizon.min(span.begin)
    } else {
        horizon
    }
}

/// Returns the horizon of a call with this BEGIN: the least BEGIN of the calls that end then or
/// later. Goes through all calls.
fn horizon_of(spans: &[Span], begin: u64) -> u64
    ensures { IsHorizon spans.now begin result }
{
    let mut horizon = u64::MAX;
    'spans: for place in 0..spans.len() {
        horizon = nearer(horizon, begin, &spans[place]);
    }
    horizon
}

/// Returns the line of the commit of a call.
fn commit_line<O: Drop>(
    alloc: Global,
    line: Line<O>,
    horizon: u64,
) -> Result<Line<Commit<O>>, AllocError>
    ensures { IfOk result (λ made. call_of made
        ≡ claim_call (record { call = call_of line; horizon = horizon })) }
{
    let span = Span {
        client: line.client,
        begin: line.begin,
        end: line.end,
    };
    Ok(Line {
        number: line.number,
        text: line.text,
        client: line.client,
        begin: line.begin,
        end: line.end,
        op: Commit {
            span,
            op: line.op,
            reply: line.reply,
            horizon,
        },
        reply: Some(Vec::from_slice(alloc, b"ok")?),
        soonest: line.soonest,
    })
}

/// Returns the commits of the calls of lines, each with its horizon. The time that this takes
/// grows with the square of the number of calls.
///
/// Not said: that no later horizons hold. With earlier ones fewer versions are forgotten, and a
/// search takes longer.
pub fn commits_of<O: Drop>(
    alloc: Global,
    lines: Vec<Line<O>>,
) -> Result<Vec<Line<Commit<O>>>, AllocError>
    ensures { IfOk result (λ commits. AreCommitsOf lines.items commits.items) }
{
    let spans = spans_of(alloc, lines.as_slice())?;
    let mut commits = Vec::with_capacity(alloc, lines.len())?;
    'lines: for line in lines {
        let horizon = horizon_of(spans.as_slice(), line.begin);
        commits.push(commit_line(alloc, line, horizon)?)?;
    }
    Ok(commits)
}
