//! Checking the calls of a history against a workload.

ghost use Rattle.std.specs.Prelude.{◌≡◌, ◌≢◌, ◌∷◌, ◌+◌, ◌||◌, not, true, [], IfOk, OnOk, IfErr, None, List, map};
ghost use Rattle.std.specs.Str.{bytes_eq};
ghost use Rattle.vac_lines.specs.Lines.{lines_of};
ghost use Rattle.vac_model.specs.TaskText.{task_text};
ghost use Rattle.judge_object.specs.Call.{is_completed};
ghost use Rattle.judge_calls.specs.Call.{Call, line_call};
ghost use Rattle.judge_calls.specs.Parts.{shown_call};
ghost use Rattle.judge_calls.specs.Work.{Asked, is_next, first_foreign, first_missing, calls_in};
ghost use Rattle.judge_calls.specs.Holding.{IsWork, Counts, IsCallCount};

use crate::by_client::ByClient;
use crate::call::read_call;
use crate::call_line::CallLine;
use crate::fault::CallFault;
use crate::work::{Workload, next_line};
use std::alloc::{AllocError, Global};
use vac_lines::{LineFault, StreamFault, print};
use vac_model::Task;

/// The number of calls of a client, and whether one of them is pending.
#[derive(Clone, Copy, Drop)]
pub(crate) struct CallCount {
    /// Number of calls of the client.
    made: usize,
    /// True if one of the calls is pending.
    stopped: bool,
}

/// The number of calls of each client.
#[derive(Drop)]
pub(crate) struct CallCounts {
    clients: ByClient<CallCount>,
    /// Number of calls of all clients.
    count: u64,
}

/// Returns whether two tasks have the same plain form.
fn have_one_form(alloc: Global, wanted: &Task, given: &Task) -> Result<bool, AllocError>
    ensures { IfOk result (λ same. same ≡ bytes_eq (task_text wanted.now) (task_text given.now)) }
{
    let mut wanted_text = Vec::new(alloc);
    print(wanted, &mut wanted_text)?;
    let mut given_text = Vec::new(alloc);
    print(given, &mut given_text)?;
    Ok(wanted_text.as_slice() == given_text.as_slice())
}

/// Returns the count after one more call.
fn count_after(so_far: CallCount, call: &CallLine<'_>) -> Result<CallCount, StreamFault>
    ensures made { IfOk result (λ next. next.made ≡ so_far.made + 1) }
    ensures stopped { IfOk result (λ next.
        next.stopped ≡ (not (is_completed (shown_call call.now)) || so_far.stopped)) }
    ensures fault { IfErr result (λ fault. fault ≢ StreamFault.Write) }
{
    let made = so_far.made.checked_add(1).ok_or(StreamFault::Bound)?;
    let stopped = !call.is_completed() || so_far.stopped;
    Ok(CallCount { made, stopped })
}

impl CallCounts {
    /// Creates the count of no calls.
    fn new(alloc: Global) -> CallCounts
        ensures { Counts result [] }
    {
        CallCounts {
            clients: ByClient::new(alloc),
            count: 0,
        }
    }

    /// Returns the count of a client's calls.
    fn count_of(&self, client: u32) -> CallCount
        ensures { (calls : List Call) → Counts self.now calls → IsCallCount result client calls }
    {
        match self.clients.get(client) {
            Some(so_far) => *so_far,
            None => CallCount {
                made: 0,
                stopped: false,
            },
        }
    }

    /// Adds one more call to the counts.
    fn count(&mut self, call: &CallLine<'_>, so_far: CallCount) -> Result<(), StreamFault>
        ensures counts { OnOk result ((calls : List Call) → Counts self.old calls →
            IsCallCount so_far call.now.client calls →
            Counts self.new (shown_call call.now ∷ calls)) }
        ensures fault { IfErr result (λ fault. fault ≢ StreamFault.Write) }
    {
        let next = count_after(so_far, call)?;
        let count = self.count.checked_add(1).ok_or(StreamFault::Bound)?;
        self.clients.insert(call.client, next)?;
        self.count = count;
        Ok(())
    }

    /// Returns whether a call submits the next task of its client. If the call does, it is
    /// counted.
    fn take(
        &mut self,
        alloc: Global,
        work: &Workload,
        call: &CallLine<'_>,
    ) -> Result<bool, StreamFault>
        ensures next { IfOk result (λ next. (asked : List Asked) (calls : List Call) →
            IsWork work.now asked → Counts self.old calls →
            next ≡ is_next asked calls (shown_call call.now)) }
        ensures counts { IfOk result (λ next. next ≡ true → (calls : List Call) →
            Counts self.old calls → Counts self.new (shown_call call.now ∷ calls)) }
        ensures fault { IfErr result (λ fault. fault ≢ StreamFault.Write) }
    {
        let so_far = self.count_of(call.client);
        let Some(wanted) = work.get(call.client, so_far.made) else {
            return Ok(false);
        };
        if !have_one_form(alloc, wanted, &call.task)? {
            return Ok(false);
        }
        self.count(call, so_far)?;
        Ok(true)
    }
}

/// Counts the calls of a history, and returns the counts with the first line whose call does not
/// submit the next task of its client. If there is such a line, its call and the calls after it
/// are not counted.
pub(crate) fn check_calls(
    alloc: Global,
    work: &Workload,
    text: &[u8],
) -> Result<(CallCounts, Option<u64>), StreamFault>
    ensures line { IfOk result (λ found. (asked : List Asked) → IsWork work.now asked →
        found.1 ≡ first_foreign asked [] (map line_call (lines_of text.now))) }
    ensures counts { IfOk result (λ found. found.1 ≡ None →
        Counts found.0 (calls_in [] (map line_call (lines_of text.now)))) }
    ensures fault { IfErr result (λ fault. fault ≢ StreamFault.Write) }
{
    let mut held = CallCounts::new(alloc);
    let mut rest = text;
    while let Some((line, behind)) = next_line(rest) {
        let number = held.count.checked_add(1).ok_or(StreamFault::Bound)?;
        let call = match read_call(alloc, line) {
            Ok(call) => call,
            Err(CallFault::Line(LineFault::Memory)) => return Err(StreamFault::Memory),
            Err(_) => return Ok((held, None)),
        };
        if !held.take(alloc, work, &call)? {
            return Ok((held, Some(number)));
        }
        rest = behind;
    }
    Ok((held, None))
}

/// Returns the first task of the workload that no call submits: its client, and its number among
/// the tasks of the client.
pub(crate) fn first_missing(
    alloc: Global,
    work: &Workload,
    held: &CallCounts,
) -> Result<Option<(u32, u64)>, StreamFault>
    ensures missing { IfOk result (λ found. (asked : List Asked) (calls : List Call) →
        IsWork work.now asked → Counts held.now calls → found ≡ first_missing calls [] asked) }
    ensures fault { IfErr result (λ fault. fault ≢ StreamFault.Write) }
{
    let mut seen: ByClient<usize> = ByClient::new(alloc);
    let mut rest = work.clients();
    while let Some((client, behind)) = rest.split_first() {
        let client = *client;
        let before = seen.get(client).copied().unwrap_or(0);
        let number = before.checked_add(1).ok_or(StreamFault::Bound)?;
        let so_far = held.count_of(client);
        if so_far.made <= before && !so_far.stopped {
            return Ok(Some((client, number as u64)));
        }
        seen.insert(client, number)?;
        rest = behind;
    }
    Ok(None)
}
