//! Scripts as calls of a client.
ghost use Rattle.std.specs.Prelude.{◌≡◌};

use crate::scripts::{Line, task_of};
use std::alloc::Global;
use std::process::Abort;
use stm_attempt::Gate;
use vac_manager::{CallStatistics, Caller, Fault, PlacedReply, Untraced, call, trace_call};
use vac_model::{Reply, Task};

pub(crate) type Answer = Result<Reply, Fault>;

/// A line of a script, and its expected answer.
pub(crate) type Called = (Line<'static>, Answer);

/// Calls a task with at most `tries` attempts, which report to the gate.
pub(crate) fn call_gated<G: Gate>(
    caller: &mut Caller<'_>,
    task: &Task,
    tries: u32,
    gate: &mut G,
) -> Answer
    ensures { caller.new.shared ≡ caller.old.shared }
{
    let mut statistics = CallStatistics::new();
    let placed = trace_call(caller, task, tries, gate, &mut Untraced, &mut statistics);
    let PlacedReply { reply, place: _ } = placed?;
    Ok(reply)
}

/// Calls the task of each line with at most `tries` attempts, and compares the answers.
pub(crate) fn expect(
    rt: &impl Abort,
    alloc: Global,
    caller: &mut Caller<'_>,
    tries: u32,
    script: &[(Line<'_>, Answer)],
)
    ensures { caller.new.shared ≡ caller.old.shared }
{
    for (at, (line, want)) in script.iter().enumerate() {
        let task = task_of(alloc, line).expect(rt, "there is memory");
        assert_eq!(rt; call(caller, &task, tries), *want, "at line {at}");
    }
}
