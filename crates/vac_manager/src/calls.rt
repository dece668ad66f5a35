//! Calls of tasks.

ghost use Rattle.std.specs.Prelude.{◌≡◌, true};
ghost use Rattle.stm_object.specs.Callers.{GoesOn};
ghost use Rattle.vac_manager.specs.Called.{HasCalled, is_call};
ghost use Rattle.vac_manager.specs.Ended.{reply_in, placed_in};
ghost use Rattle.vac_manager.specs.Placed.{HasCalledPlaced, replied};
ghost use Rattle.vac_manager.specs.Law.{IsFitting};
ghost use Rattle.vac_manager.specs.Tracing.{HasTraced};

use crate::client::Caller;
use crate::fault::Fault;
use crate::placed::{CallStatistics, PlacedReply};
use crate::watching::CountingTracer;
use crate::work::TaskBody;
use stm_attempt::{Gate, NoGate, Stop};
use stm_object::{CommitPosition, Tracer, Untraced};
use vac_model::limits::MOST_TRIES;
use vac_model::{Reply, Task};

/// Returns whether the task can be issued with this limit on its attempts.
fn can_ask(task: &Task, tries: u32) -> bool
    ensures { result ≡ is_call task.now tries }
{
    task.is_in_range() && 1 <= tries && tries <= MOST_TRIES
}

/// Returns the result of a call without the commit position of its record.
#[inline]
fn reply_of(answer: Result<(Reply, CommitPosition), Stop>) -> Result<Reply, Fault>
    ensures { result ≡ reply_in answer }
{
    match answer {
        Ok((reply, _place)) => Ok(reply),
        Err(stop) => Err(Fault::from(stop)),
    }
}

/// Returns the result of a call with the commit position of its record.
fn placed_of(answer: Result<(Reply, CommitPosition), Stop>) -> Result<PlacedReply, Fault>
    ensures { result ≡ placed_in answer }
{
    match answer {
        Ok((reply, place)) => Ok(PlacedReply { reply, place }),
        Err(stop) => Err(Fault::from(stop)),
    }
}

/// Runs a task as a transaction, in at most `tries` attempts, 1 to 1,048,576, and returns the
/// reply. After any fault the client may call again. A solo client meets no conflict, so its call
/// makes one attempt.
///
/// Not said: that a call answers; it may end with a conflict after its last attempt.
pub fn call(caller: &mut Caller<'_>, task: &Task, tries: u32) -> Result<Reply, Fault>
    ensures caller { GoesOn caller.old caller.new }
    ensures called { HasCalled caller.old.shared task.now tries result
        caller.old.user caller.new.user }
{
    let start = caller.own().start;
    if !can_ask(task, tries) {
        return Err(Fault::Arguments);
    }
    let work = TaskBody { task, start };
    reply_of(caller.call(&work, tries, &mut NoGate, &mut Untraced))
}

/// Runs a task as `call` does, and also returns the commit position of the call's record, and
/// leaves the statistics of the call's attempts in `statistics`. Each attempt reports to the gate
/// how far its commit is; an attempt that only reads reports when its reads are done. The tracer
/// traces the attempts.
///
/// Not said: when the gate is told, which no clause names; that a gate, which may hold anything its
/// maker gave it, never waits; by which conflicts the attempts before the last one are counted;
/// that a call answers.
pub fn trace_call<G: Gate, T: Tracer>(
    caller: &mut Caller<'_>,
    task: &Task,
    tries: u32,
    gate: &mut G,
    tracer: &mut T,
    statistics: &mut CallStatistics,
) -> Result<PlacedReply, Fault>
    ensures caller { GoesOn caller.old caller.new }
    ensures called { HasCalledPlaced caller.old.shared task.now tries result statistics.new
        caller.old.user caller.new.user }
    ensures traced { HasTraced IsFitting caller.old.shared (replied result)
        caller.old.user.value caller.new.user.value (T.latest tracer.old) (T.latest tracer.new)
        (T.ended tracer.old) (T.ended tracer.new) }
{
    // Asking for the own state gives the proof the invariant of the caller.
    let _ = caller.own();
    if !can_ask(task, tries) {
        *statistics = CallStatistics::new();
        return Err(Fault::Arguments);
    }
    trace_valid(caller, task, tries, gate, tracer, statistics)
}

/// Runs a task as `trace_call` does. The task can be issued with this limit on its attempts, so
/// that this is not checked again.
///
/// Not said: everything that is not said of `trace_call`.
#[inline(always)]
pub fn trace_valid<G: Gate, T: Tracer>(
    caller: &mut Caller<'_>,
    task: &Task,
    tries: u32,
    gate: &mut G,
    tracer: &mut T,
    statistics: &mut CallStatistics,
) -> Result<PlacedReply, Fault>
    requires valid { is_call task.now tries ≡ true }
    ensures caller { GoesOn caller.old caller.new }
    ensures called { HasCalledPlaced caller.old.shared task.now tries result statistics.new
        caller.old.user caller.new.user }
    ensures traced { HasTraced IsFitting caller.old.shared (replied result)
        caller.old.user.value caller.new.user.value (T.latest tracer.old) (T.latest tracer.new)
        (T.ended tracer.old) (T.ended tracer.new) }
{
    let start = caller.own().start;
    *statistics = CallStatistics::new();
    let work = TaskBody { task, start };
    let mut counting = CountingTracer { statistics, tracer };
    let answer = caller.call(&work, tries, gate, &mut counting);
    let CountingTracer {
        statistics: _,
        tracer: _,
    } = counting;
    placed_of(answer)
}
