//! The loop of one client over its tasks.

ghost use Rattle.std.specs.Prelude.{◌≡◌, ◌+◌, true};
ghost use Rattle.vac_manager.specs.Called.{HasAllGrants};
ghost use Rattle.load_tasks.specs.Setting.{is_settings};
ghost use Rattle.stm_object.specs.Callers.{GoesOn};
ghost use Rattle.load_run.specs.Looping.{Looped, Clocked};
ghost use Rattle.load_run.specs.Keeping.{HasKeptAdded, contents};

use crate::asking::{record_call, with_room};
use crate::counts::TaskCounts;
use load_tasks::{Draws, Settings, draw_task};
use std::alloc::Global;
use stm_attempt::Gate;
use vac_manager::{CallStatistics, Caller, Fault, Recorder, trace_valid};

/// Issues the client's tasks of one round, one after the other, each as it is drawn, and counts
/// their results and attempts. A task that could not be built counts under memory, and so does a
/// task for which the recorder has no room. Each completed call is recorded, and then `Answered`
/// is reported to the gate. The code that runs the rounds reports to the gate when the client is
/// ready and done.
pub fn count_loop<D: Draws, G: Gate, K: Recorder>(
    alloc: Global,
    caller: &mut Caller<'_>,
    draws: &mut D,
    settings: &Settings,
    gate: &mut G,
    keep: &mut K,
) -> TaskCounts
    requires settings { is_settings settings.now ≡ true }
    ensures caller { GoesOn caller.old caller.new }
    ensures looped { Looped D.leads settings.now caller.old.shared.renewal settings.now.tasks
        caller.old.user.value caller.new.user.value draws.old draws.new result.outcomes }
    ensures clock { HasAllGrants caller.old.user.value → Clocked caller.old.shared.last
        caller.old.user.value caller.new.user.value result.outcomes }
    ensures tries { result.tries ≡ settings.now.tries }
    ensures attempts { caller.old.user.value.attempt.number + result.attempts
        ≡ caller.new.user.value.attempt.number }
    ensures kept { HasKeptAdded caller.old.shared.renewal
        caller.old.user.value caller.new.user.value
        (contents K.notes K.traced K.latest keep.old)
        (contents K.notes K.traced K.latest keep.new) }
{
    let mut counts = TaskCounts::new(settings.tries);
    let mut statistics = CallStatistics::new();
    'tasks: for _ in 0..settings.tasks {
        let drawn = draw_task(alloc, draws, settings);
        let Ok(task) = with_room(drawn, keep) else {
            counts.count(&Err(Fault::Memory), &CallStatistics::new());
            continue;
        };
        let mut tracer = keep.lend();
        let tries = settings.tries;
        let end = trace_valid(caller, &task, tries, gate, &mut tracer, &mut statistics);
        keep.take_back(tracer);
        let end = record_call(task, end, gate, keep);
        counts.count(&end, &statistics);
    }
    counts
}
