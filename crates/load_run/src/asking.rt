//! Room for a call in a recorder before the call, and the record of the call after it.

ghost use Rattle.std.specs.Prelude.{◌≡◌, Ok as Built, IfOk};
ghost use Rattle.load_run.specs.Asking.{HasRecorded};
ghost use Rattle.load_run.specs.Keeping.{contents};

use std::alloc::AllocError;
use stm_attempt::{Gate, Point};
use vac_manager::{Fault, PlacedReply, Recorder};
use vac_model::Task;

/// Returns the task once the recorder has room for its call. Fails if the task could not be built,
/// and if the recorder has no room; the task is then not issued.
pub(crate) fn with_room<K: Recorder>(
    task: Result<Task, AllocError>,
    keep: &mut K,
) -> Result<Task, AllocError>
    ensures same { contents K.notes K.traced K.latest keep.new
        ≡ contents K.notes K.traced K.latest keep.old }
    ensures task { IfOk result (λ t. task ≡ Built t) }
    ensures room { IfOk result (λ _. K.ready keep.new) }
{
    let task = task?;
    keep.begin()?;
    Ok(task)
}

/// Records the call of a task if the call completed, and then reports `Answered` to the gate.
/// Returns the result of the call without its reply.
pub(crate) fn record_call<G: Gate, K: Recorder>(
    task: Task,
    end: Result<PlacedReply, Fault>,
    gate: &mut G,
    keep: &mut K,
) -> Result<(), Fault>
    requires room { K.ready keep.old }
    ensures { HasRecorded task end result
        (contents K.notes K.traced K.latest keep.old)
        (contents K.notes K.traced K.latest keep.new) }
{
    match end {
        Ok(placed) => {
            keep.keep(task, placed);
            gate.at(Point::Answered);
            Ok(())
        }
        Err(fault) => Err(fault),
    }
}
