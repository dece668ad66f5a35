//! The setup phase of a load: its items and customers.

ghost use Rattle.std.specs.Prelude.{◌≡◌, ◌≤◌, true, IfOk, IfErr};
ghost use Rattle.vac_model.specs.Ranges.{is_command};
ghost use Rattle.vac_manager.specs.Called.{HasAllGrants};
ghost use Rattle.stm_object.specs.Callers.{GoesOn};
ghost use Rattle.load_tasks.specs.Setting.{is_settings};
ghost use Rattle.load_run.specs.Keeping.{HasKeptAdded, contents};
ghost use Rattle.load_tasks.specs.Tasks.{stock, stocks};
ghost use Rattle.load_run.specs.Opening.{RanOrStopped, OpeningEnded, WasAnswered, WasRefused};

use crate::asking::record_call;
use load_tasks::{Draws, Settings, draw_stock};
use stm_attempt::NoGate;
use vac_manager::{CallStatistics, Caller, Fault, Recorder, trace_call};
use vac_model::{Command, Kind, Task};

/// Attempts that a command of the setup phase may make at most.
const TRIES: u32 = 1;

/// Issues a command, and records the call if it completes. If the recorder has no room, the
/// command is not issued.
fn ask_for<K: Recorder>(
    caller: &mut Caller<'_>,
    command: Command,
    keep: &mut K,
) -> Result<(), Fault>
    requires alone { HasAllGrants caller.old.user.value }
    requires range { is_command command ≡ true }
    ensures caller { GoesOn caller.old caller.new }
    ensures grants { HasAllGrants caller.new.user.value }
    ensures answered { IfOk result (λ _. WasAnswered command caller.old caller.new
        (contents K.notes K.traced K.latest keep.old)
        (contents K.notes K.traced K.latest keep.new)) }
    ensures refused { IfErr result (λ fault. WasRefused fault caller.old caller.new) }
{
    let task = Task::One(command);
    let Ok(()) = keep.begin() else {
        return Err(Fault::Memory);
    };
    let mut tracer = keep.lend();
    let mut statistics = CallStatistics::new();
    let end = trace_call(
        caller,
        &task,
        TRIES,
        &mut NoGate,
        &mut tracer,
        &mut statistics,
    );
    keep.take_back(tracer);
    record_call(task, end, &mut NoGate, keep)
}

/// Adds an item of this kind.
fn add_item<D: Draws, K: Recorder>(
    caller: &mut Caller<'_>,
    draws: &mut D,
    id: u32,
    kind: Kind,
    keep: &mut K,
) -> Result<(), Fault>
    requires alone { HasAllGrants caller.old.user.value }
    requires id { 1 ≤ id }
    ensures asked { RanOrStopped D.leads (stock id kind) result
        caller.old caller.new draws.old draws.new }
    ensures kept { IfOk result (λ _. HasKeptAdded caller.old.shared.renewal
        caller.old.user.value caller.new.user.value
        (contents K.notes K.traced K.latest keep.old)
        (contents K.notes K.traced K.latest keep.new)) }
{
    let command = draw_stock(draws, id, kind);
    ask_for(caller, command, keep)
}

/// Adds an item of each kind.
fn add_items<D: Draws, K: Recorder>(
    caller: &mut Caller<'_>,
    draws: &mut D,
    id: u32,
    keep: &mut K,
) -> Result<(), Fault>
    requires alone { HasAllGrants caller.old.user.value }
    requires id { 1 ≤ id }
    ensures asked { RanOrStopped D.leads (stocks id) result
        caller.old caller.new draws.old draws.new }
    ensures kept { IfOk result (λ _. HasKeptAdded caller.old.shared.renewal
        caller.old.user.value caller.new.user.value
        (contents K.notes K.traced K.latest keep.old)
        (contents K.notes K.traced K.latest keep.new)) }
{
    add_item(caller, draws, id, Kind::Car, keep)?;
    add_item(caller, draws, id, Kind::Flight, keep)?;
    add_item(caller, draws, id, Kind::Room, keep)
}

/// Makes the items and the customers of a load, one command after the other, each in one attempt,
/// and records the calls. The client must be solo: it has all grants. The first fault ends the
/// setup phase: refused memory or a spent clock. What completed before the fault stays. A recorder
/// without room counts as refused memory, and its command is not issued.
///
/// Not said: which calls the recorder keeps if the setup phase stopped.
pub fn open_kept<D: Draws, K: Recorder>(
    caller: &mut Caller<'_>,
    draws: &mut D,
    settings: &Settings,
    keep: &mut K,
) -> Result<(), Fault>
    requires alone { HasAllGrants caller.old.user.value }
    requires settings { is_settings settings.now ≡ true }
    ensures opened { OpeningEnded D.leads settings.now result
        caller.old caller.new draws.old draws.new }
    ensures kept { IfOk result (λ _. HasKeptAdded caller.old.shared.renewal
        caller.old.user.value caller.new.user.value
        (contents K.notes K.traced K.latest keep.old)
        (contents K.notes K.traced K.latest keep.new)) }
{
    'items: for place in 0..settings.items {
        add_items(caller, draws, place + 1, keep)?;
    }
    'customers: for place in 0..settings.items {
        let command = Command::NewCustomer { id: place + 1 };
        ask_for(caller, command, keep)?;
    }
    Ok(())
}
