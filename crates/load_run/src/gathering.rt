//! Callers that are split off for a round and gathered after it.

ghost use Rattle.std.specs.Prelude.{◌≡◌, ◌≤◌, ◌<◌, ◌+◌, ◌∷◌, [], vec_len, vec_capacity, IfOk, IfErr};
ghost use Rattle.stm_core.specs.Client.{all_aborted};
ghost use Rattle.vac_manager.specs.Called.{HasAllGrants};
ghost use Rattle.vac_model.specs.declared.limits.TheConstants.{MOST_TRIES};
ghost use Rattle.load_tasks.specs.declared.settings.TheConstants.{MOST_CLIENTS};
ghost use Rattle.load_run.specs.Lists.{Paired};
ghost use Rattle.load_run.specs.Load.{Gathered, CanGather, IsCrew};
ghost use Rattle.load_run.specs.Several.{AllWithin, sum_of};

use crate::TaskCounts;
use crate::load::LoadFault;
use crate::workers::{Crew, Worker};
use std::alloc::Global;
use vac_manager::{Caller, Client};

/// Gathers the clients of all workers into that of the first, in their order, returns their slots,
/// and adds up their counts. `slots` is an empty vector with reserved room for the slots, so that
/// gathering cannot fail.
pub(crate) fn gather_all<W: Drop>(
    crew: Crew<'_, W>,
    mut slots: Vec<W>,
) -> (Client, Vec<W>, TaskCounts)
    requires can { CanGather crew }
    requires room { vec_len crew.others < vec_capacity slots }
    requires empty { slots.items ≡ [] }
    ensures own { result.0.table ≡ crew.entry.first.caller.shared.table }
    ensures alone { HasAllGrants result.0.value }
    ensures gathered { Gathered (λ w. w.caller.user.value.records) (λ w. w.counts.outcomes)
        crew.entry.first crew.entry.others.items result.0.value.records
        result.2.outcomes }
    ensures tries { result.2.tries ≡ crew.entry.first.counts.tries }
    ensures attempts { result.2.attempts
        ≡ sum_of (λ w. w.counts.attempts) (crew.entry.first ∷ crew.entry.others.items) }
    ensures slots { Paired (λ w slot. slot ≡ w.slot)
        (crew.entry.first ∷ crew.entry.others.items) result.1.items }
    ensures aborted { AllWithin (λ w. all_aborted w.caller.user.value)
        (crew.entry.first ∷ crew.entry.others.items) (all_aborted result.0.value) }
{
    let Crew { first, others } = crew;
    let Worker {
        mut caller,
        slot,
        mut counts,
    } = first;
    slots.push_reserved(slot);
    for worker in others {
        let Worker {
            caller: other,
            slot,
            counts: more,
        } = worker;
        caller.gather(other);
        slots.push_reserved(slot);
        counts = counts.plus(more);
    }
    (caller.into_user(), slots, counts)
}

/// Splits off a caller for each client slot but the first, which gets the caller of the setup
/// phase. No worker has run a task yet.
pub(crate) fn split_crew<'m, W: Drop>(
    alloc: Global,
    mut caller: Caller<'m>,
    slots: Vec<W>,
    tries: u32,
) -> Result<Crew<'m, W>, LoadFault>
    requires alone { HasAllGrants caller.user.value }
    requires some { 0 < vec_len slots }
    requires few { vec_len slots ≤ MOST_CLIENTS }
    requires tries { tries ≤ MOST_TRIES }
    ensures crew { IfOk result (λ crew. IsCrew caller.entry tries slots.items crew) }
    ensures number { IfOk result (λ crew. vec_len crew.others + 1 ≡ vec_len slots) }
    ensures refused { IfErr result (λ fault. fault ≡ LoadFault.Memory) }
{
    let Ok(mut others) = Vec::with_capacity(alloc, slots.len()) else {
        return Err(LoadFault::Memory);
    };
    let mut slots = slots.into_iter();
    let Some(slot) = slots.next() else {
        unreachable!()
    };
    for another in slots {
        let Ok(other) = caller.split() else {
            unreachable!()
        };
        let worker = Worker {
            caller: other,
            slot: another,
            counts: TaskCounts::new(tries),
        };
        others.push_reserved(worker);
    }
    let first = Worker {
        caller,
        slot,
        counts: TaskCounts::new(tries),
    };
    Ok(Crew { first, others })
}
