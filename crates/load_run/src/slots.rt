//! Client slots, which go on from round to round, and the recorders of completed calls.

ghost use Rattle.std.specs.Prelude.{◌≡◌, ◌≤◌, map, [], vec_len, vec_capacity, IfOk};
ghost use Rattle.load_tasks.specs.Streams.{streams_of};

use load_tasks::PcgDraws;
use std::alloc::{AllocError, Global};
use vac_manager::NoRecorder;

/// The recorders of a load: that of the setup phase, and that of each client, in the order of the
/// clients.
#[derive(Drop)]
pub struct Recorders<K> {
    pub opening: K,
    pub clients: Vec<K>,
}

/// A client slot of a load: the draws, the gate and the recorder of one client, kept from round to
/// round.
#[derive(Drop)]
pub struct Slot<D, G, K> {
    pub draws: D,
    pub gate: G,
    pub keep: K,
}

/// Returns recorders that record nothing, for a load of `count` clients.
pub fn no_recorders(alloc: Global, count: u32) -> Result<Recorders<NoRecorder>, AllocError>
    ensures { IfOk result (λ recorders. vec_len recorders.clients ≡ count) }
{
    let mut clients = Vec::new(alloc);
    for number in 0..count {
        clients.push(NoRecorder)?;
    }
    Ok(Recorders {
        opening: NoRecorder,
        clients,
    })
}

/// Returns the slot of each client: draws from a stream of its own, a copy of the gate, and its
/// recorder.
pub(crate) fn slots_by_seed<G: Copy + Drop, K: Drop>(
    alloc: Global,
    seed: u64,
    gate: G,
    recorders: Vec<K>,
) -> Result<Vec<Slot<PcgDraws, G, K>>, AllocError>
    ensures number { IfOk result (λ v. vec_len v ≡ vec_len recorders) }
    ensures streams { IfOk result (λ v.
        map (λ slot. slot.draws) v.items ≡ streams_of seed (vec_len recorders)) }
    ensures recorders { IfOk result (λ v. map (λ slot. slot.keep) v.items ≡ recorders.items) }
{
    let mut slots = Vec::with_capacity(alloc, recorders.len())?;
    for keep in recorders {
        let draws = PcgDraws::new(seed, slots.len() as u64 + 1);
        slots.push_reserved(Slot { draws, gate, keep });
    }
    Ok(slots)
}

/// Returns the recorders of the slots, in their order. `recorders` is an empty vector with reserved
/// room, so that this cannot fail.
pub(crate) fn recorders_of<D: Drop, G: Drop, K: Drop>(
    slots: Vec<Slot<D, G, K>>,
    mut recorders: Vec<K>,
) -> Vec<K>
    requires room { vec_len slots ≤ vec_capacity recorders }
    requires empty { recorders.items ≡ [] }
    ensures { result.items ≡ map (λ slot. slot.keep) slots.items }
{
    for slot in slots {
        let Slot { keep, .. } = slot;
        recorders.push_reserved(keep);
    }
    recorders
}
