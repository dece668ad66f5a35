//! Running a load.

ghost use Rattle.std.specs.Prelude.{◌≡◌, ◌↔◌, ◌⊎◌, true, false, map, vec_len};
ghost use Rattle.std.specs.Prelude.{IfOk, IfErr, IsErrOf};
ghost use Rattle.stm_core.specs.Client.{all_aborted};
ghost use Rattle.load_tasks.specs.Setting.{is_settings};
ghost use Rattle.load_run.specs.Keeping.{AreKept, contents};
ghost use Rattle.load_run.specs.Attempted.{AreStatistics};
ghost use Rattle.load_run.specs.Alone.{IsAloneInRenewal, caller_of};
ghost use Rattle.load_run.specs.Slots.{kept_at};
ghost use Rattle.load_run.specs.Load.{HasOpened, LoadedKept, is_load, IsStopOfLoad};
ghost use Rattle.load_run.specs.Load.{StopsLoad};

use crate::alone::{close, renewed};
use crate::plan::Plan;
use crate::rounds::Round;
use crate::slots::{Recorders, Slot, recorders_of, slots_by_seed};
use crate::{AttemptStatistics, Outcomes, open_kept};
use load_tasks::{Draws, PcgDraws, Settings, VERSION_LIMIT};
use std::alloc::Global;
use std::sync::Wait;
use std::thread::Threads;
use stm_attempt::Gate;
use thiserror::Error;
use vac_manager::{Client, Fault, Manager, Recorder, Report, report_of};

const _: () = prove!(VERSION_LIMIT == stm_core::VERSION_LIMIT);

/// The result of a load: the counts of its tasks over all rounds, and the report of the words
/// after all clients were gathered for the last time.
#[derive(Clone, Copy, Debug, PartialEq, Eq)]
pub struct LoadReport {
    pub outcomes: Outcomes,
    pub report: Report,
}

/// The reason why a load did not run to its end.
#[derive(Clone, Copy, Debug, PartialEq, Eq, Error)]
pub enum LoadFault {
    /// A setting is out of its range, or the number of clients differs from that of the settings.
    #[error("a setting is out of its range")]
    Arguments,
    /// Memory was refused.
    #[error("out of memory")]
    Memory,
    /// A thread could not be started. The threads that had been started were joined first.
    #[error("a thread could not be started")]
    Spawn,
    /// A call of the setup phase met a fault: memory was refused, or the clock was at the last
    /// version of the settings.
    #[error("the opening stopped: {0}")]
    Opening(Fault),
}

/// Makes the manager of a load and runs the setup phase, with this recorder of its calls.
fn open_load<D: Draws, K: Recorder>(
    alloc: Global,
    settings: &Settings,
    opening: &mut D,
    keep: &mut K,
) -> Result<(Manager, Client), LoadFault>
    requires settings { is_settings settings.now ≡ true }
    ensures opened { IfOk result (λ r. HasOpened D.leads settings.now opening.old opening.new
        (caller_of r.0 r.1)) }
    ensures alone { IfOk result (λ r. IsAloneInRenewal (caller_of r.0 r.1)) }
    ensures kept { IfOk result (λ r. AreKept r.1.value.attempt.number r.1.value.records
        (all_aborted r.1.value)
        (contents K.notes K.traced K.latest keep.old)
        (contents K.notes K.traced K.latest keep.new)) }
    ensures stopped { IfErr result (λ fault.
        IsStopOfLoad D.leads settings.now opening.old opening.new fault) }
{
    let Ok((manager, client)) = Manager::new(alloc, settings.blocks, settings.last) else {
        return Err(LoadFault::Memory);
    };
    let mut caller = manager.caller(client);
    if let Err(fault) = open_kept(&mut caller, opening, settings, keep) {
        return Err(LoadFault::Opening(fault));
    }
    let client = caller.into_user();
    Ok((manager, client))
}

/// Returns whether a load can be run with these settings and this number of clients.
fn can_run(settings: &Settings, clients: usize) -> bool
    ensures { result ≡ is_load settings.now clients }
{
    settings.is_in_range() && clients == settings.clients as usize
}

/// A load that can be run: its settings are in their ranges, and each client has a slot. The setup
/// phase has draws and a recorder of its own.
#[derive(Drop)]
pub struct Load<D, G, K> {
    plan: Plan,
    draws: D,
    keep: K,
    slots: Vec<Slot<D, G, K>>,
    ghost number: { vec_len slots ≡ plan.settings.clients },
}

impl<D: Drop, G: Drop, K: Drop> Load<D, G, K> {
    /// Returns the load of these settings, with these draws and this recorder for the setup phase,
    /// and with a slot for each client. No word is drawn.
    pub fn new(
        alloc: Global,
        settings: &Settings,
        draws: D,
        keep: K,
        slots: Vec<Slot<D, G, K>>,
    ) -> Result<Load<D, G, K>, LoadFault>
        ensures arguments { IsErrOf result LoadFault.Arguments
            ↔ (is_load settings.now (vec_len slots) ≡ false) }
        ensures refused { IfErr result (λ fault. fault ≡ LoadFault.Arguments) }
        ensures settings { IfOk result (λ load. load.plan.settings ≡ settings.now) }
        ensures draws { IfOk result (λ load. load.draws ≡ draws) }
        ensures keep { IfOk result (λ load. load.keep ≡ keep) }
        ensures slots { IfOk result (λ load. load.slots ≡ slots) }
    {
        if !can_run(settings, slots.len()) {
            return Err(LoadFault::Arguments);
        }
        let settings = *settings;
        let plan = Plan { alloc, settings };
        Ok(Load {
            plan,
            draws,
            keep,
            slots,
        })
    }
}

impl<G: Copy + Drop, K: Drop> Load<PcgDraws, G, K> {
    ghost use Rattle.load_run.specs.Streams.{IsBySeed};

    /// Returns the load of these settings that draws its words from the generators of its seed:
    /// the setup phase draws from stream 0, and client k from stream k. Each client has a copy of
    /// the gate, and a recorder, in the order of the recorders.
    pub fn by_seed(
        alloc: Global,
        settings: &Settings,
        gate: G,
        recorders: Recorders<K>,
    ) -> Result<Load<PcgDraws, G, K>, LoadFault>
        ensures arguments { IsErrOf result LoadFault.Arguments
            ↔ (is_load settings.now (vec_len recorders.clients) ≡ false) }
        ensures refused { IfErr result (λ fault.
            (fault ≡ LoadFault.Arguments) ⊎ (fault ≡ LoadFault.Memory)) }
        ensures seeded { IfOk result (λ load. IsBySeed settings.now recorders load) }
    {
        let Recorders { opening, clients } = recorders;
        if !can_run(settings, clients.len()) {
            return Err(LoadFault::Arguments);
        }
        let Ok(slots) = slots_by_seed(alloc, settings.seed, gate, clients) else {
            return Err(LoadFault::Memory);
        };
        let draws = PcgDraws::new(settings.seed, 0);
        Load::new(alloc, settings, draws, opening, slots)
    }
}

impl<D: Draws + Send + Drop, G: Gate + Send + Drop, K: Recorder + Send + Drop> Load<D, G, K> {
    /// Runs the load. The setup phase runs first, with one client. In each round all clients run
    /// at once, each in a thread of its own, with its draws, its gate and its recorder, which go
    /// on from round to round. In each round each client reports to its gate when it is ready and
    /// when it is done. After each round the clients are gathered into the first. Between two
    /// rounds the manager is renewed, and after the last one it is closed.
    ///
    /// Returns, besides the report, the attempt statistics of the calls of all clients in all
    /// rounds, and the recorders in their order. Each recorder is asked for room before a call,
    /// and receives the call once it has completed. If a recorder has no room, the call is not
    /// issued: the task counts under memory, or the setup phase stops with the fault of refused
    /// memory. (The tracer that a recorder lends stays in its client's thread; the proof requires
    /// that the tracer is `Send`.)
    pub fn run<R: Threads + Wait>(
        self,
        rt: &R,
    ) -> Result<(LoadReport, AttemptStatistics, Recorders<K>), LoadFault>
    where
        K::Tracing: Send,
        ensures kept { IfOk result (λ r. LoadedKept D.leads self.plan.settings (λ slot. slot.draws)
            self.draws self.slots.items r.0.outcomes r.0.report r.1.attempts
            (contents K.notes K.traced K.latest self.keep)
            (contents K.notes K.traced K.latest r.2.opening)
            (kept_at (contents K.notes K.traced K.latest) self.slots.items)
            (map (contents K.notes K.traced K.latest) r.2.clients.items)) }
        ensures statistics { IfOk result (λ r. AreStatistics self.plan.settings.tries r.0.outcomes
            r.1) }
        ensures refused { IfErr result (λ fault.
            StopsLoad D.leads self.plan.settings self.draws fault) }
    {
        let Load {
            plan,
            mut draws,
            mut keep,
            slots,
        } = self;
        // Reserved before the load, so that returning the recorders after the load cannot fail.
        let Ok(left) = Vec::with_capacity(plan.alloc, slots.len()) else {
            return Err(LoadFault::Memory);
        };
        let (manager, client) = open_load(plan.alloc, &plan.settings, &mut draws, &mut keep)?;
        let mut round = plan.run_round(rt, manager, client, slots)?;
        'rounds: for done in 1..plan.settings.rounds {
            let Round {
                manager,
                client,
                slots,
                counts,
            } = round;
            let (manager, client) = renewed(manager, client, &plan.settings)?;
            let more = plan.run_round(rt, manager, client, slots)?;
            round = Round {
                manager: more.manager,
                client: more.client,
                slots: more.slots,
                counts: counts.plus(more.counts),
            };
        }
        let Round {
            manager,
            client,
            slots,
            counts,
        } = round;
        let words = close(manager, client)?;
        let report = report_of(words);
        let (outcomes, statistics) = counts.apart();
        let clients = recorders_of(slots, left);
        let opening = keep;
        Ok((
            LoadReport { outcomes, report },
            statistics,
            Recorders { opening, clients },
        ))
    }
}
