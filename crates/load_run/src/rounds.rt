//! One round of a load.

ghost use Rattle.std.specs.Prelude.{◌≡◌, vec_len, IfOk, IfErr};
ghost use Rattle.load_run.specs.Alone.{IsAloneInRenewal, IsReadyForRound, caller_of};
ghost use Rattle.load_run.specs.Keeping.{contents};
ghost use Rattle.load_run.specs.Slots.{shown};
ghost use Rattle.load_run.specs.Load.{RoundHasRun, IsLoadRefusal, IsRound, RunsCrew};

use crate::TaskCounts;
use crate::gathering::{gather_all, split_crew};
use crate::load::LoadFault;
use crate::plan::Plan;
use crate::slots::Slot;
use crate::workers::{Crew, join_all};
use load_tasks::Draws;
use std::sync::Wait;
use std::thread;
use std::thread::Threads;
use stm_attempt::Gate;
use vac_manager::{Client, Manager, Recorder};

/// The result of one round or of several: the manager with the client that gathered all others,
/// the slots of the clients in their order, and the counts of the tasks.
#[derive(Drop)]
pub(crate) struct Round<W> {
    pub(crate) manager: Manager,
    pub(crate) client: Client,
    pub(crate) slots: Vec<W>,
    pub(crate) counts: TaskCounts,
}

impl Plan {
    /// Runs one round: splits off a caller for each slot, lets all of them run their tasks at once,
    /// each in a thread of its own, and gathers their clients into the first. Memory for the
    /// threads is allocated before the first thread starts. If a thread cannot be started, those
    /// that were started are joined first.
    pub(crate) fn run_round<
        R: Threads + Wait,
        D: Draws + Send + Drop,
        G: Gate + Send + Drop,
        K: Recorder + Send + Drop,
    >(
        self,
        rt: &R,
        manager: Manager,
        client: Client,
        slots: Vec<Slot<D, G, K>>,
    ) -> Result<Round<Slot<D, G, K>>, LoadFault>
    where
        K::Tracing: Send,
        requires number { vec_len slots ≡ self.settings.clients }
        requires alone { IsAloneInRenewal (caller_of manager client) }
        requires ready { IsReadyForRound self.settings (caller_of manager client) }
        ensures manager { IfOk result (λ r. r.manager ≡ manager) }
        ensures round { IfOk result (λ r. IsRound self.settings r) }
        ensures ran { IfOk result (λ r. RoundHasRun D.leads
            (shown (contents K.notes K.traced K.latest))
            self.settings self.settings.tasks (caller_of manager client) slots.items r) }
        ensures refused { IfErr result (λ fault. IsLoadRefusal fault) }
    {
        let Ok(left) = Vec::with_capacity(self.alloc, slots.len()) else {
            return Err(LoadFault::Memory);
        };
        let caller = manager.caller(client);
        let crew = split_crew(self.alloc, caller, slots, self.settings.tries)?;
        let crew = thread::scope(
            thread::scope_env(),
            rt,
            move |scope| -> Result<Crew<'_, Slot<D, G, K>>, LoadFault>
                ensures { RunsCrew D.leads (shown (contents K.notes K.traced K.latest))
                    self.settings crew.entry result }
            {
                // Moved whole, so that the closure does not capture single fields.
                let workers = crew;
                let Crew { first, others } = workers;
                let Ok(mut handles) = Vec::with_capacity(self.alloc, others.len()) else {
                    return Err(LoadFault::Memory);
                };
                let Ok(done) = Vec::with_capacity(self.alloc, others.len()) else {
                    return Err(LoadFault::Memory);
                };
                let first = self.start(scope, first)?;
                let started = self.start_all(scope, others, &mut handles);
                let first = first.join(rt);
                let others = join_all(rt, handles, done);
                started?;
                Ok(Crew { first, others })
            },
        )?;
        let (client, slots, counts) = gather_all(crew, left);
        Ok(Round {
            manager,
            client,
            slots,
            counts,
        })
    }
}
