//! Clients in threads of their own.

ghost use Rattle.std.specs.Prelude.{◌≡◌, ◌≤◌, [], IfOk, IfErr, vec_len, vec_capacity};
ghost use Rattle.load_run.specs.Lists.{Paired};
ghost use Rattle.load_run.specs.Keeping.{contents};
ghost use Rattle.load_run.specs.Slots.{shown};
ghost use Rattle.load_run.specs.Load.{DidWork, IsPromise};

use crate::load::LoadFault;
use crate::plan::Plan;
use crate::slots::Slot;
use crate::{TaskCounts, count_loop};
use load_tasks::{Draws, Settings};
use std::snapshot::Snapshot;
use std::thread::{Promise, PromisedHandle, Scope, Threads};
use stm_attempt::Gate;
use vac_manager::{Caller, Recorder};

/// A worker: a client together with its manager, its slot, and the counts of the tasks that it ran
/// in this round.
#[derive(Drop)]
pub(crate) struct Worker<'m, W> {
    pub(crate) caller: Caller<'m>,
    pub(crate) slot: W,
    pub(crate) counts: TaskCounts,
}

/// The promise of a worker's thread: the worker ran its tasks.
#[derive(Drop)]
pub(crate) struct WorkerPromise<'m, W> {
    settings: Settings,
    worker: Snapshot<Worker<'m, W>>,
}

impl<'m, D: Draws, G, K: Recorder> Promise<Worker<'m, Slot<D, G, K>>>
    for WorkerPromise<'m, Slot<D, G, K>> {
    ghost kept_by = { λ p r.
        DidWork D.leads (shown (contents K.notes K.traced K.latest)) p.settings p.worker.value r };
}

/// The thread of a worker.
pub(crate) type Handle<'m, D, G, K> = PromisedHandle<
    Worker<'m, Slot<D, G, K>>,
    WorkerPromise<'m, Slot<D, G, K>>,
>;

/// The workers of a round, before or after their tasks; the first worker stands apart.
#[derive(Drop)]
pub(crate) struct Crew<'m, W> {
    pub(crate) first: Worker<'m, W>,
    pub(crate) others: Vec<Worker<'m, W>>,
}

/// Joins the threads in their order. `done` is an empty vector with reserved room, so that joining
/// cannot fail.
pub(crate) fn join_all<'m, R: Threads, D: Draws + Drop, G: Drop, K: Recorder + Drop>(
    rt: &R,
    handles: Vec<Handle<'m, D, G, K>>,
    mut done: Vec<Worker<'m, Slot<D, G, K>>>,
) -> Vec<Worker<'m, Slot<D, G, K>>>
    requires room { vec_len handles ≤ vec_capacity done }
    requires empty { done.items ≡ [] }
    ensures { Paired
        (λ h r. DidWork D.leads (shown (contents K.notes K.traced K.latest)) h.promise.settings
        h.promise.worker.value r)
        handles.entry.items result.items }
{
    for handle in handles {
        done.push_reserved(handle.join(rt));
    }
    done
}

impl Plan {
    /// Starts the thread of a worker, which runs the tasks of its client. The thread reports to
    /// the gate before the first task that the client is ready, and after the last task that the
    /// client is done.
    pub(crate) fn start<
        's,
        'm: 's,
        E,
        D: Draws + Send + Drop + 's,
        G: Gate + Send + Drop + 's,
        K: Recorder + Send + Drop + 's,
    >(
        self,
        scope: &Scope<'s, E>,
        worker: Worker<'m, Slot<D, G, K>>,
    ) -> Result<Handle<'m, D, G, K>, LoadFault>
    where
        K::Tracing: Send,
        ensures promise { IfOk result (λ handle.
            IsPromise self.settings worker.entry handle.promise) }
        ensures refused { IfErr result (λ fault. fault ≡ LoadFault.Spawn) }
    {
        let promise = WorkerPromise {
            settings: self.settings,
            worker: Snapshot::of(&worker),
        };
        let run = move || -> Worker<'_, Slot<D, G, K>>
            ensures { DidWork D.leads (shown (contents K.notes K.traced K.latest)) self.settings
                worker.entry result }
        {
            // Moved whole, so that the closure does not capture single fields of both.
            let (plan, worker) = (self, worker);
            let Worker {
                mut caller,
                mut slot,
                ..
            } = worker;
            slot.gate.ready();
            let counts = count_loop(
                plan.alloc,
                &mut caller,
                &mut slot.draws,
                &plan.settings,
                &mut slot.gate,
                &mut slot.keep,
            );
            slot.gate.done();
            Worker {
                caller,
                slot,
                counts,
            }
        };
        match scope.spawn_with(promise, run) {
            Ok(handle) => Ok(handle),
            Err(_refused) => Err(LoadFault::Spawn),
        }
    }

    /// Starts a thread for each worker, and adds the threads that were started to `handles`. The
    /// vector is empty and has reserved room, so that no started thread can be lost.
    pub(crate) fn start_all<
        's,
        'm: 's,
        E,
        D: Draws + Send + Drop + 's,
        G: Gate + Send + Drop + 's,
        K: Recorder + Send + Drop + 's,
    >(
        self,
        scope: &Scope<'s, E>,
        workers: Vec<Worker<'m, Slot<D, G, K>>>,
        handles: &mut Vec<Handle<'m, D, G, K>>,
    ) -> Result<(), LoadFault>
    where
        K::Tracing: Send,
        requires room { vec_len workers ≤ vec_capacity handles.old }
        requires empty { handles.old.items ≡ [] }
        ensures promises { IfOk result (λ _.
            Paired (λ w h. IsPromise self.settings w h.promise)
            workers.entry.items handles.new.items) }
        ensures few { vec_len handles.new ≤ vec_len workers.entry }
        ensures refused { IfErr result (λ fault. fault ≡ LoadFault.Spawn) }
    {
        for worker in workers {
            let handle = self.start(scope, worker)?;
            handles.push_reserved(handle);
        }
        Ok(())
    }
}
