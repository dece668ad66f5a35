//! Plain memory that holds a state of the reservation system.

ghost use Rattle.std.specs.Prelude.{◌≡◌, ◌≤◌, IfOk, true};
ghost use Rattle.tx_memory.specs.Plain.{flat_view};
ghost use Rattle.vac_model.specs.State.{State, empty_state, report as report_of};
ghost use Rattle.vac_model.specs.Ranges.{is_task};
ghost use Rattle.vac_model.specs.Run.{run as runs};
ghost use Rattle.vac_records.specs.InMemory.{HoldsState};
ghost use Rattle.vac_tasks.specs.Reading as reading;
ghost use Rattle.test_vac.specs.PlainState.{IsStateOf};

use std::alloc::{AllocError, Global};
use std::marker::Model;
use tx_alloc::{FreeList, spread_words};
use tx_memory::Flat;
use vac_model::limits::MOST_BLOCKS;
use vac_model::{Reply, Report, Task};
use vac_tasks::{read_task, report, run_task};

/// Plain memory that holds a state. Contracts see its words.
#[derive(Drop)]
pub(crate) struct Heap {
    memory: Flat,
}

impl Model for Heap {
    ghost use Rattle.std.specs.Prelude.{ℕ, List};
    ghost use Rattle.tx_memory.specs.Plain.{flat_view};
    ghost use Rattle.vac_records.specs.InMemory.{HoldsState};

    ghost Value = { List ℕ };

    ghost view = { λ h. h.memory };

    ghost invariant = { λ h. HoldsState (flat_view h.memory) };
}

impl Heap {
    /// Returns the memory of the state without entries, with room for `blocks` of them.
    pub(crate) fn new(alloc: Global, blocks: u32) -> Result<Heap, AllocError>
        requires some { 1 ≤ blocks }
        requires most { blocks ≤ MOST_BLOCKS }
        ensures { IfOk result (λ heap. IsStateOf heap (empty_state blocks)) }
    {
        let words = spread_words(alloc, blocks as usize)?;
        let memory = Flat::new(words);
        Ok(Heap { memory })
    }

    /// Runs a task, and returns its reply. New entries take their blocks from the free list
    /// `start` on.
    pub(crate) fn run(&mut self, task: &Task, start: FreeList) -> Reply
        requires { is_task task.now ≡ true }
        ensures state { (s : State) → IsStateOf self.old s
            → IsStateOf self.new (runs s task.now).0 }
        ensures reply { (s : State) → IsStateOf self.old s → (runs s task.now).1 ≡ result }
    {
        let Ok(reply) = run_task(&mut self.memory, task, start);
        reply
    }

    /// Returns the reply to a task that only reads.
    pub(crate) fn read(&mut self, task: &Task) -> Reply
        requires { reading.only_reads task.now ≡ true }
        ensures words { self.new ≡ self.old }
        ensures state { (s : State) → IsStateOf self.old s
            → IsStateOf self.new (runs s task.now).0 }
        ensures reply { (s : State) → IsStateOf self.old s → (runs s task.now).1 ≡ result }
    {
        let Ok(reply) = read_task(&mut self.memory, task);
        reply
    }

    /// Returns the report of the state.
    pub(crate) fn report(&mut self) -> Report
        ensures words { self.new ≡ self.old }
        ensures report { (s : State) → IsStateOf self.old s → report_of s ≡ result }
    {
        let Ok(found) = report(&mut self.memory);
        found
    }

    /// Returns the words, which hold the state.
    pub(crate) fn words(self) -> Vec<u64>
        ensures words { result.items ≡ self }
        ensures state { HoldsState (flat_view result.items) }
    {
        let Heap { memory } = self;
        memory.words()
    }
}
