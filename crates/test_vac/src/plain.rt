//! Random tasks over plain memory, compared with the plain manager.

use crate::draws::{BLOCKS, TASKS, draw_task};
use crate::heap::Heap;
use crate::same::same;
use rand_core::Rng;
use rand_pcg::Pcg32;
use std::alloc::Global;
use std::process::Abort;
use tx_alloc::FreeList;
use tx_alloc::place::LISTS;
use vac_audit::audit_words;
use vac_model::{Reply, Task};
use vac_sequential::Sequential;
use vac_tasks::only_reads;

/// Number of seeds from which random tasks are drawn.
const SEEDS: u64 = 4;

/// Runs a task and returns its reply, or `None` if the task is not valid.
fn answer(heap: &mut Heap, task: &Task, start: FreeList) -> Option<Reply> {
    if !task.is_in_range() {
        return None;
    }
    Some(heap.run(task, start))
}

/// Returns the reply to a task that only reads, or `None` for any other task.
fn look(heap: &mut Heap, task: &Task) -> Option<Reply> {
    if !only_reads(task) {
        return None;
    }
    Some(heap.read(task))
}

/// Compares random tasks drawn from a seed. New entries take their blocks from a list that is
/// drawn, too.
fn compare(rt: &impl Abort, alloc: Global, seed: u64) {
    let mut draws = Pcg32::new(seed, 3);
    let mut plain = Sequential::new(alloc, BLOCKS).expect(rt, "the blocks are in range");
    let mut heap = Heap::new(alloc, BLOCKS).expect(rt, "there is memory");
    for at in 0..TASKS {
        let task = draw_task(alloc, &mut draws).expect(rt, "there is memory");
        let wanted = plain.run(&task).expect(rt, "the task is in range");
        let looked = look(&mut heap, &task);
        assert!(rt; looked.is_none() || looked == Some(wanted), "at task {at}");
        let start = FreeList::new(draws.next_u32() % LISTS);
        assert_eq!(rt;
            answer(&mut heap, &task, start),
            Some(wanted),
            "at task {at}"
        );
    }
    let wanted = plain.report();
    same(rt, &heap.report(), &wanted);
    let words = heap.words();
    same(rt, &audit_words(alloc, words.as_slice()), &Ok(wanted));
}

#[test]
fn random_tasks_over_plain_memory(rt: HostRuntime) {
    for seed in 0..SEEDS {
        compare(&rt, rt.alloc(), seed);
    }
}
