//! Memory refused to the core as running code, each growth in turn. The core shows the same state
//! as before, and the same call, repeated once there is memory, goes on as if no memory had been
//! refused.

use crate::events::{
    Act, DONE, Outcome, begin, check, fetch, finds, finish, gather, lock, probe, put, release,
    renew, split, tick, validate,
};
use crate::moves::Kind;
use linked_list_allocator::LocalHeap;
use std::alloc::{AllocError, Allocator, Global};
use std::process::Abort;
use std::test::Fail;
use stm_replay::{Core, Entry, NotAllowed};

/// The call that was refused memory: the opening, the writes of a tick, or an event.
#[derive(Clone, Copy, Debug, PartialEq, Eq)]
enum Refused {
    Start,
    Writes,
    Play(Kind),
}

/// Number of words held back, and freed when memory is refused.
const HELD_BACK: usize = 4_096;

fn start<A: Allocator + Copy>(alloc: A) -> Result<Core<A>, AllocError> {
    Core::start(alloc, &[3; 8], 100, 512)
}

/// Plays an event that is allowed. Returns the call that was refused memory, if one was.
fn play<A: Allocator + Copy>(
    rt: &impl Abort,
    alloc: A,
    core: Core<A>,
    act: &Act<'_>,
    want: Outcome,
) -> (Core<A>, Option<Refused>) {
    let Ok(event) = act.event(alloc) else {
        return (core, Some(Refused::Writes));
    };
    let before = (core.order().len(), core.found(1), core.found(2));
    match core.play(event) {
        Ok(core) => {
            assert_eq!(rt; Outcome::Found(core.found(act.client())), want);
            (core, None)
        }
        Err((core, why)) => {
            assert_eq!(rt; why, NotAllowed::Memory);
            assert_eq!(rt; (core.order().len(), core.found(1), core.found(2)), before);
            (core, Some(Refused::Play(act.kind())))
        }
    }
}

/// Plays a list of events with little memory, some of which is held back. A call that was refused
/// memory is repeated after the memory held back was freed, and then succeeds.
fn play_all<A: Allocator + Copy>(
    rt: &impl Abort,
    alloc: A,
    acts: &[(Act<'_>, Outcome)],
    order: &[Entry],
) -> Result<Option<Refused>, AllocError> {
    let mut held_back = Some(vec![in alloc; 0u64; HELD_BACK]?);
    let mut refused = None;
    let mut core = match start(alloc) {
        Ok(core) => core,
        Err(_) => {
            refused = Some(Refused::Start);
            held_back = None;
            start(alloc)?
        }
    };
    for (act, want) in acts {
        let now;
        (core, now) = play(rt, alloc, core, act, *want);
        if now.is_some() {
            assert_eq!(rt; refused, None);
            refused = now;
            held_back = None;
            let again;
            (core, again) = play(rt, alloc, core, act, *want);
            assert_eq!(rt; again, None);
        }
    }
    assert_eq!(rt; core.order(), order);
    assert_eq!(rt; held_back.is_none(), refused.is_some());
    Ok(refused)
}

/// Plays a list of events with more and more memory, until none is refused. Returns the refused
/// calls in their order.
fn refusals(
    rt: &impl Abort,
    alloc: Global,
    acts: &[(Act<'_>, Outcome)],
    order: &[Entry],
) -> Result<Vec<Refused>, AllocError> {
    let mut all = Vec::new(alloc);
    for step in 0..2_000 {
        let heap = LocalHeap::new(alloc, 8 * HELD_BACK + 64 + 16 * step)?;
        let refused = play_all(rt, &heap, acts, order)?;
        assert_eq!(rt; heap.used(), 0);
        match refused {
            None => return Ok(all),
            Some(refused) => if all.last() != Some(&refused) {
                all.push(refused)?;
            },
        }
    }
    panic!(rt; "it is refused in every heap")
}

fn entry(client: u32, tag: u64, version: u64, writer: bool) -> Entry {
    Entry {
        client,
        tag,
        version,
        writer,
        renewal: 0,
    }
}

/// One client reads, writes, reads four times more and renews the clock. The order has room for
/// four records at first, so that the fifth makes it grow.
#[test]
fn each_growth_of_one_client_is_refused(rt: HostRuntime) -> Result<(), Fail> {
    let acts = [
        (begin(1), finds(0)),
        (probe(1, 1), finds(0)),
        (fetch(1, 1), finds(3)),
        (check(1, 1), finds(0)),
        (probe(1, 2), finds(0)),
        (lock(1, 2), finds(0)),
        (tick(1, 0, 9, &[(2, 5)]), finds(0)),
        (put(1, 2, 5), DONE),
        (release(1, 2), DONE),
        (begin(1), finds(1)),
        (finish(1, 10), finds(1)),
        (begin(1), finds(1)),
        (finish(1, 11), finds(1)),
        (begin(1), finds(1)),
        (finish(1, 12), finds(1)),
        (begin(1), finds(1)),
        (finish(1, 13), finds(1)),
        (renew(1, 50), DONE),
    ];
    let order = [
        entry(1, 9, 1, true),
        entry(1, 10, 1, false),
        entry(1, 11, 1, false),
        entry(1, 12, 1, false),
        entry(1, 13, 1, false),
    ];
    let refused = refusals(&rt, rt.alloc(), &acts, &order)?;
    let want = [
        Refused::Start,
        Refused::Play(Kind::Check),
        Refused::Play(Kind::Lock),
        Refused::Writes,
        Refused::Play(Kind::Tick),
        Refused::Play(Kind::Put),
        Refused::Play(Kind::Finish),
        Refused::Play(Kind::Renew),
    ];
    assert_eq!(rt; refused.as_slice(), want.as_slice());
    Ok(())
}

/// A client is split off, reads three times and writes while the first client reads; the first
/// client's validation decides the fifth record.
#[test]
fn each_growth_of_two_clients_is_refused(rt: HostRuntime) -> Result<(), Fail> {
    let acts = [
        (split(1), DONE),
        (begin(1), finds(0)),
        (probe(1, 1), finds(0)),
        (fetch(1, 1), finds(3)),
        (check(1, 1), finds(0)),
        (begin(2), finds(0)),
        (finish(2, 10), finds(0)),
        (begin(2), finds(0)),
        (finish(2, 11), finds(0)),
        (begin(2), finds(0)),
        (finish(2, 12), finds(0)),
        (begin(2), finds(0)),
        (probe(2, 2), finds(0)),
        (lock(2, 2), finds(0)),
        (tick(2, 0, 13, &[(2, 5)]), finds(0)),
        (put(2, 2, 5), DONE),
        (release(2, 2), DONE),
        (probe(1, 3), finds(0)),
        (lock(1, 3), finds(0)),
        (tick(1, 0, 14, &[(3, 6)]), finds(1)),
        (tick(1, 1, 14, &[(3, 6)]), finds(1)),
        (validate(1, 1), finds(0)),
        (put(1, 3, 6), DONE),
        (release(1, 3), DONE),
        (gather(2, 1), DONE),
    ];
    let order = [
        entry(2, 10, 0, false),
        entry(2, 11, 0, false),
        entry(2, 12, 0, false),
        entry(2, 13, 1, true),
        entry(1, 14, 2, true),
    ];
    let refused = refusals(&rt, rt.alloc(), &acts, &order)?;
    assert!(rt; refused.contains(&Refused::Play(Kind::Split)));
    assert!(rt; refused.contains(&Refused::Play(Kind::Validate)));
    Ok(())
}
