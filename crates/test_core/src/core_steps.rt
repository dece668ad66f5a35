//! Events played one by one: the word that each finds, the events that are refused, and the
//! resulting order.
ghost use Rattle.std.specs.Prelude.{◌≤◌};

use crate::events::{
    DONE, REFUSED, begin, check, fetch, finds, finish, gather, give_back, lock, played, probe, put,
    release, renew, split, tick, validate,
};
use std::alloc::Global;
use std::process::Abort;
use stm_core::{FreeLaw, VERSION_LIMIT, core_theorem, core_theorem_of};
use stm_replay::{Core, Entry, law_theorem, running_theorem};

const LAST: u64 = 100;

fn opened(rt: &impl Abort, alloc: Global, stripes: u32) -> Core
    requires { (1 ≤ stripes) × (stripes ≤ 32) }
{
    Core::start(alloc, &[0; 32], LAST, stripes).expect(rt, "there is memory")
}

fn reader(client: u32, tag: u64, version: u64, renewal: u32) -> Entry {
    Entry {
        client,
        tag,
        version,
        writer: false,
        renewal,
    }
}

fn writer(client: u32, tag: u64, version: u64) -> Entry {
    Entry {
        client,
        tag,
        version,
        writer: true,
        renewal: 0,
    }
}

#[test]
fn reads_and_clients(rt: HostRuntime) {
    let alloc = rt.alloc();
    let core = opened(&rt, alloc, 32);
    let acts = [
        (begin(1), finds(0)),
        (probe(1, 9), finds(0)),
        (check(1, 9), REFUSED),
        (fetch(1, 9), finds(0)),
        (fetch(1, 9), REFUSED),
        (check(1, 9), finds(0)),
        (split(1), DONE),
        (split(2), REFUSED),
        (gather(1, 2), DONE),
        (begin(2), REFUSED),
        (split(1), DONE),
    ];
    let core = played(&rt, alloc, core, &acts);
    assert_eq!(rt; core.found(3), None);
    let core = played(&rt, alloc, core, &[(begin(3), finds(0))]);
    assert!(rt; core.order().is_empty());
}

#[test]
fn a_reader_is_in_the_order(rt: HostRuntime) {
    let alloc = rt.alloc();
    let core = opened(&rt, alloc, 32);
    let acts = [
        (begin(1), finds(0)),
        (finish(1, 7), finds(0)),
        (probe(1, 9), REFUSED),
    ];
    let core = played(&rt, alloc, core, &acts);
    assert_eq!(rt; core.order(), [reader(1, 7, 0, 0)].as_slice());
}

fn two_begun(rt: &impl Abort, alloc: Global) -> Core {
    let core = opened(rt, alloc, 32);
    let acts = [(split(1), DONE), (begin(1), finds(0)), (begin(2), finds(0))];
    played(rt, alloc, core, &acts)
}

#[test]
fn a_lock_is_lost(rt: HostRuntime) {
    let core = two_begun(&rt, rt.alloc());
    let acts = [
        (probe(1, 9), finds(0)),
        (probe(2, 9), finds(0)),
        (lock(2, 9), finds(0)),
        (lock(1, 9), finds(1)),
        (finish(1, 1), REFUSED),
    ];
    let _ = played(&rt, rt.alloc(), core, &acts);
}

#[test]
fn a_word_moved_under_a_read(rt: HostRuntime) {
    let core = two_begun(&rt, rt.alloc());
    let acts = [
        (probe(1, 9), finds(0)),
        (fetch(1, 9), finds(0)),
        (probe(2, 9), finds(0)),
        (lock(2, 9), finds(0)),
        (check(1, 9), finds(1)),
        (probe(1, 9), REFUSED),
    ];
    let _ = played(&rt, rt.alloc(), core, &acts);
}

#[test]
fn a_lock_given_back_under_a_read(rt: HostRuntime) {
    let core = two_begun(&rt, rt.alloc());
    let acts = [
        (probe(1, 9), finds(0)),
        (probe(2, 9), finds(0)),
        (lock(2, 9), finds(0)),
        (fetch(1, 9), finds(0)),
        (give_back(2, 9), DONE),
        (check(1, 9), finds(0)),
        (finish(1, 3), finds(0)),
    ];
    let core = played(&rt, rt.alloc(), core, &acts);
    assert_eq!(rt; core.order(), [reader(1, 3, 0, 0)].as_slice());
}

/// Client 2 writes and ticks twice between a read of client 1 and client 1's won tick and
/// validation.
#[test]
fn a_writer_decided_below_the_clock(rt: HostRuntime) {
    let core = two_begun(&rt, rt.alloc());
    let before = [
        (probe(1, 8), finds(0)),
        (fetch(1, 8), finds(0)),
        (check(1, 8), finds(0)),
        (probe(2, 20), finds(0)),
        (lock(2, 20), finds(0)),
        (tick(2, 0, 1, &[(20, 6)]), finds(0)),
        (put(2, 20, 6), DONE),
        (release(2, 20), DONE),
    ];
    let core = played(&rt, rt.alloc(), core, &before);
    let after = [
        (probe(1, 9), finds(0)),
        (lock(1, 9), finds(0)),
        (tick(1, 0, 11, &[(9, 5)]), finds(1)),
        (tick(1, 1, 11, &[(9, 5)]), finds(1)),
        (put(1, 9, 5), REFUSED),
        (begin(2), finds(2)),
        (probe(2, 10), finds(0)),
        (lock(2, 10), finds(0)),
        (tick(2, 2, 12, &[(10, 7)]), finds(2)),
        (validate(1, 8), finds(0)),
        (begin(1), REFUSED),
    ];
    let core = played(&rt, rt.alloc(), core, &after);
    let want = [writer(2, 1, 1), writer(1, 11, 2), writer(2, 12, 3)];
    assert_eq!(rt; core.order(), want.as_slice());
}

/// A writer stores two words of a stripe before it releases the stripe's lock.
#[test]
fn two_words_of_one_stripe(rt: HostRuntime) {
    let core = opened(&rt, rt.alloc(), 4);
    let stores = [
        (begin(1), finds(0)),
        (probe(1, 1), finds(0)),
        (lock(1, 1), finds(0)),
        (tick(1, 0, 1, &[(9, 1), (10, 2)]), REFUSED),
        (tick(1, 0, 1, &[(9, 1), (13, 2)]), finds(0)),
        (put(1, 9, 1), DONE),
        (release(1, 1), REFUSED),
        (put(1, 13, 2), DONE),
        (release(1, 1), DONE),
    ];
    let core = played(&rt, rt.alloc(), core, &stores);
    let reads = [
        (begin(1), finds(1)),
        (probe(1, 1), finds(2)),
        (fetch(1, 13), finds(2)),
        (check(1, 13), finds(2)),
        (probe(1, 1), finds(2)),
        (fetch(1, 5), finds(0)),
    ];
    let _ = played(&rt, rt.alloc(), core, &reads);
}

#[test]
fn theorems(_rt: HostRuntime) {
    core_theorem();
    core_theorem_of::<FreeLaw>();
    running_theorem();
    law_theorem::<FreeLaw, Global>();
}

/// Returns a core whose clock is at its last version, 1, and whose word 9 is 5.
fn spent(rt: &impl Abort, alloc: Global) -> Core {
    let core = Core::start(alloc, &[0; 32], 1, 32).expect(rt, "there is memory");
    let acts = [
        (begin(1), finds(0)),
        (probe(1, 9), finds(0)),
        (lock(1, 9), finds(0)),
        (tick(1, 0, 5, &[(9, 5)]), finds(0)),
        (put(1, 9, 5), DONE),
        (release(1, 9), DONE),
    ];
    played(rt, alloc, core, &acts)
}

#[test]
fn a_spent_clock_is_renewed(rt: HostRuntime) {
    let core = spent(&rt, rt.alloc());
    let before = [
        (begin(1), finds(1)),
        (probe(1, 9), finds(2)),
        (lock(1, 9), finds(2)),
        (tick(1, 1, 5, &[(9, 6)]), REFUSED),
        (renew(1, 100), REFUSED),
        (give_back(1, 9), DONE),
    ];
    let core = played(&rt, rt.alloc(), core, &before);
    let after = [
        (renew(1, 100), DONE),
        (begin(1), finds(0)),
        (probe(1, 9), finds(0)),
        (fetch(1, 9), finds(5)),
        (check(1, 9), finds(0)),
        (finish(1, 6), finds(0)),
    ];
    let core = played(&rt, rt.alloc(), core, &after);
    let want = [writer(1, 5, 1), reader(1, 6, 0, 1)];
    assert_eq!(rt; core.order(), want.as_slice());
}

#[test]
fn a_renewal_is_refused(rt: HostRuntime) {
    let core = opened(&rt, rt.alloc(), 32);
    let acts = [
        (renew(1, 0), REFUSED),
        (renew(1, VERSION_LIMIT), REFUSED),
        (split(1), DONE),
        (renew(1, 1), REFUSED),
        (gather(2, 1), DONE),
        (renew(2, 1), DONE),
        (renew(1, 1), REFUSED),
    ];
    let _ = played(&rt, rt.alloc(), core, &acts);
}
