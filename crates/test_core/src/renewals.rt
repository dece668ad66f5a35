//! Regions whose clock is renewed.
ghost use Rattle.std.specs.Prelude.{◌≡◌};
ghost use Rattle.stm_core.specs.Core.{IsFreeHanded};

use crate::regions::{read_at, write_at, writes};
use crate::same::{close, holds, open, renewed, same, split, stays_old};
use linked_list_allocator::LocalHeap;
use std::alloc::{AllocError, Allocator, Global};
use std::process::Abort;
use std::test::Fail;
use stm_core::FreeLaw;
use stm_region::{Client, Region, RegionFault, RenewFault};
use tx_memory::Addr;

/// Renews the region `times` times.
fn renew_times(
    rt: &impl Abort,
    alloc: Global,
    mut region: Region<FreeLaw>,
    mut client: Client<FreeLaw>,
    times: u32,
) -> (Region<FreeLaw>, Client<FreeLaw>)
    requires own { client.table ≡ region.table }
    requires free { IsFreeHanded client.value }
    ensures own { result.1.table ≡ result.0.table }
    ensures free { IsFreeHanded result.1.value }
{
    for _ in 0..times {
        (region, client) = renewed(rt, alloc, region, client, 1);
    }
    (region, client)
}

#[test]
fn a_region_is_renewed_65535_times(rt: HostRuntime) -> Result<(), Fail> {
    let (region, client) = open(&rt, rt.alloc(), &[7], 1, 1);
    let (region, client) = renew_times(&rt, rt.alloc(), region, client, 65_535);
    let (region, client, fault) = stays_old(&rt, rt.alloc(), region, client, 1);
    let (words, version) = close(&rt, rt.alloc(), region, client);
    same(&rt, &fault, &RegionFault::Renewals);
    same(&rt, &words.as_slice(), &[7u64].as_slice());
    same(&rt, &version, &0);
    Ok(())
}

#[test]
fn a_spent_clock_goes_on(rt: HostRuntime) -> Result<(), Fail> {
    let alloc = rt.alloc();
    let (region, mut client) = open(&rt, alloc, &[0; 32], 1, 32);
    let first = writes(&rt, alloc, &region, &mut client, Addr(9), 5);
    let spent = writes(&rt, alloc, &region, &mut client, Addr(9), 6);
    let (region, mut client) = renewed(&rt, alloc, region, client, 2);
    let last = region.last().get();
    let read = read_at(&region, &mut client, Addr(9));
    let second = writes(&rt, alloc, &region, &mut client, Addr(9), 7);
    let third = writes(&rt, alloc, &region, &mut client, Addr(31), 8);
    let spent_again = writes(&rt, alloc, &region, &mut client, Addr(9), 9);
    let (words, version) = close(&rt, alloc, region, client);
    same(&rt, &last, &2);
    same(&rt, &[first, spent], &[true, false]);
    same(&rt, &read, &Some(5));
    same(&rt, &[second, third, spent_again], &[true, true, false]);
    same(&rt, &words.get(9).copied(), &Some(7));
    same(&rt, &words.get(31).copied(), &Some(8));
    same(&rt, &version, &2);
    Ok(())
}

/// The contracts state version 0 for every region, whatever value the clock had before.
#[test]
fn a_new_and_a_renewed_region_begin_at_version_0(rt: HostRuntime) -> Result<(), Fail> {
    let alloc = rt.alloc();
    let (region, mut client) = Region::<FreeLaw>::new(alloc, &[7], 2, 1)?;
    let first = region.begin(&mut client).get();
    prove!(first == 0);
    let written = write_at(alloc, &region, &mut client, Addr(0), 8)?;
    let Ok((region, mut client)) = region.renew(alloc, client, 2) else {
        panic!(rt; "it was not renewed")
    };
    let renewed = region.begin(&mut client).get();
    prove!(renewed == 0);
    same(&rt, &(first, written, renewed), &(0, true, 0));
    Ok(())
}

/// Renews a region with last version 0, past the last version, with a client out, without memory,
/// and then with the greatest last version. Returns the refusals, the last versions before and
/// after, whether the words are those of the opening, and the clock.
fn refused_and_renewed<A: Allocator + Copy>(
    rt: &impl Abort,
    heap: A,
    none: A,
) -> ([RegionFault; 4], [u64; 2], bool, u64) {
    let (region, mut client) = open(rt, heap, &[3; 512], 100, 32);
    let other = split(rt, &region, &mut client);
    let (region, client, zero) = stays_old(rt, none, region, client, 0);
    let (region, client, high) = stays_old(rt, none, region, client, 1 << 62);
    let (region, mut client, out) = stays_old(rt, none, region, client, 1);
    region.gather(&mut client, other);
    let (region, client, memory) = stays_old(rt, none, region, client, 1);
    let before = region.last().get();
    let (region, client) = renewed(rt, heap, region, client, (1 << 62) - 1);
    let after = region.last().get();
    let (words, version) = close(rt, heap, region, client);
    let kept_alike = words.as_slice() == [3u64; 512].as_slice();
    (
        [zero, high, out, memory],
        [before, after],
        kept_alike,
        version,
    )
}

/// Each refusal keeps the region, so that the next one finds it as it was.
#[test]
fn refuses_a_renewal_in_order(rt: HostRuntime) -> Result<(), Fail> {
    let none = LocalHeap::new(rt.alloc(), 1_000)?;
    let heap = LocalHeap::new(rt.alloc(), 100_000)?;
    let (faults, lasts, kept_alike, version) = refused_and_renewed(&rt, &heap, &none);
    let wanted = [
        RegionFault::Last,
        RegionFault::Last,
        RegionFault::StillOut { out: 1 },
        RegionFault::Memory,
    ];
    same(&rt, &faults, &wanted);
    same(&rt, &lasts, &[100, (1 << 62) - 1]);
    holds(&rt, kept_alike);
    same(&rt, &version, &0);
    same(&rt, &heap.used(), &0);
    Ok(())
}

/// The outcome of a renewal.
#[derive(Clone, Copy, Debug, PartialEq, Eq, Drop)]
enum Outcome {
    Renewed,
    Kept,
    Closed,
}

/// Returns whether these are the words of the opening.
fn are_threes(words: &[u64]) -> bool {
    words == [3u64; 512].as_slice()
}

/// Closes a region. Returns whether the words are those of the opening.
fn closes_alike<A: Allocator + Copy>(
    rt: &impl Abort,
    heap: A,
    region: Region<FreeLaw, A>,
    client: Client<FreeLaw>,
) -> bool
    requires own { client.table ≡ region.table }
    requires free { IsFreeHanded client.value }
{
    let (words, _) = close(rt, heap, region, client);
    are_threes(words.as_slice())
}

/// Opens a region in one heap, renews it in another one, and closes it. Returns the outcome of the
/// renewal, and whether the words are those of the opening.
fn renew_in<A: Allocator + Copy>(rt: &impl Abort, heap: A, small: A) -> (Outcome, bool) {
    let (region, client) = open(rt, heap, &[3; 512], 100, 32);
    match region.renew(small, client, 1) {
        Ok((region, client)) => (Outcome::Renewed, closes_alike(rt, heap, region, client)),
        Err(RenewFault::Kept(region, client, fault)) => {
            same(rt, &fault, &RegionFault::Memory);
            (Outcome::Kept, closes_alike(rt, heap, region, client))
        }
        Err(RenewFault::Closed(words, _)) => (Outcome::Closed, are_threes(words.as_slice())),
    }
}

/// Returns the outcome of a renewal in a heap of this size.
fn renewal_in(
    rt: &impl Abort,
    alloc: Global,
    heap: &LocalHeap,
    size: usize,
) -> Result<Outcome, AllocError> {
    let small = LocalHeap::new(alloc, size)?;
    let (outcome, kept_alike) = renew_in(rt, heap, &small);
    holds(rt, kept_alike);
    same(rt, &[heap.used(), small.used()], &[0, 0]);
    Ok(outcome)
}

/// The first growth comes before any word moves; after it the region can only be closed.
#[test]
fn each_growth_of_a_renewal_is_refused(rt: HostRuntime) -> Result<(), Fail> {
    let heap = LocalHeap::new(rt.alloc(), 100_000)?;
    let mut seen = Vec::new(rt.alloc());
    for k in 0..200 {
        seen.push(renewal_in(&rt, rt.alloc(), &heap, 1_000 + 100 * k)?)?;
    }
    holds(&rt, seen.contains(&Outcome::Kept));
    holds(&rt, seen.contains(&Outcome::Closed));
    holds(&rt, seen.contains(&Outcome::Renewed));
    Ok(())
}

/// Opens a region in one heap and closes it in another one. Returns whether the words are those of
/// the opening.
fn open_in<A: Allocator + Copy>(small: A, heap: A) -> Result<bool, RegionFault> {
    let (region, client) = Region::<FreeLaw, A>::new(small, &[3; 512], 100, 32)?;
    match region.close(heap, client) {
        Ok((words, _)) => Ok(are_threes(words.as_slice())),
        Err((_, _, fault)) => Err(fault),
    }
}

/// Returns whether a region opens in a heap of this size; if not, the heap has no room for it.
fn opening_in(
    rt: &impl Abort,
    alloc: Global,
    heap: &LocalHeap,
    size: usize,
) -> Result<bool, AllocError> {
    let small = LocalHeap::new(alloc, size)?;
    let found = open_in(&small, heap);
    same(rt, &[heap.used(), small.used()], &[0, 0]);
    if found == Err(RegionFault::Memory) {
        return Ok(false);
    }
    same(rt, &found, &Ok(true));
    Ok(true)
}

/// No heap that is too small opens the region, and every larger heap does.
#[test]
fn each_growth_of_an_opening_is_refused(rt: HostRuntime) -> Result<(), Fail> {
    let heap = LocalHeap::new(rt.alloc(), 100_000)?;
    let (mut refused, mut opened) = (false, false);
    for k in 0..200 {
        if opening_in(&rt, rt.alloc(), &heap, 1_000 + 100 * k)? {
            opened = true;
        } else {
            holds(&rt, !opened);
            refused = true;
        }
    }
    holds(&rt, refused && opened);
    Ok(())
}
