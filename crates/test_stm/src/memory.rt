//! Attempts whose logs cannot grow.
ghost use Rattle.std.specs.Prelude.{◌<◌};

use crate::same::{close, same, version};
use linked_list_allocator::LocalHeap;
use std::alloc::{Allocator, Global};
use std::test::Fail;
use stm_attempt::{Attempt, Logs, NoGate, Refusal, Stop};
use stm_core::{FreeLaw, Version};
use stm_region::{Region, RegionFault};
use tx_memory::{Addr, TxMem, TxRead};

/// The number of words read or written, the refusal that followed, and the result of the commit.
type Ended = (u32, Option<Refusal>, Result<Version, Stop>);

#[test]
fn a_refused_write_leaves_the_attempt(rt: HostRuntime) -> Result<(), Fail> {
    let (written, refused, again, own, read, committed, words) = {
        let heap = LocalHeap::new(rt.alloc(), 4_000)?;
        let (region, mut client) = Region::<FreeLaw>::new(rt.alloc(), &[0; 512], 100, 64)?;
        let mut logs = Logs::new(&heap);
        let mut attempt = Attempt::begin(&region, &mut client, &mut logs);
        let mut written = 0;
        let mut refused = None;
        for i in 0..512 {
            if let Err(stop) = attempt.write(Addr(i), 1) {
                refused = Some(stop);
                break;
            }
            written = i + 1;
        }
        let again = attempt.write(Addr(511), 1);
        let own = attempt.write(Addr(0), 2);
        let read = attempt.read(Addr(0));
        let committed = attempt.commit(&1u64, &mut NoGate);
        let (words, _) = close(&rt, rt.alloc(), region, client);
        (written, refused, again, own, read, committed, words)
    };
    same(&rt, &refused, &Some(Refusal::Memory));
    same(&rt, &again, &Err(Refusal::Memory));
    same(&rt, &own, &Ok(()));
    same(&rt, &read, &Ok(2));
    same(&rt, &committed, &Ok(version(&rt, 1)));
    assert!(rt; 0 < written && written < 512);
    for (i, word) in words.iter().enumerate() {
        let expected = match i {
            0 => 2,
            i if i < written as usize => 1,
            _ => 0,
        };
        same(&rt, word, &expected);
    }
    Ok(())
}

#[test]
fn a_refused_read_leaves_the_attempt(rt: HostRuntime) -> Result<(), Fail> {
    let (read, refused, again, committed) = {
        let heap = LocalHeap::new(rt.alloc(), 6_000)?;
        let (region, mut client) = Region::<FreeLaw>::new(rt.alloc(), &[3; 512], 100, 64)?;
        let mut logs = Logs::new(&heap);
        let mut attempt = Attempt::begin(&region, &mut client, &mut logs);
        let mut read = 0;
        let mut refused = None;
        for i in 0..3_000 {
            if let Err(stop) = attempt.read(Addr(i % 512)) {
                refused = Some(stop);
                break;
            }
            read = i + 1;
        }
        let again = attempt.read(Addr(7));
        let committed = attempt.commit(&1u64, &mut NoGate);
        (read, refused, again, committed)
    };
    same(&rt, &refused, &Some(Refusal::Memory));
    same(&rt, &read, &1_024);
    same(&rt, &again, &Err(Refusal::Memory));
    same(&rt, &committed, &Ok(version(&rt, 0)));
    Ok(())
}

/// Returns one of 200 words, counted from the first one on or from the last one down.
fn nth_of_200(i: u32, is_down: bool) -> Addr
    requires { i < 200 }
    ensures { result.0 < 200 }
{
    if is_down { Addr(199 - i) } else { Addr(i) }
}

/// Writes up to 200 words, from the first one on or from the last one down, in an attempt whose
/// logs take their memory from `logs_in`. Returns the number written, the refusal that followed,
/// and the result of the commit.
fn write_in<A: Allocator + Copy>(
    alloc: Global,
    logs_in: A,
    is_down: bool,
) -> Result<Ended, RegionFault> {
    let (region, mut client) = Region::<FreeLaw>::new(alloc, &[0; 200], 100, 64)?;
    let mut logs = Logs::new(logs_in);
    let mut attempt = Attempt::begin(&region, &mut client, &mut logs);
    let mut ended = (0, None);
    for i in 0..200 {
        if let Err(refused) = attempt.write(nth_of_200(i, is_down), 1) {
            ended.1 = Some(refused);
            break;
        }
        ended.0 = i + 1;
    }
    Ok((ended.0, ended.1, attempt.commit(&1u64, &mut NoGate)))
}

/// Reads up to 5,000 times in an attempt whose logs take their memory from `logs_in`. Returns the
/// number of reads that succeeded, the refusal that followed, and the result of the commit.
fn read_in<A: Allocator + Copy>(alloc: Global, logs_in: A) -> Result<Ended, RegionFault> {
    let (region, mut client) = Region::<FreeLaw>::new(alloc, &[3; 200], 100, 64)?;
    let mut logs = Logs::new(logs_in);
    let mut attempt = Attempt::begin(&region, &mut client, &mut logs);
    let mut ended = (0, None);
    for i in 0..5_000 {
        if let Err(refused) = attempt.read(Addr(i % 200)) {
            ended.1 = Some(refused);
            break;
        }
        ended.0 = i + 1;
    }
    Ok((ended.0, ended.1, attempt.commit(&1u64, &mut NoGate)))
}

/// The heaps have room for no growth of the write log, for the first growth, and so on. The region
/// has 64 stripes: words 0 to 63 stay in a short log, which takes no memory, and the log becomes
/// long at word 64. From word 199 down the log is long from the first word on.
#[test]
fn each_growth_is_refused_to_an_attempt_that_writes(rt: HostRuntime) -> Result<(), Fail> {
    for (size, is_down, most) in [
        (1_000, true, 0),
        (4_000, true, 31),
        (9_000, true, 63),
        (20_000, true, 127),
        (40_000, true, 200),
        (1_000, false, 64),
        (9_000, false, 64),
        (20_000, false, 127),
        (40_000, false, 200),
    ] {
        let heap = LocalHeap::new(rt.alloc(), size)?;
        let found = write_in(rt.alloc(), &heap, is_down)?;
        let refused = (most < 200).then_some(Refusal::Memory);
        let committed = version(&rt, u64::from(most.min(1)));
        same(&rt, &found, &(most, refused, Ok(committed)));
        same(&rt, &heap.used(), &0);
    }
    Ok(())
}

/// The heaps have room for no growth of the read log, for the first growth, and so on.
#[test]
fn each_growth_is_refused_to_an_attempt_that_reads(rt: HostRuntime) -> Result<(), Fail> {
    for (size, most) in [
        (1_000, 0),
        (5_000, 1_024),
        (10_000, 2_048),
        (20_500, 4_096),
        (100_000, 5_000),
    ] {
        let heap = LocalHeap::new(rt.alloc(), size)?;
        let found = read_in(rt.alloc(), &heap)?;
        let refused = (most < 5_000).then_some(Refusal::Memory);
        same(&rt, &found, &(most, refused, Ok(version(&rt, 0))));
        same(&rt, &heap.used(), &0);
    }
    Ok(())
}
