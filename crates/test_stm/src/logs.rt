//! The memory that logs keep, and attempts in logs that were used before.
ghost use Rattle.std.specs.Prelude.{◌≡◌, ◌<◌};
ghost use Rattle.stm_core.specs.Core.{IsFreeHanded};
ghost use Rattle.stm_logs.specs.Log.{IsStriped};

use crate::attempts::write_one;
use crate::same::{close, holds, same, split, version};
use linked_list_allocator::LocalHeap;
use std::alloc::Allocator;
use std::test::Fail;
use stm_attempt::{Attempt, Logs, NoGate, Refusal, Stop};
use stm_core::{FreeLaw, Version};
use stm_logs::{ReadLog, WriteLog};
use stm_region::{Client, Region};
use tx_memory::{Addr, TxMem, TxRead};

/// Pushes addresses until memory is refused. Returns the length of the log.
fn fill<A: Allocator + Copy>(log: &mut ReadLog<A>) -> usize {
    for addr in 0..100_000 {
        if log.push(Addr(addr)).is_err() {
            break;
        }
    }
    log.len()
}

/// The heap has room for two chunks: one log has the first, and the other log the second.
#[test]
fn a_cleared_read_log_keeps_its_chunks(rt: HostRuntime) -> Result<(), Fail> {
    let heap = LocalHeap::new(rt.alloc(), 10_000)?;
    let (kept, before, after, again) = {
        let mut log = ReadLog::new(&heap);
        let mut rest = ReadLog::new(&heap);
        let kept = log.push(Addr(1)).is_ok();
        let before = fill(&mut rest);
        log.clear();
        let after = fill(&mut rest);
        let again = fill(&mut log);
        (kept, before, after, again)
    };
    holds(&rt, kept);
    same(&rt, &[before, after, again], &[1_024; 3]);
    same(&rt, &heap.used(), &0);
    Ok(())
}

fn new_log<A: Allocator + Copy>(alloc: A) -> WriteLog<A>
    ensures { IsStriped result 10 }
{
    WriteLog::new(alloc)
}

fn clear<A: Allocator + Copy>(log: &mut WriteLog<A>)
    ensures { IsStriped log.new 10 }
{
    log.clear();
}

fn put<A: Allocator + Copy>(log: &mut WriteLog<A>, addr: u32) -> bool
    requires { IsStriped log.old 10 }
    ensures { IsStriped log.new 10 }
{
    log.put(Addr(addr), addr % 10, 7).is_ok()
}

/// Puts the addresses below `count` into the emptied log. Returns the number of addresses that the
/// log took.
fn put_again<A: Allocator + Copy>(log: &mut WriteLog<A>, count: u32) -> u32
    ensures { IsStriped log.new 10 }
{
    clear(log);
    for addr in 0..count {
        if !put(log, addr) {
            return addr;
        }
    }
    count
}

/// The words share ten locks, so the log becomes long. Another log takes the rest of the heap, and
/// nothing more once the first log is cleared.
#[test]
fn a_cleared_write_log_keeps_its_memory(rt: HostRuntime) -> Result<(), Fail> {
    let heap = LocalHeap::new(rt.alloc(), 20_000)?;
    let (first, before, second, after) = {
        let mut log = new_log(&heap);
        let mut rest = ReadLog::new(&heap);
        let first = put_again(&mut log, 15);
        let before = fill(&mut rest);
        let second = put_again(&mut log, 15);
        let after = fill(&mut rest);
        (first, before, second, after)
    };
    same(&rt, &[first, second], &[15; 2]);
    same(&rt, &before, &after);
    same(&rt, &heap.used(), &0);
    Ok(())
}

/// Writes word 9 and reads the first `count` words in one attempt.
fn write_and_read<A: Allocator + Copy>(
    region: &Region<FreeLaw>,
    client: &mut Client<FreeLaw>,
    logs: &mut Logs<A>,
    count: u32,
) -> u32
    requires own { client.old.table ≡ region.now.table }
    requires free { IsFreeHanded client.old.value }
    requires range { (9 < region.now.size) × (count < region.now.size) }
    ensures own { client.new.table ≡ client.old.table }
    ensures free { IsFreeHanded client.new.value }
{
    let mut attempt = Attempt::begin(region, client, logs);
    let mut done = 0;
    if attempt.write(Addr(9), 5).is_ok() {
        for addr in 0..count {
            if attempt.read(Addr(addr)).is_err() {
                break;
            }
            done = addr + 1;
        }
    }
    attempt.abort();
    done
}

#[test]
fn logs_keep_their_memory_from_attempt_to_attempt(rt: HostRuntime) -> Result<(), Fail> {
    let heap = LocalHeap::new(rt.alloc(), 20_000)?;
    let (first, before, second, after) = {
        let (region, mut client) = Region::<FreeLaw>::new(rt.alloc(), &[0; 512], 100, 64)?;
        let mut logs = Logs::new(&heap);
        let mut rest = ReadLog::new(&heap);
        let first = write_and_read(&region, &mut client, &mut logs, 500);
        let before = fill(&mut rest);
        let second = write_and_read(&region, &mut client, &mut logs, 500);
        let after = fill(&mut rest);
        (first, before, second, after)
    };
    same(&rt, &[first, second], &[500; 2]);
    same(&rt, &before, &after);
    Ok(())
}

/// Reads word 9 and commits, in logs in which an earlier attempt has read word 3 and written word
/// 9.
fn read_in_used_logs(
    region: &Region<FreeLaw>,
    client: &mut Client<FreeLaw>,
    logs: &mut Logs,
) -> (Result<u64, Refusal>, Result<Version, Stop>)
    requires own { client.old.table ≡ region.now.table }
    requires free { IsFreeHanded client.old.value }
    requires range { 9 < region.now.size }
    ensures own { client.new.table ≡ client.old.table }
    ensures free { IsFreeHanded client.new.value }
{
    let _ = write_and_read(region, client, logs, 4);
    let mut attempt = Attempt::begin(region, client, logs);
    let read = attempt.read(Addr(9));
    let committed = attempt.commit(&2u64, &mut NoGate);
    (read, committed)
}

/// Writes word 5 and commits in used logs, while another client writes word 3. The attempt itself
/// has read nothing.
fn write_in_used_logs(
    region: &Region<FreeLaw>,
    client: &mut Client<FreeLaw>,
    other: &mut Client<FreeLaw>,
    logs: &mut Logs,
    others: &mut Logs,
) -> [Result<Version, Stop>; 2]
    requires own { (client.old.table ≡ region.now.table) × (other.old.table ≡ region.now.table) }
    requires free { IsFreeHanded client.old.value × IsFreeHanded other.old.value }
    requires range { 9 < region.now.size }
    ensures own { (client.new.table ≡ client.old.table) × (other.new.table ≡ other.old.table) }
    ensures free { IsFreeHanded client.new.value × IsFreeHanded other.new.value }
{
    let _ = write_and_read(region, client, logs, 4);
    let mut attempt = Attempt::begin(region, client, logs);
    let written = attempt.write(Addr(5), 8).is_ok();
    let between = write_one(region, other, others, Addr(3), 1);
    let committed = attempt.commit(&2u64, &mut NoGate);
    if written {
        [between, committed]
    } else {
        [between, Err(Stop::Memory)]
    }
}

#[test]
fn an_attempt_begins_with_its_logs_emptied(rt: HostRuntime) -> Result<(), Fail> {
    let alloc = rt.alloc();
    let ((read, committed), answers, words, last) = {
        let (region, mut a) = Region::<FreeLaw>::new(alloc, &[0; 32], 100, 32)?;
        let mut b = split(&rt, &region, &mut a);
        let mut logs_a = Logs::new(alloc);
        let mut logs_b = Logs::new(alloc);
        let read = read_in_used_logs(&region, &mut a, &mut logs_a);
        let answers = write_in_used_logs(&region, &mut a, &mut b, &mut logs_a, &mut logs_b);
        region.gather(&mut a, b);
        let (words, last) = close(&rt, alloc, region, a);
        (read, answers, words, last)
    };
    same(&rt, &read, &Ok(0));
    same(&rt, &committed, &Ok(version(&rt, 0)));
    same(&rt, &answers, &[Ok(version(&rt, 1)), Ok(version(&rt, 2))]);
    let mut expected = [0u64; 32];
    expected[3] = 1;
    expected[5] = 8;
    same(&rt, &words.as_slice(), &expected.as_slice());
    same(&rt, &last, &version(&rt, 2));
    Ok(())
}
