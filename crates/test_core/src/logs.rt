//! Read logs and write logs: worked examples, many addresses, and each growth refused.
ghost use Rattle.std.specs.Prelude.{ℕ, ◌%◌, ◌<◌, ◌≤◌};
ghost use Rattle.stm_logs.specs.Log.{IsStriped};

use crate::same::{holds, same};
use linked_list_allocator::LocalHeap;
use std::alloc::{AllocError, Allocator, Global};
use std::process::Abort;
use std::test::Fail;
use stm_logs::{Marks, ReadLog, WriteLog};
use tx_memory::Addr;

fn new_log<A: Allocator + Copy>(alloc: A) -> WriteLog<A>
    ensures { (stripes : ℕ) → IsStriped result stripes }
{
    WriteLog::new(alloc)
}

fn clear<A: Allocator + Copy>(log: &mut WriteLog<A>)
    ensures { (stripes : ℕ) → IsStriped log.new stripes }
{
    log.clear();
}

/// Puts a value at an address; the lock of the address is its remainder by the number of stripes.
fn put<A: Allocator + Copy>(
    log: &mut WriteLog<A>,
    stripes: u32,
    addr: u32,
    value: u64,
) -> Result<(), AllocError>
    requires some { 0 < stripes }
    requires striped { IsStriped log.old stripes }
    ensures { IsStriped log.new stripes }
{
    log.put(Addr(addr), addr % stripes, value)
}

/// Asserts that a log has this number of words, this value at address 9 and exactly these locks,
/// in this order.
fn expect_log(
    rt: &impl Abort,
    alloc: Global,
    log: &WriteLog,
    words_and_nine: (usize, Option<u64>),
    locks: &[u32],
) {
    same(rt, &(log.len(), log.get(Addr(9))), &words_and_nine);
    same(rt, &locks_of(rt, alloc, log).as_slice(), &locks);
}

/// Returns the locks of a log in their order.
fn locks_of(rt: &impl Abort, alloc: Global, log: &WriteLog) -> Vec<u32> {
    let Ok(locks) = log.locks().collect(alloc) else {
        panic!(rt; "there is no memory")
    };
    locks
}

/// Returns the words of a lock.
fn words_of(rt: &impl Abort, alloc: Global, log: &WriteLog, lock: u32) -> Vec<(Addr, u64)> {
    let Ok(words) = log.words_of(lock).collect(alloc) else {
        panic!(rt; "there is no memory")
    };
    words
}

/// Returns a log in which three values were put, two of them at address 9.
fn replaced(alloc: Global) -> Result<WriteLog, AllocError> {
    let mut log = new_log(alloc);
    put(&mut log, 10, 9, 1)?;
    put(&mut log, 10, 4, 2)?;
    put(&mut log, 10, 9, 3)?;
    Ok(log)
}

#[test]
fn a_value_is_replaced(rt: HostRuntime) -> Result<(), Fail> {
    expect_log(&rt, rt.alloc(), &new_log(rt.alloc()), (0, None), &[]);
    let mut log = replaced(rt.alloc())?;
    expect_log(&rt, rt.alloc(), &log, (2, Some(3)), &[4, 9]);
    same(&rt, &log.get(Addr(5)), &None);
    holds(&rt, log.has_lock(4) && log.has_lock(9) && !log.has_lock(5));
    let nine = words_of(&rt, rt.alloc(), &log, 9);
    same(&rt, &nine.as_slice(), &[(Addr(9), 3)].as_slice());
    same(&rt, &words_of(&rt, rt.alloc(), &log, 5).len(), &0);
    log.clear();
    expect_log(&rt, rt.alloc(), &log, (0, None), &[]);
    Ok(())
}

/// Returns whether addresses 9, 265 and 10 are marked.
fn marked(marks: &Marks) -> [bool; 3] {
    [Addr(9), Addr(265), Addr(10)].map(|addr| marks.is_marked(addr))
}

#[test]
fn addresses_of_one_remainder_are_marked_together(rt: HostRuntime) -> Result<(), Fail> {
    let mut marks = Marks::new();
    same(&rt, &marked(&marks), &[false, false, false]);
    marks.mark(Addr(9));
    same(&rt, &marked(&marks), &[true, true, false]);
    marks.mark_all();
    same(&rt, &marked(&marks), &[true, true, true]);
    marks.clear();
    same(&rt, &marked(&marks), &[false, false, false]);
    Ok(())
}

#[test]
fn two_words_share_a_lock(rt: HostRuntime) -> Result<(), Fail> {
    let mut log = new_log(rt.alloc());
    put_two(&mut log, 4, (9, 1), (5, 2))?;
    let words = words_of(&rt, rt.alloc(), &log, 1);
    same(
        &rt,
        &words.as_slice(),
        &[(Addr(5), 2), (Addr(9), 1)].as_slice(),
    );
    same(
        &rt,
        &locks_of(&rt, rt.alloc(), &log).as_slice(),
        &[1].as_slice(),
    );
    Ok(())
}

/// Puts two values, each at its address.
fn put_two(
    log: &mut WriteLog,
    stripes: u32,
    first: (u32, u64),
    second: (u32, u64),
) -> Result<(), AllocError>
    requires some { 0 < stripes }
    requires striped { IsStriped log.old stripes }
    ensures { IsStriped log.new stripes }
{
    put(log, stripes, first.0, first.1)?;
    put(log, stripes, second.0, second.1)
}

/// Returns a log whose words have two locks.
fn of_two_locks(alloc: Global) -> Result<WriteLog, AllocError> {
    let mut log = new_log(alloc);
    put_two(&mut log, 4, (9, 1), (6, 2))?;
    put_two(&mut log, 4, (5, 3), (9, 4))?;
    Ok(log)
}

/// Returns the words of a log with their locks: lock by lock, and within a lock by address.
fn words_by_lock(alloc: Global, log: &WriteLog) -> Result<Vec<(u32, Addr, u64)>, AllocError> {
    let mut found = Vec::new(alloc);
    for lock in log.locks() {
        for (addr, value) in log.words_of(lock) {
            found.push((lock, addr, value))?;
        }
    }
    Ok(found)
}

#[test]
fn locks_come_with_their_words(rt: HostRuntime) -> Result<(), Fail> {
    let mut log = of_two_locks(rt.alloc())?;
    let found = words_by_lock(rt.alloc(), &log)?;
    let wanted = [(1, Addr(5), 3), (1, Addr(9), 4), (2, Addr(6), 2)];
    same(&rt, &found.as_slice(), &wanted.as_slice());
    let pairs: Vec<(Addr, u64)> = log.pairs_by_lock().collect(rt.alloc())?;
    same(
        &rt,
        &pairs.as_slice(),
        &[(Addr(5), 3), (Addr(9), 4), (Addr(6), 2)].as_slice(),
    );
    log.clear();
    holds(&rt, log.locks().next().is_none());
    holds(&rt, log.pairs_by_lock().next().is_none());
    Ok(())
}

/// Pushes the addresses from 0 on until `count` or until memory is refused.
fn push_all<A: Allocator + Copy>(log: &mut ReadLog<A>, count: u32) {
    for addr in 0..count {
        if log.push(Addr(addr)).is_err() {
            return;
        }
    }
}

/// Asserts that a log has exactly the addresses from 0 to `count` - 1, in this order.
fn expect_rising<A: Allocator + Copy>(rt: &impl Abort, log: &ReadLog<A>, count: usize) {
    same(rt, &log.len(), &count);
    for i in 0..log.len() {
        holds(rt, log.get(i).0 as usize == i);
    }
}

#[test]
fn a_read_log_is_a_list(rt: HostRuntime) -> Result<(), Fail> {
    let mut log = ReadLog::new(rt.alloc());
    for addr in [9, 9, 4] {
        log.push(Addr(addr))?;
    }
    assert_eq!(rt; log.len(), 3);
    same(&rt, &[log.get(1), log.get(2)], &[Addr(9), Addr(4)]);
    log.clear();
    same(&rt, &log.len(), &0);
    for _ in 0..2 {
        push_all(&mut log, 100_000);
        expect_rising(&rt, &log, 100_000);
        log.clear();
    }
    Ok(())
}

/// Puts the addresses below `count`, upwards or downwards, each with its own number as value.
fn put_all<A: Allocator + Copy>(
    log: &mut WriteLog<A>,
    stripes: u32,
    count: u32,
    is_down: bool,
) -> Result<(), AllocError>
    requires some { 0 < stripes }
    requires striped { IsStriped log.old stripes }
    ensures { IsStriped log.new stripes }
{
    for i in 0..count {
        let addr = if is_down { count - 1 - i } else { i };
        put(log, stripes, addr, addr as u64)?;
    }
    Ok(())
}

/// Asserts that the words of a lock ascend, each with its own number as value. Returns their
/// number.
fn expect_words<A: Allocator + Copy>(
    rt: &impl Abort,
    log: &WriteLog<A>,
    stripes: u32,
    lock: u32,
) -> u64
    requires { 0 < stripes }
{
    let mut least = 0u64;
    let mut words = 0u64;
    for (addr, value) in log.words_of(lock) {
        holds(rt, least <= value && value < 1_000_000);
        holds(rt, addr.0 % stripes == lock && addr.0 as u64 == value);
        least = value.wrapping_add(1);
        words = words.wrapping_add(1);
    }
    words
}

/// Asserts that the log has exactly the addresses below `count`, each under its lock, all of them
/// ascending.
fn expect_all<A: Allocator + Copy>(rt: &impl Abort, log: &WriteLog<A>, stripes: u32, count: u32)
    requires { 0 < stripes }
{
    same(rt, &log.len(), &(count as usize));
    let mut next_lock = 0u32;
    let mut words = 0u64;
    for lock in log.locks() {
        same(rt, &lock, &next_lock);
        next_lock = next_lock.wrapping_add(1);
        words = words.wrapping_add(expect_words(rt, log, stripes, lock));
    }
    same(rt, &next_lock, &count.min(stripes));
    same(rt, &words, &u64::from(count));
}

#[test]
fn many_addresses(rt: HostRuntime) -> Result<(), Fail> {
    let mut log = new_log(rt.alloc());
    for (stripes, is_down) in [
        (1_000_000, false),
        (1_000_000, true),
        (64, false),
        (64, true),
    ] {
        clear(&mut log);
        put_all(&mut log, stripes, 100_000, is_down)?;
        expect_all(&rt, &log, stripes, 100_000);
    }
    Ok(())
}

/// Puts addresses until memory is refused. Returns the number of addresses that the log then has.
fn put_some<A: Allocator + Copy>(log: &mut WriteLog<A>, stripes: u32, count: u32) -> u32
    requires some { 0 < stripes }
    requires striped { IsStriped log.old stripes }
    ensures striped { IsStriped log.new stripes }
    ensures most { result ≤ count }
{
    for addr in 0..count {
        if put(log, stripes, addr, addr as u64).is_err() {
            return addr;
        }
    }
    count
}

/// Fills a log until memory is refused, puts one address again, and fills the log anew.
fn fill_twice<A: Allocator + Copy>(rt: &impl Abort, heap: A, stripes: u32, most: u32)
    requires { 0 < stripes }
{
    let mut log = new_log(heap);
    let count = put_some(&mut log, stripes, 200);
    same(rt, &count, &most);
    expect_all(rt, &log, stripes, count);
    if count > 0 {
        holds(rt, put(&mut log, stripes, 0, 0).is_ok());
        expect_all(rt, &log, stripes, count);
    }
    clear(&mut log);
    let again = put_some(&mut log, stripes, 200);
    same(rt, &again, &count);
}

/// The heaps have room for no growth, for the first, and so on up to all of them. With a lock for
/// each address a log is short up to 127 words, and takes no memory. With three locks it becomes
/// long at the fourth word, whose lock has another remainder than its address.
#[test]
fn each_growth_of_the_write_log_is_refused(rt: HostRuntime) -> Result<(), Fail> {
    for (size, stripes, most) in [
        (1_000, 3, 3),
        (4_000, 3, 31),
        (9_000, 3, 63),
        (20_000, 3, 127),
        (40_000, 3, 200),
        (1_000, 1_000_000, 127),
        (20_000, 1_000_000, 127),
        (40_000, 1_000_000, 200),
    ] {
        let heap = LocalHeap::new(rt.alloc(), size)?;
        fill_twice(&rt, &heap, stripes, most);
        same(&rt, &heap.used(), &0);
    }
    Ok(())
}

/// Fills a read log until memory is refused, and then begins anew.
fn fill_list<A: Allocator + Copy>(rt: &impl Abort, heap: A, most: usize) {
    let mut log = ReadLog::new(heap);
    push_all(&mut log, 5_000);
    expect_rising(rt, &log, most);
    log.clear();
    same(rt, &log.push(Addr(7)).is_ok(), &(most > 0));
}

#[test]
fn each_growth_of_the_read_log_is_refused(rt: HostRuntime) -> Result<(), Fail> {
    for (size, most) in [
        (1_000, 0),
        (5_000, 1_024),
        (8_250, 1_024),
        (10_000, 2_048),
        (20_500, 4_096),
        (20_800, 5_000),
        (100_000, 5_000),
    ] {
        let heap = LocalHeap::new(rt.alloc(), size)?;
        fill_list(&rt, &heap, most);
        same(&rt, &heap.used(), &0);
    }
    Ok(())
}
