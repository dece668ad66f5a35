//! The commit of another client at the point at which the locks are held.

use crate::attempts::{read_one, write_one};
use crate::gates::{CommitsAt, Running, write_under};
use crate::same::{same, split, version};
use std::test::Fail;
use stm_attempt::{Attempt, Conflict, Logs, Point, Stop};
use stm_core::FreeLaw;
use stm_region::Region;
use tx_memory::{Addr, TxMem, TxRead};

/// The other client's tick comes between the locks and the tick of the first commit, and is the
/// first after its read version: it decides, though the word that the other client has read is
/// locked.
#[test]
fn a_commit_at_locked_decides_by_its_tick(rt: HostRuntime) -> Result<(), Fail> {
    let alloc = rt.alloc();
    let mut answer = None;
    let (read, written, committed) = {
        let (region, mut a) = Region::<FreeLaw>::new(alloc, &[0; 32], 100, 32)?;
        let mut b = split(&rt, &region, &mut a);
        let mut logs_a = Logs::new(alloc);
        let mut logs_b = Logs::new(alloc);
        let mut other = Attempt::begin(&region, &mut b, &mut logs_b);
        let read = other.read(Addr(9));
        let written = other.write(Addr(10), 7);
        let mut gate = CommitsAt {
            other: Some(Running { attempt: other }),
            when: Point::Locked,
            answer: &mut answer,
        };
        let committed = write_under(&region, &mut a, &mut logs_a, &mut gate);
        let CommitsAt {
            other,
            when: _,
            answer: _,
        } = gate;
        if let Some(Running { attempt }) = other {
            attempt.abort();
        }
        (read, written, committed)
    };
    same(&rt, &read, &Ok(0));
    same(&rt, &written, &Ok(()));
    same(&rt, &committed, &Ok(version(&rt, 2)));
    same(&rt, &answer, &Some(Ok(version(&rt, 1))));
    Ok(())
}

/// Another commit came before, so that the other client must validate the word that it has read,
/// and finds it held.
#[test]
fn a_commit_at_locked_meets_a_held_lock(rt: HostRuntime) -> Result<(), Fail> {
    let alloc = rt.alloc();
    let mut answer = None;
    let (read, written, before, committed, nine, ten) = {
        let (region, mut a) = Region::<FreeLaw>::new(alloc, &[0; 32], 100, 32)?;
        let mut b = split(&rt, &region, &mut a);
        let mut logs_a = Logs::new(alloc);
        let mut logs_b = Logs::new(alloc);
        let mut other = Attempt::begin(&region, &mut b, &mut logs_b);
        let read = other.read(Addr(9));
        let written = other.write(Addr(10), 7);
        let before = write_one(&region, &mut a, &mut logs_a, Addr(20), 1);
        let mut gate = CommitsAt {
            other: Some(Running { attempt: other }),
            when: Point::Locked,
            answer: &mut answer,
        };
        let committed = write_under(&region, &mut a, &mut logs_a, &mut gate);
        let CommitsAt {
            other,
            when: _,
            answer: _,
        } = gate;
        if let Some(Running { attempt }) = other {
            attempt.abort();
        }
        let nine = read_one(&region, &mut a, &mut logs_a, Addr(9));
        let ten = read_one(&region, &mut a, &mut logs_a, Addr(10));
        (read, written, before, committed, nine, ten)
    };
    same(&rt, &read, &Ok(0));
    same(&rt, &written, &Ok(()));
    same(&rt, &before, &Ok(version(&rt, 1)));
    same(&rt, &committed, &Ok(version(&rt, 3)));
    let held = Conflict::Held { lock: 9, word: 1 };
    same(&rt, &answer, &Some(Err(Stop::Conflict(held))));
    same(&rt, &nine, &Ok(1));
    same(&rt, &ten, &Ok(0));
    Ok(())
}

/// The other client writes the same word and one below it. It takes the lock of the lower word,
/// finds the other lock held, and gives the first lock back.
#[test]
fn a_commit_at_locked_finds_a_lock_taken(rt: HostRuntime) -> Result<(), Fail> {
    let alloc = rt.alloc();
    let mut answer = None;
    let (eighth, ninth, committed, eight, nine) = {
        let (region, mut a) = Region::<FreeLaw>::new(alloc, &[0; 32], 100, 32)?;
        let mut b = split(&rt, &region, &mut a);
        let mut logs_a = Logs::new(alloc);
        let mut logs_b = Logs::new(alloc);
        let mut other = Attempt::begin(&region, &mut b, &mut logs_b);
        let eighth = other.write(Addr(8), 6);
        let ninth = other.write(Addr(9), 7);
        let mut gate = CommitsAt {
            other: Some(Running { attempt: other }),
            when: Point::Locked,
            answer: &mut answer,
        };
        let committed = write_under(&region, &mut a, &mut logs_a, &mut gate);
        let CommitsAt {
            other,
            when: _,
            answer: _,
        } = gate;
        if let Some(Running { attempt }) = other {
            attempt.abort();
        }
        let eight = read_one(&region, &mut a, &mut logs_a, Addr(8));
        let nine = read_one(&region, &mut a, &mut logs_a, Addr(9));
        (eighth, ninth, committed, eight, nine)
    };
    same(&rt, &eighth, &Ok(()));
    same(&rt, &ninth, &Ok(()));
    same(&rt, &committed, &Ok(version(&rt, 1)));
    let held = Conflict::Held { lock: 9, word: 1 };
    same(&rt, &answer, &Some(Err(Stop::Conflict(held))));
    same(&rt, &eight, &Ok(0));
    same(&rt, &nine, &Ok(1));
    Ok(())
}
