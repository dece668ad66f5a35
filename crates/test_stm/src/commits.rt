//! Attempts of one client, or of two in turn: their reads, their results and the words that they
//! leave.
ghost use Rattle.std.specs.Prelude.{◌≡◌, ◌<◌};
ghost use Rattle.stm_core.specs.Core.{IsFreeHanded};

use crate::attempts::{read_one, write_one};
use crate::same::{close, same, split, version};
use std::process::Abort;
use std::test::Fail;
use stm_attempt::{Attempt, Conflict, Logs, NoGate, ReadAttempt, Refusal, Stop};
use stm_core::{FreeLaw, Version};
use stm_region::{Client, Region};
use tx_memory::{Addr, TxMem, TxRead};

/// Returns the sum of two words.
fn sum_of<M: TxRead>(memory: &mut M, first: Addr, second: Addr) -> Result<u64, M::Stop>
    requires first { first.0 < (M.view memory.old).size }
    requires second { second.0 < (M.view memory.old).size }
    ensures origin { M.origin memory.new ≡ M.origin memory.old }
{
    Ok(memory.read(first)?.wrapping_add(memory.read(second)?))
}

/// Returns the conflict of a lock word with version 1 in an attempt with read version 0.
fn newer(rt: &impl Abort, lock: u32) -> Conflict {
    Conflict::Newer {
        lock,
        version: version(rt, 1),
        rv: version(rt, 0),
    }
}

#[test]
fn own_writes_are_read_and_aborted(rt: HostRuntime) -> Result<(), Fail> {
    let alloc = rt.alloc();
    let (before, written, after, aborted, words, last) = {
        let (region, mut client) = Region::<FreeLaw>::new(alloc, &[0; 32], 100, 32)?;
        let mut logs = Logs::new(alloc);
        let mut attempt = Attempt::begin(&region, &mut client, &mut logs);
        let before = attempt.read(Addr(9));
        let written = attempt.write(Addr(9), 5);
        let after = attempt.read(Addr(9));
        attempt.abort();
        let aborted = read_one(&region, &mut client, &mut logs, Addr(9));
        let (words, last) = close(&rt, alloc, region, client);
        (before, written, after, aborted, words, last)
    };
    same(&rt, &before, &Ok(0));
    same(&rt, &written, &Ok(()));
    same(&rt, &after, &Ok(5));
    same(&rt, &aborted, &Ok(0));
    same(&rt, &words.as_slice(), &[0u64; 32].as_slice());
    same(&rt, &last.get(), &0);
    Ok(())
}

#[test]
fn a_reader_finishes_at_its_read_version(rt: HostRuntime) -> Result<(), Fail> {
    let alloc = rt.alloc();
    let (committed, value, finished) = {
        let (region, mut client) = Region::<FreeLaw>::new(alloc, &[0; 32], 100, 32)?;
        let mut logs = Logs::new(alloc);
        let committed = write_one(&region, &mut client, &mut logs, Addr(9), 5);
        let mut reader = ReadAttempt::begin(&region, &mut client);
        let value = reader.read(Addr(9));
        if value.is_err() {
            reader.abort();
            panic!(rt; "it was refused")
        }
        (committed, value, reader.finish(&7u64))
    };
    same(&rt, &committed, &Ok(version(&rt, 1)));
    same(&rt, &value, &Ok(5));
    same(&rt, &finished, &version(&rt, 1));
    Ok(())
}

#[test]
fn a_reader_of_zeros_finishes_at_version_0(rt: HostRuntime) -> Result<(), Fail> {
    let (value, finished) = {
        let (region, mut client) = Region::<FreeLaw>::new(rt.alloc(), &[0; 32], 100, 32)?;
        let mut reader = ReadAttempt::begin(&region, &mut client);
        let value = reader.read(Addr(9));
        if value.is_err() {
            reader.abort();
            panic!(rt; "it was refused")
        }
        (value, reader.finish(&7u64))
    };
    same(&rt, &value, &Ok(0));
    same(&rt, &finished, &version(&rt, 0));
    Ok(())
}

#[test]
fn a_reader_meets_a_newer_version_and_repeats(rt: HostRuntime) -> Result<(), Fail> {
    let alloc = rt.alloc();
    let (between, stops, met, ended, value, committed, words, last) = {
        let (region, mut a) = Region::<FreeLaw>::new(alloc, &[0; 32], 100, 32)?;
        let mut b = split(&rt, &region, &mut a);
        let mut logs_a = Logs::new(alloc);
        let mut logs_b = Logs::new(alloc);
        let mut reading = Attempt::begin(&region, &mut a, &mut logs_a);
        let between = write_one(&region, &mut b, &mut logs_b, Addr(9), 5);
        let stops = [
            reading.read(Addr(9)).err(),
            reading.read(Addr(9)).err(),
            reading.write(Addr(9), 6).err(),
        ];
        let met = reading.stopped();
        let ended = reading.commit(&2u64, &mut NoGate);
        let mut reading = Attempt::begin(&region, &mut a, &mut logs_a);
        let value = reading.read(Addr(9));
        let committed = reading.commit(&3u64, &mut NoGate);
        region.gather(&mut a, b);
        let (words, last) = close(&rt, alloc, region, a);
        (between, stops, met, ended, value, committed, words, last)
    };
    same(&rt, &between, &Ok(version(&rt, 1)));
    same(&rt, &stops, &[Some(Refusal::Stopped); 3]);
    same(&rt, &met, &Some(newer(&rt, 9)));
    same(&rt, &ended, &Err(Stop::Conflict(newer(&rt, 9))));
    same(&rt, &value, &Ok(5));
    same(&rt, &committed, &Ok(version(&rt, 1)));
    let mut expected = [0u64; 32];
    expected[9] = 5;
    same(&rt, &words.as_slice(), &expected.as_slice());
    same(&rt, &last, &version(&rt, 1));
    Ok(())
}

#[test]
fn a_spent_clock_refuses_what_writes(rt: HostRuntime) -> Result<(), Fail> {
    let alloc = rt.alloc();
    let (first, before, written, refused, read, committed) = {
        let (region, mut client) = Region::<FreeLaw>::new(alloc, &[0; 32], 1, 32)?;
        let mut logs = Logs::new(alloc);
        let first = write_one(&region, &mut client, &mut logs, Addr(9), 5);
        let mut attempt = Attempt::begin(&region, &mut client, &mut logs);
        let before = attempt.read(Addr(9));
        let written = attempt.write(Addr(9), 6);
        let refused = attempt.commit(&2u64, &mut NoGate);
        let mut attempt = Attempt::begin(&region, &mut client, &mut logs);
        let read = attempt.read(Addr(9));
        let committed = attempt.commit(&3u64, &mut NoGate);
        (first, before, written, refused, read, committed)
    };
    same(&rt, &first, &Ok(version(&rt, 1)));
    same(&rt, &before, &Ok(5));
    same(&rt, &written, &Ok(()));
    let spent = Stop::Spent {
        version: version(&rt, 1),
    };
    same(&rt, &refused, &Err(spent));
    same(&rt, &read, &Ok(5));
    same(&rt, &committed, &Ok(version(&rt, 1)));
    Ok(())
}

#[test]
fn two_words_of_one_stripe(rt: HostRuntime) -> Result<(), Fail> {
    let alloc = rt.alloc();
    let (stops, first, refused, met, read, second) = {
        let (region, mut a) = Region::<FreeLaw>::new(alloc, &[0; 32], 100, 4)?;
        let mut b = split(&rt, &region, &mut a);
        let mut logs_a = Logs::new(alloc);
        let mut logs_b = Logs::new(alloc);
        let mut reading = Attempt::begin(&region, &mut b, &mut logs_b);
        let mut writing = Attempt::begin(&region, &mut a, &mut logs_a);
        let one = writing.write(Addr(9), 1);
        let two = writing.write(Addr(13), 2);
        let three = writing.write(Addr(10), 3);
        let first = writing.commit(&1u64, &mut NoGate);
        let refused = reading.read(Addr(5));
        let met = reading.stopped();
        reading.abort();
        let mut writing = Attempt::begin(&region, &mut a, &mut logs_a);
        let read = writing.read(Addr(9));
        let four = writing.write(Addr(13), 4);
        let second = writing.commit(&2u64, &mut NoGate);
        let stops = [one.err(), two.err(), three.err(), four.err()];
        (stops, first, refused, met, read, second)
    };
    same(&rt, &stops, &[None; 4]);
    same(&rt, &first, &Ok(version(&rt, 1)));
    same(&rt, &refused, &Err(Refusal::Stopped));
    same(&rt, &met, &Some(newer(&rt, 1)));
    same(&rt, &read, &Ok(1));
    same(&rt, &second, &Ok(version(&rt, 2)));
    Ok(())
}

/// Adds a number to each of 32 words in one attempt.
fn add_to_all(
    region: &Region<FreeLaw>,
    client: &mut Client<FreeLaw>,
    logs: &mut Logs,
    number: u64,
) -> Result<Version, Stop>
    requires own { client.old.table ≡ region.now.table }
    requires free { IsFreeHanded client.old.value }
    requires size { region.now.size ≡ 32 }
    ensures own { client.new.table ≡ client.old.table }
    ensures free { IsFreeHanded client.new.value }
{
    let mut attempt = Attempt::begin(region, client, logs);
    let mut refused = false;
    for i in 0..32u32 {
        let value = attempt.read(Addr(i)).unwrap_or(0);
        if attempt.write(Addr(i), value.wrapping_add(number)).is_err() {
            refused = true;
        }
    }
    if refused {
        attempt.abort();
        return Err(Stop::Memory);
    }
    attempt.commit(&1u64, &mut NoGate)
}

#[test]
fn thirty_two_words_share_four_stripes(rt: HostRuntime) -> Result<(), Fail> {
    let alloc = rt.alloc();
    let mut image = [0u64; 32];
    image[31] = 7;
    let (first, second, third, words, last) = {
        let (region, mut a) = Region::<FreeLaw>::new(alloc, &image, 100, 4)?;
        let mut b = split(&rt, &region, &mut a);
        let mut logs = Logs::new(alloc);
        let first = add_to_all(&region, &mut a, &mut logs, 1);
        let second = add_to_all(&region, &mut b, &mut logs, 10);
        let third = write_one(&region, &mut a, &mut logs, Addr(4), 5);
        region.gather(&mut a, b);
        let (words, last) = close(&rt, alloc, region, a);
        (first, second, third, words, last)
    };
    same(&rt, &first, &Ok(version(&rt, 1)));
    same(&rt, &second, &Ok(version(&rt, 2)));
    same(&rt, &third, &Ok(version(&rt, 3)));
    let mut expected = [11u64; 32];
    expected[4] = 5;
    expected[31] = 18;
    same(&rt, &words.as_slice(), &expected.as_slice());
    same(&rt, &last, &version(&rt, 3));
    Ok(())
}

#[test]
fn three_hundred_writes_in_one_commit(rt: HostRuntime) -> Result<(), Fail> {
    let alloc = rt.alloc();
    let (refused, committed, words, last) = {
        let (region, mut client) = Region::<FreeLaw>::new(alloc, &[0; 512], 100, 64)?;
        let mut logs = Logs::new(alloc);
        let mut attempt = Attempt::begin(&region, &mut client, &mut logs);
        let mut refused = 0;
        for i in 0..300u32 {
            if attempt.write(Addr(299 - i), u64::from(i) + 1).is_err() {
                refused = 1;
            }
        }
        let committed = attempt.commit(&1u64, &mut NoGate);
        let (words, last) = close(&rt, alloc, region, client);
        (refused, committed, words, last)
    };
    same(&rt, &refused, &0);
    same(&rt, &committed, &Ok(version(&rt, 1)));
    for (i, word) in words.iter().enumerate() {
        let expected = if i < 300 { 300 - i } else { 0 };
        same(&rt, word, &(expected as u64));
    }
    same(&rt, &last, &version(&rt, 1));
    Ok(())
}

#[test]
fn both_kinds_of_attempt_read_alike(rt: HostRuntime) -> Result<(), Fail> {
    let alloc = rt.alloc();
    let (written, logged, unlogged) = {
        let (region, mut client) = Region::<FreeLaw>::new(alloc, &[7; 32], 100, 4)?;
        let mut logs = Logs::new(alloc);
        let written = write_one(&region, &mut client, &mut logs, Addr(9), 5);
        let mut attempt = Attempt::begin(&region, &mut client, &mut logs);
        let logged = sum_of(&mut attempt, Addr(9), Addr(13));
        attempt.abort();
        let mut reader = ReadAttempt::begin(&region, &mut client);
        let unlogged = sum_of(&mut reader, Addr(9), Addr(13));
        reader.abort();
        (written, logged, unlogged)
    };
    same(&rt, &written, &Ok(version(&rt, 1)));
    same(&rt, &logged, &Ok(12));
    same(&rt, &unlogged, &Ok(12));
    Ok(())
}
