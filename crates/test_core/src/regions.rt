//! Regions that open, split, close and write single words, one client at a time and in threads.
ghost use Rattle.std.specs.Prelude.{◌≡◌, ◌<◌, IfOk, false};
ghost use Rattle.stm_core.specs.Core.{IsFreeHanded};

use crate::same::{close, open, same, split, stays_open};
use std::alloc::{AllocError, Global};
use std::process::Abort;
use std::test::Fail;
use std::thread;
use stm_core::FreeLaw;
use stm_logs::WriteLog;
use stm_region::{
    Client, Region, RegionFault, gathering_keeps_all_grants, reads_are_of_one_version,
    records_are_serial, running_threads_are_a_list,
};
use tx_memory::Addr;

/// Returns the value that a read finds at an address, or `None` if a lock stops the read.
pub(crate) fn read_at(
    region: &Region<FreeLaw>,
    client: &mut Client<FreeLaw>,
    addr: Addr,
) -> Option<u64>
    requires own { client.old.table ≡ region.now.table }
    requires free { IsFreeHanded client.old.value }
    requires range { addr.0 < region.now.size }
    ensures own { client.new.table ≡ client.old.table }
    ensures free { IsFreeHanded client.new.value }
{
    let version = region.begin(client);
    let lock = region.lock_of(addr);
    let word = region.probe(client, lock);
    if word % 2 == 1 || word / 2 > version.get() {
        return None;
    }
    let value = region.fetch(client, addr);
    if region.check(client, addr, lock) != word {
        return None;
    }
    region.finish(client, &7u64);
    Some(value)
}

/// Writes a word without reading any, in one attempt. Returns whether the attempt committed.
pub(crate) fn write_at(
    alloc: Global,
    region: &Region<FreeLaw>,
    client: &mut Client<FreeLaw>,
    addr: Addr,
    value: u64,
) -> Result<bool, AllocError>
    requires own { client.old.table ≡ region.now.table }
    requires free { IsFreeHanded client.old.value }
    requires range { addr.0 < region.now.size }
    ensures own { client.new.table ≡ client.old.table }
    ensures free { IsFreeHanded client.new.value }
{
    let lock = region.lock_of(addr);
    let mut log = WriteLog::new(alloc);
    log.put(addr, lock, value)?;
    let from = region.begin(client);
    let probed = region.probe_to_lock(client, lock);
    if probed.word() % 2 == 1 {
        return Ok(false);
    }
    let Ok(()) = region.lock(probed) else {
        return Ok(false);
    };
    if from.get() == region.last().get() {
        region.give_back(client, lock);
        return Ok(false);
    }
    let Ok(_version) = region.tick(client, from, &1u64, &log) else {
        region.give_back(client, lock);
        return Ok(false);
    };
    region.put(client, addr, value);
    region.release(client, lock);
    Ok(true)
}

/// As `write_at`, but panics if memory is refused.
pub(crate) fn writes(
    rt: &impl Abort,
    alloc: Global,
    region: &Region<FreeLaw>,
    client: &mut Client<FreeLaw>,
    addr: Addr,
    value: u64,
) -> bool
    requires own { client.old.table ≡ region.now.table }
    requires free { IsFreeHanded client.old.value }
    requires range { addr.0 < region.now.size }
    ensures own { client.new.table ≡ client.old.table }
    ensures free { IsFreeHanded client.new.value }
{
    let Ok(written) = write_at(alloc, region, client, addr, value) else {
        panic!(rt; "there is no memory")
    };
    written
}

/// Returns the reason why a region does not open.
fn refused(alloc: Global, image: &[u64], last: u64, stripes: u32) -> Option<RegionFault> {
    match Region::<FreeLaw>::new(alloc, image, last, stripes) {
        Ok(_) => None,
        Err(fault) => Some(fault),
    }
}

#[test]
fn refuses_an_opening_in_order(rt: HostRuntime) -> Result<(), Fail> {
    let zeros = [0u64; 32];
    for (words, last, stripes, want) in [
        (0, 0, 0, RegionFault::Size),
        (32, 0, 0, RegionFault::Last),
        (32, 1 << 62, 0, RegionFault::Last),
        (32, 100, 0, RegionFault::Stripes),
        (32, 100, 1_048_577, RegionFault::Stripes),
    ] {
        let fault = refused(rt.alloc(), &zeros[..words], last, stripes);
        same(&rt, &fault, &Some(want));
    }
    Ok(())
}

/// Returns the reason why no client splits off.
fn stays_whole(region: &Region<FreeLaw>, client: &mut Client<FreeLaw>) -> Option<RegionFault>
    requires own { client.old.table ≡ region.now.table }
    requires free { IsFreeHanded client.old.value }
    ensures own { client.new.table ≡ client.old.table }
    ensures free { IsFreeHanded client.new.value }
{
    match region.split(client) {
        Ok(_) => None,
        Err(fault) => Some(fault),
    }
}

#[test]
fn sixty_three_clients_split_off(rt: HostRuntime) -> Result<(), Fail> {
    let (region, mut client) = open(&rt, rt.alloc(), &[0; 32], 100, 32);
    for _ in 0..63 {
        let _ = split(&rt, &region, &mut client);
    }
    let refused = stays_whole(&region, &mut client);
    let (_, _, fault) = stays_open(&rt, rt.alloc(), region, client);
    same(&rt, &refused, &Some(RegionFault::Clients));
    same(&rt, &fault, &RegionFault::StillOut { out: 63 });
    Ok(())
}

#[test]
fn closes_once_all_are_gathered(rt: HostRuntime) -> Result<(), Fail> {
    records_are_serial::<FreeLaw>();
    reads_are_of_one_version::<FreeLaw>();
    gathering_keeps_all_grants::<FreeLaw>();
    running_threads_are_a_list::<FreeLaw>();
    let (region, mut client) = open(&rt, rt.alloc(), &[0; 32], 100, 32);
    let (last, lock) = (region.last().get(), region.lock_of(Addr(9)));
    let nine = read_at(&region, &mut client, Addr(9));
    let other = split(&rt, &region, &mut client);
    let (region, mut client, fault) = stays_open(&rt, rt.alloc(), region, client);
    region.gather(&mut client, other);
    let end = read_at(&region, &mut client, Addr(31));
    let (words, version) = close(&rt, rt.alloc(), region, client);
    same(&rt, &last, &100);
    same(&rt, &lock, &9);
    same(&rt, &[nine, end], &[Some(0); 2]);
    same(&rt, &fault, &RegionFault::StillOut { out: 1 });
    same(&rt, &words.as_slice(), &[0u64; 32].as_slice());
    same(&rt, &version, &0);
    Ok(())
}

#[test]
fn a_spent_clock_ticks_no_more(rt: HostRuntime) -> Result<(), Fail> {
    let (region, mut client) = open(&rt, rt.alloc(), &[0; 32], 1, 32);
    let first = writes(&rt, rt.alloc(), &region, &mut client, Addr(9), 5);
    let (begun, last) = (region.begin(&mut client).get(), region.last().get());
    let read = read_at(&region, &mut client, Addr(9));
    let spent = writes(&rt, rt.alloc(), &region, &mut client, Addr(9), 6);
    let (words, version) = close(&rt, rt.alloc(), region, client);
    same(&rt, &[first, spent], &[true, false]);
    same(&rt, &begun, &last);
    same(&rt, &read, &Some(5));
    same(&rt, &words.get(9).copied(), &Some(5));
    same(&rt, &version, &1);
    Ok(())
}

/// Writes the address until an attempt commits. The number of attempts is bounded, so that the
/// loop ends.
fn write_until_done(
    alloc: Global,
    region: &Region<FreeLaw>,
    mut client: Client<FreeLaw>,
    addr: Addr,
    value: u64,
) -> Result<Client<FreeLaw>, AllocError>
    requires own { client.table ≡ region.now.table }
    requires free { IsFreeHanded client.value }
    requires range { addr.0 < region.now.size }
    ensures { IfOk result (λ c. (c.table ≡ region.now.table) × IsFreeHanded c.value) }
{
    for _ in 0..100_000_000 {
        if write_at(alloc, region, &mut client, addr, value)? {
            return Ok(client);
        }
    }
    Ok(client)
}

#[test]
fn two_threads_write_one_memory(rt: HostRuntime) -> Result<(), Fail> {
    let alloc = rt.alloc();
    let (region, mut client) = open(&rt, alloc, &[0; 8], 100, 4);
    let other = split(&rt, &region, &mut client);
    let shared = &region;
    let (first, second) = thread::join(
        &rt,
        move || -> Result<Client<FreeLaw>, AllocError>
            requires own { client.table ≡ shared.now.table }
            requires free { IsFreeHanded client.value }
            requires range { 5 < shared.now.size }
            ensures { IfOk result (λ c. (c.table ≡ shared.entry.now.table) × IsFreeHanded c.value) }
        { write_until_done(alloc, shared, client, Addr(5), 50) },
        move || -> Result<Client<FreeLaw>, AllocError>
            requires own { other.table ≡ shared.now.table }
            requires free { IsFreeHanded other.value }
            requires range { 1 < shared.now.size }
            ensures { IfOk result (λ c. (c.table ≡ shared.entry.now.table) × IsFreeHanded c.value) }
        { write_until_done(alloc, shared, other, Addr(1), 10) },
    );
    let mut client = first?;
    region.gather(&mut client, second?);
    let (words, version) = close(&rt, alloc, region, client);
    same(
        &rt,
        &words.as_slice(),
        &[0u64, 10, 0, 0, 0, 50, 0, 0].as_slice(),
    );
    same(&rt, &version, &2);
    Ok(())
}
