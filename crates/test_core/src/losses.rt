//! The words that the steps of a client find if another client commits between them.
ghost use Rattle.std.specs.Prelude.{◌≡◌, ◌<◌};
ghost use Rattle.stm_core.specs.Core.{IsFreeHanded};

use crate::regions::{write_at, writes};
use crate::same::{close, open, same, split};
use std::alloc::{AllocError, Global};
use std::test::Fail;
use stm_core::FreeLaw;
use stm_logs::WriteLog;
use stm_region::{Client, Region};
use tx_memory::Addr;

/// Returns the two words that a read finds at its lock if another client writes the word between
/// the load of the value and the check. Returns `None` if the first word does not allow the read.
fn read_across(
    alloc: Global,
    region: &Region<FreeLaw>,
    client: &mut Client<FreeLaw>,
    other: &mut Client<FreeLaw>,
    addr: Addr,
) -> Result<Option<(u64, u64)>, AllocError>
    requires own { (client.old.table ≡ region.now.table) × (other.old.table ≡ region.now.table) }
    requires free { IsFreeHanded client.old.value × IsFreeHanded other.old.value }
    requires range { addr.0 < region.now.size }
    ensures own { (client.new.table ≡ client.old.table) × (other.new.table ≡ other.old.table) }
    ensures free { IsFreeHanded client.new.value × IsFreeHanded other.new.value }
{
    let version = region.begin(client);
    let lock = region.lock_of(addr);
    let first = region.probe(client, lock);
    if first % 2 == 1 || first / 2 > version.get() {
        return Ok(None);
    }
    let _value = region.fetch(client, addr);
    write_at(alloc, region, other, addr, 5)?;
    let second = region.check(client, addr, lock);
    Ok(Some((first, second)))
}

/// Returns the result of the exchange of a lock word if another client writes the word between the
/// probe and the exchange. Returns `None` if the probe does not allow the exchange.
fn lock_across(
    alloc: Global,
    region: &Region<FreeLaw>,
    client: &mut Client<FreeLaw>,
    other: &mut Client<FreeLaw>,
    addr: Addr,
) -> Result<Option<Result<(), u64>>, AllocError>
    requires own { (client.old.table ≡ region.now.table) × (other.old.table ≡ region.now.table) }
    requires free { IsFreeHanded client.old.value × IsFreeHanded other.old.value }
    requires range { addr.0 < region.now.size }
    ensures own { (client.new.table ≡ client.old.table) × (other.new.table ≡ other.old.table) }
    ensures free { IsFreeHanded client.new.value × IsFreeHanded other.new.value }
{
    let _version = region.begin(client);
    let lock = region.lock_of(addr);
    let probed = region.probe_to_lock(client, lock);
    if probed.word() % 2 == 1 {
        return Ok(None);
    }
    write_at(alloc, region, other, addr, 5)?;
    let found = region.lock(probed);
    if found.is_ok() {
        region.give_back(client, lock);
    }
    Ok(Some(found))
}

/// Returns the value that the exchange of the clock finds if another client, which writes another
/// word, exchanges the clock between the lock and the tick. Returns `None` if no tick is lost.
fn tick_across(
    alloc: Global,
    region: &Region<FreeLaw>,
    client: &mut Client<FreeLaw>,
    other: &mut Client<FreeLaw>,
    addr: Addr,
    others: Addr,
) -> Result<Option<u64>, AllocError>
    requires own { (client.old.table ≡ region.now.table) × (other.old.table ≡ region.now.table) }
    requires free { IsFreeHanded client.old.value × IsFreeHanded other.old.value }
    requires range { (addr.0 < region.now.size) × (others.0 < region.now.size) }
    ensures own { (client.new.table ≡ client.old.table) × (other.new.table ≡ other.old.table) }
    ensures free { IsFreeHanded client.new.value × IsFreeHanded other.new.value }
{
    let lock = region.lock_of(addr);
    let mut log = WriteLog::new(alloc);
    log.put(addr, lock, 7)?;
    let from = region.begin(client);
    let probed = region.probe_to_lock(client, lock);
    if probed.word() % 2 == 1 {
        return Ok(None);
    }
    let Ok(()) = region.lock(probed) else {
        return Ok(None);
    };
    let written = write_at(alloc, region, other, others, 5);
    if written != Ok(true) || from.get() == region.last().get() {
        region.give_back(client, lock);
        return Ok(None);
    }
    match region.tick(client, from, &1u64, &log) {
        Ok(_) => {
            region.put(client, addr, 7);
            region.release(client, lock);
            Ok(None)
        }
        Err(found) => {
            region.give_back(client, lock);
            Ok(Some(found.get()))
        }
    }
}

#[test]
fn steps_find_what_another_client_left(rt: HostRuntime) -> Result<(), Fail> {
    let alloc = rt.alloc();
    let (region, mut a) = open(&rt, alloc, &[0; 32], 100, 32);
    let mut b = split(&rt, &region, &mut a);
    let checked = read_across(alloc, &region, &mut a, &mut b, Addr(9))?;
    let locked = lock_across(alloc, &region, &mut a, &mut b, Addr(9))?;
    let ticked = tick_across(alloc, &region, &mut a, &mut b, Addr(10), Addr(9))?;
    let after = writes(&rt, alloc, &region, &mut a, Addr(10), 8);
    region.gather(&mut a, b);
    let (words, version) = close(&rt, alloc, region, a);
    same(&rt, &checked, &Some((0, 2)));
    same(&rt, &locked, &Some(Err(4)));
    same(&rt, &ticked, &Some(3));
    same(&rt, &after, &true);
    same(&rt, &words.get(9).copied(), &Some(5));
    same(&rt, &words.get(10).copied(), &Some(8));
    same(&rt, &version, &4);
    Ok(())
}
