//! The result of a commit if another client has committed since the attempt began.
ghost use Rattle.std.specs.Prelude.{◌≡◌, ◌<◌};
ghost use Rattle.stm_core.specs.Core.{IsFreeHanded};

use crate::attempts::{read_one, write_one};
use crate::same::{same, split, version};
use std::test::Fail;
use stm_attempt::{Attempt, Conflict, Logs, NoGate, Stop};
use stm_core::{FreeLaw, Version};
use stm_region::{Client, Region};
use tx_memory::{Addr, TxMem, TxRead};

/// Reads word 9 and writes a word, while the other client writes 1 to word 9.
fn write_beside_a_commit(
    region: &Region<FreeLaw>,
    client: &mut Client<FreeLaw>,
    other: &mut Client<FreeLaw>,
    logs: &mut Logs,
    others: &mut Logs,
    addr: Addr,
) -> Result<Result<Version, Stop>, Stop>
    requires own { (client.old.table ≡ region.now.table) × (other.old.table ≡ region.now.table) }
    requires free { IsFreeHanded client.old.value × IsFreeHanded other.old.value }
    requires range { (9 < region.now.size) × (addr.0 < region.now.size) }
    ensures own { (client.new.table ≡ client.old.table) × (other.new.table ≡ other.old.table) }
    ensures free { IsFreeHanded client.new.value × IsFreeHanded other.new.value }
{
    let mut attempt = Attempt::begin(region, client, logs);
    let read = attempt.read(Addr(9));
    let written = attempt.write(addr, 7);
    let between = write_one(region, other, others, Addr(9), 1);
    let committed = attempt.commit(&2u64, &mut NoGate);
    if read.is_err() || written.is_err() {
        return Err(Stop::Memory);
    }
    between?;
    Ok(committed)
}

/// The word that was read has a version above the read version, whether its lock is free or the
/// client's own.
#[test]
fn a_validation_meets_a_newer_version(rt: HostRuntime) -> Result<(), Fail> {
    let alloc = rt.alloc();
    let (free, own, nine, ten, after) = {
        let (region, mut a) = Region::<FreeLaw>::new(alloc, &[0; 32], 100, 32)?;
        let mut b = split(&rt, &region, &mut a);
        let mut logs_a = Logs::new(alloc);
        let mut logs_b = Logs::new(alloc);
        (
            write_beside_a_commit(&region, &mut a, &mut b, &mut logs_a, &mut logs_b, Addr(10)),
            write_beside_a_commit(&region, &mut a, &mut b, &mut logs_a, &mut logs_b, Addr(9)),
            read_one(&region, &mut a, &mut logs_a, Addr(9)),
            read_one(&region, &mut a, &mut logs_a, Addr(10)),
            write_one(&region, &mut a, &mut logs_a, Addr(10), 8),
        )
    };
    let newer = Conflict::Newer {
        lock: 9,
        version: version(&rt, 1),
        rv: version(&rt, 0),
    };
    same(&rt, &free, &Ok(Err(Stop::Conflict(newer))));
    let newer = Conflict::Newer {
        lock: 9,
        version: version(&rt, 3),
        rv: version(&rt, 2),
    };
    same(&rt, &own, &Ok(Err(Stop::Conflict(newer))));
    same(&rt, &nine, &Ok(1));
    same(&rt, &ten, &Ok(0));
    same(&rt, &after, &Ok(version(&rt, 5)));
    Ok(())
}

/// The other client has made the last version, which the first tick finds; no validation follows.
#[test]
fn a_lost_tick_finds_the_clock_spent(rt: HostRuntime) -> Result<(), Fail> {
    let alloc = rt.alloc();
    let (committed, ten, nine) = {
        let (region, mut a) = Region::<FreeLaw>::new(alloc, &[0; 32], 1, 32)?;
        let mut b = split(&rt, &region, &mut a);
        let mut logs_a = Logs::new(alloc);
        let mut logs_b = Logs::new(alloc);
        (
            write_beside_a_commit(&region, &mut a, &mut b, &mut logs_a, &mut logs_b, Addr(10)),
            read_one(&region, &mut b, &mut logs_b, Addr(10)),
            read_one(&region, &mut a, &mut logs_a, Addr(9)),
        )
    };
    let spent = Stop::Spent {
        version: version(&rt, 1),
    };
    same(&rt, &committed, &Ok(Err(spent)));
    same(&rt, &ten, &Ok(0));
    same(&rt, &nine, &Ok(1));
    Ok(())
}
