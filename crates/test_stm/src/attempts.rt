//! Attempts with one read or one write, for the other tests.
ghost use Rattle.std.specs.Prelude.{◌≡◌, ◌<◌, IfOk};
ghost use Rattle.stm_core.specs.Core.{IsFreeHanded};

use stm_attempt::{Attempt, Logs, NoGate, Refusal, Stop};
use stm_core::{FreeLaw, Version};
use stm_region::{Client, Region};
use tx_memory::{Addr, TxMem, TxRead};

/// Writes a word in one attempt. Its client then knows the version that the attempt returns, and
/// no later one.
pub(crate) fn write_one(
    region: &Region<FreeLaw>,
    client: &mut Client<FreeLaw>,
    logs: &mut Logs,
    addr: Addr,
    value: u64,
) -> Result<Version, Stop>
    requires own { client.old.table ≡ region.now.table }
    requires free { IsFreeHanded client.old.value }
    requires range { addr.0 < region.now.size }
    ensures own { client.new.table ≡ client.old.table }
    ensures free { IsFreeHanded client.new.value }
    ensures version { IfOk result (λ version. client.new.value.floor ≡ version) }
{
    let mut attempt = Attempt::begin(region, client, logs);
    match attempt.write(addr, value) {
        Ok(()) => attempt.commit(&1u64, &mut NoGate),
        Err(_) => {
            attempt.abort();
            Err(Stop::Memory)
        }
    }
}

/// Reads a word in one attempt.
pub(crate) fn read_one(
    region: &Region<FreeLaw>,
    client: &mut Client<FreeLaw>,
    logs: &mut Logs,
    addr: Addr,
) -> Result<u64, Refusal>
    requires own { client.old.table ≡ region.now.table }
    requires free { IsFreeHanded client.old.value }
    requires range { addr.0 < region.now.size }
    ensures own { client.new.table ≡ client.old.table }
    ensures free { IsFreeHanded client.new.value }
{
    let mut attempt = Attempt::begin(region, client, logs);
    let value = attempt.read(addr);
    attempt.abort();
    value
}
