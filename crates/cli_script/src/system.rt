//! A manager with its only client.

ghost use Rattle.std.specs.Prelude.{◌≡◌, true, IfOk, IfErr};
ghost use Rattle.vac_model.specs.State.{State};
ghost use Rattle.vac_model.specs.Ranges.{is_block_count};
ghost use Rattle.vac_manager.specs.Called.{HasAllGrants};
ghost use Rattle.vac_manager.specs.Law.{Shows};
ghost use Rattle.vac_manager.specs.Legal.{IsHistoryTo};
ghost use Rattle.vac_lines.specs.declared.stream_fault.StreamFault.TheVariants.{Memory};
ghost use Rattle.cli_script.specs.System.{OpensAlone};

use std::alloc::Global;
use stm_region::{RegionFault, VERSION_LIMIT};
use vac_lines::StreamFault;
use vac_manager::{Client, Fault, Manager};

/// Last version of the clock: the largest one there is.
pub(crate) const LAST_VERSION: u64 = VERSION_LIMIT - 1;

/// Opens a manager without entries, with its one client.
pub(crate) fn open(alloc: Global, blocks: u32) -> Result<(Manager, Client), StreamFault>
    requires { is_block_count blocks ≡ true }
    ensures opened { IfOk result (λ r.
        OpensAlone blocks (record { shared = r.0; user = r.1 })) }
    ensures memory { IfErr result (λ fault. fault ≡ Memory) }
{
    match Manager::new(alloc, blocks, LAST_VERSION) {
        Ok(opened) => Ok(opened),
        Err(fault) => {
            prove!(fault == Fault::Memory);
            Err(StreamFault::Memory)
        }
    }
}

/// Closes a manager with its one client, and returns the words of its memory. Fails only if memory
/// is refused.
pub(crate) fn close(manager: Manager, client: Client) -> Result<Vec<u64>, StreamFault>
    requires own { client.table ≡ manager.table }
    requires alone { HasAllGrants client.value }
    ensures words { IfOk result (λ words. (s : State)
        → IsHistoryTo manager client.value.records s → Shows words.items s) }
    ensures memory { IfErr result (λ fault. fault ≡ Memory) }
{
    match manager.close(client) {
        Ok((words, _version)) => Ok(words),
        Err((_, _, fault)) => {
            prove!(fault == RegionFault::Memory);
            Err(StreamFault::Memory)
        }
    }
}
