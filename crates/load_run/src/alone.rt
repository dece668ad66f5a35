//! Renewal and closing of a load's manager, between rounds and at the end.

ghost use Rattle.std.specs.Prelude.{◌≡◌, ◌<◌, true, IfOk, IfErr};
ghost use Rattle.vac_manager.specs.Legal.{AreVersioned};
ghost use Rattle.vac_manager.specs.Renewed.{ClosesSomewhere};
ghost use Rattle.load_tasks.specs.Setting.{is_settings};
ghost use Rattle.load_tasks.specs.declared.settings.TheConstants.{MOST_ROUNDS};
ghost use Rattle.load_run.specs.Alone.{IsAloneInRenewal, IsRenewed, caller_of};

use crate::load::LoadFault;
use load_tasks::Settings;
use stm_region::RegionFault;
use vac_manager::{Client, Manager, RenewFault};

/// Renews the clock. Fails only if memory is refused.
pub(crate) fn renewed(
    manager: Manager,
    client: Client,
    settings: &Settings,
) -> Result<(Manager, Client), LoadFault>
    requires alone { IsAloneInRenewal (caller_of manager client) }
    requires renewals { manager.renewal < MOST_ROUNDS }
    requires settings { is_settings settings.now ≡ true }
    ensures renewed { IfOk result (λ r. IsRenewed settings.now (caller_of manager client)
        (caller_of r.0 r.1)) }
    ensures refused { IfErr result (λ fault. fault ≡ LoadFault.Memory) }
{
    match manager.renew(client, settings.last) {
        Ok(renewed) => Ok(renewed),
        Err(RenewFault::Kept(_, _, fault)) => {
            prove!(fault == RegionFault::Memory);
            Err(LoadFault::Memory)
        }
        Err(RenewFault::Closed(..)) => Err(LoadFault::Memory),
    }
}

/// Closes the manager with its client, and returns its words. Fails only if memory is refused.
pub(crate) fn close(manager: Manager, client: Client) -> Result<Vec<u64>, LoadFault>
    requires alone { IsAloneInRenewal (caller_of manager client) }
    ensures closes { IfOk result (λ words. ClosesSomewhere manager client.value words.items) }
    ensures versioned { IfOk result (λ _. AreVersioned client.value.records) }
    ensures refused { IfErr result (λ fault. fault ≡ LoadFault.Memory) }
{
    match manager.close(client) {
        Ok((words, _)) => Ok(words),
        Err((_, _, fault)) => {
            prove!(fault == RegionFault::Memory);
            Err(LoadFault::Memory)
        }
    }
}
