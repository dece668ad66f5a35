//! The renewal of a manager's clock.

ghost use Rattle.std.specs.Prelude.{◌≡◌, IfOk, IfErr};
ghost use Rattle.vac_manager.specs.Renewed.{Renews, StaysUnrenewed};

use crate::client::Client;
use crate::manager::Manager;
use stm_core::Version;
use stm_object::RenewFault as ObjectRenewFault;
use stm_region::RegionFault;

/// The reason why a manager was not renewed.
#[derive(Drop)]
pub enum RenewFault {
    /// The renewal was refused for this reason; the manager and its client are as they were.
    Kept(Manager, Client, RegionFault),
    /// Memory for the new words was refused after the old words had been taken out. The manager is
    /// closed, and these are its words and its clock.
    Closed(Vec<u64>, Version),
}

impl Manager {
    /// Renews the manager once every other client was gathered: keeps its entries and starts a new
    /// version clock, which ends at `last`. The client keeps its records, its grants and its free
    /// lists.
    pub fn renew(self, client: Client, last: u64) -> Result<(Manager, Client), RenewFault>
        requires { client.table ≡ self.table }
        ensures renewed { IfOk result (λ r. Renews last self client r.0 r.1) }
        ensures refused { IfErr result (λ fault. StaysUnrenewed self client last fault) }
    {
        let Manager { shared } = self;
        match shared.renew(client, last) {
            Ok((shared, client)) => Ok((Manager { shared }, client)),
            Err(ObjectRenewFault::Kept(shared, client, fault)) => {
                Err(RenewFault::Kept(Manager { shared }, client, fault))
            }
            Err(ObjectRenewFault::Closed(words, last)) => Err(RenewFault::Closed(words, last)),
        }
    }
}
