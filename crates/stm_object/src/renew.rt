//! The renewal of a shared object's clock.

ghost use Rattle.std.specs.Prelude.{◌≡◌, ◌+◌, IfOk, IfErr};
ghost use Rattle.stm_core.specs.Event.{renewing};
ghost use Rattle.stm_region.specs.Refused.{MayRenew};
ghost use Rattle.stm_object.specs.Renewed.{ClosesSomewhere, StaysUnrenewed};

use crate::object::Object;
use crate::shared::{Shared, User};
use stm_core::Version;
use stm_region::{RegionFault, RenewFault as RegionRenewFault};

/// The reason why a memory was not renewed.
#[derive(Drop)]
pub enum RenewFault<S: Object> {
    /// The renewal was refused for this reason; the memory and its user are as they were.
    Kept(Shared<S>, User<S>, RegionFault),
    /// Memory for the new words was refused after the old words had been taken out. The memory is
    /// closed, and these are its words and its clock.
    Closed(Vec<u64>, Version),
}

impl<S: Object> Shared<S> {
    /// Renews the memory once every other user was gathered: keeps its value and starts a new
    /// version clock, which ends at `last`. The user keeps its records, its grants and its own
    /// state.
    pub fn renew(self, user: User<S>, last: u64) -> Result<(Shared<S>, User<S>), RenewFault<S>>
        requires { user.table ≡ self.table }
        ensures region { IfOk result (λ r. r.0 ≡ record self {
          table = r.0.table;
          last = last;
          opening = r.0.opening;
          renewal = self.renewal + 1;
          start = renewing user.value;
        }) }
        ensures user { IfOk result (λ r. r.1
            ≡ record user { table = r.0.table; value = renewing user.value }) }
        ensures words { IfOk result (λ r. ClosesSomewhere S.is self user.value r.0.opening) }
        ensures refused { IfErr result (λ fault. StaysUnrenewed S.is self user last fault) }
        ensures ranges { IfOk result (λ _. MayRenew self.renewal last user.value.grants) }
    {
        let Shared { alloc, region } = self;
        let User {
            client,
            logs,
            pauses,
            own,
        } = user;
        match region.renew(alloc, client, last) {
            Ok((region, client)) => Ok((
                Shared { alloc, region },
                User {
                    client,
                    logs,
                    pauses,
                    own,
                },
            )),
            Err(RegionRenewFault::Kept(region, client, fault)) => Err(RenewFault::Kept(
                Shared { alloc, region },
                User {
                    client,
                    logs,
                    pauses,
                    own,
                },
                fault,
            )),
            Err(RegionRenewFault::Closed(words, last)) => Err(RenewFault::Closed(words, last)),
        }
    }
}
