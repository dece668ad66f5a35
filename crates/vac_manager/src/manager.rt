//! The manager over a region, called by many clients at once.

ghost use Rattle.std.specs.Prelude.{◌≡◌, ◌↔◌, ◌+◌, ◌*◌, ◌⊎◌, min, false, IfOk, IfErr, IsErrOf};
ghost use Rattle.stm_core.specs.declared.limits.TheConstants.{MOST_STRIPES};
ghost use Rattle.stm_region.specs.Refused.{RefusesClose};
ghost use Rattle.tx_alloc.specs.Pool.{heap_words};
ghost use Rattle.vac_manager.specs.Called.{HasAllGrants};
ghost use Rattle.vac_manager.specs.Opening.{is_opening, Opens, ClosesInState};

use crate::client::{Caller, Client, Lists};
use crate::fault::Fault;
use crate::law::Vacation;
use std::alloc::Global;
use std::marker::Model;
use stm_core::{VERSION_LIMIT, Version};
use stm_object::Shared;
use stm_region::{MOST_STRIPES, RegionFault};
use tx_alloc::place::{BLOCK_WORDS, FIRST_BLOCK};
use tx_alloc::{FreeList, spread_words};
use vac_model::limits::MOST_BLOCKS;

/// A manager that was not closed, with its client and the reason.
type Kept = (Manager, Client, RegionFault);

/// A manager of reservations, called by many clients at once. Contracts see its region.
#[derive(Drop)]
pub struct Manager {
    pub(crate) shared: Shared<Vacation>,
}

impl Model for Manager {
    ghost use Rattle.stm_region.specs.Shown.{RegionShown};
    ghost use Rattle.vac_manager.specs.Called.{IsOpened};

    ghost Value = { RegionShown };

    ghost view = { λ m. m.shared };

    ghost invariant = { λ m. IsOpened m.shared };
}

impl Manager {
    /// Returns a manager without entries, and its first client. The manager has room for `blocks`
    /// entries, 1 to 262,144. The version clock ends at `last`, 1 to 2^62 - 1. Each word has a
    /// lock word of its own, up to 1,048,576 lock words.
    pub fn new(alloc: Global, blocks: u32, last: u64) -> Result<(Manager, Client), Fault>
        ensures ok { IfOk result (λ r. Opens blocks last
            (min (heap_words blocks) MOST_STRIPES) r.0 r.1) }
        ensures arguments { IsErrOf result Fault.Arguments ↔ (is_opening blocks last 1 ≡ false) }
        ensures memory { IfErr result
            (λ fault. (fault ≡ Fault.Arguments) ⊎ (fault ≡ Fault.Memory)) }
    {
        if blocks == 0 || blocks > MOST_BLOCKS {
            return Err(Fault::Arguments);
        }
        let words = FIRST_BLOCK + BLOCK_WORDS * blocks;
        Self::with_stripes(alloc, blocks, last, words.min(MOST_STRIPES))
    }

    /// Returns a manager as `new` does, with this number of lock words, 1 to 1,048,576.
    pub fn with_stripes(
        alloc: Global,
        blocks: u32,
        last: u64,
        stripes: u32,
    ) -> Result<(Manager, Client), Fault>
        ensures ok { IfOk result (λ r. Opens blocks last stripes r.0 r.1) }
        ensures arguments { IsErrOf result Fault.Arguments
            ↔ (is_opening blocks last stripes ≡ false) }
        ensures memory { IfErr result
            (λ fault. (fault ≡ Fault.Arguments) ⊎ (fault ≡ Fault.Memory)) }
    {
        let blocks_fit = 1 <= blocks && blocks <= MOST_BLOCKS;
        let last_fits = 1 <= last && last < VERSION_LIMIT;
        let stripes_fit = 1 <= stripes && stripes <= MOST_STRIPES;
        if !(blocks_fit && last_fits && stripes_fit) {
            return Err(Fault::Arguments);
        }
        let Ok(words) = spread_words(alloc, blocks as usize) else {
            return Err(Fault::Memory);
        };
        let lists = Lists {
            start: FreeList::new(0),
            next: FreeList::new(1),
        };
        let Ok((shared, client)) = Shared::new(alloc, words.as_slice(), last, stripes, lists) else {
            return Err(Fault::Memory);
        };
        Ok((Manager { shared }, client))
    }

    /// Returns the caller that a client and this manager are together.
    pub fn caller(&self, client: Client) -> Caller<'_>
        requires own { client.table ≡ self.now.table }
        ensures { result ≡ record { shared = self.now; user = client } }
    {
        stm_object::Caller::of(&self.shared, client)
    }

    /// Closes the manager once every other client was gathered, and returns its words and its
    /// clock. If closing is refused, returns the manager and the client as they were, with the
    /// reason.
    pub fn close(self, client: Client) -> Result<(Vec<u64>, Version), Kept>
        requires { client.table ≡ self.table }
        ensures closes { IfOk result (λ r. ClosesInState self client.value r.0.items r.1) }
        ensures all { IfOk result (λ _. HasAllGrants client.value) }
        ensures kept { IfErr result
            (λ r. (r.0 ≡ self) × (r.1 ≡ client) × RefusesClose client.value.grants r.2) }
    {
        let Manager { shared } = self;
        match shared.close(client) {
            Ok(closed) => Ok(closed),
            Err((shared, client, fault)) => Err((Manager { shared }, client, fault)),
        }
    }
}
