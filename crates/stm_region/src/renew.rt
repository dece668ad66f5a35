//! The renewal of a region's clock.
ghost use Rattle.std.specs.Prelude.{◌≡◌, ◌+◌, ◌≤◌, [], vec_capacity, IfOk, IfErr};
ghost use Rattle.stm_core.specs.Core.{IsFreeHanded};
ghost use Rattle.stm_core.specs.Event.{renewing};
ghost use Rattle.stm_region.specs.Refused.{MayRenew, RefusesRenewal};
ghost use Rattle.stm_region.specs.Renewed.{EndsSomewhere, NotRenewed};

use crate::client::Client;
use crate::fault::RegionFault;
use crate::layout::{first_cell, lay_out};
use crate::limits::{MOST_GRANTS, MOST_RENEWALS, VERSION_LIMIT};
use crate::opening::Opening;
use crate::region::Region;
use crate::version::as_version;
use atomic_table::Table;
use boxcar::tag::{Names, Tag};
use std::alloc::{Allocator, Global};
use std::snapshot::Snapshot;
use stm_core::{Law, Version};

/// The reason why a region was not renewed.
#[derive(Drop)]
pub enum RenewFault<L: Law, A: Allocator = Global> {
    /// The region and its client are as they were before the call.
    Kept(Region<L, A>, Client<L>, RegionFault),
    /// Memory for the new words was refused after the old words were taken out. The region is
    /// closed; these are its data words and its clock.
    Closed(Vec<u64, A>, Version),
}

/// The words of a region's first opening, for the proof alone.
pub struct FirstWords;

impl<L: Law, A: Allocator> Names<Region<L, A>> for FirstWords {
    ghost numbers = { λ r. r.first };
}

impl<L: Law, A: Allocator> Region<L, A> {
    /// Reserves room for the words of a renewal, or returns the first reason against the renewal.
    fn room_to_renew(
        &self,
        alloc: A,
        client: &Client<L>,
        last: u64,
    ) -> Result<Vec<u64, A>, RegionFault>
        ensures room { IfOk result (λ words.
            (words.items ≡ []) × (self.now.size ≤ vec_capacity words)) }
        ensures ranges { IfOk result (λ _.
            MayRenew self.now.renewal last client.now.value.grants) }
        ensures refused { IfErr result (λ fault.
            RefusesRenewal self.now.renewal last client.now.value.grants fault) }
    {
        if last == 0 || last >= VERSION_LIMIT {
            return Err(RegionFault::Last);
        }
        if self.renewal >= MOST_RENEWALS {
            return Err(RegionFault::Renewals);
        }
        if client.grants != MOST_GRANTS {
            let out = MOST_GRANTS - client.grants;
            return Err(RegionFault::StillOut { out });
        }
        Ok(Vec::with_capacity(alloc, self.size)?)
    }
}

impl<L: Law, A: Allocator + Copy> Region<L, A> {
    /// Renews the clock, which may then reach the version `last`, and keeps the data words. Takes
    /// the words out and opens a region on them with the same number of lock words, if every other
    /// client was gathered. The client keeps its records and its grants. Its floor is 0 now, as
    /// the clock is, so its next attempt begins at version 0.
    pub fn renew(
        self,
        alloc: A,
        client: Client<L>,
        last: u64,
    ) -> Result<(Region<L, A>, Client<L>), RenewFault<L, A>>
        requires own { client.table ≡ self.table }
        requires free_handed { IsFreeHanded client.value }
        ensures region { IfOk result (λ r. r.0 ≡ record self {
          table = r.0.table;
          last = last;
          opening = r.0.opening;
          renewal = self.renewal + 1;
          start = renewing client.value;
        }) }
        ensures client { IfOk result (λ r. r.1
            ≡ record { table = r.0.table; value = renewing client.value }) }
        ensures words { IfOk result (λ r. EndsSomewhere L.lawful self client.value r.0.opening) }
        ensures refused { IfErr result (λ fault. NotRenewed L.lawful self client last fault) }
        ensures ranges { IfOk result (λ _. MayRenew self.renewal last client.value.grants) }
    {
        let mut words = match self.room_to_renew(alloc, &client, last) {
            Ok(words) => words,
            Err(fault) => return Err(RenewFault::Kept(self, client, fault)),
        };
        let first = Tag::of::<Region<L, A>, FirstWords>(&self);
        let start = Snapshot::of(&client.seat);
        let (stripes, renewal) = (self.stripes, self.renewal + 1);
        let version = self.take_out(client, &mut words);
        let Ok(laid) = lay_out(alloc, words.as_slice(), stripes) else {
            return Err(RenewFault::Closed(words, version));
        };
        let opening = Opening {
            words: Snapshot::of(&laid),
            last,
            stripes,
            first: Some(first),
            renewal,
            start: Some(start),
        };
        let Ok((table, seat)) = Table::of_words(alloc, laid.as_slice(), &opening) else {
            return Err(RenewFault::Closed(words, version));
        };
        let region = Region {
            table,
            size: words.len(),
            last: as_version(last),
            stripes,
            divisor: stripes,
            cells: first_cell(stripes),
            renewal,
        };
        Ok((region, Client::of_seat(seat, MOST_GRANTS)))
    }
}
