//! The region: opening it, and splitting and gathering its clients.
ghost use Rattle.std.specs.Prelude.{◌≡◌, ◌+◌, ◌<◌, length, IfOk, IfErr};
ghost use Rattle.stm_region.specs.declared.fault.RegionFault.TheVariants.{Clients};
ghost use Rattle.std.specs.Prelude.{◌⊎◌};
ghost use Rattle.tx_memory.specs.Image.{In};
ghost use Rattle.stm_core.specs.Client.{Record};
ghost use Rattle.stm_core.specs.History.{Sub};
ghost use Rattle.stm_core.specs.Core.{IsFreeHanded};
ghost use Rattle.stm_core.specs.Event.{opener};
ghost use Rattle.stm_region.specs.Shown.{HasSplit, with_gathered, opened_on, opened_with};
ghost use Rattle.stm_core.specs.Guards.{stripe_of};
ghost use Rattle.stm_region.specs.Layout.{first_cell};
ghost use Rattle.stm_region.specs.Refused.{IsSize, IsLast, IsStripes, RefusesOpening};

use crate::client::Client;
use crate::fault::RegionFault;
use crate::layout::{first_cell, lay_out};
use crate::limits::{MOST_GRANTS, MOST_STRIPES, MOST_WORDS, VERSION_LIMIT};
use crate::moving::{Gives, Takes};
use crate::opening::{Opening, RegionRule};
use crate::version::as_version;
use crate::view::View;
use atomic_table::Table;
use std::alloc::{Allocator, Global};
use std::marker::Model;
use std::snapshot::Snapshot;
use stm_core::{Law, Version};
use tx_memory::Addr;

/// The shared words of a transactional memory. Contracts see the region's table, its size, and the
/// image, the last version and the number of lock words of its opening.
pub struct Region<L: Law, A: Allocator = Global> {
    pub(crate) table: Table<(), View, Opening<A>, RegionRule<L>, A>,
    pub(crate) size: usize,
    pub(crate) last: Version,
    pub(crate) stripes: u32,
    /// Number of lock words, as `stripes`. [`lock_of`](Region::lock_of) divides by this field and
    /// compares with the other one: with a single field the compiler keeps the number in a register
    /// over both, and a read takes an instruction more.
    pub(crate) divisor: u32,
    /// Index of the first data word.
    pub(crate) cells: usize,
    /// Number of renewals so far.
    pub(crate) renewal: u32,
}

impl<L: Law, A: Allocator> Model for Region<L, A> {
    ghost use Rattle.std.specs.Prelude.{◌≡◌};
    ghost use Rattle.stm_region.specs.Shown.{RegionShown, region_of};
    ghost use Rattle.stm_region.specs.Layout.{IsLaid};

    ghost Value = { RegionShown };

    ghost view = { λ r.
        region_of r.table.shared.table_id r.size r.last r.stripes r.table.shared.key };

    ghost invariant = { λ r.
        IsLaid r.table.shared.table_id.words r.table.shared.table_id.slots r.table.shared.key
        r.size r.last r.stripes r.cells r.renewal
        × (r.divisor ≡ r.stripes) };
}

impl<L: Law, A: Allocator> Region<L, A> {
    pub(crate) fn into_table(self) -> Table<(), View, Opening<A>, RegionRule<L>, A>
        ensures table { result.shared.table_id ≡ self.table }
        ensures words { result.shared.table_id.words ≡ first_cell self.stripes + self.size }
        ensures slots { result.shared.table_id.slots ≡ 0 }
        ensures key { result.shared.key ≡ opened_with self }
    {
        let Self {
            table,
            size: _,
            last: _,
            stripes: _,
            divisor: _,
            cells: _,
            renewal: _,
        } = self;
        table
    }
}

impl<L: Law, A: Allocator> Drop for Region<L, A> {
    fn drop(self) {
        drop(self.into_table());
    }
}

impl<L: Law, A: Allocator + Copy> Region<L, A> {
    /// Opens a region on an image, and returns the region with its first client. The clock and all
    /// lock words are 0. The client's floor is 0 and the client has all grants, so its first
    /// attempt begins at version 0.
    pub fn new(
        alloc: A,
        image: &[u64],
        last: u64,
        stripes: u32,
    ) -> Result<(Region<L, A>, Client<L>), RegionFault>
        requires { L.fits image.now }
        ensures region { IfOk result (λ r.
            r.0 ≡ opened_on r.0.table image.now last stripes) }
        ensures client { IfOk result (λ r. r.1 ≡ record { table = r.0.table; value = opener }) }
        ensures ranges { IfOk result (λ r.
            IsSize (length image.now) × IsLast last × IsStripes stripes) }
        ensures refused { IfErr result (λ fault. RefusesOpening
            (length image.now) last stripes fault) }
    {
        if image.is_empty() || image.len() > MOST_WORDS {
            return Err(RegionFault::Size);
        }
        if last == 0 || last >= VERSION_LIMIT {
            return Err(RegionFault::Last);
        }
        if stripes == 0 || stripes > MOST_STRIPES {
            return Err(RegionFault::Stripes);
        }
        let words = lay_out(alloc, image, stripes)?;
        let opening = Opening {
            words: Snapshot::of(&words),
            last,
            stripes,
            first: None,
            renewal: 0,
            start: None,
        };
        let (table, seat) = Table::of_words(alloc, words.as_slice(), &opening)?;
        let region = Region {
            table,
            size: image.len(),
            last: as_version(last),
            stripes,
            divisor: stripes,
            cells: first_cell(stripes),
            renewal: 0,
        };
        let client = Client::of_seat(seat, MOST_GRANTS);
        Ok((region, client))
    }
}

impl<L: Law, A: Allocator> Region<L, A> {
    /// Returns the number of data words.
    #[inline]
    pub fn size(&self) -> usize
        ensures { result ≡ self.now.size }
    {
        self.size
    }

    /// Returns the last version that the clock may reach.
    #[inline]
    pub fn last(&self) -> Version
        ensures { result ≡ self.now.last }
    {
        self.last
    }

    /// Returns the number of renewals of the region's clock.
    #[inline]
    pub fn renewal(&self) -> u32
        ensures { result ≡ self.now.renewal }
    {
        self.renewal
    }

    /// Returns the number of the lock that covers an address.
    #[inline]
    pub fn lock_of(&self, addr: Addr) -> u32
        requires { addr.0 < self.now.size }
        ensures value { result ≡ stripe_of self.now.stripes addr.0 }
        ensures range { result < self.now.stripes }
    {
        if addr.0 < self.stripes {
            addr.0
        } else {
            addr.0 % self.divisor
        }
    }

    /// Splits off a new client, which costs a grant.
    pub fn split(&self, client: &mut Client<L>) -> Result<Client<L>, RegionFault>
        requires own { client.old.table ≡ self.now.table }
        requires free_handed { IsFreeHanded client.old.value }
        ensures ok { IfOk result (λ other. HasSplit client.old client.new other) }
        ensures refused { IfErr result (λ fault.
            (fault ≡ Clients) × (client.old.value.grants ≡ 0) × (client.new ≡ client.old)) }
    {
        if client.grants == 0 {
            return Err(RegionFault::Clients);
        }
        let seat = self.table.shared.split_seat::<Gives>(&mut client.seat);
        client.grants -= 1;
        Ok(Client::of_seat(seat, 0))
    }

    /// Gathers another client: `client` gets the other's records, its grants and one grant more.
    ///
    /// Not said: that a client ever comes back; that no client gets more than 63 grants in this
    /// way, which is the law `gathering_keeps_all_grants` of two clients that are out in one
    /// state.
    pub fn gather(&self, client: &mut Client<L>, other: Client<L>)
        requires own { (client.old.table ≡ self.now.table) × (other.table ≡ self.now.table) }
        requires free_handed { IsFreeHanded client.old.value × IsFreeHanded other.value }
        ensures client { client.new
            ≡ record client.old { value = with_gathered client.old.value other.value } }
        ensures mine { Sub client.old.value.records client.new.value.records }
        ensures theirs { Sub other.value.records client.new.value.records }
        ensures only { (r : Record) → In r client.new.value.records →
            In r client.old.value.records ⊎ In r other.value.records }
    {
        let (seat, grants) = other.into_parts();
        self.table.shared.join_seat::<Takes>(&mut client.seat, seat);
        client.grants = (client.grants + grants + 1).min(MOST_GRANTS);
    }
}
