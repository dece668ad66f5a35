//! Assertions on results, and regions that open and close, in functions of their own: a test
//! cannot leave early at an assertion.
ghost use Rattle.std.specs.Prelude.{◌≡◌, length};
ghost use Rattle.stm_core.specs.Core.{IsFreeHanded};

use std::alloc::Allocator;
use std::fmt::Debug;
use std::process::Abort;
use stm_core::FreeLaw;
use stm_region::{Client, Region, RegionFault, RenewFault};

pub(crate) fn same<T: PartialEq + Debug>(rt: &impl Abort, got: &T, want: &T) {
    assert_eq!(rt; *got, *want);
}

pub(crate) fn holds(rt: &impl Abort, said: bool) {
    assert!(rt; said);
}

/// Opens a region on these words. Returns the region and its first client.
pub(crate) fn open<A: Allocator + Copy>(
    rt: &impl Abort,
    alloc: A,
    image: &[u64],
    last: u64,
    stripes: u32,
) -> (Region<FreeLaw, A>, Client<FreeLaw>)
    ensures size { result.0.size ≡ length image.now }
    ensures own { result.1.table ≡ result.0.table }
    ensures free { IsFreeHanded result.1.value }
{
    let Ok(opened) = Region::<FreeLaw, A>::new(alloc, image, last, stripes) else {
        panic!(rt; "it was not opened")
    };
    opened
}

/// Splits another client off.
pub(crate) fn split<A: Allocator + Copy>(
    rt: &impl Abort,
    region: &Region<FreeLaw, A>,
    client: &mut Client<FreeLaw>,
) -> Client<FreeLaw>
    requires own { client.old.table ≡ region.now.table }
    requires free { IsFreeHanded client.old.value }
    ensures own { (client.new.table ≡ client.old.table) × (result.table ≡ client.old.table) }
    ensures free { IsFreeHanded client.new.value × IsFreeHanded result.value }
{
    let Ok(other) = region.split(client) else {
        panic!(rt; "it was not split")
    };
    other
}

/// Closes a region whose clients are all gathered. Returns its words and its clock.
pub(crate) fn close<A: Allocator + Copy>(
    rt: &impl Abort,
    alloc: A,
    region: Region<FreeLaw, A>,
    client: Client<FreeLaw>,
) -> (Vec<u64, A>, u64)
    requires own { client.table ≡ region.table }
    requires free { IsFreeHanded client.value }
{
    let Ok((words, version)) = region.close(alloc, client) else {
        panic!(rt; "it stayed open")
    };
    (words, version.get())
}

/// A region that a refusal left open, its client, and the refusal.
pub(crate) type Left<A> = (Region<FreeLaw, A>, Client<FreeLaw>, RegionFault);

/// Tries to close a region with clients out. Returns the region, the client and the refusal.
pub(crate) fn stays_open<A: Allocator + Copy>(
    rt: &impl Abort,
    alloc: A,
    region: Region<FreeLaw, A>,
    client: Client<FreeLaw>,
) -> Left<A>
    requires own { client.table ≡ region.table }
    requires free { IsFreeHanded client.value }
    ensures region { result.0 ≡ region }
    ensures client { result.1 ≡ client }
{
    let Err(left) = region.close(alloc, client) else {
        panic!(rt; "it closed with clients out")
    };
    left
}

/// Renews the clock of a region.
pub(crate) fn renewed<A: Allocator + Copy>(
    rt: &impl Abort,
    alloc: A,
    region: Region<FreeLaw, A>,
    client: Client<FreeLaw>,
    last: u64,
) -> (Region<FreeLaw, A>, Client<FreeLaw>)
    requires own { client.table ≡ region.table }
    requires free { IsFreeHanded client.value }
    ensures size { result.0.size ≡ region.size }
    ensures own { result.1.table ≡ result.0.table }
    ensures free { IsFreeHanded result.1.value }
{
    let Ok(renewed) = region.renew(alloc, client, last) else {
        panic!(rt; "it was not renewed")
    };
    renewed
}

/// Tries a renewal that is refused. Returns the region and the client as they were, and the
/// refusal.
pub(crate) fn stays_old<A: Allocator + Copy>(
    rt: &impl Abort,
    alloc: A,
    region: Region<FreeLaw, A>,
    client: Client<FreeLaw>,
    last: u64,
) -> Left<A>
    requires own { client.table ≡ region.table }
    requires free { IsFreeHanded client.value }
    ensures region { result.0 ≡ region }
    ensures client { result.1 ≡ client }
{
    let Err(RenewFault::Kept(region, client, fault)) = region.renew(alloc, client, last) else {
        panic!(rt; "it was renewed")
    };
    (region, client, fault)
}
