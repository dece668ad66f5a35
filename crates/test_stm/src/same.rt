//! Assertions on results, in functions of their own: a test cannot leave early at an assertion.
ghost use Rattle.std.specs.Prelude.{◌≡◌};
ghost use Rattle.stm_core.specs.Core.{IsFreeHanded};
ghost use Rattle.stm_region.specs.Shown.{HasSplit};

use std::alloc::Global;
use std::fmt::Debug;
use std::process::Abort;
use stm_core::{Law, Version};
use stm_region::{Client, Region};

pub(crate) fn same<T: PartialEq + Debug>(rt: &impl Abort, got: &T, want: &T) {
    assert_eq!(rt; *got, *want);
}

pub(crate) fn holds(rt: &impl Abort, said: bool) {
    assert!(rt; said);
}

pub(crate) fn version(rt: &impl Abort, number: u64) -> Version {
    let Some(version) = Version::new(number) else {
        panic!(rt; "it is no version")
    };
    version
}

/// Splits another client off.
pub(crate) fn split<L: Law>(
    rt: &impl Abort,
    region: &Region<L>,
    client: &mut Client<L>,
) -> Client<L>
    requires own { client.old.table ≡ region.now.table }
    requires free { IsFreeHanded client.old.value }
    ensures split { HasSplit client.old client.new result }
{
    let Ok(other) = region.split(client) else {
        panic!(rt; "it was not split")
    };
    other
}

/// Closes a region whose clients are all gathered. Returns its words and its clock.
pub(crate) fn close<L: Law>(
    rt: &impl Abort,
    alloc: Global,
    region: Region<L>,
    client: Client<L>,
) -> (Vec<u64>, Version)
    requires own { client.table ≡ region.table }
    requires free { IsFreeHanded client.value }
{
    let Ok(closed) = region.close(alloc, client) else {
        panic!(rt; "it stayed open")
    };
    closed
}
