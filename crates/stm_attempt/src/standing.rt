//! Proof data on an attempt's reads.
ghost use Rattle.std.specs.Prelude.{◌≡◌};
ghost use Rattle.stm_region.specs.Findings.{StandsOn};

use std::alloc::Allocator;
use std::snapshot::Snapshot;
use stm_core::Law;
use stm_region::{Client, Region};

/// The statement that some fitting image of this size agrees with the client's reads. The type has
/// no bytes. It exists because a ghost field of the attempt itself cannot speak of the law, since
/// the attempt refers to a region.
#[derive(Drop)]
pub(crate) struct ConsistentReads<L: Law> {
    pub(crate) size: Snapshot<usize>,
    pub(crate) client: Snapshot<Client<L>>,
    ghost stands: { ∥ StandsOn L.fits size.value client.value.value.attempt.reads ∥₁ },
}

impl<L: Law> ConsistentReads<L> {
    #[inline]
    pub(crate) fn of<R: Allocator>(region: &Region<L, R>, client: &Client<L>) -> ConsistentReads<L>
        requires { StandsOn L.fits region.now.size client.now.value.attempt.reads }
        ensures size { result.size.value ≡ region.now.size }
        ensures client { result.client.value ≡ client.now }
    {
        ConsistentReads {
            size: Snapshot::of(&region.size()),
            client: Snapshot::of(client),
        }
    }
}
