//! A ring.

ghost use Rattle.std.specs.Prelude.{◌≡◌, IfOk, IfErr, replicate};
ghost use Rattle.stm_core.specs.Event.{opener};
ghost use Rattle.stm_region.specs.Refused.{RefusesClose, IsLast, RefusesOpening};
ghost use Rattle.stm_region.specs.Shown.{opened_on};
ghost use Rattle.stm_object.specs.History.{IsAlone};
ghost use Rattle.ex_ring.specs.declared.law.TheConstants.{WORDS};
ghost use Rattle.ex_ring.specs.Turns.{ClosesInOrder, IsFifo, IsOwnTurn};

use crate::law::{RingObject, WORDS};
use std::alloc::Global;
use stm_core::Version;
use stm_object::{Caller, Shared, User};
use stm_region::RegionFault;

/// A ring, used by many users at once.
pub type Ring = Shared<RingObject>;

/// A user of a ring: the right to use the ring, from one thread at a time.
pub type RingUser = User<RingObject>;

/// A user of a ring together with the ring.
pub type RingCaller<'a> = Caller<'a, RingObject>;

/// Opens an empty ring, and returns the ring and its first user. The version clock ends at `last`,
/// 1 to 2^62 - 1.
#[tactic(auto, using(crate::proofs::Fifo::begins_empty))]
pub fn new_ring(alloc: Global, last: u64) -> Result<(Ring, RingUser), RegionFault>
    ensures region { IfOk result (λ r.
        r.0 ≡ opened_on r.0.table (replicate WORDS 0) last WORDS) }
    ensures first { IfOk result (λ r. r.0.first ≡ replicate WORDS 0) }
    ensures user { IfOk result (λ r.
        r.1 ≡ record { table = r.0.table; value = opener; own = tt }) }
    ensures range { IfOk result (λ _. IsLast last) }
    ensures refused { IfErr result (λ fault. RefusesOpening WORDS last WORDS fault) }
{
    let image = [0u64; WORDS as usize];
    Shared::new(alloc, &image, last, WORDS, ())
}

/// States that values leave the ring first in, first out. The law holds for the history of each
/// answer (`order` of its `call`), and for that of a closed ring.
#[tactic(auto, using(crate::proofs::Fifo::fifo))]
pub fn first_in_first_out()
    ensures { IsFifo }
{}

/// States that a solo user takes out the value that it put in, from the contracts of its two
/// calls.
pub fn lone_user_takes_its_own()
    ensures { IsOwnTurn }
{}

/// Closes a ring that was opened empty. The values put in are, in their order, the values taken
/// out followed by the values still in the ring.
#[tactic(auto, using(crate::proofs::Fifo::in_turn))]
pub fn close_ring(
    ring: Ring,
    user: RingUser,
) -> Result<(Vec<u64>, Version), (Ring, RingUser, RegionFault)>
    requires own { user.table ≡ ring.table }
    requires empty { ring.first ≡ replicate WORDS 0 }
    ensures closes { IfOk result (λ r. ClosesInOrder ring user.value r.0.items r.1) }
    ensures alone { IfOk result (λ _. IsAlone user.value) }
    ensures kept { IfErr result
        (λ r. (r.0 ≡ ring) × (r.1 ≡ user) × RefusesClose user.value.grants r.2) }
{
    ring.close(user)
}
