//! The client of a region.

ghost use Rattle.std.specs.Prelude.{◌≡◌, ◌≤◌, []};
ghost use Rattle.stm_core.specs.Invariant.{Sorted};

use crate::limits::MOST_GRANTS;
use crate::version::as_version;
use crate::view::View;
use atomic_table::Seat;
use std::marker::{Model, PhantomData};
use stm_core::{Law, Version};

/// A client of a region: the right to make its steps. Contracts see the client's table and its
/// value: its running attempt, the locks that it holds and the records of its commits.
///
/// A client that is dropped without being gathered stays out for good: its region can then be
/// neither closed nor renewed, and a lock that it held stays held.
pub struct Client<L: Law> {
    pub(crate) seat: Seat<(), View>,
    pub(crate) grants: u64,
    /// The write version, 0 for none.
    pub(crate) version: Version,
    pub(crate) law: PhantomData<L>,
}

impl<L: Law> Model for Client<L> {
    ghost use Rattle.std.specs.Prelude.{◌≡◌, ◌≤◌, ◌<◌, []};
    ghost use Rattle.stm_core.specs.Invariant.{Sorted};
    ghost use Rattle.stm_region.specs.Shown.{ClientShown};
    ghost use Rattle.stm_region.specs.declared.limits.TheConstants.{MOST_GRANTS};

    ghost Value = { ClientShown };

    ghost view = { λ c. record { table = c.seat.table_id; value = c.seat.me.0 } };

    ghost invariant = { λ c.
        (c.seat.me.1 ≡ [])
        × (c.grants ≡ c.seat.me.0.grants) × (c.grants ≤ MOST_GRANTS)
        × (c.version ≡ c.seat.me.0.attempt.wv)
        × Sorted c.seat.me.0.records };
}

impl<L: Law> Client<L> {
    /// Returns a client that has made no step, with this many grants.
    pub(crate) fn of_seat(seat: Seat<(), View>, grants: u64) -> Client<L>
        requires none { (seat.me.1 ≡ []) × (seat.me.0.attempt.wv ≡ 0) }
        requires grants { (grants ≡ seat.me.0.grants) × (grants ≤ MOST_GRANTS) }
        requires sorted { Sorted seat.me.0.records }
        ensures { result ≡ record { table = seat.table_id; value = seat.me.0 } }
    {
        Client {
            seat,
            grants,
            version: as_version(0),
            law: PhantomData,
        }
    }

    /// Returns the seat and the number of grants.
    pub(crate) fn into_parts(self) -> (Seat<(), View>, u64)
        ensures seat { (result.0.table_id ≡ self.table) × (result.0.me ≡ (self.value, [])) }
        ensures grants { (result.1 ≡ self.value.grants) × (result.1 ≤ MOST_GRANTS) }
        ensures sorted { Sorted self.value.records }
    {
        let Self {
            seat,
            grants,
            version: _,
            law: _,
        } = self;
        (seat, grants)
    }
}

impl<L: Law> Drop for Client<L> {
    fn drop(self) {
        let Self {
            seat,
            grants: _,
            version: _,
            law: _,
        } = self;
        drop(seat);
    }
}
