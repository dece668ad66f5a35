//! A memory for many users at once, with transactions over an object.

ghost use Rattle.std.specs.Prelude.{◌≡◌, IfOk, IfErr, length};
ghost use Rattle.stm_core.specs.Event.{opener};
ghost use Rattle.stm_region.specs.Shown.{opened_on};
ghost use Rattle.stm_region.specs.Refused.{RefusesClose, IsLast, RefusesOpening};
ghost use Rattle.stm_object.specs.Object.{IsBeginning};
ghost use Rattle.stm_object.specs.History.{Closes, IsAlone, answer_in};

use crate::object::{Object, ObjectLaw};
use crate::pauses::Pauses;
use crate::place::CommitPosition;
use std::alloc::Global;
use std::marker::Model;
use stm_attempt::{Logs, Stop};
use stm_core::Version;
use stm_region::{Client, Region, RegionFault};

/// A memory of an object, used by many users at once. Contracts see its region.
#[derive(Drop)]
pub struct Shared<S: Object> {
    pub(crate) alloc: Global,
    pub(crate) region: Region<ObjectLaw<S>>,
}

impl<S: Object> Model for Shared<S> {
    ghost use Rattle.stm_region.specs.Shown.{RegionShown};
    ghost use Rattle.stm_object.specs.History.{IsOpened};

    ghost Value = { RegionShown };

    ghost view = { λ b. b.region };

    ghost invariant = { λ b. IsOpened S.is b.region };
}

/// A user: the right to use the memory, from one thread at a time. Between calls a user holds no
/// lock.
///
/// A user that is dropped without being gathered stays out for good. Its memory can then be
/// neither closed nor renewed.
#[derive(Drop)]
pub struct User<S: Object> {
    pub(crate) client: Client<ObjectLaw<S>>,
    pub(crate) logs: Logs,
    pub(crate) pauses: Pauses,
    pub(crate) own: S::UserState,
}

impl<S: Object> Model for User<S> {
    ghost use Rattle.stm_core.specs.Core.{IsFreeHanded};
    ghost use Rattle.stm_object.specs.Callers.{UserShown};
    ghost use Rattle.stm_object.specs.History.{IsUnplaced};

    ghost Value = { UserShown S.UserState };

    ghost view = { λ t. record { table = t.client.table; value = t.client.value; own = t.own } };

    ghost invariant = { λ t. IsFreeHanded t.client.value × IsUnplaced t.client.value };
}

/// Returns the answer of a call without the commit position of its record.
pub(crate) fn answer_of<A: Drop>(placed: Result<(A, CommitPosition), Stop>) -> Result<A, Stop>
    ensures { result ≡ answer_in placed }
{
    match placed {
        Ok((answer, _place)) => Ok(answer),
        Err(stop) => Err(stop),
    }
}

impl<S: Object> Shared<S> {
    /// Opens a memory on these words, and returns the memory and its first user, which keeps the
    /// state `own`. The version clock ends at `last`.
    pub fn new(
        alloc: Global,
        words: &[u64],
        last: u64,
        stripes: u32,
        own: S::UserState,
    ) -> Result<(Shared<S>, User<S>), RegionFault>
        requires size { S.is.IsSize (length words.now) }
        requires begins { IsBeginning S.is words.now }
        ensures region { IfOk result (λ r.
            r.0 ≡ opened_on r.0.table words.now last stripes) }
        ensures user { IfOk result (λ r.
            r.1 ≡ record { table = r.0.table; value = opener; own = own }) }
        ensures range { IfOk result (λ _. IsLast last) }
        ensures refused { IfErr result (λ fault. RefusesOpening
            (length words.now) last stripes fault) }
    {
        let (region, client) = Region::new(alloc, words, last, stripes)?;
        let user = User {
            client,
            logs: Logs::new(alloc),
            pauses: Pauses::new(0),
            own,
        };
        Ok((Shared { alloc, region }, user))
    }

    /// Closes the memory once every other user was gathered, and returns its words and its clock.
    pub fn close(
        self,
        user: User<S>,
    ) -> Result<(Vec<u64>, Version), (Shared<S>, User<S>, RegionFault)>
        requires { user.table ≡ self.table }
        ensures closes { IfOk result (λ r. Closes S.is self user.value r.0.items r.1) }
        ensures alone { IfOk result (λ _. IsAlone user.value) }
        ensures kept { IfErr result
            (λ r. (r.0 ≡ self) × (r.1 ≡ user) × RefusesClose user.value.grants r.2) }
    {
        let Shared { alloc, region } = self;
        let User {
            client,
            logs,
            pauses,
            own,
        } = user;
        match region.close(alloc, client) {
            Ok(closed) => Ok(closed),
            Err((region, client, fault)) => Err((
                Shared { alloc, region },
                User {
                    client,
                    logs,
                    pauses,
                    own,
                },
                fault,
            )),
        }
    }
}
