//! One attempt of a transaction.

ghost use Rattle.std.specs.Prelude.{◌≡◌, true, false};
ghost use Rattle.stm_object.specs.History.{MayAttempt, AttemptedOnce};
ghost use Rattle.stm_object.specs.Object.{IsFitting};
ghost use Rattle.stm_object.specs.Tracing.{HasTracedOne, conflict_in};

use crate::body::{Body, EntryTag};
use crate::object::{Object, ObjectLaw};
use crate::place::CommitPosition;
use crate::tracer::Tracer;
use std::marker::PhantomData;
use stm_attempt::{Attempt, Gate, Logs, Point, ReadAttempt, Stop};
use stm_region::{Client, Region};

/// Makes one attempt of a transaction that only reads. The attempt keeps no log, and aborts only
/// on a conflict.
#[inline(always)]
pub(crate) fn try_reading<S: Object, B: Body<S>, G: Gate, T: Tracer>(
    region: &Region<ObjectLaw<S>>,
    client: &mut Client<ObjectLaw<S>>,
    body: &B,
    gate: &mut G,
    tracer: &mut T,
) -> Result<(B::Answer, CommitPosition), Stop>
    requires may { MayAttempt S.is region.now client.old }
    requires reads { B.reads body.now ≡ true }
    ensures own { client.new.table ≡ client.old.table }
    ensures tried { AttemptedOnce S.is region.now (λ a. B.entry_of body.now a)
        (λ a. B.changes body.now a) true result client.old.value client.new.value }
    ensures traced { HasTracedOne (IsFitting S.is) region.now result client.old.value
        client.new.value (T.latest tracer.old) (T.latest tracer.new)
        (T.ended tracer.old) (T.ended tracer.new) }
    ensures frame { T.frame tracer.new ≡ T.frame tracer.old }
    ensures tallied { T.tally tracer.new ≡ T.more (conflict_in result) (T.tally tracer.old) }
{
    tracer.prepare();
    let renewal = region.renewal();
    let mut attempt = ReadAttempt::begin(region, client);
    let began = attempt.read_version();
    tracer.begun(renewal, began);
    let answer = tracer.read(&mut attempt, body);
    if let Some(met) = attempt.stopped() {
        attempt.abort();
        let stop = Stop::Conflict(met);
        tracer.give_up(&stop);
        return Err(stop);
    }
    let Ok(found) = answer else {
        unreachable!();
    };
    gate.at(Point::ReadsDone);
    let told = EntryTag {
        body,
        answer: &found,
        of: PhantomData,
    };
    let version = attempt.finish(&told);
    let place = CommitPosition {
        renewal,
        version,
        wrote: false,
    };
    tracer.commit(&place);
    Ok((found, place))
}

/// Makes one attempt of a transaction that may write.
#[inline(always)]
pub(crate) fn try_writing<S: Object, B: Body<S>, G: Gate, T: Tracer>(
    region: &Region<ObjectLaw<S>>,
    client: &mut Client<ObjectLaw<S>>,
    logs: &mut Logs,
    body: &B,
    gate: &mut G,
    tracer: &mut T,
) -> Result<(B::Answer, CommitPosition), Stop>
    requires may { MayAttempt S.is region.now client.old }
    requires writes { B.reads body.now ≡ false }
    ensures own { client.new.table ≡ client.old.table }
    ensures tried { AttemptedOnce S.is region.now (λ a. B.entry_of body.now a)
        (λ a. B.changes body.now a) false result client.old.value client.new.value }
    ensures traced { HasTracedOne (IsFitting S.is) region.now result client.old.value
        client.new.value (T.latest tracer.old) (T.latest tracer.new)
        (T.ended tracer.old) (T.ended tracer.new) }
    ensures frame { T.frame tracer.new ≡ T.frame tracer.old }
    ensures tallied { T.tally tracer.new ≡ T.more (conflict_in result) (T.tally tracer.old) }
{
    tracer.prepare();
    let renewal = region.renewal();
    let mut attempt = Attempt::begin(region, client, logs);
    let began = attempt.read_version();
    tracer.begun(renewal, began);
    let answer = tracer.run(&mut attempt, body);
    if let Some(met) = attempt.stopped() {
        attempt.abort();
        let stop = Stop::Conflict(met);
        tracer.give_up(&stop);
        return Err(stop);
    }
    let Ok(found) = answer else {
        attempt.abort();
        tracer.give_up(&Stop::Memory);
        return Err(Stop::Memory);
    };
    let told = EntryTag {
        body,
        answer: &found,
        of: PhantomData,
    };
    match attempt.commit(&told, gate) {
        Ok(version) => {
            let place = CommitPosition {
                renewal,
                version,
                wrote: version.get() > began.get(),
            };
            tracer.commit(&place);
            Ok((found, place))
        }
        Err(stop) => {
            tracer.give_up(&stop);
            Err(stop)
        }
    }
}
