//! Callers: a user together with the memory that it calls.

ghost use Rattle.std.specs.Prelude.{◌≡◌, ◌≤◌, ◌⊎◌, ◌&&◌, IfOk, IfErr, is_some, nat_lt, true, false};
ghost use Rattle.tx_memory.specs.Image.{In};
ghost use Rattle.stm_core.specs.Client.{Record};
ghost use Rattle.stm_core.specs.History.{Sub};
ghost use Rattle.stm_object.specs.Callers.{GoesOn, IsAtRest, Splits, RefusesSplit, gathered};
ghost use Rattle.stm_object.specs.History.{ConflictWasShown, HasCalled, HasCalledAt};
ghost use Rattle.stm_object.specs.Object.{IsFitting};
ghost use Rattle.stm_object.specs.Tracing.{HasTraced, HasTallied, conflict_in};

use crate::attempts::{try_reading, try_writing};
use crate::body::{Body, Query, QueryBody, Update, UpdateBody};
use crate::object::{Object, UserState};
use crate::place::CommitPosition;
use crate::shared::{Shared, User, answer_of};
use crate::tracer::{Tracer, Untraced};
use std::marker::Model;
use stm_attempt::{Gate, Logs, NoGate, Stop};
use stm_region::RegionFault;

/// A user together with the memory that it calls. The type's invariant says that the two belong
/// together, so no method requires it. Contracts see both. A caller that is dropped without being
/// gathered leaves its user out for good.
#[derive(Drop)]
pub struct Caller<'a, S: Object> {
    shared: &'a Shared<S>,
    user: User<S>,
}

impl<'a, S: Object> Model for Caller<'a, S> {
    ghost use Rattle.stm_object.specs.Callers.{CallerShown, IsAtRest};

    ghost Value = { CallerShown S.UserState };

    ghost view = { λ y. record { shared = y.shared.now; user = y.user } };

    ghost invariant = { λ y. IsAtRest S.is (record { shared = y.shared.now; user = y.user }) };
}

/// Returns whether another attempt follows an attempt with this result, if the call may make
/// `left` more attempts.
#[inline]
fn is_tried_again<A>(ended: &Result<A, Stop>, left: u32) -> bool
    ensures { result ≡ (is_some (conflict_in ended.now) && nat_lt 0 left) }
{
    left > 0 && matches!(ended, Err(Stop::Conflict(_)))
}

impl<'a, S: Object> Caller<'a, S> {
    /// Returns the caller of a user with its memory.
    pub fn of(shared: &'a Shared<S>, user: User<S>) -> Caller<'a, S>
        requires own { user.table ≡ shared.now.table }
        ensures { result ≡ record { shared = shared.now; user = user } }
    {
        // Naming a field gives the proof the invariant of the field's type.
        let _ = &shared.region;
        let _ = &user.client;
        Caller { shared, user }
    }

    /// Ends the caller and returns its user.
    pub fn into_user(self) -> User<S>
        ensures user { result ≡ self.entry.user }
        ensures own { result.table ≡ self.entry.shared.table }
    {
        self.user
    }

    /// Returns the state that the user keeps for itself. The clause `at_rest` is the invariant of
    /// this type. It stands here because a proof in another crate has no other way to the
    /// invariant: there, a caller is known by its model alone.
    pub fn own(&self) -> &S::UserState
        ensures own { result.now ≡ self.now.user.own }
        ensures at_rest { IsAtRest S.is self.now }
    {
        &self.user.own
    }

    /// Runs an update as a transaction, in at most `tries` attempts. An update that stops with an
    /// error changes nothing.
    ///
    /// Not said: that a call answers; it may end with a conflict after its last attempt.
    pub fn run<U: Update<S>>(&mut self, update: &U, tries: u32) -> Result<U::Answer, Stop>
        requires tries { 1 ≤ tries }
        ensures caller { GoesOn self.old self.new }
        ensures call { HasCalled S.is self.old.shared (λ a. U.entry_of update.now a)
            (λ a. U.changes update.now a) false tries result
            self.old.user.value self.new.user.value }
    {
        let body = UpdateBody { update };
        answer_of(self.call(&body, tries, &mut NoGate, &mut Untraced))
    }

    /// Runs a query as a transaction, in at most `tries` attempts. Only a conflict stops the
    /// query.
    ///
    /// Not said: that a call answers; it may end with a conflict after its last attempt.
    pub fn ask<Q: Query<S>>(&mut self, query: &Q, tries: u32) -> Result<Q::Answer, Stop>
        requires tries { 1 ≤ tries }
        ensures caller { GoesOn self.old self.new }
        ensures call { HasCalled S.is self.old.shared (λ a. Q.entry_of query.now a) (λ a. false)
            true tries result self.old.user.value self.new.user.value }
    {
        let body = QueryBody { query };
        answer_of(self.call(&body, tries, &mut NoGate, &mut Untraced))
    }

    /// Runs a transaction, in at most `tries` attempts, and returns its answer and the commit
    /// position of its record. A transaction that stops with an error changes nothing. Each
    /// attempt reports to the gate how far its commit is; an attempt that only reads reports when
    /// its reads are done. The tracer traces the attempts.
    ///
    /// Not said: when the gate is told, which no clause names; that a gate never waits; that a call
    /// answers.
    #[inline(always)]
    pub fn call<B: Body<S>, G: Gate, T: Tracer>(
        &mut self,
        body: &B,
        tries: u32,
        gate: &mut G,
        tracer: &mut T,
    ) -> Result<(B::Answer, CommitPosition), Stop>
        requires tries { 1 ≤ tries }
        ensures caller { GoesOn self.old self.new }
        ensures frame { T.frame tracer.new ≡ T.frame tracer.old }
        ensures call { HasCalledAt S.is self.old.shared (λ a. B.entry_of body.now a)
            (λ a. B.changes body.now a) (B.reads body.now) tries result
            self.old.user.value self.new.user.value }
        ensures traced { HasTraced (IsFitting S.is) self.old.shared result self.old.user.value
            self.new.user.value (T.latest tracer.old) (T.latest tracer.new)
            (T.ended tracer.old) (T.ended tracer.new) }
        ensures tallied { HasTallied (λ conflict v. ConflictWasShown S.is self.old.shared
            (λ a. B.entry_of body.now a) (λ a. B.changes body.now a) (B.reads body.now)
            conflict v) T.more tries result self.old.user.value self.new.user.value
            (T.tally tracer.old) (T.tally tracer.new) }
    {
        let shared = self.shared;
        let user = &mut self.user;
        let reads = body.only_reads();
        let mut left = tries;
        'tries: loop {
            left -= 1;
            let (client, logs) = (&mut user.client, &mut user.logs);
            let answer = if reads {
                try_reading(&shared.region, client, body, gate, tracer)
            } else {
                try_writing(&shared.region, client, logs, body, gate, tracer)
            };
            if !is_tried_again(&answer, left) {
                return answer;
            }
            user.pauses.wait(tries - left);
        }
    }

    /// Splits off the caller of a new user of the same memory, for one grant; a memory has 63
    /// grants.
    pub fn split(&mut self) -> Result<Caller<'a, S>, RegionFault>
        ensures shared { self.new.shared ≡ self.old.shared }
        ensures ok { IfOk result
            (λ other. Splits S.UserState.splits self.old.user self.new.user other.user) }
        ensures theirs { IfOk result (λ other. other.shared ≡ self.old.shared) }
        ensures refused { IfErr result (λ fault. RefusesSplit fault self.old.user self.new.user) }
    {
        let shared = self.shared;
        let user = &mut self.user;
        let client = shared.region.split(&mut user.client)?;
        let other = User {
            client,
            logs: Logs::new(shared.alloc),
            pauses: user.pauses.split(),
            own: user.own.split(),
        };
        Ok(Caller {
            shared,
            user: other,
        })
    }

    /// Gathers the user of another caller of the same memory: takes over its records and its
    /// grants, and gets one more grant.
    pub fn gather(&mut self, other: Caller<'_, S>)
        requires own { other.shared.table ≡ self.old.shared.table }
        ensures caller { self.new ≡ gathered self.old other.entry }
        ensures mine { Sub self.old.user.value.records self.new.user.value.records }
        ensures theirs { Sub other.entry.user.value.records self.new.user.value.records }
        ensures only { (r : Record) → In r self.new.user.value.records
            → In r self.old.user.value.records ⊎ In r other.entry.user.value.records }
    {
        let shared = self.shared;
        let user = &mut self.user;
        let other = other.into_user();
        let User {
            client,
            logs: _,
            pauses: _,
            own: _,
        } = other;
        shared.region.gather(&mut user.client, client);
    }
}
