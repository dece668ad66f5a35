//! The operations of a whole store.

ghost use Rattle.std.specs.Prelude.{◌≡◌};
ghost use Rattle.judge_kv.specs.Requests as spec;
ghost use Rattle.judge_kv.specs.Classes.{name_of};
ghost use Rattle.judge_kv.specs.Wishes.{request_in};

use crate::clause::Clause;
use crate::command::Operation;
use std::marker::Model;

/// An operation or a transaction that a client submits to a store.
#[derive(Drop)]
pub(crate) enum RequestKind {
    /// An operation on one key.
    One(Operation),
    /// The transaction of these clauses.
    Transact(Vec<Clause>),
}

/// An operation of a whole store: one on a single key, or a transaction.
#[derive(Drop)]
pub struct Request {
    kind: RequestKind,
}

impl Model for Request {
    ghost use Rattle.judge_kv.specs.Requests.{Requested};

    ghost Value = { Requested };

    ghost use Rattle.judge_kv.specs.Wishes.{request_in};

    ghost view = { λ r. request_in r.kind };
}

impl Request {
    /// Returns the operation on one key.
    pub(crate) fn one(op: Operation) -> Request
        ensures { result ≡ spec.One op }
    {
        Request {
            kind: RequestKind::One(op),
        }
    }

    /// Returns the transaction of these clauses.
    pub(crate) fn transaction(clauses: Vec<Clause>) -> Request
        ensures { result ≡ spec.Transact clauses.items }
    {
        Request {
            kind: RequestKind::Transact(clauses),
        }
    }

    /// Returns the first key that the operation touches, or no bytes if there is none.
    pub(crate) fn first_key(&self) -> &[u8]
        ensures { result.now ≡ name_of self.now }
    {
        match &self.kind {
            RequestKind::One(op) => op.key(),
            RequestKind::Transact(clauses) => match clauses.as_slice() {
                [first, ..] => first.key(),
                [] => b"",
            },
        }
    }

    /// Returns the operation or transaction of the request.
    pub(crate) fn kind(&self) -> &RequestKind
        ensures { request_in result.now ≡ self.now }
    {
        &self.kind
    }
}
