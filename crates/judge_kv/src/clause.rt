//! The clauses of transactions.

ghost use Rattle.std.specs.Prelude.{◌≡◌};
ghost use Rattle.judge_kv.specs.Shared.{value_in};
ghost use Rattle.judge_kv.specs.Requests as spec;

use crate::value::Value;
use std::marker::Model;
use std::rc::Rc;

/// The role of a clause in its transaction.
#[derive(Clone, Copy, Debug, PartialEq, Eq)]
pub enum Role {
    /// The comparison that the key has this value, or none.
    If,
    /// The claim that a read of the transaction returned this value, or none.
    Get,
    /// The key has this value afterwards, or none, if all comparisons hold.
    Then,
    /// The key has this value afterwards, or none, if a comparison does not hold.
    Else,
}

impl Role {
    /// The number of the role in their order.
    fn number(self) -> u8
        ensures { result ≡ spec.role_number self }
    {
        match self {
            Role::If => 0,
            Role::Get => 1,
            Role::Then => 2,
            Role::Else => 3,
        }
    }

    /// Returns whether two roles are the same.
    pub(crate) fn is(self, other: Role) -> bool
        ensures { result ≡ spec.is_role self other }
    {
        self.number() == other.number()
    }
}

/// A clause of a transaction. Contracts see its role, its key and what the key has.
#[derive(Drop)]
pub struct Clause {
    role: Role,
    key: Vec<u8>,
    held: Option<Rc<Value>>,
}

impl Model for Clause {
    ghost use Rattle.judge_kv.specs.Requests.{Stated};

    ghost Value = { Stated };

    ghost use Rattle.judge_kv.specs.Shared.{value_in};

    ghost view = { λ c. record { role = c.role; key = c.key.items; held = value_in c.held } };
}

impl Clause {
    /// Returns the clause of a role, a key and what the key has.
    pub(crate) fn new(role: Role, key: Vec<u8>, held: Option<Rc<Value>>) -> Clause
        ensures { result ≡ record { role = role; key = key.items; held = value_in held } }
    {
        Clause { role, key, held }
    }

    /// The role.
    pub(crate) fn role(&self) -> Role
        ensures { result ≡ self.now.role }
    {
        self.role
    }

    /// The key.
    pub(crate) fn key(&self) -> &[u8]
        ensures { result.now ≡ self.now.key }
    {
        self.key.as_slice()
    }

    /// Returns the value that the clause gives for its key, or `None` for no value.
    pub(crate) fn held(&self) -> &Option<Rc<Value>>
        ensures { value_in result.now ≡ self.now.held }
    {
        &self.held
    }
}
