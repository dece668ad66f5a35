//! Names and scopes.

ghost use Rattle.std.specs.Prelude.{◌≡◌, IfOk};
ghost use Rattle.judge_reservations.specs.Scopes as spec;
ghost use Rattle.judge_reservations.specs.Scopes.{IsOpen};

use std::alloc::{AllocError, Global};
use vac_model::Kind;

/// The customers and items that a scope is made of, without those that are closed or whole.
#[derive(Drop)]
pub struct Names {
    /// The customers.
    pub customers: Vec<u32>,
    /// The items.
    pub items: Vec<(Kind, u32)>,
}

/// Some customers and some items of the reservation system.
#[derive(Drop)]
pub struct Scope {
    /// The customers.
    pub customers: Vec<u32>,
    /// The items.
    pub items: Vec<(Kind, u32)>,
    /// Items that customers outside the scope never book.
    pub closed: Vec<(Kind, u32)>,
    /// Customers that never book an item outside the scope.
    pub whole: Vec<u32>,
}

impl Scope {
    /// Returns the scope of some names on which no item is closed and no customer is whole.
    pub fn open(alloc: Global, names: &Names) -> Result<Scope, AllocError>
        ensures { IfOk result (λ scope.
            IsOpen names.now.customers.items names.now.items.items scope) }
    {
        Ok(Scope {
            customers: Vec::from_slice(alloc, names.customers.as_slice())?,
            items: Vec::from_slice(alloc, names.items.as_slice())?,
            closed: Vec::new(alloc),
            whole: Vec::new(alloc),
        })
    }

    /// Returns whether a customer belongs to the scope.
    pub fn has_customer(&self, customer: u32) -> bool
        ensures { result ≡ spec.has_customer self.now customer }
    {
        is_among(self.customers.as_slice(), customer)
    }

    /// Returns whether an item belongs to the scope.
    pub fn has_item(&self, kind: Kind, id: u32) -> bool
        ensures { result ≡ spec.has_item self.now (kind, id) }
    {
        is_place_among(self.items.as_slice(), kind, id)
    }

    /// Returns whether an item belongs to the scope and is closed.
    pub fn is_closed(&self, kind: Kind, id: u32) -> bool
        ensures { result ≡ spec.is_closed self.now (kind, id) }
    {
        self.has_item(kind, id) && is_place_among(self.closed.as_slice(), kind, id)
    }

    /// Returns whether a customer belongs to the scope and is whole.
    pub fn is_whole(&self, customer: u32) -> bool
        ensures { result ≡ spec.is_whole self.now customer }
    {
        self.has_customer(customer) && is_among(self.whole.as_slice(), customer)
    }

    /// Returns whether a booking leaves closed items closed and whole customers whole.
    pub fn allows(&self, customer: u32, kind: Kind, id: u32) -> bool
        ensures { result ≡ spec.allows self.now customer (kind, id) }
    {
        (self.has_customer(customer) || !self.is_closed(kind, id))
            && (self.has_item(kind, id) || !self.is_whole(customer))
    }
}

/// Returns whether a list has a customer.
fn is_among(customers: &[u32], customer: u32) -> bool
    ensures { result ≡ spec.is_among customers.now customer }
{
    customers.iter().any(|other| *other == customer)
}

/// Returns whether a list has an item.
fn is_place_among(items: &[(Kind, u32)], kind: Kind, id: u32) -> bool
    ensures { result ≡ spec.is_place_among items.now (kind, id) }
{
    items
        .iter()
        .any(|item| item.0.number() == kind.number() && item.1 == id)
}
