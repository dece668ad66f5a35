//! Proposals of scopes on which the part of a history seems to have no order. Nothing is proved of
//! the proposals: the caller checks each part.
//!
//! First each item alone is tried, then each customer with the items for which the customer asked,
//! then each item with the customers who booked it. From the names of a scope whose part seems to
//! have no order, all names are left out that are not needed for that.

use crate::index::Index;
use crate::trials::Trial;
use judge_object::Line;
use judge_reservations::{Names, Reservations};
use std::alloc::{AllocError, Global};
use vac_model::ValidTask;

/// The proposals for a history: those that were made, and those that are still to be tried.
#[derive(Drop)]
pub(crate) struct Proposals<'a> {
    trial: Trial<'a>,
    /// Number of scopes that were tried.
    tried: usize,
}

/// Returns a list without the value at a position.
fn without<T: Copy>(alloc: Global, values: &[T], left_out: usize) -> Result<Vec<T>, AllocError> {
    let mut rest = Vec::new(alloc);
    for at in 0..values.len() {
        if at != left_out {
            rest.push(values[at])?;
        }
    }
    Ok(rest)
}

/// Returns these names with as few items as a trial allows: each item is left out without which
/// the scope is still suspect.
fn with_few_items(alloc: Global, trial: &Trial<'_>, names: Names) -> Result<Names, AllocError> {
    let mut names = names;
    let mut at = 0;
    for _ in 0..names.items.len() {
        let fewer = Names {
            customers: Vec::from_slice(alloc, names.customers.as_slice())?,
            items: without(alloc, names.items.as_slice(), at)?,
        };
        if trial.is_suspect(alloc, &fewer)? {
            names = fewer;
        } else {
            at = at.saturating_add(1);
        }
    }
    Ok(names)
}

/// As `with_few_items`, for customers.
fn with_few_customers(alloc: Global, trial: &Trial<'_>, names: Names) -> Result<Names, AllocError> {
    let mut names = names;
    let mut at = 0;
    for _ in 0..names.customers.len() {
        let fewer = Names {
            customers: without(alloc, names.customers.as_slice(), at)?,
            items: Vec::from_slice(alloc, names.items.as_slice())?,
        };
        if trial.is_suspect(alloc, &fewer)? {
            names = fewer;
        } else {
            at = at.saturating_add(1);
        }
    }
    Ok(names)
}

impl<'a> Proposals<'a> {
    /// Creates the proposals for a history, whose lines are given in the order in which they ended.
    /// The part of a history begins in the state `empty`.
    pub(crate) fn new(
        alloc: Global,
        lines: &'a [Line<ValidTask>],
        empty: Reservations,
    ) -> Result<Proposals<'a>, AllocError> {
        let index = Index::new(alloc, lines)?;
        Ok(Proposals {
            trial: Trial {
                lines,
                index,
                empty,
            },
            tried: 0,
        })
    }

    /// Returns the number of scopes that are tried.
    fn scopes(&self) -> usize {
        let items = self.trial.index.items.len();
        items
            .saturating_add(self.trial.index.customers.len())
            .saturating_add(items)
    }

    /// Returns the names of the scope with this number, if there is one.
    fn names(&self, alloc: Global, number: usize) -> Result<Option<Names>, AllocError> {
        let items = self.trial.index.items.as_slice();
        let customers = self.trial.index.customers.as_slice();
        if number < items.len() {
            return Ok(Some(Names {
                customers: Vec::new(alloc),
                items: Vec::from_slice(alloc, &[items[number]])?,
            }));
        }
        let number = number - items.len();
        if number < customers.len() {
            let customer = customers[number];
            return Ok(Some(Names {
                customers: Vec::from_slice(alloc, &[customer])?,
                items: self.trial.wishes(alloc, customer)?,
            }));
        }
        let number = number - customers.len();
        if number < items.len() {
            let item = items[number];
            return Ok(Some(Names {
                customers: self.trial.bookers(alloc, item)?,
                items: Vec::from_slice(alloc, &[item])?,
            }));
        }
        Ok(None)
    }

    /// Returns the names of the next scope whose part seems to have no order.
    pub(crate) fn next_names(&mut self, alloc: Global) -> Result<Option<Names>, AllocError> {
        for number in self.tried..self.scopes() {
            self.tried = number + 1;
            let Some(names) = self.names(alloc, number)? else {
                return Ok(None);
            };
            if self.trial.is_suspect(alloc, &names)? {
                let names = with_few_items(alloc, &self.trial, names)?;
                return Ok(Some(with_few_customers(alloc, &self.trial, names)?));
            }
        }
        Ok(None)
    }
}
