//! The part of a history on a scope, and a quick search for an order of the part. Only the lines
//! that name a customer or an item of the scope are looked at. Nothing is proved of either.

use crate::index::Index;
use judge_heuristic::find_quickly;
use judge_object::{Line, NEVER, Object};
use judge_reservations::{Names, Reservations, Scope, has_part, part_of_history};
use std::alloc::{AllocError, Global};
use vac_model::{Command, Kind, Task, ValidTask};

/// Number of steps of a quick search of a part for each call of the part.
const STEPS_FOR_CALL: u64 = 64;

/// Number of steps of a quick search of a part besides those for its calls.
const MORE_STEPS: u64 = 4_096;

/// The history that is tried: its lines in the order in which they ended, the lines that name each
/// customer and each item, and the state in which the part of a history begins.
#[derive(Drop)]
pub(crate) struct Trial<'a> {
    pub(crate) lines: &'a [Line<ValidTask>],
    pub(crate) index: Index,
    pub(crate) empty: Reservations,
}

/// Appends a value, unless the list has it.
fn push_new<T: Copy + PartialEq>(values: &mut Vec<T>, value: T) -> Result<(), AllocError> {
    if !values.contains(&value) {
        values.push(value)?;
    }
    Ok(())
}

/// Appends the customer of a task that may book an item.
fn push_customer(task: &Task, customers: &mut Vec<u32>) -> Result<(), AllocError> {
    match task {
        Task::Trip { customer, .. } | Task::One(Command::Reserve { customer, .. }) => {
            push_new(customers, *customer)
        }
        Task::One(
            Command::Add { .. }
            | Command::Delete { .. }
            | Command::DropFlight { .. }
            | Command::NewCustomer { .. }
            | Command::DropCustomer { .. }
            | Command::Free { .. }
            | Command::Price { .. }
            | Command::Bill { .. }
            | Command::Cancel { .. }
            | Command::Audit,
        )
        | Task::Leave { .. }
        | Task::Update { .. } => Ok(()),
    }
}

/// Appends the items that a task may book.
fn push_items(task: &Task, items: &mut Vec<(Kind, u32)>) -> Result<(), AllocError> {
    match task {
        Task::Trip { asks, .. } => {
            for ask in asks.as_slice() {
                push_new(items, *ask)?;
            }
            Ok(())
        }
        Task::One(Command::Reserve { kind, id, .. } | Command::Cancel { kind, id, .. }) => {
            push_new(items, (*kind, *id))
        }
        Task::One(
            Command::Add { .. }
            | Command::Delete { .. }
            | Command::DropFlight { .. }
            | Command::NewCustomer { .. }
            | Command::DropCustomer { .. }
            | Command::Free { .. }
            | Command::Price { .. }
            | Command::Bill { .. }
            | Command::Audit,
        )
        | Task::Leave { .. }
        | Task::Update { .. } => Ok(()),
    }
}

impl Trial<'_> {
    /// Returns whether the calls of all these lines have parts on a scope.
    fn all_have_parts(&self, scope: &Scope, places: &[usize]) -> bool {
        for place in places {
            let Some(line) = self.lines.get(*place) else {
                return false;
            };
            if !has_part(scope, line) {
                return false;
            }
        }
        true
    }

    /// Returns the customers who booked an item, or may have.
    pub(crate) fn bookers(&self, alloc: Global, item: (Kind, u32)) -> Result<Vec<u32>, AllocError> {
        let shut = Scope {
            customers: Vec::new(alloc),
            items: Vec::from_slice(alloc, &[item])?,
            closed: Vec::from_slice(alloc, &[item])?,
            whole: Vec::new(alloc),
        };
        let mut places = Vec::new(alloc);
        self.index.append_item(item, true, &mut places)?;
        let mut customers = Vec::new(alloc);
        for place in places.as_slice() {
            if let Some(line) = self.lines.get(*place)
                && !has_part(&shut, line)
            {
                push_customer(line.op.task(), &mut customers)?;
            }
        }
        Ok(customers)
    }

    /// Returns the items for which a customer asked in a completed call.
    pub(crate) fn wishes(
        &self,
        alloc: Global,
        customer: u32,
    ) -> Result<Vec<(Kind, u32)>, AllocError> {
        let mut places = Vec::new(alloc);
        self.index.append_customer(customer, &mut places)?;
        let mut items = Vec::new(alloc);
        for place in places.as_slice() {
            if let Some(line) = self.lines.get(*place)
                && line.end < NEVER
            {
                push_items(line.op.task(), &mut items)?;
            }
        }
        Ok(items)
    }

    /// Returns the items among these names that only customers among the names book.
    fn closed_items(&self, alloc: Global, names: &Names) -> Result<Vec<(Kind, u32)>, AllocError> {
        let mut scope = Scope::open(alloc, names)?;
        let mut closed = Vec::new(alloc);
        let mut places = Vec::new(alloc);
        for item in names.items.as_slice() {
            places.clear();
            self.index.append_item(*item, true, &mut places)?;
            scope.closed.clear();
            scope.closed.push(*item)?;
            if self.all_have_parts(&scope, places.as_slice()) {
                closed.push(*item)?;
            }
        }
        Ok(closed)
    }

    /// Returns the customers among these names that only book items among the names.
    fn whole_customers(&self, alloc: Global, names: &Names) -> Result<Vec<u32>, AllocError> {
        let mut scope = Scope::open(alloc, names)?;
        let mut whole = Vec::new(alloc);
        let mut places = Vec::new(alloc);
        for customer in names.customers.as_slice() {
            places.clear();
            self.index.append_customer(*customer, &mut places)?;
            scope.whole.clear();
            scope.whole.push(*customer)?;
            if self.all_have_parts(&scope, places.as_slice()) {
                whole.push(*customer)?;
            }
        }
        Ok(whole)
    }

    /// Returns the lines that have parts on scopes of these names. A trip has a part only if its
    /// customer is among the names.
    fn places_of(&self, alloc: Global, names: &Names) -> Result<Vec<usize>, AllocError> {
        let mut places = Vec::new(alloc);
        for customer in names.customers.as_slice() {
            self.index.append_customer(*customer, &mut places)?;
        }
        for item in names.items.as_slice() {
            self.index.append_item(*item, false, &mut places)?;
        }
        places.sort_unstable();
        places.dedup();
        Ok(places)
    }

    /// Returns the part on a scope of the calls of these lines, or `None` if a call has no part.
    fn part_of(
        &self,
        alloc: Global,
        scope: &Scope,
        places: &[usize],
    ) -> Result<Option<Vec<Line<ValidTask>>>, AllocError> {
        if !self.all_have_parts(scope, places) {
            return Ok(None);
        }
        let mut part = Vec::new(alloc);
        for place in places {
            if *place < self.lines.len() {
                let line = &self.lines[*place..*place + 1];
                part.append(&mut part_of_history(alloc, scope, line)?)?;
            }
        }
        Ok(Some(part))
    }

    /// Returns whether a quick search finds an order of a part.
    fn has_order(&self, alloc: Global, part: &[Line<ValidTask>]) -> Result<bool, AllocError> {
        if !part.iter().any(|line| line.end < NEVER) {
            return Ok(true);
        }
        let steps = (part.len() as u64)
            .saturating_mul(STEPS_FOR_CALL)
            .saturating_add(MORE_STEPS);
        Ok(find_quickly(alloc, part, self.empty.copy()?, steps, &mut ())?.is_some())
    }

    /// Returns whether no order is found of the part on the scope of these names.
    pub(crate) fn is_suspect(&self, alloc: Global, names: &Names) -> Result<bool, AllocError> {
        let scope = Scope {
            customers: Vec::from_slice(alloc, names.customers.as_slice())?,
            items: Vec::from_slice(alloc, names.items.as_slice())?,
            closed: self.closed_items(alloc, names)?,
            whole: self.whole_customers(alloc, names)?,
        };
        let places = self.places_of(alloc, names)?;
        match self.part_of(alloc, &scope, places.as_slice())? {
            Some(part) => Ok(!self.has_order(alloc, part.as_slice())?),
            None => Ok(false),
        }
    }
}
