//! The lines of a history that name an item or a customer. Nothing is proved of them.

use judge_object::Line;
use std::alloc::{AllocError, Global};
use std::collections::BTreeMap;
use vac_model::{Command, Kind, Task, ValidTask};

/// The positions of the lines that name one item or one customer, in their order.
#[derive(Drop)]
struct Places {
    /// The lines of trips.
    trips: Vec<usize>,
    /// The other lines.
    others: Vec<usize>,
}

/// The lines that name each item and each customer.
#[derive(Drop)]
pub(crate) struct Index {
    /// The customers, in the order in which the lines name them first.
    pub(crate) customers: Vec<u32>,
    /// The items, in the order in which the lines name them first.
    pub(crate) items: Vec<(Kind, u32)>,
    of_customers: BTreeMap<u32, Places>,
    of_items: BTreeMap<(Kind, u32), Places>,
}

/// A line that is added to an index: its position, and whether the line is that of a trip.
#[derive(Clone, Copy)]
struct Spot {
    place: usize,
    is_trip: bool,
}

/// Adds a line, which comes after the lines that were added before, to the lines that name a
/// customer or an item. Returns whether no line was there before.
fn add_to<K: Ord + Drop>(
    alloc: Global,
    table: &mut BTreeMap<K, Places>,
    key: K,
    spot: Spot,
) -> Result<bool, AllocError> {
    let places = table.entry(key)?.or_insert(Places {
        trips: Vec::new(alloc),
        others: Vec::new(alloc),
    });
    let is_new = places.trips.is_empty() && places.others.is_empty();
    let places = if spot.is_trip {
        &mut places.trips
    } else {
        &mut places.others
    };
    if places.last() != Some(&spot.place) {
        places.push(spot.place)?;
    }
    Ok(is_new)
}

impl Index {
    /// Creates the index of the lines of a history.
    pub(crate) fn new(alloc: Global, lines: &[Line<ValidTask>]) -> Result<Index, AllocError> {
        let mut index = Index {
            customers: Vec::new(alloc),
            items: Vec::new(alloc),
            of_customers: BTreeMap::new(alloc),
            of_items: BTreeMap::new(alloc),
        };
        for place in 0..lines.len() {
            index.add_task(alloc, lines[place].op.task(), place)?;
        }
        Ok(index)
    }

    /// Adds the line of a task.
    fn add_task(&mut self, alloc: Global, task: &Task, place: usize) -> Result<(), AllocError> {
        let is_trip = matches!(task, Task::Trip { .. });
        let spot = Spot { place, is_trip };
        match task {
            Task::One(command) => self.add_command(alloc, command, spot),
            Task::Leave { customer } => self.add_customer(alloc, *customer, spot),
            Task::Trip { customer, asks } => {
                self.add_customer(alloc, *customer, spot)?;
                for ask in asks.as_slice() {
                    self.add_item(alloc, *ask, spot)?;
                }
                Ok(())
            }
            Task::Update { changes } => {
                for change in changes.as_slice() {
                    self.add_command(alloc, change, spot)?;
                }
                Ok(())
            }
        }
    }

    /// Adds the line of a command.
    fn add_command(
        &mut self,
        alloc: Global,
        command: &Command,
        spot: Spot,
    ) -> Result<(), AllocError> {
        match *command {
            Command::NewCustomer { id } | Command::DropCustomer { id } | Command::Bill { id } => {
                self.add_customer(alloc, id, spot)
            }
            Command::Reserve {
                customer,
                kind,
                id,
                ..
            }
            | Command::Cancel { customer, kind, id } => {
                self.add_customer(alloc, customer, spot)?;
                self.add_item(alloc, (kind, id), spot)
            }
            Command::Add { kind, id, .. }
            | Command::Delete { kind, id, .. }
            | Command::Free { kind, id }
            | Command::Price { kind, id } => self.add_item(alloc, (kind, id), spot),
            Command::DropFlight { id } => self.add_item(alloc, (Kind::Flight, id), spot),
            Command::Audit => Ok(()),
        }
    }

    /// Adds a line that names a customer.
    fn add_customer(&mut self, alloc: Global, customer: u32, spot: Spot) -> Result<(), AllocError> {
        if add_to(alloc, &mut self.of_customers, customer, spot)? {
            self.customers.push(customer)?;
        }
        Ok(())
    }

    /// Adds a line that names an item.
    fn add_item(&mut self, alloc: Global, item: (Kind, u32), spot: Spot) -> Result<(), AllocError> {
        if add_to(alloc, &mut self.of_items, item, spot)? {
            self.items.push(item)?;
        }
        Ok(())
    }

    /// Appends the positions of the lines that name a customer.
    pub(crate) fn append_customer(
        &self,
        customer: u32,
        places: &mut Vec<usize>,
    ) -> Result<(), AllocError> {
        if let Some(found) = self.of_customers.get(&customer) {
            places.extend_from_slice(found.trips.as_slice())?;
            places.extend_from_slice(found.others.as_slice())?;
        }
        Ok(())
    }

    /// Appends the positions of the lines that name an item, those of trips only if `has_trips`.
    pub(crate) fn append_item(
        &self,
        item: (Kind, u32),
        has_trips: bool,
        places: &mut Vec<usize>,
    ) -> Result<(), AllocError> {
        if let Some(found) = self.of_items.get(&item) {
            if has_trips {
                places.extend_from_slice(found.trips.as_slice())?;
            }
            places.extend_from_slice(found.others.as_slice())?;
        }
        Ok(())
    }
}
