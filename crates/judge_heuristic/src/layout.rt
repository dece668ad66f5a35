//! The layout of the calls of a history, precomputed for a quick search. Nothing is promised of
//! the layout.

use crate::configuration::Chain;
use judge_object::{Line, NEVER};
use std::alloc::{AllocError, Global};
use std::collections::BTreeMap;
use vac_model::{Command, Kind, Task, ValidTask};

/// The layout of one call.
#[derive(Clone, Copy)]
pub(crate) struct Spot {
    /// The number of the call's client.
    pub(crate) client: usize,
    /// The position of the client's next call, or the number of calls if there is none.
    pub(crate) next: usize,
    /// Start and end of the call's keys.
    from: usize,
    to: usize,
    /// A bit set with a bit for each key.
    mask: u64,
    /// True if the call's reply says that no block is left.
    pub(crate) is_full: bool,
    /// True if the call may free blocks.
    pub(crate) is_freeing: bool,
    /// True if the call may read or change items that it does not name.
    is_broad: bool,
}

/// The layout of all calls.
#[derive(Drop)]
pub(crate) struct Layout {
    spots: Vec<Spot>,
    /// The items and customers that the calls name, call by call.
    keys: Vec<u64>,
    /// The position of each client's first call.
    pub(crate) firsts: Vec<usize>,
    /// Number of completed calls.
    pub(crate) completed: u64,
}

/// A client: its number, and the position of its last call so far.
#[derive(Drop)]
struct Client {
    number: usize,
    last: usize,
}

/// Returns the key of a customer. Keys number customers and items together.
fn customer_key(id: u32) -> u64 {
    (id as u64).wrapping_mul(4)
}

/// Returns the key of an item. Keys number customers and items together.
fn item_key(kind: Kind, id: u32) -> u64 {
    customer_key(id).wrapping_add(kind.number() + 1)
}

/// Appends the keys of the customer and the item that a command names.
fn add_command(command: &Command, keys: &mut Vec<u64>) -> Result<(), AllocError> {
    match *command {
        Command::NewCustomer { id } | Command::DropCustomer { id } | Command::Bill { id } => {
            keys.push(customer_key(id))?
        }
        Command::Reserve {
            customer,
            kind,
            id,
            ..
        }
        | Command::Cancel { customer, kind, id } => {
            keys.push(customer_key(customer))?;
            keys.push(item_key(kind, id))?;
        }
        Command::Add { kind, id, .. }
        | Command::Delete { kind, id, .. }
        | Command::Free { kind, id }
        | Command::Price { kind, id } => keys.push(item_key(kind, id))?,
        Command::DropFlight { id } => keys.push(item_key(Kind::Flight, id))?,
        Command::Audit => {}
    }
    Ok(())
}

/// Appends the keys of the customers and items that a task names.
fn add_keys(task: &Task, keys: &mut Vec<u64>) -> Result<(), AllocError> {
    match task {
        Task::One(command) => add_command(command, keys)?,
        Task::Leave { customer } => keys.push(customer_key(*customer))?,
        Task::Trip { customer, asks } => {
            keys.push(customer_key(*customer))?;
            for ask in asks.as_slice() {
                keys.push(item_key(ask.0, ask.1))?;
            }
        }
        Task::Update { changes } => {
            for change in changes.as_slice() {
                add_command(change, keys)?;
            }
        }
    }
    Ok(())
}

/// Returns whether a reply says that no block is left.
fn says_full(reply: &Option<Vec<u8>>) -> bool {
    let Some(text) = reply else {
        return false;
    };
    let mut found = 0;
    for byte in text.as_slice() {
        found = match (found, *byte) {
            (_, b'f') => 1,
            (1, b'u') => 2,
            (2, b'l') => 3,
            (3, b'l') => return true,
            _ => 0,
        };
    }
    false
}

/// Returns a bit set with a bit for each key from position `from` on.
fn mask_of(keys: &[u64], from: usize) -> u64 {
    let mut mask = 0;
    for place in from..keys.len() {
        mask |= 1 << (keys[place].wrapping_mul(0x9e37_79b9_7f4a_7c15) >> 58);
    }
    mask
}

impl Layout {
    /// Computes the layout of the calls.
    pub(crate) fn new(alloc: Global, lines: &[Line<ValidTask>]) -> Result<Layout, AllocError> {
        let mut layout = Layout {
            spots: Vec::new(alloc),
            keys: Vec::new(alloc),
            firsts: Vec::new(alloc),
            completed: 0,
        };
        let mut clients = BTreeMap::new(alloc);
        for place in 0..lines.len() {
            let line = &lines[place];
            let client = layout.client_of(&mut clients, line.client, place)?;
            layout.add(line, client, lines.len())?;
        }
        Ok(layout)
    }

    /// Returns the number of the client whose next call is at this position.
    fn client_of(
        &mut self,
        clients: &mut BTreeMap<u32, Client>,
        client: u32,
        place: usize,
    ) -> Result<usize, AllocError> {
        if let Some(known) = clients.get_mut(&client) {
            if known.last < self.spots.len() {
                self.spots.as_mut_slice()[known.last].next = place;
            }
            known.last = place;
            return Ok(known.number);
        }
        let number = self.firsts.len();
        self.firsts.push(place)?;
        clients.insert(
            client,
            Client {
                number,
                last: place,
            },
        )?;
        Ok(number)
    }

    /// Adds a call whose client has no known next call.
    fn add(
        &mut self,
        line: &Line<ValidTask>,
        client: usize,
        count: usize,
    ) -> Result<(), AllocError> {
        let task = line.op.task();
        let from = self.keys.len();
        add_keys(task, &mut self.keys)?;
        if line.end < NEVER {
            self.completed = self.completed.wrapping_add(1);
        }
        self.spots.push(Spot {
            client,
            next: count,
            from,
            to: self.keys.len(),
            mask: mask_of(self.keys.as_slice(), from),
            is_full: says_full(&line.reply),
            is_freeing: !matches!(task, Task::Trip { .. }),
            is_broad: matches!(
                task,
                Task::Leave { .. } | Task::One(Command::DropCustomer { .. } | Command::Audit)
            ),
        })?;
        Ok(())
    }

    /// Returns the layout of the call at a position.
    pub(crate) fn spot(&self, place: usize) -> Spot {
        if place < self.spots.len() {
            return self.spots[place];
        }
        Spot {
            client: self.firsts.len(),
            next: place,
            from: 0,
            to: 0,
            mask: 0,
            is_full: false,
            is_freeing: false,
            is_broad: false,
        }
    }

    /// Returns whether two calls name an item or a customer in common.
    pub(crate) fn meets(&self, place: usize, other: usize) -> bool {
        let (a, b) = (self.spot(place), self.spot(other));
        if a.mask & b.mask == 0 {
            return false;
        }
        let keys = self.keys.as_slice();
        let (Some(keys), Some(others)) = (keys.get(a.from..a.to), keys.get(b.from..b.to)) else {
            return false;
        };
        for key in keys {
            if others.contains(key) {
                return true;
            }
        }
        false
    }

    /// Returns whether two calls may conflict, but for the capacity.
    pub(crate) fn may_meet(&self, place: usize, other: usize) -> bool {
        self.spot(place).is_broad || self.spot(other).is_broad || self.meets(place, other)
    }

    /// Returns the first position from `low` on whose call is not placed; the number of calls if
    /// there is none. `heads` has the position of each client's next call.
    pub(crate) fn first_left(&self, heads: &[usize], low: usize) -> usize {
        for place in low..self.spots.len() {
            let client = self.spots[place].client;
            if client < heads.len() && heads[client] <= place {
                return place;
            }
        }
        self.spots.len()
    }

    /// Returns the chain of one call.
    pub(crate) fn one(&self, place: usize) -> Chain {
        self.two(self.spots.len(), place)
    }

    /// Returns the chain of two calls.
    pub(crate) fn two(&self, first: usize, place: usize) -> Chain {
        Chain {
            first,
            second: self.spots.len(),
            place,
        }
    }
}
