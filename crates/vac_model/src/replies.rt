//! The replies to tasks. Every reply has a fixed size.

use crate::commands::Refusal;
use crate::limits::MOST_PARTS;

/// The reply to a task.
#[derive(Clone, Copy, Debug, PartialEq, Eq)]
pub enum Reply {
    /// The command took effect, or had nothing to change.
    Done,
    /// The answer to a question for a number, or `None` if the item or the customer is missing.
    Number(Option<u64>),
    /// The report of the whole state.
    Report(Report),
    /// The command was refused and changed nothing.
    No(Refusal),
    /// The outcome of a trip.
    Trip(TripReply),
    /// The outcome of an update.
    Update(UpdateReply),
}

/// A report: the number of entries of each table, the units booked, the sums over all items, and
/// the sum of all bills.
#[derive(Clone, Copy, Debug, PartialEq, Eq)]
pub struct Report {
    pub cars: u64,
    pub flights: u64,
    pub rooms: u64,
    pub customers: u64,
    pub bookings: u64,
    pub used: u64,
    pub free: u64,
    pub total: u64,
    pub billed: u64,
}

/// The reply to a trip: one pick for each kind, in the order of kinds. A pick is `None` if no item
/// of that kind among the asks was found.
#[derive(Clone, Copy, Debug, PartialEq, Eq)]
pub struct TripReply {
    pub joined: CustomerOutcome,
    pub picks: [Option<Pick>; 3],
}

/// The outcome for the customer of a trip.
#[derive(Clone, Copy, Debug, PartialEq, Eq)]
pub enum CustomerOutcome {
    /// Nothing was picked, so no customer was created.
    NotAsked,
    /// The customer is new.
    Added,
    /// The customer was not added; the trip went on.
    Refused(Refusal),
}

/// The item that a trip picked of one kind, its price, and the reason if it could not be booked.
#[derive(Clone, Copy, Debug, PartialEq, Eq)]
pub struct Pick {
    pub id: u32,
    pub price: u64,
    pub refused: Option<Refusal>,
}

/// The reply to an update: for each of its `len` changes the reason of its refusal, if it was
/// refused; `None` from `len` on.
#[derive(Clone, Copy, Debug, PartialEq, Eq)]
pub struct UpdateReply {
    pub len: u8,
    pub refused: [Option<Refusal>; MOST_PARTS],
}
