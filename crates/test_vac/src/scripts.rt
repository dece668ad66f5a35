//! Scripts of tasks and replies.

use std::alloc::{AllocError, Global};
use vac_model::{Command, Kind, Reply, Task};

/// One line of a script.
#[derive(Clone, Copy)]
pub(crate) enum Line<'a> {
    One(Command),
    Trip(u32, &'a [(Kind, u32)]),
    Leave(u32),
    Update(&'a [Command]),
}

/// A line of a script, and the reply to it.
pub(crate) type Answered = (Line<'static>, Reply);

pub(crate) fn task_of(alloc: Global, line: &Line<'_>) -> Result<Task, AllocError> {
    match line {
        Line::One(command) => Ok(Task::One(*command)),
        Line::Trip(customer, asks) => Task::trip(alloc, *customer, asks),
        Line::Leave(customer) => Ok(Task::Leave {
            customer: *customer,
        }),
        Line::Update(changes) => Task::update(alloc, changes),
    }
}

/// The largest last version.
pub(crate) const LAST: u64 = (1 << 62) - 1;

// Commands, lines and replies are written by macros. In a script that is made of calls, the prover
// would carry the facts of each call through the whole test.

macro_rules! add_command {
    ($kind:expr, $id:expr, $num:expr, $price:expr $(,)?) => {
        vac_model::Command::Add {
            kind: $kind,
            id: $id,
            num: $num,
            price: $price,
        }
    };
}

macro_rules! delete_command {
    ($kind:expr, $id:expr, $num:expr $(,)?) => {
        vac_model::Command::Delete {
            kind: $kind,
            id: $id,
            num: $num,
        }
    };
}

macro_rules! reserve_command {
    ($customer:expr, $kind:expr, $id:expr, $num:expr $(,)?) => {
        vac_model::Command::Reserve {
            customer: $customer,
            kind: $kind,
            id: $id,
            num: $num,
        }
    };
}

macro_rules! add {
    ($kind:expr, $id:expr, $num:expr, $price:expr $(,)?) => {
        crate::scripts::Line::One(crate::scripts::add_command!($kind, $id, $num, $price))
    };
}

macro_rules! delete {
    ($kind:expr, $id:expr, $num:expr $(,)?) => {
        crate::scripts::Line::One(crate::scripts::delete_command!($kind, $id, $num))
    };
}

macro_rules! reserve {
    ($customer:expr, $kind:expr, $id:expr, $num:expr $(,)?) => {
        crate::scripts::Line::One(crate::scripts::reserve_command!($customer, $kind, $id, $num))
    };
}

macro_rules! drop_flight {
    ($id:expr $(,)?) => {
        crate::scripts::Line::One(vac_model::Command::DropFlight { id: $id })
    };
}

macro_rules! new_customer {
    ($id:expr $(,)?) => {
        crate::scripts::Line::One(vac_model::Command::NewCustomer { id: $id })
    };
}

macro_rules! drop_customer {
    ($id:expr $(,)?) => {
        crate::scripts::Line::One(vac_model::Command::DropCustomer { id: $id })
    };
}

macro_rules! free {
    ($kind:expr, $id:expr $(,)?) => {
        crate::scripts::Line::One(vac_model::Command::Free { kind: $kind, id: $id })
    };
}

macro_rules! price {
    ($kind:expr, $id:expr $(,)?) => {
        crate::scripts::Line::One(vac_model::Command::Price { kind: $kind, id: $id })
    };
}

macro_rules! bill {
    ($id:expr $(,)?) => {
        crate::scripts::Line::One(vac_model::Command::Bill { id: $id })
    };
}

macro_rules! cancel {
    ($customer:expr, $kind:expr, $id:expr $(,)?) => {
        crate::scripts::Line::One(vac_model::Command::Cancel {
            customer: $customer,
            kind: $kind,
            id: $id,
        })
    };
}

macro_rules! audit {
    () => {
        crate::scripts::Line::One(vac_model::Command::Audit)
    };
}

macro_rules! number {
    ($number:expr $(,)?) => {
        vac_model::Reply::Number(Some($number))
    };
}

macro_rules! pick {
    ($id:expr, $price:expr, $refused:expr $(,)?) => {
        Some(vac_model::Pick {
            id: $id,
            price: $price,
            refused: $refused,
        })
    };
}

macro_rules! trip {
    ($joined:expr, $picks:expr $(,)?) => {
        vac_model::Reply::Trip(vac_model::TripReply {
            joined: $joined,
            picks: $picks,
        })
    };
}

// A report: the entries of the four tables; the booked units; free and total units; the bills.
macro_rules! report {
    (
        [$cars:expr, $flights:expr, $rooms:expr, $customers:expr $(,)?],
        $booked:expr,
        $free:expr,
        $billed:expr $(,)?
    ) => {
        vac_model::Reply::Report(vac_model::Report {
            cars: $cars,
            flights: $flights,
            rooms: $rooms,
            customers: $customers,
            bookings: $booked,
            used: $booked,
            free: $free,
            total: $booked + $free,
            billed: $billed,
        })
    };
}

// The reply to an update of three changes.
macro_rules! update {
    ($first:expr, $second:expr, $third:expr $(,)?) => {
        vac_model::Reply::Update(vac_model::UpdateReply {
            len: 3,
            refused: [
                $first, $second, $third, None, None, None, None, None, None, None, None, None, None,
                None, None, None, None, None, None, None, None, None, None, None, None, None, None,
                None, None, None, None, None,
            ],
        })
    };
}

pub(crate) use add;
pub(crate) use add_command;
pub(crate) use audit;
pub(crate) use bill;
pub(crate) use cancel;
pub(crate) use delete;
pub(crate) use delete_command;
pub(crate) use drop_customer;
pub(crate) use drop_flight;
pub(crate) use free;
pub(crate) use new_customer;
pub(crate) use number;
pub(crate) use pick;
pub(crate) use price;
pub(crate) use report;
pub(crate) use reserve;
pub(crate) use reserve_command;
pub(crate) use trip;
pub(crate) use update;
