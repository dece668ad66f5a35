//! Clients of a manager.

use crate::law::Vacation;
use stm_object::{User, UserState};
use tx_alloc::FreeList;

/// A client of a manager: the right to call the manager, from one thread at a time. Between calls
/// a client holds no lock. Contracts see the client's region, its value, and its free lists.
pub type Client = User<Vacation>;

/// A client together with the manager that it calls.
pub type Caller<'a> = stm_object::Caller<'a, Vacation>;

/// The free lists of a client.
#[derive(Clone, Copy, Debug, PartialEq, Eq)]
pub struct Lists {
    /// The free list that the client's new entries take their blocks from.
    pub start: FreeList,
    /// The free list for the new entries of the next client that is split off from this one.
    pub next: FreeList,
}

impl UserState for Lists {
    ghost use Rattle.vac_manager.specs.Called.{SplitsLists};

    ghost splits = { λ before after other. SplitsLists before after other };

    fn split(&mut self) -> Lists {
        let start = self.next;
        self.next = start.next();
        Lists {
            start,
            next: self.next,
        }
    }
}
