//! Closing a region.
ghost use Rattle.std.specs.Prelude.{◌≡◌, ◌+◌, ◌≤◌, ◌<◌, ◌++◌, ◌∷◌, [], drop, length, slice_index, vec_len, vec_capacity, IfOk, IfErr};
ghost use Rattle.std.specs.Slots.{slots_items, slots_len, IsFull};
ghost use Rattle.stm_core.specs.Core.{IsFreeHanded};
ghost use Rattle.stm_region.specs.Closed.{Ends};
ghost use Rattle.stm_region.specs.Refused.{RefusesClose};

use crate::client::Client;
use crate::fault::RegionFault;
use crate::layout::CLOCK;
use crate::limits::MOST_GRANTS;
use crate::region::Region;
use atomic_table::Closed;
use std::alloc::Allocator;
use stm_core::{Law, Version};

/// Appends a word without allocating: the caller has reserved the room.
fn push<A: Allocator>(words: &mut Vec<u64, A>, word: u64)
    requires { vec_len words.old < vec_capacity words.old }
    ensures items { words.new.items ≡ words.old.items ++ word ∷ [] }
    ensures room { vec_capacity words.old ≤ vec_capacity words.new }
{
    if words.push(word).is_err() {
        unreachable!();
    }
}

/// Appends the words from the index `from` on, and returns the clock.
fn unload<A: Allocator, B: Allocator>(
    closed: &Closed<(), A>,
    from: usize,
    size: usize,
    words: &mut Vec<u64, B>,
) -> u64
    requires full { IsFull closed.now.words }
    requires range { (from + size ≡ slots_len closed.now.words) × (CLOCK < from) }
    requires all { slots_len closed.now.words ≡ length (slots_items closed.now.words) }
    requires room { (words.old.items ≡ []) × (size ≤ vec_capacity words.old) }
    ensures words { words.new.items ≡ drop from (slots_items closed.now.words) }
    ensures clock { result ≡ slice_index (slots_items closed.now.words) CLOCK }
{
    for k in 0..size {
        push(words, closed.word(from + k));
    }
    closed.word(CLOCK)
}

/// A region that was not closed, with its client and the reason.
type Kept<L, A> = (Region<L, A>, Client<L>, RegionFault);

impl<L: Law, A: Allocator> Region<L, A> {
    /// Closes the region if every other client was gathered, and returns its data words and its
    /// clock. The clock is the client's floor. A refusal returns the region and the client as they
    /// were.
    pub fn close<B: Allocator>(
        self,
        alloc: B,
        client: Client<L>,
    ) -> Result<(Vec<u64, B>, Version), Kept<L, A>>
        requires own { client.table ≡ self.table }
        requires free_handed { IsFreeHanded client.value }
        ensures ends { IfOk result (λ r. Ends L.lawful self client.value r.0.items r.1) }
        ensures all { IfOk result (λ _. client.value.grants ≡ MOST_GRANTS) }
        ensures kept { IfErr result (λ r.
            (r.0 ≡ self) × (r.1 ≡ client) × RefusesClose client.value.grants r.2) }
    {
        if client.grants != MOST_GRANTS {
            let out = MOST_GRANTS - client.grants;
            return Err((self, client, RegionFault::StillOut { out }));
        }
        let Ok(mut words) = Vec::with_capacity(alloc, self.size) else {
            return Err((self, client, RegionFault::Memory));
        };
        let version = self.take_out(client, &mut words);
        Ok((words, version))
    }

    /// Moves the data words into a vector with room for them, and returns the clock. The room is
    /// reserved before, so that no memory can be refused here.
    pub(crate) fn take_out<B: Allocator>(
        self,
        client: Client<L>,
        words: &mut Vec<u64, B>,
    ) -> Version
        requires own { client.table ≡ self.table }
        requires free_handed { IsFreeHanded client.value }
        requires all { client.value.grants ≡ MOST_GRANTS }
        requires room { (words.old.items ≡ []) × (self.size ≤ vec_capacity words.old) }
        ensures ends { Ends L.lawful self client.value words.new.items result }
        ensures fits { L.fits self.first }
    {
        let size = self.size;
        let cells = self.cells;
        let table = self.into_table();
        let (seat, _) = client.into_parts();
        let closed = table.close_with(seat);
        let clock = unload(&closed, cells, size, words);
        closed.free();
        let Some(version) = Version::new(clock) else {
            unreachable!()
        };
        version
    }
}
