//! The transactions of the ring.

ghost use Rattle.std.specs.Prelude.{◌≡◌, ◌%◌};

use crate::law::{HEAD, RingObject, SLOTS, TAIL};
use stm_object::{Query, Update};
use tx_memory::{Addr, TxMem, TxRead, load, store};

/// Returns the slot of the value with this number.
fn slot(number: u64) -> Addr
    ensures { result.0 ≡ number % SLOTS }
{
    Addr((number % u64::from(SLOTS)) as u32)
}

/// A push: puts this value behind the others if there is room, and returns whether there was.
#[derive(Drop)]
pub struct Push(pub u64);

impl Update<RingObject> for Push {
    ghost use Rattle.ex_ring.specs.declared.entry.Entry.TheVariants.{Push as Pushed};

    type Answer = bool;

    ghost entry_of = { λ s room. Pushed s.0 room };

    ghost changes = { λ s room. room };

    fn run<M: TxMem>(&self, memory: &mut M) -> Result<bool, M::Stop> {
        let head = load(memory, Addr(HEAD))?;
        let tail = load(memory, Addr(TAIL))?;
        if tail - head >= u64::from(SLOTS) || tail == u64::MAX {
            return Ok(false);
        }
        store(memory, slot(tail), self.0)?;
        store(memory, Addr(TAIL), tail + 1)?;
        Ok(true)
    }
}

/// A pop: takes out the oldest value, if there is one.
#[derive(Drop)]
pub struct Pop;

impl Update<RingObject> for Pop {
    ghost use Rattle.std.specs.Prelude.{is_some};
    ghost use Rattle.ex_ring.specs.Queue.{popping};

    type Answer = Option<u64>;

    ghost entry_of = { λ s taken. popping taken };

    ghost changes = { λ s taken. is_some taken };

    fn run<M: TxMem>(&self, memory: &mut M) -> Result<Option<u64>, M::Stop> {
        let head = load(memory, Addr(HEAD))?;
        let tail = load(memory, Addr(TAIL))?;
        if head >= tail {
            return Ok(None);
        }
        let value = load(memory, slot(head))?;
        store(memory, Addr(HEAD), head + 1)?;
        Ok(Some(value))
    }
}

/// A count of the values.
#[derive(Drop)]
pub struct Count;

impl Query<RingObject> for Count {
    ghost use Rattle.ex_ring.specs.declared.entry.Entry.TheVariants.{Len};

    type Answer = u64;

    ghost entry_of = { λ s count. Len count };

    fn read<M: TxRead>(&self, memory: &mut M) -> Result<u64, M::Stop> {
        let head = load(memory, Addr(HEAD))?;
        let tail = load(memory, Addr(TAIL))?;
        Ok(tail - head)
    }
}
