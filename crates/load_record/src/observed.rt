//! Memories whose accesses are recorded.

ghost use Rattle.std.specs.Prelude.{◌≡◌};
ghost use Rattle.tx_memory.specs.Accesses.{IsTracked};
ghost use Rattle.load_record.specs.Known.{known};
ghost use Rattle.load_record.specs.Observed.{IsTracked-prop};

use crate::accesses::Accesses;
use tx_memory::{Access, Addr, TxMem, TxRead};

/// A memory whose accesses are recorded: each read and each write that the memory answers, and no
/// other. As a memory, it is the one that it wraps.
///
/// The recorded accesses are those of the reads and writes of the memory's view.
#[derive(Drop)]
pub(crate) struct Observed<'a, M: TxRead> {
    memory: &'a mut M,
    accesses: &'a mut Accesses,
    ghost tracked: { IsTracked (known accesses.now.is_whole accesses.now.items.items)
        (M.view memory.now).reads (M.view memory.now).writes } by { IsTracked-prop
            (known accesses.now.is_whole accesses.now.items.items)
            (M.view memory.now).reads (M.view memory.now).writes },
}

impl<'a, M: TxRead> Observed<'a, M> {
    /// Wraps a memory together with a list of accesses, which are those of the memory's reads and
    /// writes so far.
    pub(crate) fn new(memory: &'a mut M, accesses: &'a mut Accesses) -> Observed<'a, M>
        requires { IsTracked (known accesses.old.is_whole accesses.old.items.items)
            (M.view memory.old).reads (M.view memory.old).writes }
        ensures memory { result.memory.ghost_name ≡ memory.entry.ghost_name }
        ensures accesses { result.accesses.ghost_name ≡ accesses.entry.ghost_name }
        ensures memory_now { result.memory.now ≡ memory.old }
        ensures accesses_now { result.accesses.now ≡ accesses.old }
    {
        Observed { memory, accesses }
    }
}

impl<'a, M: TxRead> TxRead for Observed<'a, M> {
    ghost use Rattle.load_record.specs.Observed.{ObservedOrigin};

    type Stop = M::Stop;

    ghost Origin = { ObservedOrigin M.Origin };

    ghost origin = { λ s. record {
      origin = M.origin s.memory.now;
      memory_name = s.memory.ghost_name;
      accesses_name = s.accesses.ghost_name;
    } };

    ghost view = { λ s. M.view s.memory.now };

    ghost stopped_for = { λ s stop. M.stopped_for s.memory.now stop };

    #[inline]
    fn read(&mut self, addr: Addr) -> Result<u64, M::Stop> {
        let value = self.memory.read(addr)?;
        self.accesses.see(Access::Read { addr, value });
        Ok(value)
    }

    ghost seen = { λ s. M.seen s.memory.now };
}

impl<'a, M: TxMem> TxMem for Observed<'a, M> {
    #[inline]
    fn write(&mut self, addr: Addr, value: u64) -> Result<(), M::Stop> {
        self.memory.write(addr, value)?;
        self.accesses.see(Access::Write { addr, value });
        Ok(())
    }
}
