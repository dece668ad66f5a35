//! The attempt statistics of a call, counted while the call runs.

ghost use Rattle.std.specs.Prelude.{◌≤◌};
ghost use Rattle.vac_manager.specs.Placed.{conflicts_of, locks_of};

use crate::placed::CallStatistics;
use stm_attempt::Stop;
use stm_core::Version;
use stm_object::{Body, CommitPosition, Object, Tracer};
use tx_memory::{TxMem, TxRead};

/// A tracer that counts the attempts of a call and passes each step on to another tracer.
pub(crate) struct CountingTracer<'a, T: Tracer> {
    pub(crate) statistics: &'a mut CallStatistics,
    pub(crate) tracer: &'a mut T,
    ghost conflicts: { conflicts_of statistics.now ≤ statistics.now.attempts },
    ghost locks: { locks_of statistics.now ≤ statistics.now.attempts },
}

impl<'a, T: Tracer> Tracer for CountingTracer<'a, T> {
    ghost use Rattle.std.specs.Prelude.{ℕ};
    ghost use Rattle.vac_manager.specs.declared.placed.CallStatistics.{CallStatistics};
    ghost use Rattle.vac_manager.specs.Placed.{counted};

    ghost Frame = { ℕ × ℕ × T.Frame };

    ghost frame = { λ c.
        (c.statistics.ghost_name, c.tracer.ghost_name, T.frame c.tracer.now) };

    ghost Tally = { CallStatistics };

    ghost tally = { λ c. c.statistics.now };

    ghost more = { λ conflict e. counted conflict e };

    ghost ended = { λ c. T.ended c.tracer.now };

    ghost accesses = { λ c. T.accesses c.tracer.now };

    ghost position = { λ c. T.position c.tracer.now };

    ghost latest = { λ c. T.latest c.tracer.now };

    #[inline]
    fn prepare(&mut self) {
        self.tracer.prepare();
    }

    #[inline]
    fn begun(&mut self, renewal: u32, version: Version) {
        self.tracer.begun(renewal, version);
    }

    #[inline]
    fn run<S: Object, B: Body<S>, M: TxMem>(
        &mut self,
        memory: &mut M,
        body: &B,
    ) -> Result<B::Answer, M::Stop> {
        self.tracer.run(memory, body)
    }

    #[inline]
    fn read<S: Object, B: Body<S>, M: TxRead>(
        &mut self,
        memory: &mut M,
        body: &B,
    ) -> Result<B::Answer, M::Stop> {
        self.tracer.read(memory, body)
    }

    #[inline]
    fn commit(&mut self, place: &CommitPosition) {
        self.statistics.count_answer();
        self.tracer.commit(place);
    }

    #[inline]
    fn give_up(&mut self, stop: &Stop) {
        self.statistics.count_stop(stop);
        self.tracer.give_up(stop);
    }
}
