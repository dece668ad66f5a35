//! The bodies of transactions.

ghost use Rattle.std.specs.Prelude.{◌≡◌, Bool, false, not, is_some, IfSome, IfOk, IfErr};
ghost use Rattle.stm_object.specs.Bodies.{HasValue, HasEffect};

use crate::object::Object;
use std::marker::PhantomData;
use stm_core::Tag;
use tx_memory::{TxMem, TxRead};

/// A transaction that may write, over any memory. `entry_of` is the entry of an answer, and
/// `changes` tells for which answers the transaction may have written.
///
/// Not said: that an answer for which `changes` is true wrote something.
pub trait Update<S: Object> {
    /// The answer of the transaction.
    type Answer: Drop;

    ghost entry_of: { Self → Self.Answer → S.Entry };

    ghost changes: { Self → Self.Answer → Bool };

    /// Runs the transaction on the memory.
    fn run<M: TxMem>(&self, memory: &mut M) -> Result<Self::Answer, M::Stop>
        requires value { HasValue S.is (M.view memory.old) }
        ensures origin { M.origin memory.new ≡ M.origin memory.old }
        ensures answer { IfOk result (λ a. HasEffect S.is (M.view memory.old) (M.view memory.new)
            (entry_of self.now a)) }
        ensures wrote { IfOk result (λ a. changes self.now a ≡ false →
            (M.view memory.new).writes ≡ (M.view memory.old).writes) };
}

/// A transaction that only reads, over any memory. `entry_of` is the entry of an answer.
pub trait Query<S: Object> {
    /// The answer of the transaction.
    type Answer: Drop;

    ghost entry_of: { Self → Self.Answer → S.Entry };

    /// Runs the transaction on the memory, which is only read.
    fn read<M: TxRead>(&self, memory: &mut M) -> Result<Self::Answer, M::Stop>
        requires value { HasValue S.is (M.view memory.old) }
        ensures origin { M.origin memory.new ≡ M.origin memory.old }
        ensures answer { IfOk result (λ a. HasEffect S.is (M.view memory.old) (M.view memory.new)
            (entry_of self.now a)) }
        ensures stopped { IfErr result (λ stop. M.stopped_for memory.new stop) };
}

/// The body of a transaction, over any memory, for callers that learn only at run time whether the
/// body may write. `entry_of` is the entry of an answer, and `changes` tells for which answers the
/// body may have written.
///
/// Not said: that an answer for which `changes` is true wrote something.
pub trait Body<S: Object> {
    /// The answer of the body.
    type Answer: Drop;

    ghost reads: { Self → Bool };

    ghost entry_of: { Self → Self.Answer → S.Entry };

    ghost changes: { Self → Self.Answer → Bool };

    /// Returns whether the body only reads.
    fn only_reads(&self) -> bool
        ensures { result ≡ reads self.now };

    /// Runs the body on the memory if the body only reads. Otherwise returns None and does
    /// nothing.
    fn read<M: TxRead>(&self, memory: &mut M) -> Option<Result<Self::Answer, M::Stop>>
        requires value { HasValue S.is (M.view memory.old) }
        ensures some { is_some result ≡ reads self.now }
        ensures origin { M.origin memory.new ≡ M.origin memory.old }
        ensures answer { IfSome result (λ r. IfOk r (λ a.
            HasEffect S.is (M.view memory.old) (M.view memory.new) (entry_of self.now a))) }
        ensures stopped { IfSome result (λ r. IfErr r (λ stop. M.stopped_for memory.new stop)) };

    /// Runs the body on the memory if the body may write. Otherwise returns None and does nothing.
    fn run<M: TxMem>(&self, memory: &mut M) -> Option<Result<Self::Answer, M::Stop>>
        requires value { HasValue S.is (M.view memory.old) }
        ensures some { is_some result ≡ not (reads self.now) }
        ensures origin { M.origin memory.new ≡ M.origin memory.old }
        ensures answer { IfSome result (λ r. IfOk r (λ a.
            HasEffect S.is (M.view memory.old) (M.view memory.new) (entry_of self.now a))) }
        ensures wrote { IfSome result (λ r. IfOk r (λ a. changes self.now a ≡ false →
            (M.view memory.new).writes ≡ (M.view memory.old).writes)) };
}

/// An update as a body, for a call with a gate or a tracer.
#[derive(Drop)]
pub struct UpdateBody<'a, U> {
    pub update: &'a U,
}

impl<'a, S: Object, U: Update<S>> Body<S> for UpdateBody<'a, U> {
    ghost use Rattle.std.specs.Prelude.{false};

    type Answer = U::Answer;

    ghost reads = { λ _. false };

    ghost entry_of = { λ b a. U.entry_of b.update.now a };

    ghost changes = { λ b a. U.changes b.update.now a };

    #[inline]
    fn only_reads(&self) -> bool {
        false
    }

    #[inline]
    fn read<M: TxRead>(&self, _memory: &mut M) -> Option<Result<U::Answer, M::Stop>> {
        None
    }

    #[inline]
    fn run<M: TxMem>(&self, memory: &mut M) -> Option<Result<U::Answer, M::Stop>> {
        Some(self.update.run(memory))
    }
}

/// A query as a body, for a call with a gate or a tracer.
#[derive(Drop)]
pub struct QueryBody<'a, Q> {
    pub query: &'a Q,
}

impl<'a, S: Object, Q: Query<S>> Body<S> for QueryBody<'a, Q> {
    ghost use Rattle.std.specs.Prelude.{true, false};

    type Answer = Q::Answer;

    ghost reads = { λ _. true };

    ghost entry_of = { λ b a. Q.entry_of b.query.now a };

    ghost changes = { λ _ _. false };

    #[inline]
    fn only_reads(&self) -> bool {
        true
    }

    #[inline]
    fn read<M: TxRead>(&self, memory: &mut M) -> Option<Result<Q::Answer, M::Stop>> {
        Some(self.query.read(memory))
    }

    #[inline]
    fn run<M: TxMem>(&self, _memory: &mut M) -> Option<Result<Q::Answer, M::Stop>> {
        None
    }
}

/// The tag of the record of a body and its answer. The tag stands for the code of their entry and
/// copies neither.
#[derive(Drop)]
pub(crate) struct EntryTag<'a, S: Object, B: Body<S>> {
    pub(crate) body: &'a B,
    pub(crate) answer: &'a B::Answer,
    pub(crate) of: PhantomData<S>,
}

impl<'a, S: Object, B: Body<S>> Tag for EntryTag<'a, S, B> {
    ghost numbers = { λ t. S.is.code (B.entry_of t.body.now t.answer.now) };
}
