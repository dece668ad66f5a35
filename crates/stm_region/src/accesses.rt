//! The kinds of atomic access to the table: load, exchange, store, and the subtraction that gives
//! a lock back. The proof picks the event that an access stands for. Parameters that a body does
//! not use are for the proof, which needs them to name the event.
ghost use Rattle.std.specs.Prelude.{◌≡◌, ℕ, ◌+◌, ◌-◌, ◌<◌, ◌^◌};
ghost use Rattle.stm_core.specs.Core.{left};
ghost use Rattle.stm_core.specs.Event.{tick as ticks, give_back as gives_back, finish as finishes};
ghost use Rattle.stm_region.specs.Shown.{MayStep, value_after};
ghost use Rattle.stm_region.specs.Layout.{MayStepAt, Exchanges, Stores};
ghost use Rattle.stm_region.specs.Findings.{IsOneEvent, HasActed};

use crate::layout::{CLOCK, FIRST_LOCK};
use crate::moving::{AccessStep, Acts};
use crate::region::Region;
use crate::view::View;
use atomic_table::Seat;
use std::alloc::Allocator;
use stm_core::{Law, Tag, Version, Writes};

impl<L: Law, A: Allocator> Region<L, A> {
    /// Loads a word.
    #[inline]
    pub(crate) fn load_as<T: AccessStep>(
        &self,
        seat: &mut Seat<(), View>,
        word: usize,
        number: u32,
    ) -> u64
        requires told { T.region ≡ self.now }
        requires own { seat.old.table_id ≡ self.now.table }
        requires ready { MayStepAt L.lawful self.now T.action word seat.old.me.0 }
        requires loads { (n : ℕ) → left T.action n seat.old.me.0 ≡ n }
        ensures acted { HasActed L.fits L.lawful self.now T.action result
            seat.old.table_id seat.old.me seat.new.table_id seat.new.me }
    {
        let _ = number;
        self.table.shared.load::<Acts<L, T>>(seat, word)
    }

    /// Compares a word with `from` and exchanges it for the next word. Returns the word found.
    #[inline]
    pub(crate) fn exchange_as<T: AccessStep>(
        &self,
        seat: &mut Seat<(), View>,
        word: usize,
        from: u64,
        number: u32,
    ) -> u64
        requires told { T.region ≡ self.now }
        requires own { seat.old.table_id ≡ self.now.table }
        requires room { from + 1 < 2 ^ 64 }
        requires ready { MayStepAt L.lawful self.now T.action word seat.old.me.0 }
        requires exchanges { Exchanges T.action from seat.old.me.0 }
        ensures acted { HasActed L.fits L.lawful self.now T.action result
            seat.old.table_id seat.old.me seat.new.table_id seat.new.me }
    {
        let _ = number;
        self.table
            .shared
            .compare_exchange::<Acts<L, T>>(seat, word, from, from + 1)
    }

    /// Stores a word.
    #[inline]
    pub(crate) fn store_as<T: AccessStep>(
        &self,
        seat: &mut Seat<(), View>,
        word: usize,
        new: u64,
        number: u32,
    )
        requires told { T.region ≡ self.now }
        requires own { seat.old.table_id ≡ self.now.table }
        requires ready { MayStepAt L.lawful self.now T.action word seat.old.me.0 }
        requires stores { Stores T.action new seat.old.me.0 }
        ensures acted { HasActed L.fits L.lawful self.now T.action new
            seat.old.table_id seat.old.me seat.new.table_id seat.new.me }
    {
        let _ = number;
        self.table.shared.store::<Acts<L, T>>(seat, word, new)
    }

    /// Gives a lock back by subtracting 1: a held lock word less 1 is the free word of its old
    /// version.
    #[inline]
    pub(crate) fn give_back_as<T: AccessStep>(
        &self,
        seat: &mut Seat<(), View>,
        word: usize,
        number: u32,
    )
        requires told { T.region ≡ self.now }
        requires gives { T.action ≡ gives_back number }
        requires own { seat.old.table_id ≡ self.now.table }
        requires range { number < self.now.stripes }
        requires place { word ≡ FIRST_LOCK + number }
        requires allowed { MayStep L.lawful self.now (gives_back number) seat.old.me.0 }
        ensures table { seat.new.table_id ≡ seat.old.table_id }
        ensures me { seat.new.me
            ≡ (value_after self.now (gives_back number) 0 seat.old.me.0, seat.old.me.1) }
        ensures event { (found : ℕ) × IsOneEvent L.lawful self.now (gives_back number) found
            seat.old.me.0 seat.new.me.0 }
    {
        let _ = number;
        self.table.shared.fetch_sub::<Acts<L, T>>(seat, word, 1);
    }

    /// Ticks the clock for a record with this tag and these writes. Returns the version found.
    #[inline]
    pub(crate) fn tick_as<S: AccessStep, T: Tag, W: Writes>(
        &self,
        seat: &mut Seat<(), View>,
        from: Version,
        tag: &T,
        writes: &W,
    ) -> u64
        requires told { S.region ≡ self.now }
        requires ticks { S.action ≡ ticks from (T.numbers tag.now) (W.pairs writes.now) }
        requires own { seat.old.table_id ≡ self.now.table }
        requires allowed { MayStep L.lawful self.now S.action seat.old.me.0 }
        ensures acted { HasActed L.fits L.lawful self.now S.action result
            seat.old.table_id seat.old.me seat.new.table_id seat.new.me }
    {
        let _ = tag;
        let _ = writes;
        self.exchange_as::<S>(seat, CLOCK, from.get(), 0)
    }

    /// Loads the clock, which ends an attempt with this tag.
    #[inline]
    pub(crate) fn finish_as<S: AccessStep, T: Tag>(&self, seat: &mut Seat<(), View>, tag: &T) -> u64
        requires told { S.region ≡ self.now }
        requires finishes { S.action ≡ finishes (T.numbers tag.now) }
        requires own { seat.old.table_id ≡ self.now.table }
        requires allowed { MayStep L.lawful self.now S.action seat.old.me.0 }
        ensures acted { HasActed L.fits L.lawful self.now S.action result
            seat.old.table_id seat.old.me seat.new.table_id seat.new.me }
    {
        let _ = tag;
        self.load_as::<S>(seat, CLOCK, 0)
    }
}
