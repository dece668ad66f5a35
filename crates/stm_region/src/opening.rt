//! The opening of a region's table, and its invariant.

ghost use Rattle.stm_region.specs.Rule.{IsCoreState};

use crate::view::View;
use atomic_table::{Seat, TableRule};
use boxcar::tag::Tag;
use std::alloc::{Allocator, Global};
use std::marker::{Model, PhantomData};
use std::snapshot::Snapshot;
use stm_core::Law;

/// The opening of a region, which the invariant of its table is given once: the words at the
/// opening, the last version and the number of lock words. After a renewal also: the words of the
/// first opening, the number of renewals, and the last seat of the table before.
#[derive(Drop)]
pub struct Opening<A: Allocator = Global> {
    pub(crate) words: Snapshot<Vec<u64, A>>,
    pub(crate) last: u64,
    pub(crate) stripes: u32,
    pub(crate) first: Option<Tag>,
    pub(crate) renewal: u32,
    pub(crate) start: Option<Snapshot<Seat<(), View>>>,
}

impl<A: Allocator> Model for Opening<A> {
    ghost use Rattle.std.specs.Prelude.{drop};
    ghost use Rattle.stm_region.specs.Shown.{Opened};
    ghost use Rattle.stm_region.specs.Layout.{first_cell};
    ghost use Rattle.std.specs.Prelude.{option_map};
    ghost use Rattle.stm_region.specs.Shown.{started, first_words};

    ghost Value = { Opened };

    ghost view = { λ o. record {
      image = drop (first_cell o.stripes) o.words.value.items;
      last = o.last;
      stripes = o.stripes;
      first = first_words (drop (first_cell o.stripes) o.words.value.items)
          (option_map (λ t. t.numbers) o.first);
      renewal = o.renewal;
      start = started (option_map (λ s. s.value.me.0) o.start);
    } };
}

/// The invariant of a region's table: its words and the clients' values are a core state that
/// meets the version invariant.
pub struct RegionRule<L> {
    of: PhantomData<L>,
}

impl<L: Law, A: Allocator> TableRule<(), View, Opening<A>> for RegionRule<L> {
    ghost holds = { λ o s. IsCoreState L.fits L.lawful o s };

    ghost first = { λ o. o.start };
}
