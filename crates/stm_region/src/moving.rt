//! The effect of each move of a region's table on the clients that make it, and the facts that
//! steps on the table report. These types are for the proofs alone.

ghost use Rattle.stm_core.specs.Event.{Action, begin, giving, fresh, gone};
ghost use Rattle.stm_region.specs.Shown.{RegionShown, with_gathered, nowhere};
ghost use Rattle.stm_region.specs.Findings.{acting};

use crate::view::View;
use atomic_table::{Join, Play, Split};
use std::marker::{Brand, PhantomData};
use stm_core::Law;

/// The step of a region that an access stands for.
pub trait AccessStep {
    ghost action: { Action };

    ghost region: { RegionShown };
}

impl AccessStep for Brand {
    ghost action = { begin };

    ghost region = { nowhere };
}

/// A step: it has the event's effect on the client's value.
pub struct Acts<L, T> {
    of: PhantomData<(L, T)>,
}

impl<L: Law, T: AccessStep> Play<(), View> for Acts<L, T> {
    ghost then = { λ s m n w. acting L.fits L.lawful T.region T.action s m n w };
}

/// A split: one grant goes to a new client.
pub struct Gives;

impl Split<View> for Gives {
    ghost left = { giving };

    ghost right = { fresh };
}

/// A gathering: the second client's records and grants go to the first client.
pub struct Takes;

impl Join<View> for Takes {
    ghost both = { with_gathered };

    ghost spent = { gone };
}
