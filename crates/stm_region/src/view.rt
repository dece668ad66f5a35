//! The knowledge of a seat of a region's table.

use std::marker::Model;

/// The knowledge of a seat of the table: the value of its client. It exists in proofs only; no
/// value of this type is made.
pub struct View {
    none: (),
}

impl Model for View {
    ghost use Rattle.stm_core.specs.Client.{Client};
    ghost use Rattle.stm_core.specs.Event.{opener};

    ghost Value = { Client };

    ghost view = { λ _. opener };
}
