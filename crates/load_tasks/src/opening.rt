//! The drawn commands of a load's setup phase.

ghost use Rattle.std.specs.Prelude.{◌≡◌, [], ◌∷◌, true};
ghost use Rattle.vac_model.specs.Amounts.{is_id};
ghost use Rattle.vac_model.specs.Ranges.{is_command};
ghost use Rattle.load_tasks.specs.Draws.{Drawn};
ghost use Rattle.load_tasks.specs.Tasks.{stock};

use crate::draws::Draws;
use crate::settings::{LEVELS, UNITS};
use crate::tasks::{draw_below, draw_price};
use vac_model::{Command, Kind};

/// Draws the command that adds the item of this id and kind in the setup phase: the words for its
/// units and its price.
pub fn draw_stock<D: Draws>(draws: &mut D, id: u32, kind: Kind) -> Command
    requires { is_id id ≡ true }
    ensures drawn { Drawn D.leads (stock id kind) draws.old (result ∷ []) draws.new }
    ensures range { is_command result ≡ true }
{
    let num = (draw_below(draws, LEVELS) + 1) * UNITS;
    let price = draw_price(draws);
    Command::Add {
        kind,
        id,
        num,
        price: Some(price),
    }
}
