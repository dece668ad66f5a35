//! Laws on histories of many objects. Each is the contract of a function that does nothing.

ghost use Rattle.judge_text.specs.Many.{PartsAreLinearizable, PartsMakeLinearizable};

use crate::named::Named;

/// If a history of many objects is linearizable, the history of each object is.
pub fn a_linearizable_history_has_linearizable_parts<M: Named>()
    ensures { PartsAreLinearizable M.rules M.name }
{}

/// If the history of each object is linearizable, the whole is, if no client made a call at the
/// moment at which an earlier one of its own ended (Herlihy and Wing, TOPLAS 1990: locality).
pub fn parts_make_a_linearizable_history<M: Named>()
    ensures { PartsMakeLinearizable M.rules M.name }
{}
