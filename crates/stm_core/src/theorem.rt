//! The core theorem and worked lists of events: laws, that is, functions with empty bodies whose
//! contracts are the statements.

ghost use Rattle.stm_core.specs.Examples.{WorkedLists};
ghost use Rattle.stm_core.specs.Theorem.{EveryListIsSerializable, free_law};

use crate::law::Law;

/// States the core theorem: every core that a list of allowed events leads to is serializable,
/// from any image, any last version and any number of stripes.
pub fn core_theorem()
    ensures { EveryListIsSerializable free_law }
{}

/// States the core theorem for the records that a law allows.
pub fn core_theorem_of<L: Law>()
    ensures { EveryListIsSerializable L.lawful }
{}

/// States that the worked lists of events are allowed, and that each decides exactly the records,
/// leaves exactly the aborted attempts, or both, that were worked out for it. Two writers leave the
/// images that were worked out for four versions.
pub fn worked_lists_have_their_records()
    ensures { WorkedLists }
{}
