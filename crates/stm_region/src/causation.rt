//! Causes of the conflicts of running threads, as contracts of functions that do nothing.
ghost use Rattle.stm_region.specs.Caused.{EveryConflictOfARunHasACause, EveryConflictOfACallHasACause};

use stm_core::{Law, every_conflict_has_a_cause};

/// States that each conflict which a client's step shows in a run of a region has its cause in the
/// one list of the run. The list of the state after the step ends with the step, and another client
/// did what caused the conflict between the attempt's begin and the step.
pub fn conflicts_of_runs_have_causes<L: Law>()
    ensures { EveryConflictOfARunHasACause L.fits L.lawful }
{
    every_conflict_has_a_cause::<L>();
}

/// States that each conflict which a step call of a region shows has its cause in a list of events.
/// The list ends with that step and leads to the region's state right after the call.
pub fn conflicts_of_calls_have_causes<L: Law>()
    ensures { EveryConflictOfACallHasACause L.lawful }
{
    every_conflict_has_a_cause::<L>();
}
