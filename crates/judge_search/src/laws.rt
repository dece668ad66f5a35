//! Laws of the exact search. Each is the contract of a function that does nothing.

ghost use Rattle.judge_search.specs.Deciding.{SearchesEnd, EnoughStepsDecide};

use judge_object::Object;

/// States that a search makes at most as many steps as one that tries each order of the calls.
pub fn a_search_ends<M: Object>()
    ensures { SearchesEnd M.rules }
{}

/// States that a search is decided if it may make as many steps as one that tries each order of the
/// calls: it finds a linearization, or that there is none. So the search misses none.
pub fn enough_steps_decide<M: Object>()
    ensures { EnoughStepsDecide M.rules }
{}
