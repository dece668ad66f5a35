//! Laws of levels and of cuts. Each is the contract of a function that does nothing.

ghost use Rattle.judge_object.specs.LevelLaws.{LinearizableIsSequential, SequentialIsSerializable};
ghost use Rattle.judge_object.specs.LevelLaws.{LevelIsRelaxed};
ghost use Rattle.judge_object.specs.Cut.{CutIsLinearizable, CutOfCut, LaterCutsAreIllegal};

use crate::object::Object;

/// States that a linearizable history is sequentially consistent.
pub fn linearizable_histories_are_sequentially_consistent<M: Object>()
    ensures { LinearizableIsSequential M.rules }
{}

/// States that a sequentially consistent history is serializable.
pub fn sequentially_consistent_histories_are_serializable<M: Object>()
    ensures { SequentialIsSerializable M.rules }
{}

/// States that a history is at a level if and only if it is linearizable once the order is taken
/// from its calls that the level does not keep. So a search for a linearization decides each level.
pub fn a_level_is_linearizability_without_its_order<M: Object>()
    ensures { LevelIsRelaxed M.rules }
{}

/// States that each cut of a linearizable history is linearizable: a history that is linearizable
/// was so at each moment.
pub fn a_cut_of_a_linearizable_history_is_linearizable<M: Object>()
    ensures { CutIsLinearizable M.rules }
{}

/// States that a cut of a cut, at an earlier moment, is the cut of the history at that moment.
pub fn a_cut_of_a_cut_is_a_cut<M: Object>()
    ensures { CutOfCut M.Op }
{}

/// States that no later cut of a history is linearizable if the cut at a moment is not. So an
/// illegal history has a first moment at which it is illegal.
pub fn cuts_after_an_illegal_cut_are_illegal<M: Object>()
    ensures { LaterCutsAreIllegal M.rules }
{}
