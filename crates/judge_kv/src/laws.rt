//! Laws on the histories of whole stores. Each is the contract of a function that does nothing.

ghost use Rattle.judge_kv.specs.Classes.{ObjectsMakeStore};
ghost use Rattle.judge_kv.specs.Judging.{VerdictsDecideStore};

/// If the keys of each operation have one object, the history of a whole store is linearizable if
/// and only if the history of these objects is.
pub fn objects_make_the_store()
    ensures { ObjectsMakeStore }
{}

/// Verdicts on the classes of keys decide whether the calls of a text have a linearization of the
/// whole store, or an order of a weaker level.
pub fn verdicts_decide_the_store()
    ensures { VerdictsDecideStore }
{}
