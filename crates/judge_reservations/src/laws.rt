//! Laws of parts. Each is the contract of a function that does nothing.

ghost use Rattle.judge_reservations.specs.declared.scope.Scope.{Scope};
ghost use Rattle.judge_reservations.specs.Laws.{IllegalPartsShow, PartsAreLinearizable};
ghost use Rattle.judge_reservations.specs.Laws.{CallsOfCutsHaveParts, PartOfCut};
ghost use Rattle.judge_reservations.specs.Laws.{FinerPartsAreIllegal, PartOfPart};

/// The part of a linearizable history is linearizable, on any scope that all calls of the history
/// fit. So an illegal part shows that the history is illegal.
pub fn parts_of_linearizable_histories_are_linearizable()
    ensures { (scope : Scope) → PartsAreLinearizable scope }
{}

/// A history all of whose calls have parts on a scope (`has_part`) is illegal if its part on that
/// scope is, whatever the number of blocks, up to the greatest.
pub fn illegal_parts_show_illegal_histories()
    ensures { (scope : Scope) → IllegalPartsShow scope }
{}

/// The part of a cut of a history is the cut of the part of the history.
pub fn the_part_of_a_cut_is_the_cut_of_the_part()
    ensures { (scope : Scope) → PartOfCut scope }
{}

/// A scope on which all calls of a history have parts (`has_part`) has parts of all calls of each
/// cut of the history.
pub fn calls_of_cuts_have_parts()
    ensures { (scope : Scope) → CallsOfCutsHaveParts scope }
{}

/// A part of a part is the part. If two scopes have the same customers and items, and the closed
/// items and whole customers of the first are among those of the second, then the part on the first
/// scope of the part on the second scope is the part on the first scope.
pub fn the_part_of_a_part_is_the_part()
    ensures { (one other : Scope) → PartOfPart one other }
{}

/// If the part of a history on a scope is illegal, then the part is illegal on each scope of the
/// same customers and items with these closed items and whole customers, and perhaps more, on which
/// all calls have parts.
pub fn illegal_parts_show_that_finer_parts_are_illegal()
    ensures { (one other : Scope) → FinerPartsAreIllegal one other }
{}
