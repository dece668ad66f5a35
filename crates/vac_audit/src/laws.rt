//! Laws of the audit of words: functions with empty bodies whose contracts are the statements.

ghost use Rattle.vac_audit.specs.Laws.{StateFound, StateClean, FlawedIsNone, FlawInside, EnoughLevels};
ghost use Rattle.vac_audit.specs.Examples.{SoundHeaps, OneFlaw, TwoFlaws};

/// States that the audit finds exactly the balanced states. Words in which the audit meets no flaw
/// represent a balanced state of at most 262,144 blocks, and the report is that state's report.
/// The words of such a state have no flaw, so words with a flaw represent no such state.
pub fn an_audit_finds_the_balanced_states()
    ensures found { StateFound }
    ensures clean { StateClean }
    ensures flawed { FlawedIsNone }
{}

/// States the audits of worked heaps: three without a flaw, one for each kind of damage, and
/// twelve with two flaws, of which the first counts.
pub fn damaged_words_have_their_flaws()
    ensures sound { SoundHeaps }
    ensures one { OneFlaw }
    ensures two { TwoFlaws }
{}

/// States that every flaw is met at a word of the heap.
pub fn flaws_have_their_words()
    ensures { FlawInside }
{}

/// States that the levels that the definition of the audit counts down never run out: each level
/// reaches one more block, and no block is reached twice.
pub fn levels_never_run_out()
    ensures { EnoughLevels }
{}
