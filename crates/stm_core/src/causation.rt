//! The causes of conflicts, and worked lists of events, as contracts of functions that do nothing.

ghost use Rattle.stm_core.specs.ConflictExamples.{WorkedConflicts};
ghost use Rattle.stm_core.specs.Progress.{EveryListIsProgressive, OfEveryList};
ghost use Rattle.stm_core.specs.Progress.{UntouchedMeetsNone, ConflictsAreCounted, SpentClockDecidesNone};

use crate::law::Law;

/// Every conflict has a cause, as a contract, in every list of allowed events. Between the begin of
/// the attempt and the step that shows the conflict, another client held that lock, released it
/// with a newer version, took it after the attempt's last probe of it, or won the ticks that the
/// attempt lost. So an attempt that no other client disturbs meets no conflict.
pub fn every_conflict_has_a_cause<L: Law>()
    ensures { EveryListIsProgressive L.lawful }
{}

/// States that an attempt meets no conflict if no other client holds, takes or releases one of the
/// attempt's stripes while the attempt runs, and the attempt loses fewer than
/// [`MOST_TICKS`](crate::MOST_TICKS) ticks. The stripes of an attempt are the locks of the words
/// that it reads and writes. Other clients may commit to any other words meanwhile.
///
/// Not said: that the attempt commits. It may stop between two steps, and it may give its locks
/// back on its own account.
pub fn untouched_attempts_meet_no_conflict<L: Law>()
    ensures { OfEveryList L.lawful UntouchedMeetsNone }
{}

/// States that conflicts are not more than steps of others. If n attempts of a client meet
/// conflicts at locks that no other client held when the attempts began, then other clients take or
/// release locks at n steps or more in that time.
pub fn conflicts_have_as_many_steps_of_others<L: Law>()
    ensures { OfEveryList L.lawful ConflictsAreCounted }
{}

/// States that a spent clock stops every attempt that holds a lock and has won no tick, also if no
/// other client is there. No step decides the attempt. To end, the attempt must give its locks
/// back, which is no conflict.
pub fn a_spent_clock_decides_no_writer<L: Law>()
    ensures { OfEveryList L.lawful SpentClockDecidesNone }
{}

/// Worked lists of events, as a contract: each ends in a conflict of its kind, with its cause.
pub fn worked_conflicts_have_their_causes()
    ensures { WorkedConflicts }
{}
