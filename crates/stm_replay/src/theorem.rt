//! Laws of the running core and opacity: functions with empty bodies whose contracts are the
//! statements.

ghost use Rattle.stm_replay.specs.Follows.{RunningFollows};
ghost use Rattle.stm_replay.specs.Numbered.{AllowedWithNumbers, EveryEventIsPlayable, EveryListHasNumbers, LegalHistories, PlayedWithNumbers, SameButTags};
ghost use Rattle.stm_replay.specs.Opacity.{EveryListIsOpaque};

use std::alloc::Allocator;
use stm_core::Law;

/// States that the running core follows the abstract core after any list of allowed events. The
/// running core shows the core that the events lead to, and its order is the history of that core.
/// Each client's last step found the same word in both, and the running core allows just the
/// events that are allowed there.
pub fn running_theorem()
    ensures { RunningFollows }
{}

/// States that any list of events that a law allows can be played with numbers for its tags. The
/// running core has the law that allows every record, and numbers as tags. A list of events that
/// any law allows is allowed here with any numbers for its tags. The running core plays it. Its
/// records are the same but for the tags, which the numbers can tell apart.
pub fn law_theorem<L: Law, A: Allocator>()
    ensures allowed { AllowedWithNumbers L.lawful }
    ensures played { PlayedWithNumbers L.lawful }
    ensures records { SameButTags L.lawful }
    ensures history { LegalHistories L.lawful }
    ensures numbers { EveryListHasNumbers }
    ensures events { EveryEventIsPlayable A }
{}

/// States opacity (Guerraoui, Kapałka) in the model of atomic steps: in every list of allowed
/// events, committed, live and aborted attempts fit one order, in which each attempt reads what
/// the committed attempts before it leave. The order keeps the order of attempts of which one is
/// over when the other begins.
pub fn opaque<L: Law>()
    ensures { EveryListIsOpaque L.lawful }
{}
