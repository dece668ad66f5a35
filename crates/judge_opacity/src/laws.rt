//! Laws on verdicts. Each is the contract of a function that does nothing.

ghost use Rattle.judge_opacity.specs.Laws.{OpaqueIsOpacity, OpaqueCounts};
ghost use Rattle.judge_opacity.specs.Placing.{PlacementsKeepAttempts};
ghost use Rattle.judge_opacity.specs.Placed.{PlacedIsOpacity};
ghost use Rattle.judge_opacity.specs.Wrongs.{IllegalIsFirstWrongAttempt, FaultIsFirstNoAttempt};

/// States that a text of attempts is found opaque if and only if each of its lines is an attempt
/// and the order of the lines shows that the attempts are opaque. In such an order each attempt,
/// committed or not, reads the values that the committed attempts before it and its own writes
/// leave. The attempts of each client do not overlap and are in their order, and no attempt comes
/// before an attempt that had ended before it began.
///
/// Not said: that no other order would show opacity if the given order does not.
pub fn a_finding_sees_opacity()
    ensures { OpaqueIsOpacity }
{}

/// States that the verdict on opaque attempts gives the number of attempts, the number of
/// committed attempts and the number of clients.
pub fn opaque_attempts_are_counted()
    ensures { OpaqueCounts }
{}

/// States that the verdict names the first wrong line of the text, and the first cause. The
/// verdict calls a line illegal if and only if the order of the lines before it shows that the
/// attempts are opaque, and with the attempt of the line the order does not. First cause: the
/// attempts of a client are not in turn. Second: the attempt had ended before an earlier attempt
/// of the order began. Third: the first read of the attempt that is not legal is at this word,
/// which has this value at that point.
pub fn a_finding_names_the_first_wrong_attempt()
    ensures { IllegalIsFirstWrongAttempt }
{}

/// States that the verdict is the fault of a line if and only if the line is no attempt by this
/// fault, and the order of the lines before it shows that the attempts are opaque.
pub fn a_fault_names_the_first_line_that_is_no_attempt()
    ensures { FaultIsFirstNoAttempt }
{}

/// States that a verdict on a text of attempts of which only the committed writers have places is
/// opaque if and only if each line is an attempt, and the other attempts have places at which the
/// order shows that all attempts are opaque.
pub fn a_placed_verdict_sees_opacity()
    ensures { PlacedIsOpacity }
{}

/// States that places only move attempts: an order with places has the same attempts as the text,
/// and its committed writers stand in the order of the text.
pub fn places_keep_the_attempts()
    ensures { PlacementsKeepAttempts }
{}
