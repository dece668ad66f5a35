//! Laws on the order of a history. Each law is the contract of a function with an empty body.

ghost use Rattle.load_record.specs.Legal.{OrderedCallsAreLegal, LegalUpToPrecedence};
ghost use Rattle.load_record.specs.Legal.{TextsAreLegalUpToPrecedence};

/// States that the calls of a legal history of records are legal in the order in which they are
/// written, in which the readers of one version are in the order of their begins. Run one after
/// the other, the calls give their replies and leave the final state of the history, and the calls
/// of each client do not overlap and are in their order.
pub fn ordered_calls_are_legal()
    ensures { OrderedCallsAreLegal }
{}

/// States that calls which are legal in their order (`AreLegal`) form a linearization if and only
/// if no call that ended before another began comes after that other call. Only this last
/// condition depends on how the times of two clients compare.
pub fn legal_up_to_precedence()
    ensures { LegalUpToPrecedence }
{}

/// States that the text of calls which are legal in their order (`AreLegal`), if the text is read
/// as these calls, is legal for the judge if and only if no call that ended before another began
/// comes after that other call.
pub fn texts_are_legal_up_to_precedence()
    ensures { TextsAreLegalUpToPrecedence }
{}
