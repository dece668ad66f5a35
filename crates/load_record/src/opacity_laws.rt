//! Laws on the text of attempts. Each law is the contract of a function with an empty body.

ghost use Rattle.load_record.specs.Entries.{FewAccessesFit};
ghost use Rattle.load_record.specs.Examples.{WorkedAttempts};
ghost use Rattle.load_record.specs.LoadExample.{WorkedLoad};
ghost use Rattle.load_record.specs.Judged.{AttemptTextsAreRead, TextsAreJudgedByTheirEntries};
ghost use Rattle.load_record.specs.Judged.{TextsAreOpaqueUpToPrecedence};
ghost use Rattle.load_record.specs.Records.{OutcomesAreJudgedApart, SerialAttemptsAreLegal};
ghost use Rattle.load_record.specs.Records.{AttemptsInPlaceAreLegal};
ghost use Rattle.load_record.specs.Loads.{LoadsBeginWithTheirHeap, LoadsMakeTheirHistory};
ghost use Rattle.load_record.specs.Loads.{LoadsAreJudgedByAbortsAndTimes};
ghost use Rattle.load_record.specs.InPlace.{LoadsAreJudgedByTimes};
ghost use Rattle.load_record.specs.InTurn.{LoadsAreJudgedByPrecedence};
ghost use Rattle.load_record.specs.Ordered.{OrderedAttemptsAreMadeSerially};
ghost use Rattle.load_record.specs.Ordered.{HistoriesAreOpaqueUpToPrecedence};

/// States that an attempt whose numbers fit has a line that is no longer than a line of attempts
/// may be, if it makes at most 2,164,800 reads and writes, at no more words than the judge takes.
pub fn few_accesses_fit()
    ensures { FewAccessesFit }
{}

/// States that the text of attempts which fit a number of words is read back as these attempts,
/// one attempt a line. An attempt fits if its numbers fit their types, each of its reads and
/// writes is at one of the words, and its line is no longer than a line of attempts may be.
pub fn attempt_texts_are_read()
    ensures { AttemptTextsAreRead }
{}

/// States that the text of attempts which fit is opaque for the judge if and only if each attempt,
/// committed or not, reads what the committed attempts before it and its own writes leave, the
/// attempts of each client are in turn, and no attempt comes before an attempt that had ended
/// before it began.
pub fn texts_are_judged_by_their_entries()
    ensures { TextsAreJudgedByTheirEntries }
{}

/// States that the text of attempts which fit, are legal and are in turn for each client is opaque
/// for the judge if and only if no attempt comes before an attempt that had ended before it began.
pub fn texts_are_opaque_up_to_precedence()
    ensures { TextsAreOpaqueUpToPrecedence }
{}

/// States that all attempts of a list are legal if and only if the committed ones are legal and
/// the aborted ones are legal.
pub fn outcomes_are_judged_apart()
    ensures { OutcomesAreJudgedApart }
{}

/// States that the committed attempts of a list are legal if the first of them write an image to
/// words that are all 0, and the others made records which are serial from that image, one attempt
/// for each record, in this order.
///
/// Not said: anything about the reads of the aborted attempts.
pub fn serial_attempts_are_legal()
    ensures { SerialAttemptsAreLegal }
{}

/// States that all attempts of a list are legal if the committed ones are made serially, as
/// `serial_attempts_are_legal` has it, and each aborted attempt reads the image that the committed
/// attempts before it leave, and its own writes.
///
/// Not said: that the aborted attempts of a load do so. `loads_are_judged_by_their_times` says from
/// what their legality follows.
pub fn attempts_in_place_are_legal()
    ensures { AttemptsInPlaceAreLegal }
{}

/// States that attempts which are sorted by commit position, as a load writes them, are made
/// serially if the first committed ones write an image, and the others made the records of a
/// sorted history that is serial from the image, one attempt for each record, in any order.
pub fn ordered_attempts_are_made_serially()
    ensures { OrderedAttemptsAreMadeSerially }
{}

/// States that the text of attempts which fit and are sorted by commit position is opaque for the
/// judge if and only if no attempt comes before an attempt that had ended before it began. The
/// committed attempts write an image and make the records of a history, the aborted ones read the
/// image that the committed ones before them leave, and the attempts of each client are in turn.
///
/// Not said: that the attempts of each of a load's clients are in turn.
pub fn histories_are_opaque_up_to_precedence()
    ensures { HistoriesAreOpaqueUpToPrecedence }
{}

/// States that the attempts of a load are sorted by commit position, and that the first lines of
/// their text are exactly the words of the heap that are not 0, in the order of the addresses. So
/// the first committed attempts are those that write this image, as
/// `histories_are_opaque_up_to_precedence` asks, and the judge reads their lines at as many words
/// as the heap has.
///
/// Not said: that the other attempts of a load made a serial history, read in place, are in turn,
/// or fit. `write_attempts` writes only attempts that fit.
pub fn attempts_of_a_load_begin_with_its_heap()
    ensures { LoadsBeginWithTheirHeap }
{}

/// States that the committed attempts of a load, in the order in which they are written, made the
/// history of its calls, as `histories_are_opaque_up_to_precedence` asks: if the completed calls
/// of the load made the records of a sorted history that is serial from the words of the heap, one
/// call for each record, in any order.
pub fn attempts_of_a_load_make_its_history()
    ensures { LoadsMakeTheirHistory }
{}

/// States that the text of a load's attempts, at as many words as its heap has, is opaque for the
/// judge if and only if each aborted attempt reads what the committed attempts before it and its
/// own writes leave, the attempts of each client are in turn, and no attempt comes before an
/// attempt that had ended before it began. So the judge can find no other fault, if the attempts
/// fit and the completed calls of the load made a history, as
/// `attempts_of_a_load_make_its_history` asks.
///
/// Not said: that a load's aborted attempts and times are right. `write_attempts` writes only
/// attempts that fit, and whoever ran the load knows the history that its calls made.
pub fn loads_are_judged_by_their_aborts_and_times()
    ensures { LoadsAreJudgedByAbortsAndTimes }
{}

/// States that all attempts of a load are legal, and that their text, at as many words as the heap
/// has, is opaque for the judge if and only if the attempts of each client are in turn, and no
/// attempt comes before an attempt that had ended before it began: if the attempts fit, the
/// completed calls of the load made a history, and each aborted attempt reads the image of its
/// version in this history.
///
/// Not said: that a load's times are right.
pub fn loads_are_judged_by_their_times()
    ensures { LoadsAreJudgedByTimes }
{}

/// States that the text of a load's attempts, at as many words as its heap has, is opaque for the
/// judge if and only if no attempt comes before an attempt that had ended before it began: if the
/// conditions of `loads_are_judged_by_their_times` hold, and each client made its attempts one
/// after the other, at commit positions that never go back.
///
/// Not said: that the order keeps precedence. The clock readings of two clients do not show which
/// of them read first.
pub fn loads_are_judged_by_precedence()
    ensures { LoadsAreJudgedByPrecedence }
{}

/// States that three attempts, worked out by hand, meet the conditions of
/// `histories_are_opaque_up_to_precedence` which speak of the records, of the aborted attempts and
/// of the times.
pub fn worked_attempts_meet_the_conditions()
    ensures { WorkedAttempts }
{}

/// States that a small load, worked out by hand, meets the conditions of
/// `loads_are_judged_by_their_aborts_and_times`, `loads_are_judged_by_their_times` and
/// `loads_are_judged_by_precedence`, and that its aborted attempts and times are right: the words
/// of one block, one completed call and one aborted attempt. So its text is opaque.
pub fn a_worked_load_meets_the_conditions()
    ensures { WorkedLoad }
{}
