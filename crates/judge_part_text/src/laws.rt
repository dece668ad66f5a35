//! Laws on the text of a part. Each law is the contract of a function that does nothing.

ghost use Rattle.judge_part_text.specs.Laws.{IllegalPartsShow, IllegalTextsShow};
ghost use Rattle.judge_part_text.specs.Laws.{IllegalPartsUntilShow, IllegalTextsUntilShow};
ghost use Rattle.judge_part_text.specs.Laws.{IllegalPartsAreWritten, IllegalTextsAreWritten};
ghost use Rattle.judge_part_text.specs.Laws.{PartsAreWrittenForCuts};

use judge_calls::histories_are_read;
use judge_reservations::{
    calls_of_cuts_have_parts, illegal_parts_show_illegal_histories,
    illegal_parts_show_that_finer_parts_are_illegal, the_part_of_a_cut_is_the_cut_of_the_part,
};

/// States that a history is not linearizable, in a system of any number of blocks, if its part
/// whose text was written is not linearizable in a system of the greatest number of blocks.
pub fn illegal_parts_that_are_written_show_illegal_histories()
    ensures { IllegalPartsShow }
{
    illegal_parts_show_illegal_histories();
}

/// States that a history is not linearizable if the calls that are read from the written text of
/// its part are not linearizable, in a system of the greatest number of blocks. The replies of the
/// part must be texts of replies.
pub fn illegal_part_texts_show_illegal_histories()
    ensures { IllegalTextsShow }
{
    illegal_parts_show_illegal_histories();
    histories_are_read();
}

/// States that neither a history nor its cut at the end of a call is linearizable, in a system of
/// any number of blocks, if the part of the cut whose text was written is not linearizable in a
/// system of the greatest number of blocks.
pub fn illegal_parts_until_an_end_show_illegal_histories()
    ensures { IllegalPartsUntilShow }
{
    illegal_parts_show_illegal_histories();
}

/// States that neither a history nor its cut at the end of a call is linearizable if the calls that
/// are read from the written text of the part of the cut are not linearizable, in a system of the
/// greatest number of blocks. The replies of the part must be texts of replies.
pub fn illegal_part_texts_until_an_end_show_it()
    ensures { IllegalTextsUntilShow }
{
    illegal_parts_until_an_end_show_illegal_histories();
    histories_are_read();
}

/// States that the part which is written for the cut of a history at the end of a call has no order
/// if a part on a scope of the same customers and items, as it stood at that end, had none. All
/// calls of the history have parts on that scope. The written part is on a scope of the cut, with
/// as many closed items and whole customers as can be, so it says at least as much.
pub fn illegal_parts_are_written_for_cuts()
    ensures { IllegalPartsAreWritten }
{
    the_part_of_a_cut_is_the_cut_of_the_part();
    calls_of_cuts_have_parts();
    illegal_parts_show_that_finer_parts_are_illegal();
}

/// States that no order of the calls which are read from the written text of the part of a cut is a
/// linearization, if a part on a scope of the same customers and items had none at that end. The
/// replies of the part must be texts of replies.
pub fn illegal_part_texts_are_written_for_cuts()
    ensures { IllegalTextsAreWritten }
{
    illegal_parts_are_written_for_cuts();
    histories_are_read();
}

/// States that a part is written for the cut of a history at the end of a call, and no fault, if a
/// part on a scope of the same customers and items, as it stood at that end, had no order.
pub fn parts_are_written_for_cuts()
    ensures { PartsAreWrittenForCuts }
{
    calls_of_cuts_have_parts();
}
