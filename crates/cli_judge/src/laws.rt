//! A law of the verdict on a history and of the part that is written for it. It is the contract of
//! a function that does nothing.

ghost use Rattle.cli_judge.specs.Laws.{PartsOfVerdictsAreIllegal};

use judge_linear::an_order_that_is_found_shows_the_level;
use judge_part_text::{illegal_part_texts_are_written_for_cuts, parts_are_written_for_cuts};

/// States that, after a verdict `illegal part L SCOPE` at the level of linearizability, `part
/// --until L` writes a part for the customers and items of SCOPE, and that this part has no order:
/// no order of its calls is a linearization, in a system of the greatest number of blocks, and no
/// search finds one. The replies of the part must be texts of replies.
pub fn parts_of_illegal_verdicts_are_written_illegal()
    ensures { PartsOfVerdictsAreIllegal }
{
    parts_are_written_for_cuts();
    illegal_part_texts_are_written_for_cuts();
    an_order_that_is_found_shows_the_level();
}
