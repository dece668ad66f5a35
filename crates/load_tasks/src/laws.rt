//! Laws of the lines of drawn tasks.

ghost use Rattle.load_tasks.specs.Laws.{TasksHaveOneText, DrawnLinesAreRead};

use vac_lines::{task_texts_are_read, task_texts_fit};

/// States that every load has exactly one text of its tasks, which [`write_tasks`] writes.
///
/// [`write_tasks`]: crate::write_tasks
pub fn tasks_have_one_text()
    ensures { TasksHaveOneText }
{}

/// States that the line of each drawn task is no longer than a line may be, and is read as that
/// task. An update has at most 32 changes, and its numbers have at most five digits.
pub fn drawn_lines_are_read()
    ensures { DrawnLinesAreRead }
{
    task_texts_are_read();
    task_texts_fit();
}
