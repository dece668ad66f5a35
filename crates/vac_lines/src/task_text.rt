//! Laws on the plain lines of tasks.

ghost use Rattle.vac_lines.specs.TaskText.{TaskTextsAreRead, TaskTextsFit};

/// States that a valid task is read back from the line that its `Display` writes, if that line has
/// at most [`LINE_BYTES`](crate::LINE_BYTES) bytes.
pub fn task_texts_are_read()
    ensures { TaskTextsAreRead }
{}

/// States that the plain line of a valid task is no longer than a line may be, unless the task is
/// an update of 26 changes or more, one of which has a number of six digits or more.
pub fn task_texts_fit()
    ensures { TaskTextsFit }
{}
