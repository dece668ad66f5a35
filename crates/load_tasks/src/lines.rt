//! The line of one task.

ghost use Rattle.std.specs.Prelude.{◌≢◌, ◌++◌, OnOk, OnErr, IfErr};
ghost use Rattle.load_tasks.specs.declared.fault.TasksFault.TheVariants.{Arguments};
ghost use Rattle.vac_lines.specs.Writing.{AppendsPrefix};
ghost use Rattle.load_tasks.specs.Worklist.{task_line};
ghost use Rattle.vac_lines.specs.Sent.{Sent};

use crate::fault::TasksFault;
use std::io::Write;
use vac_lines::{print, send_chunk};
use vac_model::Task;

/// Appends the line of a client's task to the buffer, which is written if it has a chunk.
pub(crate) fn send_line<W: Write>(
    output: &mut W,
    hand: &mut Vec<u8>,
    client: u32,
    task: &Task,
) -> Result<(), TasksFault>
    ensures ok { OnOk result (Sent (W.contents output.old) (W.contents output.new)
        hand.old.items hand.new.items (task_line client task.now)) }
    ensures err { OnErr result (AppendsPrefix (W.contents output.old) (W.contents output.new)
        (hand.old.items ++ task_line client task.now)) }
    ensures in_range { IfErr result (λ fault. fault ≢ Arguments) }
{
    print(format_args!("{client} {task}\n"), hand)?;
    match send_chunk(output, hand) {
        Ok(()) => Ok(()),
        Err(_) => Err(TasksFault::Write),
    }
}
