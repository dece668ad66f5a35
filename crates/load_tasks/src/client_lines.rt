//! The lines of the clients' tasks.

ghost use Rattle.std.specs.Prelude.{◌≡◌, ◌≢◌, ◌*◌, true, OnOk, OnErr, IfErr};
ghost use Rattle.load_tasks.specs.Draws.{times_over};
ghost use Rattle.load_tasks.specs.Setting.{is_settings};
ghost use Rattle.load_tasks.specs.Tasks.{task_of};
ghost use Rattle.load_tasks.specs.declared.fault.TasksFault.TheVariants.{Arguments};
ghost use Rattle.load_tasks.specs.Worklist.{task_line};
ghost use Rattle.load_tasks.specs.Sending.{SentLines, SentInPart};

use crate::fault::TasksFault;
use crate::lines::send_line;
use crate::{PcgDraws, Settings, draw_task};
use std::alloc::Global;
use std::io::Write;

/// Draws the tasks of a client in all rounds, and sends their lines.
pub(crate) fn send_tasks<W: Write>(
    alloc: Global,
    output: &mut W,
    hand: &mut Vec<u8>,
    draws: &mut PcgDraws,
    settings: &Settings,
    client: u32,
) -> Result<(), TasksFault>
    requires { is_settings settings.now ≡ true }
    ensures ok { OnOk result (SentLines
        (times_over (settings.now.rounds * settings.now.tasks) (task_of settings.now))
        (task_line client) draws.old draws.new (W.contents output.old) (W.contents output.new)
        hand.old.items hand.new.items) }
    ensures err { OnErr result (SentInPart
        (times_over (settings.now.rounds * settings.now.tasks) (task_of settings.now))
        (task_line client) draws.old (W.contents output.old) (W.contents output.new)
        hand.old.items) }
    ensures in_range { IfErr result (λ fault. fault ≢ Arguments) }
{
    'tasks: for _ in 0..settings.rounds * settings.tasks {
        let task = draw_task(alloc, draws, settings)?;
        send_line(output, hand, client, &task)?;
    }
    Ok(())
}
