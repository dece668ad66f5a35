//! The tasks of a load, written as lines.

ghost use Rattle.std.specs.Prelude.{◌≡◌, ◌≢◌, ◌↔◌, true, false, [], OnOk, OnErr, IfErr, IsErrOf};
ghost use Rattle.std.specs.Io.KnownBytes.{Appends};
ghost use Rattle.load_tasks.specs.Setting.{is_settings};
ghost use Rattle.load_tasks.specs.Worklist.{WroteTasks, WroteTasksPrefix};
ghost use Rattle.load_tasks.specs.Sending.{SentTasks};

use crate::client_lines::send_tasks;
use crate::fault::TasksFault;
use crate::opening_lines::send_opening;
use crate::{PcgDraws, Settings};
use std::alloc::Global;
use std::io::Write;
use vac_lines::send_rest;

/// Sends the lines of the setup phase and of all clients.
fn send_all<W: Write>(
    alloc: Global,
    output: &mut W,
    hand: &mut Vec<u8>,
    settings: &Settings,
) -> Result<(), TasksFault>
    requires settings { is_settings settings.now ≡ true }
    requires empty { hand.old.items ≡ [] }
    ensures ok { OnOk result (SentTasks settings.now settings.now.clients
        (W.contents output.old) (W.contents output.new) hand.new.items) }
    ensures err { OnErr result
        (WroteTasksPrefix settings.now (W.contents output.old) (W.contents output.new)) }
    ensures in_range { IfErr result (λ fault. fault ≢ TasksFault.Arguments) }
{
    let mut draws = PcgDraws::new(settings.seed, 0);
    send_opening(output, hand, &mut draws, settings)?;
    'clients: for number in 0..settings.clients {
        let client = number + 1;
        let mut draws = PcgDraws::new(settings.seed, u64::from(client));
        send_tasks(alloc, output, hand, &mut draws, settings, client)?;
    }
    Ok(())
}

/// Writes the tasks of a load with these settings, one a line as `CLIENT LINE`. LINE is what the
/// `Display` of the task writes. The commands of the setup phase come first, under client 0, then
/// the tasks of client 1 in all rounds, then those of client 2, and so on. The tasks are exactly
/// those of the load with these settings. The settings for attempts, blocks and the last version
/// change nothing, but must be in their ranges.
///
/// Takes memory for one chunk of text and one task. After a fault, nothing or a prefix of the
/// whole text was written.
pub fn write_tasks<W: Write>(
    alloc: Global,
    settings: &Settings,
    output: &mut W,
) -> Result<(), TasksFault>
    ensures arguments { IsErrOf result TasksFault.Arguments
        ↔ (is_settings settings.now ≡ false) }
    ensures nothing { is_settings settings.now ≡ false
        → Appends (W.contents output.old) (W.contents output.new) [] }
    ensures ok { OnOk result
        (WroteTasks settings.now (W.contents output.old) (W.contents output.new)) }
    ensures err { OnErr result
        (WroteTasksPrefix settings.now (W.contents output.old) (W.contents output.new)) }
{
    if !settings.is_in_range() {
        return Err(TasksFault::Arguments);
    }
    let mut hand = Vec::new(alloc);
    send_all(alloc, output, &mut hand, settings)?;
    match send_rest(output, hand.as_slice()) {
        Ok(()) => Ok(()),
        Err(_) => Err(TasksFault::Write),
    }
}
