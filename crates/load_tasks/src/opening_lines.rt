//! The lines of the setup phase.

ghost use Rattle.std.specs.Prelude.{◌≡◌, ◌≢◌, ◌<◌, ◌++◌, ◌^◌, true, OnOk, OnErr, IfErr, flat_map};
ghost use Rattle.vac_model.specs.Amounts.{is_id};
ghost use Rattle.load_tasks.specs.Draws.{for_each};
ghost use Rattle.load_tasks.specs.Setting.{is_settings};
ghost use Rattle.load_tasks.specs.Tasks.{stock, stocks, customers, opening};
ghost use Rattle.load_tasks.specs.declared.fault.TasksFault.TheVariants.{Arguments};
ghost use Rattle.vac_lines.specs.Writing.{AppendsPrefix};
ghost use Rattle.load_tasks.specs.Worklist.{opening_line};
ghost use Rattle.vac_lines.specs.Sent.{Sent};
ghost use Rattle.load_tasks.specs.Sending.{SentLines, SentInPart};

use crate::fault::TasksFault;
use crate::lines::send_line;
use crate::{PcgDraws, Settings, draw_stock};
use std::io::Write;
use vac_model::{Command, Kind, Task};

/// The client under which the commands of the setup phase are written.
pub const OPENING: u32 = 0;

/// Sends the line of the command that adds an item of this kind.
fn send_stock<W: Write>(
    output: &mut W,
    hand: &mut Vec<u8>,
    draws: &mut PcgDraws,
    id: u32,
    kind: Kind,
) -> Result<(), TasksFault>
    requires { is_id id ≡ true }
    ensures ok { OnOk result (SentLines (stock id kind) opening_line draws.old draws.new
        (W.contents output.old) (W.contents output.new) hand.old.items hand.new.items) }
    ensures err { OnErr result (SentInPart (stock id kind) opening_line draws.old
        (W.contents output.old) (W.contents output.new) hand.old.items) }
    ensures in_range { IfErr result (λ fault. fault ≢ Arguments) }
{
    let command = draw_stock(draws, id, kind);
    send_line(output, hand, OPENING, &Task::One(command))
}

/// Sends the lines of the commands that add an item of each kind, for each id from 1 on.
fn send_items<W: Write>(
    output: &mut W,
    hand: &mut Vec<u8>,
    draws: &mut PcgDraws,
    items: u32,
) -> Result<(), TasksFault>
    requires { items < 2 ^ 31 }
    ensures ok { OnOk result (SentLines (for_each items stocks) opening_line
        draws.old draws.new (W.contents output.old) (W.contents output.new)
        hand.old.items hand.new.items) }
    ensures err { OnErr result (SentInPart (for_each items stocks) opening_line draws.old
        (W.contents output.old) (W.contents output.new) hand.old.items) }
    ensures in_range { IfErr result (λ fault. fault ≢ Arguments) }
{
    'items: for place in 0..items {
        let id = place + 1;
        send_stock(output, hand, draws, id, Kind::Car)?;
        send_stock(output, hand, draws, id, Kind::Flight)?;
        send_stock(output, hand, draws, id, Kind::Room)?;
    }
    Ok(())
}

/// Sends the lines of the commands that create the customers from 1 on.
fn send_customers<W: Write>(
    output: &mut W,
    hand: &mut Vec<u8>,
    count: u32,
) -> Result<(), TasksFault>
    ensures ok { OnOk result (Sent (W.contents output.old) (W.contents output.new)
        hand.old.items hand.new.items (flat_map opening_line (customers count))) }
    ensures err { OnErr result (AppendsPrefix (W.contents output.old) (W.contents output.new)
        (hand.old.items ++ flat_map opening_line (customers count))) }
    ensures in_range { IfErr result (λ fault. fault ≢ Arguments) }
{
    'customers: for place in 0..count {
        let command = Command::NewCustomer { id: place + 1 };
        send_line(output, hand, OPENING, &Task::One(command))?;
    }
    Ok(())
}

/// Sends the lines of the commands of the setup phase, drawn from stream 0.
pub(crate) fn send_opening<W: Write>(
    output: &mut W,
    hand: &mut Vec<u8>,
    draws: &mut PcgDraws,
    settings: &Settings,
) -> Result<(), TasksFault>
    requires { is_settings settings.now ≡ true }
    ensures ok { OnOk result (SentLines (opening settings.now) opening_line
        draws.old draws.new (W.contents output.old) (W.contents output.new)
        hand.old.items hand.new.items) }
    ensures err { OnErr result (SentInPart (opening settings.now) opening_line draws.old
        (W.contents output.old) (W.contents output.new) hand.old.items) }
    ensures in_range { IfErr result (λ fault. fault ≢ Arguments) }
{
    send_items(output, hand, draws, settings.items)?;
    send_customers(output, hand, settings.items)
}
