//! The attempts of all clients, as lines to be written.

ghost use Rattle.std.specs.Prelude.{◌≡◌, ◌+◌, ◌<◌, ◌^◌, ◌++◌, true, length, map, OnOk};
ghost use Rattle.load_record.specs.Lines.{line_entry};
ghost use Rattle.load_record.specs.Noted.{all_noted};
ghost use Rattle.load_record.specs.Pages.{attempts_of, page_of, pages_of, is_told, are_told};
ghost use Rattle.load_record.specs.Pages.{attempt_entries_of, entries_on, attempt_entries_from};

use crate::StampClock;
use crate::ledger::AttemptRecorder;
use crate::lines::Line;
use load_tasks::OPENING;
use std::alloc::AllocError;
use vac_manager::{CompletedCall, TracedAttempt};

/// Adds attempts of a client.
pub(crate) fn add_attempts<'a>(
    lines: &mut Vec<Line<'a>>,
    client: u32,
    attempts: &'a [TracedAttempt],
) -> Result<(), AllocError>
    ensures { OnOk result (map line_entry lines.new.items
        ≡ map line_entry lines.old.items ++ attempt_entries_of client attempts.now) }
{
    for attempt in attempts {
        lines.push(Line { client, attempt })?;
    }
    Ok(())
}

/// Adds the attempts of a client's completed calls. An error means that there was no room for some
/// attempt.
fn add_answered<'a>(
    lines: &mut Vec<Line<'a>>,
    client: u32,
    calls: &'a [CompletedCall],
) -> Result<(), AllocError>
    ensures added { OnOk result (map line_entry lines.new.items
        ≡ map line_entry lines.old.items ++ attempt_entries_of client (attempts_of calls.now)) }
    ensures noted { OnOk result (all_noted calls.now ≡ true) }
{
    for call in calls {
        let Some(attempt) = &call.attempt else {
            return Err(AllocError);
        };
        lines.push(Line {
            client,
            attempt: &**attempt,
        })?;
    }
    Ok(())
}

/// Adds all attempts of a client.
fn add_client<'a, W: StampClock + Copy + Drop>(
    lines: &mut Vec<Line<'a>>,
    client: u32,
    ledger: &'a AttemptRecorder<W>,
) -> Result<(), AllocError>
    ensures added { OnOk result (map line_entry lines.new.items
        ≡ map line_entry lines.old.items ++ entries_on client (page_of ledger.now)) }
    ensures told { OnOk result (is_told (page_of ledger.now) ≡ true) }
{
    add_answered(lines, client, ledger.journal().notes())?;
    add_attempts(lines, client, ledger.trail().given_up())
}

/// Adds all attempts of the setup phase, as client 0, and of the clients, numbered from 1.
pub(crate) fn add_all<'a, W: StampClock + Copy + Drop>(
    lines: &mut Vec<Line<'a>>,
    opening: &'a AttemptRecorder<W>,
    clients: &'a [AttemptRecorder<W>],
) -> Result<(), AllocError>
    requires few { length clients.now < 2 ^ 32 }
    ensures added { OnOk result (map line_entry lines.new.items
        ≡ map line_entry lines.old.items
        ++ attempt_entries_from 0 (pages_of opening.now clients.now)) }
    ensures told { OnOk result (are_told (pages_of opening.now clients.now) ≡ true) }
{
    add_client(lines, OPENING, opening)?;
    'clients: for place in 0..clients.len() {
        add_client(lines, place as u32 + 1, &clients[place])?;
    }
    Ok(())
}
