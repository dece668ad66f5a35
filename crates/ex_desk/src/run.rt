//! The desks, from the opening of their manager to its closing.

ghost use Rattle.std.specs.Prelude.{◌≡◌, ◌⊎◌, ◌↔◌, true, false, IfOk, IfErr, IsErrOf};
ghost use Rattle.ex_desk.specs.Setting.{is_desk_settings};
ghost use Rattle.ex_desk.specs.Run.{AreOn, AreEnded, Desked};

use crate::desk::{Desk, is_left, new_desks};
use crate::rounds::{OpenDesks, go_on};
use crate::settings::DeskSettings;
use crate::trips::stock;
use std::alloc::Global;
use std::thread::Threads;
use stm_region::RegionFault;
use thiserror::Error;
use vac_manager::{Fault, Manager, call, report_of};
use vac_model::Report;

/// The results of the desks: the progress of each desk, the number of rounds, and the report of
/// the words.
#[derive(Debug, Drop, PartialEq, Eq)]
pub struct DeskReport {
    pub desks: Vec<Desk>,
    pub rounds: u32,
    pub report: Report,
}

/// The reason why the desks were not run to their end.
#[derive(Clone, Copy, Debug, PartialEq, Eq, Error)]
pub enum DeskFault {
    /// A setting is out of its range.
    #[error("a setting is out of its range")]
    Arguments,
    /// Memory was refused.
    #[error("out of memory")]
    Memory,
}

/// Opens a manager, and adds the stock as its first task.
fn open(alloc: Global, settings: DeskSettings) -> Result<OpenDesks, DeskFault>
    requires settings { is_desk_settings settings ≡ true }
    ensures on { IfOk result (λ r. AreOn settings r) }
    ensures refused { IfErr result (λ fault. fault ≡ DeskFault.Memory) }
{
    let Ok(task) = stock(alloc, settings.units) else {
        return Err(DeskFault::Memory);
    };
    let Ok(desks) = new_desks(alloc) else {
        return Err(DeskFault::Memory);
    };
    let Ok((manager, client)) = Manager::new(alloc, settings.blocks, settings.last) else {
        return Err(DeskFault::Memory);
    };
    let mut caller = manager.caller(client);
    let answer = call(&mut caller, &task, 1);
    let client = caller.into_user();
    match answer {
        Ok(_) => Ok(OpenDesks {
            manager,
            client,
            desks,
            rounds: 0,
        }),
        Err(fault) => {
            prove!(fault == Fault::Memory);
            Err(DeskFault::Memory)
        }
    }
}

/// Closes the manager, and returns the results of the desks.
fn close(open_desks: OpenDesks, settings: DeskSettings) -> Result<DeskReport, DeskFault>
    requires on { AreOn settings open_desks }
    requires ended { AreEnded settings open_desks.desks.items open_desks.rounds }
    ensures ran { IfOk result (λ r. Desked settings r) }
    ensures rounds { IfOk result (λ r. r.rounds ≡ open_desks.rounds) }
    ensures refused { IfErr result (λ fault. fault ≡ DeskFault.Memory) }
{
    match open_desks.manager.close(open_desks.client) {
        Ok((words, _)) => Ok(DeskReport {
            desks: open_desks.desks,
            rounds: open_desks.rounds,
            report: report_of(words),
        }),
        Err((_, _, fault)) => {
            prove!(fault == RegionFault::Memory);
            Err(DeskFault::Memory)
        }
    }
}

/// Runs rounds until no trip is left, or until `settings.rounds` rounds were run.
fn run_rounds<R: Threads + Sync>(
    rt: &R,
    alloc: Global,
    settings: DeskSettings,
) -> Result<DeskReport, DeskFault>
    requires settings { is_desk_settings settings ≡ true }
    ensures ran { IfOk result (λ r. Desked settings r) }
    ensures refused { IfErr result (λ fault. fault ≡ DeskFault.Memory) }
{
    let mut open_desks = open(alloc, settings)?;
    'rounds: while open_desks.rounds < settings.rounds && is_left(&open_desks.desks, settings) {
        open_desks = go_on(rt, alloc, settings, open_desks)?;
    }
    close(open_desks, settings)
}

/// Opens a manager with a stock, and lets four desks book their trips in threads of their own, in
/// rounds. Each round begins with a renewal of the clock. A round ends when each desk has no trip
/// left or has found the clock at its last version. The rounds end when no trip is left, or when
/// all of them were run.
pub fn run_desks<R: Threads + Sync + AllocGlobal>(
    rt: &R,
    settings: DeskSettings,
) -> Result<DeskReport, DeskFault>
    ensures arguments { IsErrOf result DeskFault.Arguments ↔ (is_desk_settings settings ≡ false) }
    ensures ran { IfOk result (λ r. Desked settings r) }
    ensures refused { IfErr result
        (λ fault. (fault ≡ DeskFault.Arguments) ⊎ (fault ≡ DeskFault.Memory)) }
{
    if !settings.is_in_range() {
        return Err(DeskFault::Arguments);
    }
    run_rounds(rt, rt.alloc(), settings)
}
