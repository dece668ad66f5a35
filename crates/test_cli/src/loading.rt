//! Loads and setup phases as the tests run them. Contracts say nothing about their results, except
//! which manager a client belongs to.
ghost use Rattle.std.specs.Prelude.{◌≡◌, true, IfOk};
ghost use Rattle.load_tasks.specs.Setting.{is_settings};

use load_run::{Load, LoadFault, LoadReport, Slot, no_recorders, open_kept};
use load_tasks::{Draws, FixedDraws, Settings};
use std::alloc::Global;
use std::process::Abort;
use std::sync::Wait;
use std::thread::Threads;
use stm_attempt::{Gate, NoGate};
use vac_manager::{Client, Fault, Manager, NoRecorder};

/// Runs a load of these clients, each with its draws and its gate, without recorders.
pub(crate) fn load_with<
    R: Threads + Wait + AllocGlobal,
    D: Draws + Send + Drop,
    G: Gate + Send + Drop,
>(rt: &R, settings: &Settings, opening: D, clients: Vec<(D, G)>) -> Result<LoadReport, LoadFault> {
    let mut slots = Vec::new(rt.alloc());
    for (draws, gate) in clients {
        let keep = NoRecorder;
        if slots.push(Slot { draws, gate, keep }).is_err() {
            return Err(LoadFault::Memory);
        }
    }
    let load = Load::new(rt.alloc(), settings, opening, NoRecorder, slots)?;
    let (report, _efforts, _kept) = load.run(rt)?;
    Ok(report)
}

/// Runs the load of the seed of its settings, without recorders.
pub(crate) fn load_of_seed<R: Threads + Wait + AllocGlobal>(
    rt: &R,
    settings: &Settings,
) -> Result<LoadReport, LoadFault> {
    let Ok(recorders) = no_recorders(rt.alloc(), settings.clients) else {
        return Err(LoadFault::Memory);
    };
    let load = Load::by_seed(rt.alloc(), settings, NoGate, recorders)?;
    let (report, _efforts, _kept) = load.run(rt)?;
    Ok(report)
}

/// Runs a load of one client that draws only zeros.
pub(crate) fn load_of_zeros<R: Threads + Wait + AllocGlobal>(
    rt: &R,
    settings: &Settings,
) -> Result<LoadReport, LoadFault> {
    let Ok(clients) = vec![in rt.alloc(); (FixedDraws(0), NoGate)] else {
        return Err(LoadFault::Memory);
    };
    load_with(rt, settings, FixedDraws(0), clients)
}

/// Runs a load of these clients, whose setup phase draws only zeros, and returns its report.
pub(crate) fn gated_load<R: Threads + Wait + Abort + AllocGlobal, G: Gate + Send + Drop>(
    rt: &R,
    settings: &Settings,
    clients: Vec<(FixedDraws, G)>,
) -> LoadReport {
    let Ok(loaded) = load_with(rt, settings, FixedDraws(0), clients) else {
        panic!(rt; "the load stopped")
    };
    loaded
}

/// Returns a manager with the entries of the setup phase, and its client.
pub(crate) fn opened<D: Draws>(
    alloc: Global,
    settings: &Settings,
    draws: &mut D,
) -> Result<(Manager, Client), Fault>
    requires { is_settings settings.now ≡ true }
    ensures { IfOk result (λ opened. opened.1.table ≡ opened.0.table) }
{
    let (manager, client) = Manager::new(alloc, settings.blocks, settings.last)?;
    let mut caller = manager.caller(client);
    open_kept(&mut caller, draws, settings, &mut NoRecorder)?;
    let client = caller.into_user();
    Ok((manager, client))
}
