//! Rounds of all desks: each desk gets a client and a thread of its own, and the clients are
//! gathered.

ghost use Rattle.std.specs.Prelude.{◌≡◌, ◌<◌, ◌+◌, true, IfOk, IfErr};
ghost use Rattle.ex_desk.specs.Setting.{is_desk_settings};
ghost use Rattle.ex_desk.specs.Desks.{session_of, HasServed, MayServe};
ghost use Rattle.ex_desk.specs.Rounds.{HasRunRound, MayRun};
ghost use Rattle.ex_desk.specs.Run.{AreOn};

use crate::asking::{Served, serve};
use crate::desk::Desk;
use crate::run::DeskFault;
use crate::settings::DeskSettings;
use std::alloc::Global;
use std::thread;
use std::thread::Threads;
use stm_region::RegionFault;
use vac_manager::{Client, Manager, RenewFault};

/// The desks after a round, with the client that gathered their clients.
#[derive(Drop)]
struct Round {
    client: Client,
    desks: Vec<Desk>,
}

/// The desks after some rounds, with the manager and its only client.
#[derive(Drop)]
pub(crate) struct OpenDesks {
    pub(crate) manager: Manager,
    pub(crate) client: Client,
    pub(crate) desks: Vec<Desk>,
    pub(crate) rounds: u32,
}

/// Runs one round of the desks, each in a thread of its own and with a client of its own. The
/// desks' clients are split off from this client and gathered into it again.
fn serve_all<R: Threads + Sync>(
    rt: &R,
    alloc: Global,
    manager: &Manager,
    settings: DeskSettings,
    client: Client,
    mut desks: Vec<Desk>,
) -> Result<Round, DeskFault>
    requires own { client.table ≡ manager.now.table }
    requires settings { is_desk_settings settings ≡ true }
    requires may { MayRun settings desks.items (session_of manager.now client) }
    ensures ran { IfOk result (λ r. HasRunRound settings desks.items r.desks.items
        (session_of manager.now client) (session_of manager.now r.client)) }
    ensures refused { IfErr result (λ fault. fault ≡ DeskFault.Memory) }
{
    let Some(desk) = desks.pop() else {
        return Ok(Round { client, desks });
    };
    let mut caller = manager.caller(client);
    let Ok(own) = caller.split() else {
        unreachable!()
    };
    let (client, own) = (caller.into_user(), own.into_user());
    let serve_one = move || -> Result<Served, DeskFault>
        requires { (own.table ≡ manager.now.table) × (is_desk_settings settings ≡ true)
            × MayServe settings desk }
        ensures { IfOk result (λ r. HasServed settings desk r.desk
            (session_of manager.entry.now own) (session_of manager.entry.now r.client))
            × IfErr result (λ fault. fault ≡ DeskFault.Memory) }
    { serve(alloc, settings, manager.caller(own), desk) };
    let serve_others = move || -> Result<Round, DeskFault>
        requires { (client.table ≡ manager.now.table) × (is_desk_settings settings ≡ true)
            × MayRun settings desks.items (session_of manager.now client) }
        ensures { IfOk result (λ r. HasRunRound settings desks.items r.desks.items
            (session_of manager.entry.now client) (session_of manager.entry.now r.client))
            × IfErr result (λ fault. fault ≡ DeskFault.Memory) }
    { serve_all(rt, alloc, manager, settings, client, desks) };
    let (served, round) = thread::join(rt, serve_one, serve_others);
    let (served, Round { client, mut desks }) = (served?, round?);
    let mut caller = manager.caller(client);
    caller.gather(manager.caller(served.client));
    let Ok(()) = desks.push(served.desk) else {
        return Err(DeskFault::Memory);
    };
    Ok(Round {
        client: caller.into_user(),
        desks,
    })
}

/// Renews the clock and runs one more round.
pub(crate) fn go_on<R: Threads + Sync>(
    rt: &R,
    alloc: Global,
    settings: DeskSettings,
    open_desks: OpenDesks,
) -> Result<OpenDesks, DeskFault>
    requires settings { is_desk_settings settings ≡ true }
    requires on { AreOn settings open_desks }
    requires rounds { open_desks.rounds < settings.rounds }
    ensures on { IfOk result (λ r. AreOn settings r) }
    ensures rounds { IfOk result (λ r. r.rounds ≡ open_desks.rounds + 1) }
    ensures refused { IfErr result (λ fault. fault ≡ DeskFault.Memory) }
{
    let (manager, client) = match open_desks.manager.renew(open_desks.client, settings.last) {
        Ok(renewed) => renewed,
        Err(RenewFault::Kept(_, _, fault)) => {
            prove!(fault == RegionFault::Memory);
            return Err(DeskFault::Memory);
        }
        Err(RenewFault::Closed(..)) => return Err(DeskFault::Memory),
    };
    let Round { client, desks } = serve_all(
        rt,
        alloc,
        &manager,
        settings,
        client,
        open_desks.desks,
    )?;
    Ok(OpenDesks {
        manager,
        client,
        desks,
        rounds: open_desks.rounds + 1,
    })
}
