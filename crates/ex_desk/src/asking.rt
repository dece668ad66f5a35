//! A desk issues its trips.

ghost use Rattle.std.specs.Prelude.{◌≡◌, true, IfOk, IfErr};
ghost use Rattle.ex_desk.specs.Setting.{is_desk_settings};
ghost use Rattle.ex_desk.specs.Desks.{session_of, HasServed, MayServe};

use crate::desk::Desk;
use crate::run::DeskFault;
use crate::settings::DeskSettings;
use crate::trips::trip;
use std::alloc::Global;
use vac_manager::{Caller, Client, Fault, call};

/// A desk after its round, with its client.
#[derive(Drop)]
pub struct Served {
    pub client: Client,
    pub desk: Desk,
}

/// Runs one round of a desk: the desk goes on with its trips until none is left, or until the
/// clock is at its last version. If memory is refused, the client is dropped, and its records with
/// it.
pub fn serve(
    alloc: Global,
    settings: DeskSettings,
    mut caller: Caller<'_>,
    mut desk: Desk,
) -> Result<Served, DeskFault>
    requires settings { is_desk_settings settings ≡ true }
    requires desk { MayServe settings desk }
    ensures served { IfOk result (λ r. HasServed settings desk r.desk caller.entry
        (session_of caller.entry.shared r.client)) }
    ensures refused { IfErr result (λ fault. fault ≡ DeskFault.Memory) }
{
    'trips: while desk.asked() < settings.trips {
        let task = trip(alloc, desk.number, desk.asked());
        match call(&mut caller, &task, settings.tries) {
            Ok(_) => desk.booked += 1,
            Err(Fault::Busy(_)) => desk.given_up += 1,
            Err(Fault::Spent { .. }) => break 'trips,
            Err(Fault::Memory) => return Err(DeskFault::Memory),
            Err(Fault::Arguments) => unreachable!(),
        }
    }
    Ok(Served {
        client: caller.into_user(),
        desk,
    })
}
