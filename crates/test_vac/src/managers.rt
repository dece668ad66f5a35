//! Managers as tests open them. The contracts say only that the first client belongs to its
//! manager.
ghost use Rattle.std.specs.Prelude.{◌≡◌};

use std::alloc::Global;
use std::process::Abort;
use vac_manager::{Client, Manager};

/// Opens a new manager, and returns it with its first client.
pub(crate) fn open(rt: &impl Abort, alloc: Global, blocks: u32, last: u64) -> (Manager, Client)
    ensures { result.1.table ≡ result.0.table }
{
    Manager::new(alloc, blocks, last).expect(rt, "it opens")
}

/// Opens a new manager with this many lock words, and returns it with its first client.
pub(crate) fn open_striped(
    rt: &impl Abort,
    alloc: Global,
    blocks: u32,
    last: u64,
    stripes: u32,
) -> (Manager, Client)
    ensures { result.1.table ≡ result.0.table }
{
    Manager::with_stripes(alloc, blocks, last, stripes).expect(rt, "it opens")
}

/// Splits off a client. Returns the client from which it was split off, and the new client.
pub(crate) fn split(rt: &impl Abort, manager: &Manager, client: Client) -> (Client, Client)
    requires { client.table ≡ manager.now.table }
    ensures { (result.0.table ≡ manager.now.table) × (result.1.table ≡ manager.now.table) }
{
    let mut caller = manager.caller(client);
    let other = caller.split().expect(rt, "there are grants");
    (caller.into_user(), other.into_user())
}

/// Gathers another client. Returns the client that gathered it.
pub(crate) fn gather(manager: &Manager, client: Client, other: Client) -> Client
    requires { (client.table ≡ manager.now.table) × (other.table ≡ manager.now.table) }
    ensures { result.table ≡ manager.now.table }
{
    let mut caller = manager.caller(client);
    caller.gather(manager.caller(other));
    caller.into_user()
}
