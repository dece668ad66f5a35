//! A manager that goes on with its entries on a new clock.
ghost use Rattle.std.specs.Prelude.{◌≡◌};

use crate::calls::{Called, expect};
use crate::managers::open;
use crate::outcome::Outcome;
use crate::same::same;
use crate::scripts::{add, cancel, free, new_customer, number, report, reserve, reserve_command};
use std::alloc::Global;
use std::process::Abort;
use stm_region::RegionFault;
use vac_audit::audit_words;
use vac_manager::{Caller, Client, Manager, RenewFault, call};
use vac_model::Kind::Car;
use vac_model::Reply::Done;
use vac_model::{Reply, Task};

/// Asserts that the clock is spent: no version is left for a reservation.
fn expect_spent(rt: &impl Abort, caller: &mut Caller<'_>)
    ensures { caller.new.shared ≡ caller.old.shared }
{
    let task = Task::One(reserve_command!(3, Car, 1, 1));
    same(rt, &Outcome::of(call(caller, &task, 1)), &Outcome::Spent(2));
}

const SPENDING: [Called; 2] = [
    (add!(Car, 1, 1, Some(10)), Ok(Done)),
    (new_customer!(3), Ok(Done)),
];

/// Uses both versions of the clock for two calls.
fn spend(rt: &impl Abort, alloc: Global, caller: &mut Caller<'_>)
    ensures { caller.new.shared ≡ caller.old.shared }
{
    expect(rt, alloc, caller, 1, &SPENDING);
    expect_spent(rt, caller);
}

const GOING_ON: [Called; 3] = [
    (reserve!(3, Car, 1, 1), Ok(Done)),
    (free!(Car, 1), Ok(number!(0))),
    (cancel!(3, Car, 1), Ok(Done)),
];

/// Uses both versions of the new clock for two more calls on the entries from before.
fn go_on(rt: &impl Abort, alloc: Global, caller: &mut Caller<'_>)
    ensures { caller.new.shared ≡ caller.old.shared }
{
    expect(rt, alloc, caller, 1, &GOING_ON);
    expect_spent(rt, caller);
}

/// Tries a renewal that is refused. Returns the manager and the client as they were, and the
/// reason.
fn refused(
    rt: &impl Abort,
    manager: Manager,
    client: Client,
    last: u64,
) -> (Manager, Client, RegionFault)
    requires { client.table ≡ manager.table }
    ensures { (result.0 ≡ manager) × (result.1 ≡ client) }
{
    match manager.renew(client, last) {
        Err(RenewFault::Kept(manager, client, fault)) => (manager, client, fault),
        _ => panic!(rt; "it was renewed, or closed"),
    }
}

#[test]
fn a_spent_clock_is_renewed(rt: HostRuntime) {
    let alloc = rt.alloc();
    let (manager, client) = open(&rt, alloc, 8, 2);
    let mut caller = manager.caller(client);
    spend(&rt, alloc, &mut caller);
    let client = caller.into_user();
    let (manager, client, fault) = refused(&rt, manager, client, 0);
    same(&rt, &fault, &RegionFault::Last);
    let mut caller = manager.caller(client);
    let other = caller.split().expect(&rt, "there are grants");
    let (client, other) = (caller.into_user(), other.into_user());
    let (manager, client, fault) = refused(&rt, manager, client, 2);
    same(&rt, &fault, &RegionFault::StillOut { out: 1 });
    let mut caller = manager.caller(client);
    caller.gather(manager.caller(other));
    let client = caller.into_user();
    let Ok((manager, client)) = manager.renew(client, 2) else {
        panic!(rt; "it was not renewed")
    };
    let mut caller = manager.caller(client);
    go_on(&rt, alloc, &mut caller);
    let client = caller.into_user();
    let Ok((words, version)) = manager.close(client) else {
        panic!(rt; "it stayed open")
    };
    same(&rt, &version.get(), &2);
    let Ok(found) = audit_words(alloc, words.as_slice()) else {
        panic!(rt; "the words have a flaw")
    };
    same(&rt, &Reply::Report(found), &report!([1, 0, 0, 1], 0, 1, 0));
}
