//! Clients of a manager over a region that come and go.
ghost use Rattle.std.specs.Prelude.{◌≡◌, All};

use crate::calls::{Called, expect};
use crate::managers::open;
use crate::same::{holds, same};
use crate::scripts::{
    LAST, Line, add, add_command, audit, cancel, delete, delete_command, drop_customer,
    drop_flight, new_customer, number, pick, report, reserve, trip, update,
};
use std::alloc::Global;
use std::process::Abort;
use stm_region::RegionFault;
use vac_manager::{Caller, Client, Manager};
use vac_model::CustomerOutcome;
use vac_model::Kind::{Car, Flight, Room};
use vac_model::Refusal::Full;
use vac_model::Reply::{Done, No};

/// Creates a customer.
fn enter(rt: &impl Abort, alloc: Global, caller: &mut Caller<'_>, id: u32)
    ensures { caller.new.shared ≡ caller.old.shared }
{
    expect(rt, alloc, caller, 1, &[(new_customer!(id), Ok(Done))]);
}

/// Splits off as many clients as there can be, each of which creates a customer of its own.
fn crowd<'a>(rt: &impl Abort, alloc: Global, caller: &mut Caller<'a>) -> Vec<Caller<'a>>
    ensures mine { caller.new.shared ≡ caller.old.shared }
    ensures others { All (λ other. other.shared ≡ caller.old.shared) result.items }
{
    let mut others = Vec::new(alloc);
    for id in 2..=64 {
        let mut other = caller.split().expect(rt, "there are grants");
        enter(rt, alloc, &mut other, id);
        others.push(other).expect(rt, "there is memory");
    }
    others
}

/// Gathers the other clients.
fn gather_all(caller: &mut Caller<'_>, others: Vec<Caller<'_>>)
    requires { All (λ other. other.shared ≡ caller.old.shared) others.items }
    ensures { caller.new.shared ≡ caller.old.shared }
{
    for other in others {
        caller.gather(other);
    }
}

const SIXTY_FIFTH: [Called; 2] = [
    (new_customer!(1), Ok(Done)),
    (new_customer!(65), Ok(No(Full))),
];

const SIXTY_FOUR: [Called; 1] = [(audit!(), Ok(report!([0, 0, 0, 64], 0, 0, 0)))];

#[test]
fn sixty_four_clients(rt: HostRuntime) {
    let alloc = rt.alloc();
    let (manager, client) = open(&rt, alloc, 64, LAST);
    let mut caller = manager.caller(client);
    let others = crowd(&rt, alloc, &mut caller);
    same(&rt, &caller.split().err(), &Some(RegionFault::Clients));
    expect(&rt, alloc, &mut caller, 1, &SIXTY_FIFTH);
    gather_all(&mut caller, others);
    expect(&rt, alloc, &mut caller, 1, &SIXTY_FOUR);
    let client = caller.into_user();
    holds(&rt, manager.close(client).is_ok());
}

/// Closes a manager while a client is out, which is refused, and again once that client was
/// gathered. Returns the words and the version.
fn close_late(rt: &impl Abort, manager: Manager, client: Client, other: Client) -> (Vec<u64>, u64)
    requires { (client.table ≡ manager.table) × (other.table ≡ manager.table) }
{
    let Err((manager, client, fault)) = manager.close(client) else {
        panic!(rt; "it closed while a client was out")
    };
    same(rt, &fault, &RegionFault::StillOut { out: 1 });
    let mut caller = manager.caller(client);
    caller.gather(manager.caller(other));
    let client = caller.into_user();
    let Ok((words, version)) = manager.close(client) else {
        panic!(rt; "it stayed open")
    };
    (words, version.get())
}

const ONE_BLOCK_OF_THE_OTHER: [Called; 3] = [
    (new_customer!(3), Ok(Done)),
    (new_customer!(4), Ok(No(Full))),
    (drop_customer!(3), Ok(Done)),
];

const ONE_BLOCK_OF_THE_FIRST: [Called; 1] = [(new_customer!(4), Ok(Done))];

/// The one block is in the list of the first client, and serves both clients.
#[test]
fn one_block_and_two_clients(rt: HostRuntime) {
    let alloc = rt.alloc();
    let (manager, client) = open(&rt, alloc, 1, LAST);
    let mut a = manager.caller(client);
    let mut b = a.split().expect(&rt, "there are grants");
    expect(&rt, alloc, &mut b, 1, &ONE_BLOCK_OF_THE_OTHER);
    expect(&rt, alloc, &mut a, 1, &ONE_BLOCK_OF_THE_FIRST);
    let first = a.into_user();
    let second = b.into_user();
    let (words, version) = close_late(&rt, manager, first, second);
    same(&rt, &words.len(), &24);
    same(&rt, &words.get(4), &Some(&16));
    same(&rt, &words.get(16), &Some(&4));
    same(&rt, &version, &3);
}

/// Returns the words of a manager that its only client closes.
fn closed_words(rt: &impl Abort, manager: Manager, client: Client) -> Vec<u64>
    requires { client.table ≡ manager.table }
{
    let Ok((words, _)) = manager.close(client) else {
        panic!(rt; "it stayed open")
    };
    words
}

const BY_THE_SECOND: [Called; 10] = [
    (add!(Car, 5, 1, Some(10)), Ok(Done)),
    (new_customer!(6), Ok(Done)),
    (reserve!(6, Car, 5, 1), Ok(Done)),
    (cancel!(6, Car, 5), Ok(Done)),
    (new_customer!(8), Ok(Done)),
    (drop_customer!(8), Ok(Done)),
    (delete!(Car, 5, 1), Ok(Done)),
    (drop_customer!(6), Ok(Done)),
    (add!(Flight, 9, 1, Some(30)), Ok(Done)),
    (drop_flight!(9), Ok(Done)),
];

const BY_THE_FIRST: [Called; 1] = [(new_customer!(7), Ok(Done))];

/// Plays calls of the second of two clients of a new manager with sixteen blocks, and then calls
/// of the first. Returns the words.
fn words_after(rt: &impl Abort, alloc: Global, second: &[Called], first: &[Called]) -> Vec<u64> {
    let (manager, client) = open(rt, alloc, 16, LAST);
    let mut a = manager.caller(client);
    let mut b = a.split().expect(rt, "there are grants");
    expect(rt, alloc, &mut b, 1, second);
    expect(rt, alloc, &mut a, 1, first);
    a.gather(b);
    let client = a.into_user();
    closed_words(rt, manager, client)
}

/// The second client's entries take their blocks from the second list, blocks 2 and 3. The next
/// block comes from the next list, which begins with block 4; the block after it, block 5, then
/// becomes the second list. All blocks that the client frees go to the second list, the block of a
/// flight too, so that in the end the list is blocks 3, 2, 4 and 5. Block 0, of the first list, is
/// the first client's.
#[test]
fn each_client_has_a_list_of_its_own(rt: HostRuntime) {
    let words = words_after(&rt, rt.alloc(), &BY_THE_SECOND, &BY_THE_FIRST);
    let found = [1, 2, 4, 8, 9, 40, 32, 48, 56, 10].map(|place| words.get(place).copied());
    same(&rt, &found, &[0, 0, 16, 24, 40, 32, 48, 56, 0, 0].map(Some));
}

const TASKS_OF_THE_SECOND: [Called; 5] = [
    (
        Line::Update(&[
            add_command!(Car, 5, 1, Some(10)),
            add_command!(Room, 5, 1, Some(20)),
            delete_command!(Room, 5, 1),
        ]),
        Ok(update!(None, None, None)),
    ),
    (add!(Flight, 5, 1, Some(30)), Ok(Done)),
    (add!(Room, 5, 1, Some(20)), Ok(Done)),
    (
        Line::Trip(6, &[(Car, 5), (Flight, 5), (Room, 5)]),
        Ok(trip!(
            CustomerOutcome::Added,
            [pick!(5, 10, None), pick!(5, 30, None), pick!(5, 20, None)],
        )),
    ),
    (Line::Leave(6), Ok(number!(60))),
];

/// Tasks of several commands keep to the list of their client, too: an update, a trip and a leave
/// of the second client. Its tasks take blocks 2 to 8. Blocks 2, 3 and 4 are a car, a flight and a
/// room. In the end the list is blocks 5, 8, 7, 6 and 9, since the leave gives the bookings back
/// in the order of their kinds, and then the customer. The first list still has its two blocks.
#[test]
fn tasks_keep_to_the_list_of_their_client(rt: HostRuntime) {
    let words = words_after(&rt, rt.alloc(), &TASKS_OF_THE_SECOND, &[]);
    let places = [1, 2, 3, 8, 16, 9, 56, 80, 72, 64, 88, 10, 13];
    let found = places.map(|place| words.get(place).copied());
    let expected = [32, 40, 48, 16, 24, 56, 80, 72, 64, 88, 0, 0, 96];
    same(&rt, &found, &expected.map(Some));
}

/// A client that is gathered gives a grant back, to the client that gathers it.
#[test]
fn grants_go_with_clients(rt: HostRuntime) {
    let (manager, client) = open(&rt, rt.alloc(), 8, LAST);
    let mut a = manager.caller(client);
    let mut b = a.split().expect(&rt, "there are grants");
    let c = a.split().expect(&rt, "there are grants");
    b.gather(c);
    let d = b
        .split()
        .expect(&rt, "there is the grant of the client taken in");
    same(&rt, &b.split().err(), &Some(RegionFault::Clients));
    let first = a.into_user();
    let _second = b.into_user();
    let _fourth = d.into_user();
    let Err((_, _, fault)) = manager.close(first) else {
        panic!(rt; "it closed while clients were out")
    };
    same(&rt, &fault, &RegionFault::StillOut { out: 2 });
}
