//! Lists of bookings over plain memory and over a region.
ghost use Rattle.std.specs.Prelude.{◌≡◌, ◌+◌, ◌*◌, ◌<◌, IfOk};
ghost use Rattle.stm_core.specs.Core.{IsFreeHanded};
ghost use Rattle.test_stock.specs.Stock.{HasStock};

use crate::same::same;
use crate::words::{has_words, place_of};
use std::alloc::Global;
use std::test::Fail;
use stm_attempt::{Attempt, Logs};
use stm_core::Law;
use stm_region::{Client, Region};
use test_stock::{HEAD, look, stock_words, turn};
use tx_memory::{Addr, Flat, TxMem, TxRead};
use vac_bookings::{Key, first, next};

/// The law of the stocked list. An image fits if its head points to a list and each block has its
/// key. A record is lawful if it keeps fitting every fitting image that agrees with its reads.
struct ListLaw;

impl Law for ListLaw {
    ghost use Rattle.stm_attempt.specs.Leading.{KeepsFitting};
    ghost use Rattle.test_stm.specs.Laws.{Fits};
    ghost use Rattle.test_stock.specs.Stock.{IsStocked};

    ghost fits = { λ image. Fits IsStocked image };

    ghost lawful = { λ tag reads writes.
        KeepsFitting (λ image. Fits IsStocked image) reads writes };

    ghost keeps = { λ tag image reads writes f a l. l image f a };
}

/// Returns the addresses of the first two blocks of the list.
fn first_and_next<M: TxRead>(memory: &mut M) -> Result<[Option<Addr>; 2], M::Stop>
    requires stock { HasStock (M.view memory.old) }
    ensures origin { M.origin memory.new ≡ M.origin memory.old }
    ensures stock { IfOk result (λ _. HasStock (M.view memory.new)) }
{
    let one = first(memory, HEAD)?;
    match one {
        None => Ok([None, None]),
        Some(block) => {
            let two = next(memory, block)?;
            Ok([Some(block.addr()), place_of(two)])
        }
    }
}

const FLIGHT: Key = Key { kind: 1, id: 7 };

const ROOM: Key = Key { kind: 2, id: 39 };

type Answers = ([Option<Addr>; 4], [Option<Addr>; 2]);

/// Inserts a room and a flight, and removes the room.
fn change<M: TxMem>(memory: &mut M) -> Result<Answers, M::Stop>
    requires stock { HasStock (M.view memory.old) }
    ensures origin { M.origin memory.new ≡ M.origin memory.old }
{
    let none = place_of(turn(memory, ROOM)?);
    let new = place_of(turn(memory, FLIGHT)?);
    let both = first_and_next(memory)?;
    let gone = place_of(turn(memory, ROOM)?);
    let found = place_of(look(memory, FLIGHT)?);
    Ok(([none, new, gone, found], both))
}

fn change_in_an_attempt(
    region: &Region<ListLaw>,
    client: &mut Client<ListLaw>,
    logs: &mut Logs,
    words: &[u64],
) -> Option<(Answers, bool)>
    requires own { client.old.table ≡ region.now.table }
    requires free { IsFreeHanded client.old.value }
    requires size { region.now.size ≡ 976 }
{
    let mut attempt = Attempt::begin(region, client, logs);
    let answers = change(&mut attempt).ok();
    let same = has_words(&mut attempt, 976, words).ok();
    attempt.abort();
    Some((answers?, same?))
}

fn list_region(alloc: Global) -> Result<(Region<ListLaw>, Client<ListLaw>), Fail>
    ensures size { IfOk result (λ r. r.0.size ≡ 976) }
    ensures own { IfOk result (λ r. r.1.table ≡ r.0.table) }
    ensures free { IfOk result (λ r. IsFreeHanded r.1.value) }
{
    let words = stock_words(alloc)?;
    Ok(Region::<ListLaw>::new(alloc, words.as_slice(), 100, 976)?)
}

#[test]
fn a_list_of_plain_memory_and_of_a_region(rt: HostRuntime) -> Result<(), Fail> {
    let alloc = rt.alloc();
    let words = stock_words(alloc)?;
    let mut flat = Flat::new(words);
    let Ok(expected) = change(&mut flat);
    let words = flat.words();
    let answers = {
        let (region, mut client) = list_region(alloc)?;
        let mut logs = Logs::new(alloc);
        change_in_an_attempt(&region, &mut client, &mut logs, &words)
    };
    same(&rt, &answers, &Some((expected, true)));
    let flight = Some(Addr(16 + 8 * 47));
    let room = Some(Addr(16 + 8 * 119));
    same(
        &rt,
        &expected,
        &([None, None, room, flight], [flight, room]),
    );
    Ok(())
}
