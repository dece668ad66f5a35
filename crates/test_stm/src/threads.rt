//! Clients in threads.
ghost use Rattle.std.specs.Prelude.{◌≡◌, ◌<◌, ◌≤◌};
ghost use Rattle.stm_core.specs.Core.{IsFreeHanded};
ghost use Rattle.test_stm.specs.Clients.{IsClientOf, GivesBack};

use crate::same::{close, holds, same, split};
use std::alloc::{AllocError, Global};
use std::process::Abort;
use std::test::Fail;
use std::thread;
use std::thread::Threads;
use stm_attempt::{Attempt, Logs, NoGate};
use stm_core::FreeLaw;
use stm_region::{Client, Region};
use tx_memory::{Addr, TxMem};

const COMMITS: usize = 2_000;

/// A committed attempt: its version, the amount, and the two words with the values written.
#[derive(Clone, Copy, Debug, PartialEq, Eq, PartialOrd, Ord)]
struct Move {
    version: u64,
    amount: u64,
    from: u32,
    left: u64,
    to: u32,
    there: u64,
}

type Moved = Result<(Client<FreeLaw>, Vec<Move>), AllocError>;

/// Moves an amount from one word to another. Returns the values written.
fn move_amount<M: TxMem>(
    memory: &mut M,
    from: Addr,
    to: Addr,
    amount: u64,
) -> Result<(u64, u64), M::Stop>
    requires inside { (from.0 < (M.view memory.old).size) × (to.0 < (M.view memory.old).size) }
    ensures origin { M.origin memory.new ≡ M.origin memory.old }
{
    let left = memory.read(from)?.wrapping_sub(amount);
    let there = memory.read(to)?.wrapping_add(amount);
    memory.write(from, left)?;
    memory.write(to, there)?;
    Ok((left, there))
}

/// Tries a move in one attempt.
fn try_move(
    region: &Region<FreeLaw>,
    client: &mut Client<FreeLaw>,
    logs: &mut Logs,
    from: u32,
    to: u32,
    amount: u64,
) -> Option<Move>
    requires own { client.old.table ≡ region.now.table }
    requires free { IsFreeHanded client.old.value }
    requires range { (from < region.now.size) × (to < region.now.size) }
    ensures own { client.new.table ≡ client.old.table }
    ensures free { IsFreeHanded client.new.value }
{
    let mut attempt = Attempt::begin(region, client, logs);
    let Ok((left, there)) = move_amount(&mut attempt, Addr(from), Addr(to), amount) else {
        attempt.abort();
        return None;
    };
    let version = attempt.commit(&amount, &mut NoGate).ok()?.get();
    Some(Move {
        version,
        amount,
        from,
        left,
        to,
        there,
    })
}

/// Tries moves between 64 words until `COMMITS` of them are committed.
fn move_many(
    alloc: Global,
    region: &Region<FreeLaw>,
    mut client: Client<FreeLaw>,
    seed: u32,
) -> Moved
    requires own { client.table ≡ region.now.table }
    requires free { IsFreeHanded client.value }
    requires size { 64 ≤ region.now.size }
    requires seed { seed < 4 }
    ensures { GivesBack region.now result }
{
    let mut logs = Logs::new(alloc);
    let mut moves = Vec::new(alloc);
    for i in 0..100_000_000u32 {
        if moves.len() == COMMITS {
            break;
        }
        let from = (i % 64 + 16 * seed) % 64;
        let to = (from + 1 + i / 64 % 63) % 64;
        let amount = u64::from(i % 10);
        if let Some(done) = try_move(region, &mut client, &mut logs, from, to, amount) {
            moves.push(done)?;
        }
    }
    Ok((client, moves))
}

fn two_clients<R: Threads + Sync>(
    rt: &R,
    alloc: Global,
    region: &Region<FreeLaw>,
    first: Client<FreeLaw>,
    second: Client<FreeLaw>,
    seed: u32,
) -> (Moved, Moved)
    requires own { (first.table ≡ region.now.table) × (second.table ≡ region.now.table) }
    requires free { IsFreeHanded first.value × IsFreeHanded second.value }
    requires size { 64 ≤ region.now.size }
    requires seed { seed < 3 }
    ensures first { GivesBack region.now result.0 }
    ensures second { GivesBack region.now result.1 }
{
    let next = seed + 1;
    thread::join(
        rt,
        move || -> Moved
            requires { IsClientOf region.now first × (64 ≤ region.now.size) × (seed < 4) }
            ensures { GivesBack region.entry.now result }
        { move_many(alloc, region, first, seed) },
        move || -> Moved
            requires { IsClientOf region.now second × (64 ≤ region.now.size) × (next < 4) }
            ensures { GivesBack region.entry.now result }
        { move_many(alloc, region, second, next) },
    )
}

/// Plays the moves one after another in the order of their versions, and asserts that each found
/// the words that the moves before it left.
fn replay(rt: &impl Abort, moves: &[Move]) -> [u64; 64] {
    let mut words = [1_000u64; 64];
    let mut last = 0;
    for done in moves {
        holds(rt, done.version > last);
        last = done.version;
        let from = done.from as usize % 64;
        words[from] = words[from].wrapping_sub(done.amount);
        same(rt, &done.left, &words[from]);
        let to = done.to as usize % 64;
        words[to] = words[to].wrapping_add(done.amount);
        same(rt, &done.there, &words[to]);
    }
    words
}

#[test]
fn four_clients_move_amounts(rt: HostRuntime) -> Result<(), Fail> {
    let alloc = rt.alloc();
    let (region, mut a) = Region::<FreeLaw>::new(alloc, &[1_000; 64], 1 << 40, 16)?;
    let b = split(&rt, &region, &mut a);
    let c = split(&rt, &region, &mut a);
    let d = split(&rt, &region, &mut a);
    let shared = &region;
    let host = &rt;
    let ((first, second), (third, fourth)) = thread::join(
        &rt,
        move || -> (Moved, Moved)
            requires { IsClientOf shared.now a × IsClientOf shared.now b × (64 ≤ shared.now.size) }
            ensures { GivesBack shared.entry.now result.0 × GivesBack shared.entry.now result.1 }
        { two_clients(host, alloc, shared, a, b, 0) },
        move || -> (Moved, Moved)
            requires { IsClientOf shared.now c × IsClientOf shared.now d × (64 ≤ shared.now.size) }
            ensures { GivesBack shared.entry.now result.0 × GivesBack shared.entry.now result.1 }
        { two_clients(host, alloc, shared, c, d, 2) },
    );
    let (mut client, mut moves) = first?;
    let (second, more) = second?;
    region.gather(&mut client, second);
    moves.extend_from_slice(more.as_slice())?;
    let (third, more) = third?;
    region.gather(&mut client, third);
    moves.extend_from_slice(more.as_slice())?;
    let (fourth, more) = fourth?;
    region.gather(&mut client, fourth);
    moves.extend_from_slice(more.as_slice())?;
    same(&rt, &moves.len(), &(4 * COMMITS));
    moves.sort()?;
    let expected = replay(&rt, moves.as_slice());
    let (words, _) = close(&rt, alloc, region, client);
    same(&rt, &words.as_slice(), &expected.as_slice());
    let sum = words.iter().fold(0u64, |sum, word| sum.wrapping_add(*word));
    same(&rt, &sum, &64_000);
    Ok(())
}
