//! Free blocks over plain memory and over a region, and clients that take from different lists.
ghost use Rattle.std.specs.Prelude.{◌≡◌, IfOk};
ghost use Rattle.stm_core.specs.Core.{IsFreeHanded};
ghost use Rattle.stm_attempt.specs.Leading.{Carries};
ghost use Rattle.tx_alloc.specs.Pool.{HasPool};
ghost use Rattle.test_stm.specs.Laws.{HoldsUnder, IsHeapOfTen};

use crate::same::{close, holds, same, split, version};
use crate::words::{has_words, place_of};
use std::alloc::Global;
use std::test::Fail;
use stm_attempt::{Attempt, Logs, NoGate};
use stm_core::{Law, Version};
use stm_region::{Client, Region};
use tx_alloc::{Block, FreeList, give, spread_words, take};
use tx_memory::{Addr, Flat, TxMem};

/// The law of heaps of ten blocks. An image fits if it is such a heap, and a record is lawful if
/// it keeps fitting every fitting image that agrees with its reads.
struct HeapLaw;

impl Law for HeapLaw {
    ghost use Rattle.stm_attempt.specs.Leading.{KeepsFitting};
    ghost use Rattle.test_stm.specs.Laws.{Fits, IsHeapOfTen};

    ghost fits = { λ image. Fits IsHeapOfTen image };

    ghost lawful = { λ tag reads writes.
        KeepsFitting (λ image. Fits IsHeapOfTen image) reads writes };

    ghost keeps = { λ tag image reads writes f a l. l image f a };
}

fn heap_region(alloc: Global) -> Result<(Region<HeapLaw>, Client<HeapLaw>), Fail>
    ensures size { IfOk result (λ r. r.0.size ≡ 96) }
    ensures own { IfOk result (λ r. r.1.table ≡ r.0.table) }
    ensures free { IfOk result (λ r. IsFreeHanded r.1.value) }
{
    let words = spread_words(alloc, 10)?;
    Ok(Region::<HeapLaw>::new(alloc, words.as_slice(), 100, 96)?)
}

fn take_block<M: TxMem>(memory: &mut M, start: FreeList) -> Result<Option<Block>, M::Stop>
    requires heap { HoldsUnder IsHeapOfTen 96 (M.view memory.old) }
    ensures origin { M.origin memory.new ≡ M.origin memory.old }
    ensures heap { IfOk result (λ _.
        Carries IsHeapOfTen IsHeapOfTen (M.view memory.old) (M.view memory.new)) }
{
    let taken = take(memory, start)?;
    Ok(taken)
}

/// Takes a block in one attempt.
fn take_and_commit(
    region: &Region<HeapLaw>,
    client: &mut Client<HeapLaw>,
    logs: &mut Logs,
    start: FreeList,
) -> Option<(Block, Version)>
    requires own { client.old.table ≡ region.now.table }
    requires free { IsFreeHanded client.old.value }
    requires size { region.now.size ≡ 96 }
    ensures own { client.new.table ≡ client.old.table }
    ensures free { IsFreeHanded client.new.value }
{
    let mut attempt = Attempt::begin(region, client, logs);
    let taken = take_block(&mut attempt, start);
    let Ok(block) = taken else {
        attempt.abort();
        return None;
    };
    let version = attempt.commit(&1u64, &mut NoGate).ok()?;
    Some((block?, version))
}

/// Takes a block in one attempt, while another client takes a block and commits.
fn take_beside_another(
    region: &Region<HeapLaw>,
    client: &mut Client<HeapLaw>,
    other: &mut Client<HeapLaw>,
    logs: &mut Logs,
    others: &mut Logs,
) -> [Option<(Block, Version)>; 2]
    requires own { (client.old.table ≡ region.now.table) × (other.old.table ≡ region.now.table) }
    requires free { IsFreeHanded client.old.value × IsFreeHanded other.old.value }
    requires size { region.now.size ≡ 96 }
    ensures own { (client.new.table ≡ client.old.table) × (other.new.table ≡ other.old.table) }
    ensures free { IsFreeHanded client.new.value × IsFreeHanded other.new.value }
{
    let mut attempt = Attempt::begin(region, client, logs);
    let taken = take_block(&mut attempt, FreeList::new(0));
    let theirs = take_and_commit(region, other, others, FreeList::new(1));
    let Ok(block) = taken else {
        attempt.abort();
        return [None, theirs];
    };
    let committed = attempt.commit(&1u64, &mut NoGate);
    match (block, committed) {
        (Some(block), Ok(version)) => [Some((block, version)), theirs],
        _ => [None, theirs],
    }
}

/// Neither client takes a block that the other reads, so both commit.
#[test]
fn two_clients_take_from_different_lists(rt: HostRuntime) -> Result<(), Fail> {
    let alloc = rt.alloc();
    let (taken, words, last) = {
        let (region, mut a) = heap_region(alloc)?;
        let mut b = split(&rt, &region, &mut a);
        let mut logs_a = Logs::new(alloc);
        let mut logs_b = Logs::new(alloc);
        let taken = take_beside_another(&region, &mut a, &mut b, &mut logs_a, &mut logs_b);
        region.gather(&mut a, b);
        let (words, last) = close(&rt, alloc, region, a);
        (taken, words, last)
    };
    let mine = (Block(Addr(16)), version(&rt, 2));
    let theirs = (Block(Addr(32)), version(&rt, 1));
    same(&rt, &taken, &[Some(mine), Some(theirs)]);
    same(&rt, &last, &version(&rt, 2));
    let fresh = spread_words(alloc, 10)?;
    let heads = [24u64, 40, 48, 56, 64, 72, 80, 88];
    let same = words.get(8..16) == Some(heads.as_slice());
    holds(&rt, same && words.get(16..) == fresh.get(16..));
    Ok(())
}

/// Takes a block and gives it back to another list.
fn take_and_give<M: TxMem>(
    memory: &mut M,
    from: FreeList,
    to: FreeList,
) -> Result<Option<Block>, M::Stop>
    requires pool { HasPool (M.view memory.old) }
    ensures origin { M.origin memory.new ≡ M.origin memory.old }
    ensures pool { IfOk result (λ _. HasPool (M.view memory.new)) }
{
    let taken = take(memory, from)?;
    match taken {
        None => Ok(None),
        Some(block) => {
            give(memory, to, block)?;
            Ok(Some(block))
        }
    }
}

/// Moves two blocks to list 7, and takes the first from there.
fn move_two<M: TxMem>(memory: &mut M) -> Result<[Option<Addr>; 3], M::Stop>
    requires pool { HasPool (M.view memory.old) }
    ensures origin { M.origin memory.new ≡ M.origin memory.old }
{
    let one = take_and_give(memory, FreeList::new(1), FreeList::new(7))?;
    let two = take_and_give(memory, FreeList::new(3), FreeList::new(7))?;
    let three = take(memory, FreeList::new(7))?;
    Ok([place_of(one), place_of(two), place_of(three)])
}

type Taken = Option<([Option<Addr>; 3], bool)>;

fn move_two_in_an_attempt(
    region: &Region<HeapLaw>,
    client: &mut Client<HeapLaw>,
    logs: &mut Logs,
    words: &[u64],
) -> Taken
    requires own { client.old.table ≡ region.now.table }
    requires free { IsFreeHanded client.old.value }
    requires size { region.now.size ≡ 96 }
{
    let mut attempt = Attempt::begin(region, client, logs);
    let taken = move_two(&mut attempt).ok();
    let same = has_words(&mut attempt, 96, words).ok();
    attempt.abort();
    Some((taken?, same?))
}

#[test]
fn blocks_of_plain_memory_and_of_a_region(rt: HostRuntime) -> Result<(), Fail> {
    let alloc = rt.alloc();
    let words = spread_words(alloc, 10)?;
    let mut flat = Flat::new(words);
    let Ok(expected) = move_two(&mut flat);
    let words = flat.words();
    let taken = {
        let (region, mut client) = heap_region(alloc)?;
        let mut logs = Logs::new(alloc);
        move_two_in_an_attempt(&region, &mut client, &mut logs, &words)
    };
    same(&rt, &taken, &Some((expected, true)));
    same(
        &rt,
        &expected,
        &[Some(Addr(32)), Some(Addr(56)), Some(Addr(56))],
    );
    Ok(())
}
