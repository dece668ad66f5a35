//! Tables over plain memory and over a region.
ghost use Rattle.std.specs.Prelude.{◌≡◌, IfOk};
ghost use Rattle.stm_core.specs.Core.{IsFreeHanded};
ghost use Rattle.test_stm.specs.Laws.{HoldsTable, IsTableless};

use crate::same::same;
use crate::words::has_words;
use std::alloc::Global;
use std::test::Fail;
use stm_attempt::{Attempt, Logs};
use stm_core::Law;
use stm_region::{Client, Region};
use tx_alloc::Block;
use tx_alloc::place::MOST_BLOCKS;
use tx_memory::{Addr, Flat, TxMem, TxRead, load};
use tx_tree::{Walk, find, insert, remove};

const ROOT: Addr = Addr(3);

const BLOCKS: u32 = 10;

/// The law of tables. An image fits if it is a heap of ten blocks with an empty table, and a
/// record is lawful if it keeps fitting every fitting image that agrees with its reads.
struct TableLaw;

impl Law for TableLaw {
    ghost use Rattle.stm_attempt.specs.Leading.{KeepsFitting};
    ghost use Rattle.test_stm.specs.Laws.{Fits, IsTableOfTen};

    ghost fits = { λ image. Fits (λ m n. IsTableOfTen 0 m n) image };

    ghost lawful = { λ tag reads writes.
        KeepsFitting (λ image. Fits (λ m n. IsTableOfTen 0 m n) image) reads writes };

    ghost keeps = { λ tag image reads writes f a l. l image f a };
}

/// Returns the words of ten blocks with different keys below 50, without a table.
fn table_words(alloc: Global) -> Result<Vec<u64>, Fail>
    ensures { IfOk result (λ words. IsTableless words.items) }
{
    let mut words = Vec::new(alloc);
    for place in 0..96u64 {
        let word = match place {
            0..16 => 0,
            place if place % 8 == 0 => place / 8 * 7 % 50,
            place => 1_000 + place,
        };
        words.push(word)?;
    }
    if words.len() != 96 || words[3] != 0 {
        return Err("no heap")?;
    }
    Ok(words)
}

/// Puts a block under its key. Returns the number of entries.
fn put<M: TxMem>(memory: &mut M, count: usize, number: u32) -> Result<usize, M::Stop>
    requires table { HoldsTable (M.view memory.old) count }
    ensures origin { M.origin memory.new ≡ M.origin memory.old }
    ensures table { IfOk result (λ after. HoldsTable (M.view memory.new) after) }
{
    if BLOCKS <= number || MOST_BLOCKS <= count {
        return Ok(count);
    }
    let block = 16 + 8 * number;
    let key = load(memory, Addr(block))?;
    let found = find(memory, ROOT, key)?;
    match found {
        Some(_) => Ok(count),
        None => {
            insert(memory, ROOT, key, Block(Addr(block)))?;
            Ok(count + 1)
        }
    }
}

/// Removes the entry of a key. Returns the number of entries left, and the block.
fn cut<M: TxMem>(memory: &mut M, count: usize, key: u64) -> Result<(usize, Option<Block>), M::Stop>
    requires table { HoldsTable (M.view memory.old) count }
    ensures origin { M.origin memory.new ≡ M.origin memory.old }
    ensures table { IfOk result (λ r. HoldsTable (M.view memory.new) r.0) }
{
    let removed = remove(memory, ROOT, key)?;
    match removed {
        Some(block) => Ok((count.saturating_sub(1), Some(block))),
        None => Ok((count, None)),
    }
}

/// Returns the keys of the table in the order of a walk, and zeros for missing ones.
fn keys<M: TxRead>(memory: &mut M, count: usize) -> Result<[u64; 10], M::Stop>
    requires table { HoldsTable (M.view memory.old) count }
    ensures origin { M.origin memory.new ≡ M.origin memory.old }
    ensures table { IfOk result (λ _. HoldsTable (M.view memory.new) count) }
{
    let mut keys = [0u64; 10];
    let mut walk = Walk::begin(memory, ROOT)?;
    for i in 0..10usize {
        if let Some(block) = walk.next(memory)? {
            let key = load(memory, block.0)?;
            keys[i] = key;
        }
    }
    Ok(keys)
}

/// Puts all blocks under their keys, from the last block on.
fn put_all<M: TxMem>(memory: &mut M) -> Result<usize, M::Stop>
    requires table { HoldsTable (M.view memory.old) 0 }
    ensures origin { M.origin memory.new ≡ M.origin memory.old }
    ensures table { IfOk result (λ count. HoldsTable (M.view memory.new) count) }
{
    let mut count = 0;
    for i in 0..BLOCKS {
        let after = put(memory, count, BLOCKS - 1 - i)?;
        count = after;
    }
    Ok(count)
}

#[derive(Clone, Copy, Debug, PartialEq, Eq)]
struct Answers {
    count: usize,
    keys: [u64; 10],
    removed: [Option<Block>; 2],
    rest: [u64; 10],
}

/// Puts all blocks, and removes two keys, of which the table has one.
fn change<M: TxMem>(memory: &mut M) -> Result<Answers, M::Stop>
    requires table { HoldsTable (M.view memory.old) 0 }
    ensures origin { M.origin memory.new ≡ M.origin memory.old }
{
    let count = put_all(memory)?;
    let before = keys(memory, count)?;
    let one = cut(memory, count, 21)?;
    let two = cut(memory, one.0, 22)?;
    let rest = keys(memory, two.0)?;
    Ok(Answers {
        count,
        keys: before,
        removed: [one.1, two.1],
        rest,
    })
}

fn change_in_an_attempt(
    region: &Region<TableLaw>,
    client: &mut Client<TableLaw>,
    logs: &mut Logs,
    words: &[u64],
) -> Option<(Answers, bool)>
    requires own { client.old.table ≡ region.now.table }
    requires free { IsFreeHanded client.old.value }
    requires size { region.now.size ≡ 96 }
{
    let mut attempt = Attempt::begin(region, client, logs);
    let answers = change(&mut attempt).ok();
    let same = has_words(&mut attempt, 96, words).ok();
    attempt.abort();
    Some((answers?, same?))
}

fn table_region(alloc: Global) -> Result<(Region<TableLaw>, Client<TableLaw>), Fail>
    ensures size { IfOk result (λ r. r.0.size ≡ 96) }
    ensures own { IfOk result (λ r. r.1.table ≡ r.0.table) }
    ensures free { IfOk result (λ r. IsFreeHanded r.1.value) }
{
    let words = table_words(alloc)?;
    Ok(Region::<TableLaw>::new(alloc, words.as_slice(), 100, 96)?)
}

#[test]
fn a_table_of_plain_memory_and_of_a_region(rt: HostRuntime) -> Result<(), Fail> {
    let alloc = rt.alloc();
    let words = table_words(alloc)?;
    let mut flat = Flat::new(words);
    let Ok(expected) = change(&mut flat);
    let words = flat.words();
    let answers = {
        let (region, mut client) = table_region(alloc)?;
        let mut logs = Logs::new(alloc);
        change_in_an_attempt(&region, &mut client, &mut logs, &words)
    };
    same(&rt, &answers, &Some((expected, true)));
    // The key of block b is 7 * (b + 2) modulo 50.
    let by_hand = Answers {
        count: 10,
        keys: [6, 13, 14, 20, 21, 27, 28, 35, 42, 49],
        removed: [Some(Block(Addr(24))), None],
        rest: [6, 13, 14, 20, 27, 28, 35, 42, 49, 0],
    };
    same(&rt, &expected, &by_hand);
    Ok(())
}
