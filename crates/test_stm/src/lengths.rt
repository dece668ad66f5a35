//! Free blocks, a table and a list over a region whose law does not fix the number of words.
ghost use Rattle.std.specs.Prelude.{◌≡◌, IfOk, replicate};
ghost use Rattle.stm_core.specs.Core.{IsFreeHanded};
ghost use Rattle.test_stm.specs.Laws.{HoldsUnder, HasNulls};

use crate::same::same;
use crate::words::has_words;
use std::alloc::{AllocError, Global};
use std::test::Fail;
use stm_attempt::{Attempt, Logs};
use stm_core::Law;
use stm_region::{Client, Region};
use tx_alloc::{Block, FreeList, take};
use tx_memory::{Addr, TxMem, load};
use vac_bookings::Key;

/// A law that fixes no length. An image of any length fits if the words that point to a table, to
/// a list and to free blocks are 0. A record is lawful if it keeps fitting every fitting image
/// that agrees with its reads.
struct NullLaw;

impl Law for NullLaw {
    ghost use Rattle.stm_attempt.specs.Leading.{KeepsFitting};
    ghost use Rattle.test_stm.specs.Laws.{Fits, HasNulls};

    ghost fits = { λ image. Fits HasNulls image };

    ghost lawful = { λ tag reads writes.
        KeepsFitting (λ image. Fits HasNulls image) reads writes };

    ghost keeps = { λ tag image reads writes f a l. l image f a };
}

const ROOT: Addr = Addr(3);

const HEAD: Addr = Addr(5);

/// Looks for a free block, of which there is none, and inserts one block into the table and one
/// into the list.
fn take_and_hang<M: TxMem>(memory: &mut M) -> Result<Option<Block>, M::Stop>
    requires nulls { HoldsUnder HasNulls 96 (M.view memory.old) }
    ensures origin { M.origin memory.new ≡ M.origin memory.old }
{
    let taken = take(memory, FreeList::new(0))?;
    let number = load(memory, Addr(16))?;
    tx_tree::insert(memory, ROOT, number, Block(Addr(16)))?;
    let kind = load(memory, Addr(24))?;
    let id = load(memory, Addr(25))?;
    if kind < 3 && id < 1 << 32 {
        vac_bookings::insert(memory, HEAD, Key { kind, id }, Block(Addr(24)))?;
    }
    Ok(taken)
}

fn null_words(alloc: Global) -> Result<Vec<u64>, AllocError>
    ensures { IfOk result (λ words. words.items ≡ replicate 96 0) }
{
    let words = Vec::from_elem(alloc, 0u64, 96)?;
    Ok(words)
}

fn null_region(alloc: Global) -> Result<(Region<NullLaw>, Client<NullLaw>), Fail>
    ensures size { IfOk result (λ r. r.0.size ≡ 96) }
    ensures own { IfOk result (λ r. r.1.table ≡ r.0.table) }
    ensures free { IfOk result (λ r. IsFreeHanded r.1.value) }
{
    let words = null_words(alloc)?;
    Ok(Region::<NullLaw>::new(alloc, words.as_slice(), 100, 96)?)
}

/// Returns the block taken, and whether the words are these after the attempt.
fn hang_in_an_attempt(
    region: &Region<NullLaw>,
    client: &mut Client<NullLaw>,
    logs: &mut Logs,
    words: &[u64],
) -> Option<(Option<Block>, bool)>
    requires own { client.old.table ≡ region.now.table }
    requires free { IsFreeHanded client.old.value }
    requires size { region.now.size ≡ 96 }
{
    let mut attempt = Attempt::begin(region, client, logs);
    let taken = take_and_hang(&mut attempt).ok();
    let same = has_words(&mut attempt, 96, words).ok();
    attempt.abort();
    Some((taken?, same?))
}

#[test]
fn structures_under_a_law_that_fixes_no_length(rt: HostRuntime) -> Result<(), Fail> {
    let alloc = rt.alloc();
    let mut words = null_words(alloc)?;
    words[ROOT.0 as usize] = 16;
    words[HEAD.0 as usize] = 24;
    let hung = {
        let (region, mut client) = null_region(alloc)?;
        let mut logs = Logs::new(alloc);
        hang_in_an_attempt(&region, &mut client, &mut logs, &words)
    };
    same(&rt, &hung, &Some((None, true)));
    Ok(())
}
