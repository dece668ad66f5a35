//! Items over plain memory and over a region.
ghost use Rattle.std.specs.Prelude.{◌≡◌, IfOk};
ghost use Rattle.stm_core.specs.Core.{IsFreeHanded};
ghost use Rattle.vac_records.specs.Items.{IsNode};
ghost use Rattle.test_stm.specs.Records.{HasItem};

use crate::same::same;
use crate::words::has_words;
use std::test::Fail;
use stm_attempt::{Attempt, Logs};
use stm_core::Law;
use stm_region::{Client, Region};
use tx_alloc::Block;
use tx_memory::{Addr, Flat, TxMem, TxRead};
use vac_model::Item;
use vac_records::{
    add_total, cancel, free_at, init_item, make_of, price_at, set_price, sub_total, total_at,
    used_at,
};

const ITEM: Block = Block(Addr(16));

/// The law of images of 96 words. An image fits if it has 96 words, and a record is lawful if it
/// keeps fitting every fitting image that agrees with its reads.
pub(crate) struct SizeLaw;

impl Law for SizeLaw {
    ghost use Rattle.stm_attempt.specs.Leading.{KeepsFitting};
    ghost use Rattle.test_stm.specs.Laws.{Fits};
    ghost use Rattle.test_stm.specs.Records.{IsSized};

    ghost fits = { λ image. Fits (λ m n. IsSized m n) image };

    ghost lawful = { λ tag reads writes.
        KeepsFitting (λ image. Fits (λ m n. IsSized m n) image) reads writes };

    ghost keeps = { λ tag image reads writes f a l. l image f a };
}

/// Creates an item of 100 units at 50, and removes three units.
fn make_item<M: TxMem>(memory: &mut M) -> Result<(), M::Stop>
    requires node { IsNode (M.view memory.old) 16 }
    ensures origin { M.origin memory.new ≡ M.origin memory.old }
    ensures item { IfOk result (λ _. HasItem (M.view memory.new) 16 0 97 97 50) }
{
    init_item(memory, ITEM, 7, 100, 50)?;
    sub_total(memory, ITEM, 3)?;
    Ok(())
}

/// Books ten units and gives four back.
fn use_item<M: TxMem>(memory: &mut M) -> Result<(), M::Stop>
    requires item { HasItem (M.view memory.old) 16 0 97 97 50 }
    ensures origin { M.origin memory.new ≡ M.origin memory.old }
    ensures item { IfOk result (λ _. HasItem (M.view memory.new) 16 6 91 97 50) }
{
    let free = free_at(memory, ITEM)?;
    make_of(memory, ITEM, 10, free)?;
    cancel(memory, ITEM, 4)?;
    Ok(())
}

/// Adds five units and changes the price.
fn extend_item<M: TxMem>(memory: &mut M) -> Result<(), M::Stop>
    requires item { HasItem (M.view memory.old) 16 6 91 97 50 }
    ensures origin { M.origin memory.new ≡ M.origin memory.old }
    ensures item { IfOk result (λ _. HasItem (M.view memory.new) 16 6 96 102 80) }
{
    add_total(memory, ITEM, 5)?;
    set_price(memory, ITEM, 80)?;
    Ok(())
}

/// Returns the item.
fn read_item<M: TxRead>(memory: &mut M) -> Result<Item, M::Stop>
    requires node { IsNode (M.view memory.old) 16 }
    ensures origin { M.origin memory.new ≡ M.origin memory.old }
{
    let used = used_at(memory, ITEM)?;
    let free = free_at(memory, ITEM)?;
    let total = total_at(memory, ITEM)?;
    let price = price_at(memory, ITEM)?;
    Ok(Item {
        used,
        free,
        total,
        price,
    })
}

fn change_item<M: TxMem>(memory: &mut M) -> Result<Item, M::Stop>
    requires node { IsNode (M.view memory.old) 16 }
    ensures origin { M.origin memory.new ≡ M.origin memory.old }
{
    make_item(memory)?;
    use_item(memory)?;
    extend_item(memory)?;
    let item = read_item(memory)?;
    Ok(item)
}

fn change_item_in_an_attempt(
    region: &Region<SizeLaw>,
    client: &mut Client<SizeLaw>,
    logs: &mut Logs,
    words: &[u64],
) -> Option<(Item, bool)>
    requires own { client.old.table ≡ region.now.table }
    requires free { IsFreeHanded client.old.value }
    requires size { region.now.size ≡ 96 }
{
    let mut attempt = Attempt::begin(region, client, logs);
    let item = change_item(&mut attempt).ok();
    let same = has_words(&mut attempt, 96, words).ok();
    attempt.abort();
    Some((item?, same?))
}

#[test]
fn an_item_of_plain_memory_and_of_a_region(rt: HostRuntime) -> Result<(), Fail> {
    let alloc = rt.alloc();
    let mut flat = Flat::new(vec![in alloc; 9u64; 96]?);
    let Ok(expected) = change_item(&mut flat);
    let words = flat.words();
    let item = {
        let (region, mut client) = Region::<SizeLaw>::new(alloc, &[9; 96], 100, 96)?;
        let mut logs = Logs::new(alloc);
        change_item_in_an_attempt(&region, &mut client, &mut logs, &words)
    };
    same(&rt, &item, &Some((expected, true)));
    let by_hand = Item {
        used: 6,
        free: 96,
        total: 102,
        price: 80,
    };
    same(&rt, &expected, &by_hand);
    same(
        &rt,
        &words.get(16..24),
        &Some([7, 9, 9, 9, 6, 96, 102, 80].as_slice()),
    );
    Ok(())
}
