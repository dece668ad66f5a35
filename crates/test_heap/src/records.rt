//! Items and customers in plain memory: the words that are written.
ghost use Rattle.std.specs.Prelude.{◌≡◌, IfOk};
ghost use Rattle.vac_records.specs.Items.{IsNode};

use std::test::Fail;
use tx_alloc::Block;
use tx_memory::{Addr, Flat, TxMem};
use vac_model::Item;
use vac_records::{
    add_total, free_at, init_customer, init_item, place, price_at, set_price, sum_at, total_at,
    units_at, used_at,
};

/// Creates an item of 100 units at 50, then adds 5 units, then changes the price.
fn make_and_change<M: TxMem>(memory: &mut M, node: Block) -> Result<(), M::Stop>
    requires { IsNode (M.view memory.old) node }
    ensures origin { M.origin memory.new ≡ M.origin memory.old }
    ensures size { IfOk result (λ _. (M.view memory.new).size ≡ (M.view memory.old).size) }
{
    init_item(memory, node, 7, 100, 50)?;
    add_total(memory, node, 5)?;
    set_price(memory, node, 80)?;
    Ok(())
}

/// Returns the item of a block.
fn read_item<M: TxMem>(memory: &mut M, node: Block) -> Result<Item, M::Stop>
    requires { IsNode (M.view memory.old) node }
    ensures { M.origin memory.new ≡ M.origin memory.old }
{
    let used = used_at(memory, node)?;
    let free = free_at(memory, node)?;
    let total = total_at(memory, node)?;
    let price = price_at(memory, node)?;
    Ok(Item {
        used,
        free,
        total,
        price,
    })
}

#[test]
fn an_item_in_plain_memory(rt: HostRuntime) -> Result<(), Fail> {
    let mut flat = Flat::new(vec![in rt.alloc(); 9u64; 24]?);
    let Ok(()) = make_and_change(&mut flat, Block(Addr(8)));
    let Ok(item) = read_item(&mut flat, Block(Addr(8)));
    let expected = Item {
        used: 0,
        free: 105,
        total: 105,
        price: 80,
    };
    assert_eq!(rt; item, expected);
    // The links of the block and all words outside are as they were.
    let words = flat.words();
    for (i, word) in words.iter().enumerate() {
        let expected = match i {
            8 => 7,
            12 => 0,
            13 | 14 => 105,
            15 => 80,
            _ => 9,
        };
        assert_eq!(rt; *word, expected);
    }
    Ok(())
}

/// Creates a customer without bookings. Returns the words of the customer's block that a booking's
/// block has for the units and for the sum.
fn make_customer<M: TxMem>(memory: &mut M, node: Block) -> Result<(u64, u64), M::Stop>
    requires { IsNode (M.view memory.old) node }
    ensures { M.origin memory.new ≡ M.origin memory.old }
{
    init_customer(memory, node, 3)?;
    let units = units_at(memory, node)?;
    let sum = sum_at(memory, node)?;
    Ok((units, sum))
}

#[test]
fn a_customer_in_plain_memory(rt: HostRuntime) -> Result<(), Fail> {
    let mut flat = Flat::new(vec![in rt.alloc(); 9u64; 24]?);
    let Ok(read) = make_customer(&mut flat, Block(Addr(8)));
    assert_eq!(rt; read, (0, 9));
    // Only the key, the head of the bookings and the spare words are written.
    let words = flat.words();
    for (i, word) in words.iter().enumerate() {
        let expected = match i {
            8 => 3,
            12..=15 => 0,
            _ => 9,
        };
        assert_eq!(rt; *word, expected);
    }
    Ok(())
}

#[test]
fn places(rt: HostRuntime) {
    assert_eq!(rt; place::KEY, 0);
    assert_eq!(rt; place::USED, 4);
    assert_eq!(rt; place::FREE, 5);
    assert_eq!(rt; place::TOTAL, 6);
    assert_eq!(rt; place::PRICE, 7);
    assert_eq!(rt; place::BOOKINGS, 4);
}
