//! The memory that tests of lists of bookings share: one list, and a block for each of 120 keys,
//! which is in the list or not.
#![tactic(auto)]

ghost use Rattle.std.specs.Prelude.{◌≡◌, ◌+◌, ◌*◌, ◌<◌, IfOk};
ghost use Rattle.test_stock.specs.Stock.{IsStock, IsStockKey, HasStock, stock_block, stock_word};

use std::alloc::{AllocError, Global};
use tx_alloc::Block;
use tx_memory::{Addr, TxMem, TxRead};
use vac_bookings::{Key, find, insert, remove};

/// Address of the word that points to the list.
pub const HEAD: Addr = Addr(5);

/// Number of ids of each of the three kinds.
pub const IDS: u32 = 40;

const WORDS: usize = 976;

/// Returns the block that has this key written from the start.
pub fn block_of(key: Key) -> Block
    requires { IsStockKey key }
    ensures { result ≡ stock_block (40 * key.kind + key.id) }
{
    Block(Addr(16 + 8 * (IDS * key.kind as u32 + key.id as u32)))
}

/// Returns a word of the memory before the first change.
fn word_at(place: usize) -> u64
    requires { place < WORDS }
    ensures { result ≡ stock_word place }
{
    if place < 16 {
        return if place == 5 { 0 } else { 1000 + place as u64 };
    }
    let block = (place as u64 - 16) / 8;
    match place % 8 {
        0 => block / 40,
        1 => block % 40,
        _ => 1000 + place as u64,
    }
}

/// Returns the words before the first change.
pub fn stock_words(alloc: Global) -> Result<Vec<u64>, AllocError>
    ensures { IfOk result (λ words. IsStock words.items) }
{
    let mut words = Vec::from_elem(alloc, 0u64, WORDS)?;
    for place in 0..WORDS {
        words[place] = word_at(place);
    }
    Ok(words)
}

/// Removes the booking of a key, or inserts it if there is none.
pub fn turn<M: TxMem>(memory: &mut M, key: Key) -> Result<Option<Block>, M::Stop>
    requires stock { HasStock (M.view memory.old) }
    requires key { IsStockKey key }
    ensures origin { M.origin memory.new ≡ M.origin memory.old }
    ensures stock { IfOk result (λ _. HasStock (M.view memory.new)) }
{
    let removed = remove(memory, HEAD, key)?;
    match removed {
        None => {
            insert(memory, HEAD, key, block_of(key))?;
            Ok(None)
        }
        Some(block) => Ok(Some(block)),
    }
}

/// Returns the block of a key in the list, if the list has the key.
pub fn look<M: TxRead>(memory: &mut M, key: Key) -> Result<Option<Block>, M::Stop>
    requires stock { HasStock (M.view memory.old) }
    requires key { IsStockKey key }
    ensures origin { M.origin memory.new ≡ M.origin memory.old }
    ensures stock { IfOk result (λ _. HasStock (M.view memory.new)) }
{
    let found = find(memory, HEAD, key)?;
    Ok(found)
}
