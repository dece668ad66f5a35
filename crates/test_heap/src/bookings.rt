//! A list of bookings in plain memory beside an ordered map.
ghost use Rattle.std.specs.Prelude.{◌≡◌, ◌*◌, ◌<◌, IfOk};
ghost use Rattle.test_stock.specs.Stock.{IsStockKey, HasStock};

use rand_core::Rng;
use rand_pcg::Pcg32;
use std::alloc::{AllocError, Global};
use std::collections::BTreeMap;
use std::test::Fail;
use test_stock::{HEAD, IDS, block_of, look, stock_words, turn};
use tx_alloc::Block;
use tx_memory::{Flat, TxRead};
use vac_bookings::{Key, first, next};

/// Returns whether a walk along the list meets exactly these blocks.
fn has_blocks<M: TxRead>(memory: &mut M, blocks: &[Block]) -> Result<bool, M::Stop>
    requires stock { HasStock (M.view memory.old) }
    ensures origin { M.origin memory.new ≡ M.origin memory.old }
    ensures stock { IfOk result (λ _. HasStock (M.view memory.new)) }
{
    let mut found = first(memory, HEAD)?;
    for block in blocks {
        match found {
            None => return Ok(false),
            Some(here) => {
                if here != *block {
                    return Ok(false);
                }
                found = next(memory, here)?;
            }
        }
    }
    Ok(found.is_none())
}

fn random_key(random: &mut Pcg32) -> Key
    ensures { IsStockKey result }
{
    let kind = random.next_u32() % 3;
    let id = random.next_u32() % IDS;
    Key {
        kind: kind as u64,
        id: id as u64,
    }
}

/// Returns the words that no call may change: all but the head and the words that link the blocks.
fn fixed(alloc: Global, words: &[u64]) -> Result<Vec<u64>, AllocError> {
    words
        .iter()
        .copied()
        .enumerate()
        .filter(|(place, _)| *place != 5 && (*place < 16 || *place % 8 != 3))
        .map(|(_, word)| word)
        .collect(alloc)
}

#[test]
fn random_changes_beside_an_ordered_map(rt: HostRuntime) -> Result<(), Fail> {
    let mut random = Pcg32::new(42, 54);
    let words = stock_words(rt.alloc())?;
    let before = fixed(rt.alloc(), &words)?;
    let mut flat = Flat::new(words);
    let mut map = BTreeMap::new(rt.alloc());
    let mut agrees = true;
    for _ in 0..3000 {
        let key = random_key(&mut random);
        let other = random_key(&mut random);
        let Ok(removed) = turn(&mut flat, key);
        let expected = map.remove(&key);
        if expected.is_none() {
            map.insert(key, block_of(key))?;
        }
        let Ok(found) = look(&mut flat, other);
        let blocks: Vec<Block> = map.values().copied().collect(rt.alloc())?;
        let Ok(listed) = has_blocks(&mut flat, &blocks);
        let answers = removed == expected && found == map.get(&other).copied();
        agrees = agrees && answers && listed;
    }
    let words = flat.words();
    let after = fixed(rt.alloc(), &words)?;
    assert!(rt; agrees);
    assert_eq!(rt; after, before);
    Ok(())
}
