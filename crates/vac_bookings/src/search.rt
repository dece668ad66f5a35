//! Finding bookings.

ghost use Rattle.std.specs.Prelude.{◌≡◌, ◌<◌, ◌^◌, IfOk, IfErr};
ghost use Rattle.vac_bookings.specs.Bookings.{IsKey, code_of};
ghost use Rattle.vac_bookings.specs.Lists.{HasList, HasBooking, Found, First, Next};
ghost use Rattle.vac_bookings.specs.Search.{Sought, led_to};

use crate::key::{Key, compare_key};
use crate::place::NEXT;
use std::cmp::Ordering;
use tx_alloc::Block;
use tx_memory::{Addr, TxRead, load};

/// The position of a key in a list: where the key is or would be. A spot is valid until a link of
/// the list is written.
#[derive(Clone, Copy, Debug, PartialEq, Eq)]
pub struct Spot {
    /// The word that leads to the position.
    pub link: Addr,
    /// The value of that word: the pointer to the first booking that is not before the key.
    pub word: u64,
    /// The block of the booking with the key, if there is one.
    pub entry: Option<Block>,
}

/// Returns the block of the booking of a key in the list at `head`.
pub fn find<M: TxRead>(memory: &mut M, head: Addr, key: Key) -> Result<Option<Block>, M::Stop>
    requires list { HasList (M.view memory.old) head.0 }
    requires key { IsKey key }
    ensures origin { M.origin memory.new ≡ M.origin memory.old }
    ensures answer { IfOk result (λ found.
        Found (M.view memory.old) (M.view memory.new) head.0 (code_of key) found) }
{
    let spot = seek(memory, head, key)?;
    Ok(spot.entry)
}

/// Returns the first booking of the list at `head`.
#[inline(always)]
pub fn first<M: TxRead>(memory: &mut M, head: Addr) -> Result<Option<Block>, M::Stop>
    requires list { HasList (M.view memory.old) head.0 }
    ensures origin { M.origin memory.new ≡ M.origin memory.old }
    ensures answer { IfOk result (λ found.
        First (M.view memory.old) (M.view memory.new) head.0 found) }
    ensures stopped { IfErr result (λ stop. M.stopped_for memory.new stop) }
{
    let pointer = load(memory, head)?;
    Ok(block_led_to(pointer))
}

/// Returns the booking after the booking in this block.
#[inline(always)]
pub fn next<M: TxRead>(memory: &mut M, block: Block) -> Result<Option<Block>, M::Stop>
    requires booking { HasBooking (M.view memory.old) block }
    ensures origin { M.origin memory.new ≡ M.origin memory.old }
    ensures answer { IfOk result (λ found.
        Next (M.view memory.old) (M.view memory.new) block found) }
    ensures stopped { IfErr result (λ stop. M.stopped_for memory.new stop) }
{
    let pointer = load(memory, block.word(NEXT))?;
    Ok(block_led_to(pointer))
}

/// Returns the block to which a pointer leads, or `None` for 0.
#[inline]
fn block_led_to(pointer: u64) -> Option<Block>
    requires { pointer < 2 ^ 32 }
    ensures { result ≡ led_to pointer }
{
    match pointer {
        0 => None,
        _ => Some(Block(Addr(pointer as u32))),
    }
}

/// Returns the spot of a key in the list at `head`.
pub fn seek<M: TxRead>(memory: &mut M, head: Addr, key: Key) -> Result<Spot, M::Stop>
    requires list { HasList (M.view memory.old) head.0 }
    requires key { IsKey key }
    ensures origin { M.origin memory.new ≡ M.origin memory.old }
    ensures answer { IfOk result (λ spot.
        Sought (M.view memory.old) (M.view memory.new) head.0 (code_of key) spot) }
{
    let mut link = head;
    // Number of bookings passed, for the prover alone: the walk ends because keys ascend.
    let mut passed: u64 = 0;
    loop {
        let word = load(memory, link)?;
        if word == 0 {
            return Ok(Spot {
                link,
                word,
                entry: None,
            });
        }
        let block = Block(Addr(word as u32));
        let order = compare_key(memory, block, key)?;
        match order {
            Ordering::Less => {}
            Ordering::Equal => {
                return Ok(Spot {
                    link,
                    word,
                    entry: Some(block),
                });
            }
            Ordering::Greater => {
                return Ok(Spot {
                    link,
                    word,
                    entry: None,
                });
            }
        }
        passed += 1;
        link = block.word(NEXT);
    }
}
