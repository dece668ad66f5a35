//! The initial words of a system, written as attempts.

ghost use Rattle.std.specs.Prelude.{◌≡◌, ◌+◌, ◌<◌, ◌≤◌, ◌^◌, ◌++◌, true, OnOk, IfOk, length};
ghost use Rattle.std.specs.List.{All};
ghost use Rattle.load_record.specs.Laying.{IsLaidFirst, Lays, write_of, writes_from, done_by};

use crate::places::first_place;
use std::alloc::{AllocError, Global};
use tx_alloc::spread_words;
use tx_memory::{Access, Addr};
use vac_manager::TracedAttempt;
use vac_model::limits::MOST_BLOCKS;

/// Largest number of words that one attempt may write, so that its line is not too long.
const MOST_LAID: usize = 16_384;

/// Adds the write of a word, if the word is not 0.
fn lay_word(accesses: &mut Vec<Access>, address: u32, word: u64) -> Result<(), AllocError>
    ensures { OnOk result (accesses.new.items ≡ accesses.old.items ++ write_of address word) }
{
    if word != 0 {
        accesses.push(Access::Write {
            addr: Addr(address),
            value: word,
        })?;
    }
    Ok(())
}

/// Returns an attempt that writes those words that are not 0. The first word of the slice has the
/// address `first`.
fn lay_some(alloc: Global, first: u32, words: &[u64]) -> Result<TracedAttempt, AllocError>
    requires few { first + length words.now < 2 ^ 32 }
    ensures laid { IfOk result (λ a. IsLaidFirst a) }
    ensures writes { IfOk result (λ a. a.accesses.items ≡ writes_from first words.now) }
{
    let mut accesses = Vec::new(alloc);
    for (place, word) in words.iter().enumerate() {
        lay_word(&mut accesses, first + place as u32, *word)?;
    }
    Ok(TracedAttempt {
        begin: 0,
        end: 0,
        commits: true,
        place: first_place(true),
        accesses,
    })
}

/// Returns attempts that write those words that are not 0.
fn lay_all(alloc: Global, words: &[u64]) -> Result<Vec<TracedAttempt>, AllocError>
    requires few { length words.now < 2 ^ 31 }
    ensures laid { IfOk result (λ laid. All (λ a. IsLaidFirst a) laid.items) }
    ensures writes { IfOk result (λ laid. done_by laid.items ≡ writes_from 0 words.now) }
{
    let mut laid = Vec::new(alloc);
    let mut left = words;
    let mut first = 0;
    'pieces: while !left.is_empty() {
        let count = left.len().min(MOST_LAID);
        let (piece, rest) = left.split_at(count);
        laid.push(lay_some(alloc, first, piece)?)?;
        left = rest;
        first += count as u32;
    }
    Ok(laid)
}

/// Returns attempts that write the initial words of a system with this number of blocks.
pub(crate) fn lay(alloc: Global, blocks: u32) -> Result<Vec<TracedAttempt>, AllocError>
    requires some { 1 ≤ blocks }
    requires most { blocks ≤ MOST_BLOCKS }
    ensures { IfOk result (λ laid. Lays blocks laid.items) }
{
    let words = spread_words(alloc, blocks as usize)?;
    lay_all(alloc, words.as_slice())
}
