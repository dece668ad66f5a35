//! Blocks of a heap in plain memory: the free blocks at first, and the order in which blocks are
//! taken.
ghost use Rattle.std.specs.Prelude.{◌≡◌, ◌≤◌, IfOk};
ghost use Rattle.tx_alloc.specs.Pool.{HasPool};

use std::alloc::{AllocError, Global};
use std::test::Fail;
use tx_alloc::{Block, FreeList, give, rows_are_a_map, spread_words, take, take_refilling};
use tx_memory::{Addr, Flat, TxMem};

/// Returns the words that are not 0, with their indices.
fn filled(alloc: Global, words: &[u64]) -> Result<Vec<(usize, u64)>, AllocError> {
    words
        .iter()
        .copied()
        .enumerate()
        .filter(|(_, word)| *word != 0)
        .collect(alloc)
}

/// Takes three blocks, searching from these lists on.
fn take_three<M: TxMem>(
    memory: &mut M,
    first: FreeList,
    second: FreeList,
    third: FreeList,
) -> Result<[Option<Block>; 3], M::Stop>
    requires pool { HasPool (M.view memory.old) }
    ensures origin { M.origin memory.new ≡ M.origin memory.old }
    ensures pool { IfOk result (λ _. HasPool (M.view memory.new)) }
{
    let one = take(memory, first)?;
    let two = take(memory, second)?;
    let three = take(memory, third)?;
    Ok([one, two, three])
}

/// Takes a block and gives it back to another list.
fn take_and_give<M: TxMem>(
    memory: &mut M,
    from: FreeList,
    to: FreeList,
) -> Result<Option<Block>, M::Stop>
    requires pool { HasPool (M.view memory.old) }
    ensures origin { M.origin memory.new ≡ M.origin memory.old }
    ensures pool { IfOk result (λ _. HasPool (M.view memory.new)) }
{
    let taken = take(memory, from)?;
    match taken {
        None => Ok(None),
        Some(block) => {
            give(memory, to, block)?;
            Ok(Some(block))
        }
    }
}

/// The first two lists have two blocks each, the others one. List 1 keeps its second block, and
/// the block of list 5 goes to list 7.
#[test]
fn blocks_come_from_the_first_list_that_has_one(rt: HostRuntime) -> Result<(), Fail> {
    let words = spread_words(rt.alloc(), 10)?;
    let mut flat = Flat::new(words);
    let Ok(taken) = take_three(
        &mut flat,
        FreeList::new(1),
        FreeList::new(3),
        FreeList::new(3),
    );
    let Ok(given) = take_and_give(&mut flat, FreeList::new(3), FreeList::new(7));
    let words = flat.words();
    let filled_after = filled(rt.alloc(), &words)?;
    let blocks = [
        Some(Block(Addr(32))),
        Some(Block(Addr(56))),
        Some(Block(Addr(64))),
    ];
    let expected = [
        (8, 16),
        (9, 40),
        (10, 48),
        (14, 80),
        (15, 72),
        (16, 24),
        (32, 40),
        (72, 88),
    ];
    assert_eq!(rt; taken, blocks);
    assert_eq!(rt; given, Some(Block(Addr(72))));
    assert_eq!(rt; filled_after.as_slice(), expected.as_slice());
    Ok(())
}

#[test]
fn the_search_goes_round_and_ends(rt: HostRuntime) -> Result<(), Fail> {
    let words = spread_words(rt.alloc(), 2)?;
    let mut flat = Flat::new(words);
    let Ok(taken) = take_three(
        &mut flat,
        FreeList::new(1),
        FreeList::new(5),
        FreeList::new(0),
    );
    assert_eq!(rt; taken, [Some(Block(Addr(24))), Some(Block(Addr(16))), None]);
    Ok(())
}

/// Returns whether these are the words other than 0 of a partitioned heap, whose free lists have a
/// part of it each.
fn has_pieces(alloc: Global, blocks: usize, expected: &[(usize, u64)]) -> Result<bool, AllocError>
    requires some { 1 ≤ blocks }
    requires few { blocks ≤ 10 }
{
    let words = spread_words(alloc, blocks)?;
    let found = filled(alloc, &words)?;
    Ok(words.len() == 16 + 8 * blocks && found.as_slice() == expected)
}

/// The words other than 0 of a heap of eight blocks, one in each list.
const EIGHT: [(usize, u64); 8] = [
    (8, 16),
    (9, 24),
    (10, 32),
    (11, 40),
    (12, 48),
    (13, 56),
    (14, 64),
    (15, 72),
];

/// The words other than 0 of a heap of nine blocks: the first list has two.
const NINE: [(usize, u64); 9] = [
    (8, 16),
    (9, 32),
    (10, 40),
    (11, 48),
    (12, 56),
    (13, 64),
    (14, 72),
    (15, 80),
    (16, 24),
];

/// The words other than 0 of a heap of ten blocks: the first two lists have two each.
const TEN: [(usize, u64); 10] = [
    (8, 16),
    (9, 32),
    (10, 48),
    (11, 56),
    (12, 64),
    (13, 72),
    (14, 80),
    (15, 88),
    (16, 24),
    (32, 40),
];

#[test]
fn words_of_heaps_in_pieces(rt: HostRuntime) -> Result<(), Fail> {
    rows_are_a_map();
    let found = [
        has_pieces(rt.alloc(), 1, &EIGHT[..1])?,
        has_pieces(rt.alloc(), 7, &EIGHT[..7])?,
        has_pieces(rt.alloc(), 8, &EIGHT)?,
        has_pieces(rt.alloc(), 9, &NINE)?,
        has_pieces(rt.alloc(), 10, &TEN)?,
    ];
    assert_eq!(rt; found, [true; 5]);
    Ok(())
}

/// Takes `many` blocks for one list, and returns the last one.
fn take_many<M: TxMem>(memory: &mut M, start: FreeList, many: u32) -> Result<Option<Block>, M::Stop>
    requires pool { HasPool (M.view memory.old) }
    ensures origin { M.origin memory.new ≡ M.origin memory.old }
    ensures pool { IfOk result (λ _. HasPool (M.view memory.new)) }
{
    let mut last = None;
    for _ in 0..many {
        last = take_refilling(memory, start)?;
    }
    Ok(last)
}

/// Takes a block for each of the lists below `lists`.
fn take_of_each<M: TxMem>(memory: &mut M, lists: u32) -> Result<(), M::Stop>
    requires pool { HasPool (M.view memory.old) }
    requires lists { lists ≤ 8 }
    ensures origin { M.origin memory.new ≡ M.origin memory.old }
    ensures pool { IfOk result (λ _. HasPool (M.view memory.new)) }
{
    for list in 0..lists {
        take_refilling(memory, FreeList::new(list))?;
    }
    Ok(())
}

/// List 1 has three blocks: the first is taken, and the two others become list 0.
#[test]
fn a_dry_list_gets_what_is_behind_the_block(rt: HostRuntime) -> Result<(), Fail> {
    let words = spread_words(rt.alloc(), 24)?;
    let mut flat = Flat::new(words);
    let Ok(own) = take_many(&mut flat, FreeList::new(0), 3);
    let Ok(next) = take_many(&mut flat, FreeList::new(0), 1);
    let words = flat.words();
    let places = [8, 9, 10, 32, 40, 48, 56, 64, 80];
    let found = places.map(|place| words.get(place).copied());
    let lists = [48u64, 0, 64, 0, 48, 56, 0, 72, 0].map(Some);
    assert_eq!(rt; (own, next), (Some(Block(Addr(32))), Some(Block(Addr(40)))));
    assert_eq!(rt; found, lists);
    Ok(())
}

/// Each list has 66 blocks. List 7 is exhausted, and list 0 follows it: its first block is taken,
/// the next 63 become list 7, and the last two stay.
#[test]
fn a_run_has_sixty_four_blocks(rt: HostRuntime) -> Result<(), Fail> {
    let words = spread_words(rt.alloc(), 528)?;
    let mut flat = Flat::new(words);
    let Ok(own) = take_many(&mut flat, FreeList::new(7), 66);
    let Ok(next) = take_many(&mut flat, FreeList::new(7), 1);
    let words = flat.words();
    let places = [8, 9, 15, 24, 512, 520, 528, 536];
    let found = places.map(|place| words.get(place).copied());
    let lists = [528u64, 544, 24, 32, 520, 0, 536, 0].map(Some);
    assert_eq!(rt;
        (own, next),
        (Some(Block(Addr(4232))), Some(Block(Addr(16))))
    );
    assert_eq!(rt; found, lists);
    Ok(())
}

/// The last list that is searched has a block, and taking the very last block leaves none.
#[test]
fn the_last_list_and_the_last_block(rt: HostRuntime) -> Result<(), Fail> {
    let mut eight = Flat::new(spread_words(rt.alloc(), 8)?);
    let Ok(()) = take_of_each(&mut eight, 7);
    let Ok(last) = take_many(&mut eight, FreeList::new(0), 1);
    let Ok(none) = take_many(&mut eight, FreeList::new(0), 1);
    let mut one = Flat::new(spread_words(rt.alloc(), 1)?);
    let Ok(only) = take_many(&mut one, FreeList::new(3), 1);
    let Ok(no_more) = take_many(&mut one, FreeList::new(3), 1);
    let heads_of_eight = filled(rt.alloc(), &eight.words())?;
    let heads_of_one = filled(rt.alloc(), &one.words())?;
    let blocks = [last, none, only, no_more];
    let expected = [Some(Block(Addr(72))), None, Some(Block(Addr(16))), None];
    assert_eq!(rt; blocks, expected);
    assert_eq!(rt; (heads_of_eight.len(), heads_of_one.len()), (0, 0));
    Ok(())
}
