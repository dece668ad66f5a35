//! The searches that `stm_object` offers to bodies, over plain memory.

use std::test::Fail;
use stm_object::{find, seek};
use tx_memory::Flat;

#[test]
fn the_first_of_a_range(rt: HostRuntime) -> Result<(), Fail> {
    let mut flat = Flat::new(vec![in rt.alloc(); 7u64, 5, 9, 5]?);
    let all = find(&mut flat, 0, 4, 5);
    let behind = find(&mut flat, 2, 4, 5);
    let before = find(&mut flat, 0, 1, 5);
    let last = find(&mut flat, 3, 4, 5);
    let nowhere = find(&mut flat, 0, 4, 6);
    let empty = find(&mut flat, 4, 4, 7);
    let turned = find(&mut flat, 3, 1, 5);
    let words = flat.words();
    assert_eq!(rt; all.ok(), Some(Some(1)));
    assert_eq!(rt; behind.ok(), Some(Some(3)));
    assert_eq!(rt; before.ok(), Some(None));
    assert_eq!(rt; last.ok(), Some(Some(3)));
    assert_eq!(rt; nowhere.ok(), Some(None));
    assert_eq!(rt; empty.ok(), Some(None));
    assert_eq!(rt; turned.ok(), Some(None));
    assert_eq!(rt; words.as_slice(), [7u64, 5, 9, 5].as_slice());
    Ok(())
}

#[test]
fn the_word_or_else_the_first_free(rt: HostRuntime) -> Result<(), Fail> {
    let mut flat = Flat::new(vec![in rt.alloc(); 7u64, 0, 5, 0, 5]?);
    let there = seek(&mut flat, 0, 5, 5);
    let first_free = seek(&mut flat, 0, 5, 9);
    let next_free = seek(&mut flat, 2, 5, 7);
    let full = seek(&mut flat, 2, 3, 9);
    let empty = seek(&mut flat, 3, 3, 0);
    let words = flat.words();
    assert_eq!(rt; there.ok(), Some(Some(2)));
    assert_eq!(rt; first_free.ok(), Some(Some(1)));
    assert_eq!(rt; next_free.ok(), Some(Some(3)));
    assert_eq!(rt; full.ok(), Some(None));
    assert_eq!(rt; empty.ok(), Some(None));
    assert_eq!(rt; words.as_slice(), [7u64, 0, 5, 0, 5].as_slice());
    Ok(())
}
