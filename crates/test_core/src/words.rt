//! Versions and lock words, and plain memory through the bound.
ghost use Rattle.std.specs.Prelude.{◌≡◌, ◌<◌, IfOk};

use std::test::Fail;
use stm_core::{FreeLaw, LockWord, Version, law_keeps_fitting};
use tx_memory::{Addr, Flat, TxMem, TxRead, load, store};

#[test]
fn versions_end_below_two_to_the_62(rt: HostRuntime) {
    let last = (1u64 << 62) - 1;
    assert!(rt; Version::new(0).is_some());
    assert!(rt; Version::new(last).is_some());
    assert!(rt; Version::new(last + 1).is_none());
    assert!(rt; Version::new(u64::MAX).is_none());
}

#[test]
fn lock_words(rt: HostRuntime) -> Result<(), Fail> {
    let three = Version::new(3).ok_or("3 is a version")?;
    assert_eq!(rt; three.get(), 3);
    assert_eq!(rt; LockWord::free(three), 6);
    assert_eq!(rt; LockWord::held(three), 7);
    let (version, held) = LockWord::decode(7);
    assert_eq!(rt; version.get(), 3);
    assert!(rt; held);
    let (version, held) = LockWord::decode(6);
    assert_eq!(rt; version.get(), 3);
    assert!(rt; !held);
    Ok(())
}

fn swap<M: TxMem>(memory: &mut M, a: Addr, b: Addr) -> Result<(), M::Stop>
    requires a { a.0 < (M.view memory.old).size }
    requires b { b.0 < (M.view memory.old).size }
    ensures origin { M.origin memory.new ≡ M.origin memory.old }
    ensures size { IfOk result (λ _. (M.view memory.new).size ≡ (M.view memory.old).size) }
{
    let x = load(memory, a)?;
    let y = load(memory, b)?;
    store(memory, a, y)?;
    store(memory, b, x)
}

#[test]
fn plain_memory_through_the_bound(rt: HostRuntime) -> Result<(), Fail> {
    law_keeps_fitting::<FreeLaw>();
    let mut flat = Flat::new(vec![in rt.alloc(); 4u64, 5, 6]?);
    let Ok(()) = swap(&mut flat, Addr(0), Addr(2));
    let Ok(last) = flat.read(Addr(2));
    assert_eq!(rt; last, 4);
    let words = flat.words();
    assert_eq!(rt; words.as_slice(), [6u64, 5, 4].as_slice());
    Ok(())
}
