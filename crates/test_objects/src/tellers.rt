//! Tellers of one bank: solo, and in threads.
ghost use Rattle.std.specs.Prelude.{◌≡◌};

use crate::rounds::{ROUNDS, TRIES};
use ex_bank::{ACCOUNTS, Bank, Teller, audit, close_bank, new_bank, transfer};
use std::test::Fail;
use std::thread;
use stm_object::Caller;
use stm_region::RegionFault;

/// Transfers from account to account. Returns the teller, with the number of transfers that moved.
fn move_many(bank: &Bank, teller: Teller) -> (Teller, u32)
    requires { teller.table ≡ bank.now.table }
    ensures { result.0.table ≡ bank.now.table }
{
    let mut caller = Caller::of(bank, teller);
    let mut moved = 0u32;
    for i in 0..ROUNDS {
        let from = i % ACCOUNTS;
        let to = (i / 3 + 7) % ACCOUNTS;
        if transfer(&mut caller, from, to, u64::from(i % 10), TRIES) == Ok(true) {
            moved = moved.saturating_add(1);
        }
    }
    (caller.into_user(), moved)
}

/// Adds up all balances again and again. Returns the teller, with the number of sums equal to
/// `expected`.
fn add_many(bank: &Bank, teller: Teller, expected: u64) -> (Teller, u32)
    requires { teller.table ≡ bank.now.table }
    ensures { result.0.table ≡ bank.now.table }
{
    let mut caller = Caller::of(bank, teller);
    let mut same = 0u32;
    for _ in 0..ROUNDS {
        if audit(&mut caller, TRIES) == Ok(expected) {
            same = same.saturating_add(1);
        }
    }
    (caller.into_user(), same)
}

#[test]
fn sums_amid_transfers(rt: HostRuntime) -> Result<(), Fail> {
    let alloc = rt.alloc();
    let (bank, teller) = new_bank(alloc, 1_000, 1 << 40)?;
    let mut caller = Caller::of(&bank, teller);
    let second = caller.split()?.into_user();
    let first = caller.into_user();
    let shared = &bank;
    let ((first, moved), (second, same)) = thread::join(
        &rt,
        move || -> (Teller, u32)
            requires { first.table ≡ shared.now.table }
            ensures { result.0.table ≡ shared.entry.now.table }
        { move_many(shared, first) },
        move || -> (Teller, u32)
            requires { second.table ≡ shared.now.table }
            ensures { result.0.table ≡ shared.entry.now.table }
        { add_many(shared, second, 64_000) },
    );
    let mut caller = Caller::of(&bank, first);
    caller.gather(Caller::of(&bank, second));
    let teller = caller.into_user();
    let Ok((words, _)) = close_bank(bank, teller) else {
        panic!(rt; "it stayed open")
    };
    let sum = words.iter().fold(0u64, |sum, word| sum.wrapping_add(*word));
    assert_eq!(rt; sum, 64_000);
    assert_eq!(rt; moved, ROUNDS);
    assert_eq!(rt; same, ROUNDS);
    Ok(())
}

#[test]
fn too_much_is_not_moved(rt: HostRuntime) -> Result<(), Fail> {
    let alloc = rt.alloc();
    let (bank, teller) = new_bank(alloc, 5, 100)?;
    let mut caller = Caller::of(&bank, teller);
    let much = transfer(&mut caller, 3, 4, 6, 1);
    let some = transfer(&mut caller, 3, 4, 5, 1);
    let none = transfer(&mut caller, 3, 3, 1, 1);
    let same = transfer(&mut caller, 4, 4, 10, 1);
    let sum = audit(&mut caller, 1);
    let other = caller.split()?;
    let (teller, other) = (caller.into_user(), other.into_user());
    let Err((bank, teller, fault)) = close_bank(bank, teller) else {
        panic!(rt; "it was closed")
    };
    let mut caller = Caller::of(&bank, teller);
    caller.gather(Caller::of(&bank, other));
    let teller = caller.into_user();
    let Ok((words, clock)) = close_bank(bank, teller) else {
        panic!(rt; "it stayed open")
    };
    assert_eq!(rt; fault, RegionFault::StillOut { out: 1 });
    assert_eq!(rt; much, Ok(false));
    assert_eq!(rt; some, Ok(true));
    assert_eq!(rt; none, Ok(false));
    assert_eq!(rt; same, Ok(true));
    assert_eq!(rt; sum, Ok(320));
    assert_eq!(rt; clock.get(), 2);
    let mut expected = [5u64; 64];
    expected[3] = 0;
    expected[4] = 10;
    assert_eq!(rt; words.as_slice(), expected.as_slice());
    Ok(())
}
