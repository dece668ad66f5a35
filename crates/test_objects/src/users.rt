//! Users of one queue: solo, and in threads.
ghost use Rattle.std.specs.Prelude.{◌≡◌};

use crate::rounds::{ROUNDS, TRIES};
use ex_ring::{Count, Pop, Push, Ring, RingCaller, RingUser, close_ring, new_ring};
use std::test::Fail;
use std::thread;
use stm_attempt::Stop;
use stm_object::Caller;
use stm_region::RegionFault;

/// Puts numbers in, and takes one out after each. Returns the user, with the number of values put
/// in and taken out.
fn put_and_take(ring: &Ring, user: RingUser) -> (RingUser, u32, u32)
    requires { user.table ≡ ring.now.table }
    ensures { result.0.table ≡ ring.now.table }
{
    let mut caller = Caller::of(ring, user);
    let mut put = 0u32;
    let mut taken = 0u32;
    for i in 0..ROUNDS {
        if caller.run(&Push(u64::from(i)), TRIES) == Ok(true) {
            put = put.saturating_add(1);
        }
        if let Ok(Some(_)) = caller.run(&Pop, TRIES) {
            taken = taken.saturating_add(1);
        }
    }
    (caller.into_user(), put, taken)
}

#[test]
fn one_user_in_turn(rt: HostRuntime) -> Result<(), Fail> {
    let (ring, user) = new_ring(rt.alloc(), 100)?;
    let mut caller = Caller::of(&ring, user);
    let none = caller.run(&Pop, 1);
    let third = caller.run(&Push(3), 1);
    let first = caller.run(&Push(1), 1);
    let count = caller.ask(&Count, 1);
    let one = caller.run(&Pop, 1);
    let other = caller.run(&Pop, 1);
    let over = caller.run(&Pop, 1);
    let user = caller.into_user();
    let Ok((words, clock)) = close_ring(ring, user) else {
        panic!(rt; "it stayed open")
    };
    assert_eq!(rt; none, Ok(None));
    assert_eq!(rt; third, Ok(true));
    assert_eq!(rt; first, Ok(true));
    assert_eq!(rt; count, Ok(2));
    assert_eq!(rt; one, Ok(Some(3)));
    assert_eq!(rt; other, Ok(Some(1)));
    assert_eq!(rt; over, Ok(None));
    assert_eq!(rt; clock.get(), 4);
    let mut expected = [0u64; 18];
    expected[0] = 3;
    expected[1] = 1;
    expected[16] = 2;
    expected[17] = 2;
    assert_eq!(rt; words.as_slice(), expected.as_slice());
    Ok(())
}

/// Puts `numbers` numbers in, from 100 on, and counts those that had room.
fn fill(caller: &mut RingCaller<'_>, numbers: u64) -> u32
    ensures { caller.new.shared ≡ caller.old.shared }
{
    let mut put = 0u32;
    for i in 0..numbers {
        if caller.run(&Push(i.saturating_add(100)), 1) == Ok(true) {
            put = put.saturating_add(1);
        }
    }
    put
}

#[test]
fn room_for_sixteen(rt: HostRuntime) -> Result<(), Fail> {
    let (ring, user) = new_ring(rt.alloc(), 100)?;
    let mut caller = Caller::of(&ring, user);
    let put = fill(&mut caller, 20);
    let full = caller.ask(&Count, 1);
    let first = caller.run(&Pop, 1);
    let again = caller.run(&Push(7), 1);
    let second = caller.run(&Pop, 1);
    let other = caller.split()?;
    let (user, other) = (caller.into_user(), other.into_user());
    let Err((ring, user, fault)) = close_ring(ring, user) else {
        panic!(rt; "it was closed")
    };
    let mut caller = Caller::of(&ring, user);
    caller.gather(Caller::of(&ring, other));
    let user = caller.into_user();
    let Ok((words, clock)) = close_ring(ring, user) else {
        panic!(rt; "it stayed open")
    };
    assert_eq!(rt; put, 16);
    assert_eq!(rt; full, Ok(16));
    assert_eq!(rt; first, Ok(Some(100)));
    assert_eq!(rt; again, Ok(true));
    assert_eq!(rt; second, Ok(Some(101)));
    assert_eq!(rt; fault, RegionFault::StillOut { out: 1 });
    assert_eq!(rt; clock.get(), 19);
    let expected: [u64; 18] = [
        7, 101, 102, 103, 104, 105, 106, 107, 108, 109, 110, 111, 112, 113, 114, 115, 2, 17,
    ];
    assert_eq!(rt; words.as_slice(), expected.as_slice());
    Ok(())
}

/// Opens a queue whose clock ends at version 2. The third number finds the clock spent, and
/// changes nothing. The numbers put in are there after the renewal.
#[test]
fn spent_clock_is_renewed(rt: HostRuntime) -> Result<(), Fail> {
    let (ring, user) = new_ring(rt.alloc(), 2)?;
    let mut caller = Caller::of(&ring, user);
    let put = fill(&mut caller, 2);
    let over = caller.run(&Push(7), TRIES);
    let still = caller.ask(&Count, 1);
    let user = caller.into_user();
    let Ok((ring, user)) = ring.renew(user, 100) else {
        panic!(rt; "it was not renewed")
    };
    let mut caller = Caller::of(&ring, user);
    let again = caller.run(&Push(7), 1);
    let first = caller.run(&Pop, 1);
    let left = caller.ask(&Count, 1);
    let user = caller.into_user();
    let Ok((_words, clock)) = ring.close(user) else {
        panic!(rt; "it stayed open")
    };
    assert_eq!(rt; put, 2);
    assert!(rt; matches!(over, Err(Stop::Spent { .. })));
    assert_eq!(rt; still, Ok(2));
    assert_eq!(rt; again, Ok(true));
    assert_eq!(rt; first, Ok(Some(100)));
    assert_eq!(rt; left, Ok(2));
    assert_eq!(rt; clock.get(), 2);
    Ok(())
}

#[test]
fn two_users_in_threads(rt: HostRuntime) -> Result<(), Fail> {
    let (ring, user) = new_ring(rt.alloc(), 1 << 40)?;
    let mut caller = Caller::of(&ring, user);
    let second = caller.split()?.into_user();
    let first = caller.into_user();
    let shared = &ring;
    let ((first, put, taken), (second, more_put, more_taken)) = thread::join(
        &rt,
        move || -> (RingUser, u32, u32)
            requires { first.table ≡ shared.now.table }
            ensures { result.0.table ≡ shared.entry.now.table }
        { put_and_take(shared, first) },
        move || -> (RingUser, u32, u32)
            requires { second.table ≡ shared.now.table }
            ensures { result.0.table ≡ shared.entry.now.table }
        { put_and_take(shared, second) },
    );
    let mut caller = Caller::of(&ring, first);
    caller.gather(Caller::of(&ring, second));
    let left = caller.ask(&Count, 1);
    let user = caller.into_user();
    let Ok(_) = close_ring(ring, user) else {
        panic!(rt; "it stayed open")
    };
    assert_eq!(rt; put, ROUNDS);
    assert_eq!(rt; more_put, ROUNDS);
    assert_eq!(rt; taken, ROUNDS);
    assert_eq!(rt; more_taken, ROUNDS);
    assert_eq!(rt; left, Ok(0));
    Ok(())
}
