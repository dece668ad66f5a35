//! A day at a queue: two users put numbers in, each in a thread of its own, and a third takes them
//! out. However the threads interleave, all numbers come out, and those of each user in the order
//! in which the user put them in.
#![tactic(auto)]

ghost use Rattle.std.specs.Prelude.{◌≡◌};

use crossbeam_utils::Backoff;
use ex_ring::{Count, Pop, Push, Ring, RingCaller, RingUser, close_ring, new_ring};
use std::process::ExitCode;
use std::thread;
use std::thread::Threads;

/// Numbers that each of the two users puts in.
const NUMBERS: u32 = 1_000;

/// The first number of the second user. The first user's numbers begin at 0.
const SECOND: u64 = NUMBERS as u64;

/// Attempts that a transaction may make at most.
const TRIES: u32 = 1 << 20;

/// Number of times that a user asks a full or an empty queue again.
const PATIENCE: u32 = 1 << 24;

/// The results of a day: the numbers put in, and the numbers that came out in their turn.
#[derive(Clone, Copy)]
struct Day {
    put: u32,
    in_turn: u32,
}

/// Puts a number in once there is room, and returns whether that succeeded.
fn put(caller: &mut RingCaller<'_>, value: u64) -> bool
    ensures { caller.new.shared ≡ caller.old.shared }
{
    let backoff = Backoff::new();
    for _ in 0..PATIENCE {
        if caller.run(&Push(value), TRIES) == Ok(true) {
            return true;
        }
        backoff.snooze();
    }
    false
}

/// Takes a number out once there is one.
fn take(caller: &mut RingCaller<'_>) -> Option<u64>
    ensures { caller.new.shared ≡ caller.old.shared }
{
    let backoff = Backoff::new();
    for _ in 0..PATIENCE {
        if let Ok(Some(value)) = caller.run(&Pop, TRIES) {
            return Some(value);
        }
        backoff.snooze();
    }
    None
}

/// Returns the number of values in the queue, or the greatest number if the question was stopped.
fn count(caller: &mut RingCaller<'_>) -> u64
    ensures { caller.new.shared ≡ caller.old.shared }
{
    match caller.ask(&Count, TRIES) {
        Ok(count) => count,
        Err(_) => u64::MAX,
    }
}

/// Puts numbers in, from `first` on, and counts them.
fn put_many(ring: &Ring, user: RingUser, first: u64) -> (RingUser, u32)
    requires { user.table ≡ ring.now.table }
    ensures { result.0.table ≡ ring.now.table }
{
    let mut caller = RingCaller::of(ring, user);
    let mut done = 0u32;
    for i in 0..NUMBERS {
        if put(&mut caller, first.saturating_add(u64::from(i))) {
            done = done.saturating_add(1);
        }
    }
    (caller.into_user(), done)
}

/// Takes out the numbers of both users, and counts those that come in their turn.
fn take_many(ring: &Ring, user: RingUser) -> (RingUser, u32)
    requires { user.table ≡ ring.now.table }
    ensures { result.0.table ≡ ring.now.table }
{
    let mut caller = RingCaller::of(ring, user);
    let mut in_turn = 0u32;
    let mut first = 0u64;
    let mut second = SECOND;
    for _ in 0..2 * NUMBERS {
        let value = take(&mut caller);
        if value == Some(first) {
            first = first.saturating_add(1);
            in_turn = in_turn.saturating_add(1);
        } else if value == Some(second) {
            second = second.saturating_add(1);
            in_turn = in_turn.saturating_add(1);
        }
    }
    (caller.into_user(), in_turn)
}

/// Lets both users put their numbers in, side by side. Returns the first user, which has gathered
/// the other.
fn put_both<R: Threads + Sync>(
    rt: &R,
    ring: &Ring,
    one: RingUser,
    other: RingUser,
) -> (RingUser, u32)
    requires { (one.table ≡ ring.now.table) × (other.table ≡ ring.now.table) }
    ensures { result.0.table ≡ ring.now.table }
{
    let put_first = move || -> (RingUser, u32)
        requires { one.table ≡ ring.now.table }
        ensures { result.0.table ≡ ring.entry.now.table }
    { put_many(ring, one, 0) };
    let put_second = move || -> (RingUser, u32)
        requires { other.table ≡ ring.now.table }
        ensures { result.0.table ≡ ring.entry.now.table }
    { put_many(ring, other, SECOND) };
    let ((one, some), (other, more)) = thread::join(rt, put_first, put_second);
    let mut caller = RingCaller::of(ring, one);
    caller.gather(RingCaller::of(ring, other));
    (caller.into_user(), some.saturating_add(more))
}

/// Runs a day: one user takes numbers out while the others put them in. Returns the user, which
/// has gathered all others.
fn spend<R: Threads + Sync>(rt: &R, ring: &Ring, user: RingUser) -> (RingUser, Day)
    requires { user.table ≡ ring.now.table }
    ensures { result.0.table ≡ ring.now.table }
{
    let none = Day { put: 0, in_turn: 0 };
    let mut caller = RingCaller::of(ring, user);
    let Ok(one) = caller.split() else {
        return (caller.into_user(), none);
    };
    let Ok(other) = caller.split() else {
        caller.gather(one);
        return (caller.into_user(), none);
    };
    let (user, one, other) = (caller.into_user(), one.into_user(), other.into_user());
    let put_in = move || -> (RingUser, u32)
        requires { (one.table ≡ ring.now.table) × (other.table ≡ ring.now.table) }
        ensures { result.0.table ≡ ring.entry.now.table }
    { put_both(rt, ring, one, other) };
    let take_out = move || -> (RingUser, u32)
        requires { user.table ≡ ring.now.table }
        ensures { result.0.table ≡ ring.entry.now.table }
    { take_many(ring, user) };
    let ((one, put), (user, in_turn)) = thread::join(rt, put_in, take_out);
    let mut caller = RingCaller::of(ring, user);
    caller.gather(RingCaller::of(ring, one));
    (caller.into_user(), Day { put, in_turn })
}

fn main(rt: HostRuntime) -> ExitCode {
    let Ok((ring, user)) = new_ring(rt.alloc(), 1 << 40) else {
        let _ = eprintln!(rt; "the queue could not be opened");
        return ExitCode::FAILURE;
    };
    let (user, day) = spend(&rt, &ring, user);
    let mut caller = RingCaller::of(&ring, user);
    let left = count(&mut caller);
    let user = caller.into_user();
    let Ok(_) = close_ring(ring, user) else {
        let _ = eprintln!(rt; "the queue could not be closed");
        return ExitCode::FAILURE;
    };
    let told = println!(rt;
        "{} numbers were put in\n{} came out in their turn\nthe queue closed with {left}",
        day.put, day.in_turn
    );
    match told {
        Ok(()) => ExitCode::SUCCESS,
        Err(_) => ExitCode::FAILURE,
    }
}
