//! Tests and changes of lists of pairs and of numbers, as the guards of events need them.

ghost use Rattle.std.specs.Prelude.{◌≡◌, ◌==◌, ◌<◌, ◌%◌, ◌&&◌, ◌||◌, nat_lt, []};
ghost use Rattle.std.specs.List.{list_any, list_all};
ghost use Rattle.stm_core.specs.Client.{writes_to, old_version, is_free, without};
ghost use Rattle.stm_core.specs.Event.{is_empty};
ghost use Rattle.stm_core.specs.Guards.{is_map, is_next, are_stored, may_write, stripe_of};
ghost use Rattle.stm_core.specs.LockWord.{free_word};
ghost use Rattle.stm_core.specs.declared.version.TheConstants.{VERSION_LIMIT};

use std::alloc::Allocator;
use stm_core::{LockWord, Version};

/// Returns whether some pair has this number as its first component.
pub(crate) fn names(pairs: &[(u32, u64)], number: u32) -> bool
    ensures { result ≡ writes_to pairs.now number }
{
    match pairs {
        [] => false,
        [first, rest @ ..] => first.0 == number || names(rest, number),
    }
}

/// Returns whether the first component of every pair is below the bound.
pub(crate) fn all_below(pairs: &[(u32, u64)], bound: u32) -> bool
    ensures { result ≡ list_all (λ p. nat_lt p.0 bound) pairs.now }
{
    pairs.iter().all(|pair| pair.0 < bound)
}

/// Returns whether the list contains the pair of this number and value.
pub(crate) fn has_pair(pairs: &[(u32, u64)], number: u32, value: u64) -> bool
    ensures { result ≡ list_any (λ p. (p.0 == number) && (p.1 == value)) pairs.now }
{
    pairs.iter().any(|pair| pair.0 == number && pair.1 == value)
}

/// Returns whether the list contains the number.
pub(crate) fn has(numbers: &[u32], number: u32) -> bool
    ensures { result ≡ list_any (λ n. n == number) numbers.now }
{
    numbers.iter().any(|n| *n == number)
}

/// Returns whether the stripe of every written address is held.
pub(crate) fn all_held(writes: &[(u32, u64)], held: &[(u32, u64)], stripes: u32) -> bool
    requires { 0 < stripes }
    ensures { result ≡ list_all (λ p. writes_to held.now (p.0 % stripes)) writes.now }
{
    writes.iter().all(|pair| names(held, pair.0 % stripes))
}

/// Returns whether some written address lies in the stripe `lock`.
pub(crate) fn touches(writes: &[(u32, u64)], lock: u32, stripes: u32) -> bool
    requires { 0 < stripes }
    ensures { result ≡ list_any (λ p. (p.0 % stripes) == lock) writes.now }
{
    writes.iter().any(|pair| pair.0 % stripes == lock)
}

/// Returns whether every held lock is the stripe of some written address.
pub(crate) fn all_touched(held: &[(u32, u64)], writes: &[(u32, u64)], stripes: u32) -> bool
    requires { 0 < stripes }
    ensures { result ≡ list_all (λ q. list_any (λ p. (p.0 % stripes) == q.0) writes.now) held.now }
{
    held.iter().all(|pair| touches(writes, pair.0, stripes))
}

/// Returns whether every written address in the stripe `lock` has been stored.
pub(crate) fn all_stored(writes: &[(u32, u64)], stored: &[u32], lock: u32, stripes: u32) -> bool
    requires { 0 < stripes }
    ensures { result ≡ are_stored (stripe_of stripes) lock stored.now writes.now }
{
    writes
        .iter()
        .all(|pair| pair.0 % stripes != lock || has(stored, pair.0))
}

/// Returns whether no address occurs twice.
pub(crate) fn once(pairs: &[(u32, u64)]) -> bool
    ensures { result ≡ is_map pairs.now }
{
    match pairs {
        [] => true,
        [first, rest @ ..] => !names(rest, first.0) && once(rest),
    }
}

/// Returns whether the address read at position `place` lies in the stripe `lock`.
pub(crate) fn is_next(reads: &[(u32, u64)], place: usize, lock: u32, stripes: u32) -> bool
    requires { 0 < stripes }
    ensures { result ≡ is_next (stripe_of stripes) lock reads.now place }
{
    match reads {
        [] => false,
        [first, rest @ ..] => if place == 0 {
            first.0 % stripes == lock
        } else {
            is_next(rest, place - 1, lock, stripes)
        },
    }
}

/// Returns whether a tick may carry these writes: at least one, no address twice, all addresses in
/// the region, and their stripes exactly the held ones.
pub(crate) fn may_write(
    writes: &[(u32, u64)],
    held: &[(u32, u64)],
    stripes: u32,
    size: usize,
) -> bool
    requires { 0 < stripes }
    ensures { result ≡ may_write (stripe_of stripes) size held.now writes.now }
{
    !none(writes)
        && once(writes)
        && all_inside(writes, size)
        && all_held(writes, held, stripes)
        && all_touched(held, writes, stripes)
}

/// Returns whether every address is below the size.
pub(crate) fn all_inside(pairs: &[(u32, u64)], size: usize) -> bool
    ensures { result ≡ list_all (λ p. nat_lt p.0 size) pairs.now }
{
    pairs.iter().all(|pair| (pair.0 as usize) < size)
}

/// Returns whether the list is empty.
pub(crate) fn none(pairs: &[(u32, u64)]) -> bool
    ensures { result ≡ is_empty pairs.now }
{
    match pairs {
        [] => true,
        [_, ..] => false,
    }
}

/// Returns the second component of the first pair with this first component, or 0.
pub(crate) fn behind(pairs: &[(u32, u64)], number: u32) -> u64
    ensures { result ≡ old_version pairs.now number }
{
    match pairs {
        [] => 0,
        [first, rest @ ..] => if first.0 == number {
            first.1
        } else {
            behind(rest, number)
        },
    }
}

/// Removes every pair with this first component.
pub(crate) fn take_out<A: Allocator + Copy>(pairs: &mut Vec<(u32, u64), A>, number: u32)
    ensures { pairs.new.items ≡ without pairs.old.items number }
{
    pairs.retain(|pair| pair.0 != number);
}

/// Returns whether a lock word is free.
#[inline]
pub(crate) fn says_free(word: u64) -> bool
    ensures { result ≡ is_free word }
{
    word == 2 * (word / 2)
}

/// Returns the lock word of a free lock with this version.
#[inline]
pub(crate) fn free_lock(number: u64) -> u64
    requires { number < VERSION_LIMIT }
    ensures { result ≡ free_word number }
{
    let Some(version) = Version::new(number) else {
        unreachable!()
    };
    LockWord::free(version)
}
