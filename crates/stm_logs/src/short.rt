//! The write log of a transaction that writes few words.
ghost use Rattle.std.specs.Prelude.{◌≡◌, ℕ, ◌+◌, ◌*◌, ◌%◌, ◌<◌, true, false, None, Some, IfOk, IfErr};
ghost use Rattle.std.specs.FinMap.{get, len};
ghost use Rattle.stm_logs.specs.Held.{with_word};
ghost use Rattle.stm_logs.specs.Log.{empty_log, SameAddresses};
ghost use Rattle.stm_logs.specs.Short.{entry, short_log, IsShort, IsRowOf, IsFreeFor, Has, HasNone};
ghost use Rattle.stm_logs.specs.Keys.{key_at};

use crate::keys::{Keys, POSITIONS};
use crate::long::LongLog;
use std::alloc::{AllocError, Allocator};
use tx_memory::Addr;

/// Number of marks, one for each remainder of the addresses.
const MARKS: usize = 256;

/// Most words of a short log.
pub(crate) const MOST_WORDS: usize = 127;

/// Number of lock numbers that a short log takes: a key has a lock and a position.
const LOCKS: u32 = 1 << 24;

/// The words of a short log: at most 127 words, each under a lock of its own that has the remainder
/// of the word's address. A short log takes no memory from an allocator.
///
/// The words stand in rows at the positions from 1 on, in the order in which they entered. A mark
/// leads to the last word of a remainder, and from there each word leads to the one before.
#[derive(Drop)]
pub(crate) struct ShortLog {
    /// For each remainder the position of its last word, or 0.
    marks: [u8; MARKS],
    /// For each word the position of the word before of the same remainder, or 0.
    nexts: [u8; POSITIONS],
    numbers: [u32; POSITIONS],
    locks: [u32; POSITIONS],
    values: [u64; POSITIONS],
    /// A key for each word, made of its lock and its position.
    keys: Keys,
    count: usize,
}

/// Returns the index of the mark of an address or of its lock.
#[inline(always)]
fn mark_of(number: u32) -> usize
    ensures mark { result ≡ number % MARKS }
    ensures inside { result < MARKS }
{
    number as usize % MARKS
}

impl ShortLog {
    /// Returns a log without words.
    pub(crate) fn new() -> ShortLog
        ensures short { IsShort result }
        ensures empty { result.count ≡ 0 }
    {
        ShortLog {
            marks: [0; MARKS],
            nexts: [0; POSITIONS],
            numbers: [0; POSITIONS],
            locks: [0; POSITIONS],
            values: [0; POSITIONS],
            keys: Keys::new(),
            count: 0,
        }
    }

    /// Returns the number of words.
    #[inline]
    pub(crate) fn len(&self) -> usize
        ensures { result ≡ self.now.count }
    {
        self.count
    }

    /// Returns the number and the value of the word at a position.
    #[inline]
    pub(crate) fn word(&self, position: usize) -> (Addr, u64)
        requires { position < POSITIONS }
        ensures number { result.0.0 ≡ entry self.now.numbers position }
        ensures value { result.1 ≡ entry self.now.values position }
    {
        (Addr(self.numbers[position]), self.values[position])
    }

    /// Returns the content of a place for keys.
    #[inline]
    pub(crate) fn key(&self, place: usize) -> u32
        requires { place < POSITIONS }
        ensures { result ≡ key_at self.now.keys place }
    {
        self.keys.get(place)
    }

    /// Returns the position at which a row of addresses or of locks has a number, or 0.
    #[inline(always)]
    fn search(&self, row: &[u32; POSITIONS], number: u32) -> usize
        requires short { IsShort self.now }
        requires row { IsRowOf self.now row.now }
        ensures there { 0 < result → Has self.now row.now number result }
        ensures none { result ≡ 0 → HasNone self.now row.now number }
    {
        let mut at = self.marks[mark_of(number)] as usize;
        loop {
            if at == 0 {
                return 0;
            }
            if row[at] == number {
                return at;
            }
            at = self.nexts[at] as usize;
        }
    }

    /// Returns the value of the word with this number.
    #[inline]
    pub(crate) fn get(&self, number: u32) -> Option<u64>
        requires { IsShort self.now }
        ensures { result ≡ get (short_log self.now).words number }
    {
        let position = self.search(&self.numbers, number);
        if position == 0 {
            None
        } else {
            Some(self.values[position])
        }
    }

    /// Returns the position of the word of a lock, or 0.
    #[inline]
    pub(crate) fn word_of(&self, lock: u32) -> usize
        requires { IsShort self.now }
        ensures there { 0 < result → Has self.now self.now.locks lock result }
        ensures none { result ≡ 0 → HasNone self.now self.now.locks lock }
    {
        self.search(&self.locks, lock)
    }

    /// Returns whether one more word can enter, whose lock has the given number.
    #[inline(always)]
    fn takes(&self, number: u32, lock: u32) -> bool
        requires { IsShort self.now }
        ensures { result ≡ true → IsFreeFor self.now number lock }
    {
        self.count < MOST_WORDS
            && lock < LOCKS
            && mark_of(lock) == mark_of(number)
            && self.word_of(lock) == 0
    }

    /// Puts the value at a word, whose lock has the given number. Returns false, and changes
    /// nothing, if the word is not in the log and cannot enter.
    #[inline(always)]
    pub(crate) fn put(&mut self, number: u32, lock: u32, value: u64) -> bool
        requires short { IsShort self.old }
        requires lock { (l : ℕ) → get (short_log self.old).locks number ≡ Some l → l ≡ lock }
        ensures short { IsShort self.new }
        ensures done { result ≡ true
            → short_log self.new ≡ with_word (short_log self.old) number lock value }
        ensures same { result ≡ false → self.new ≡ self.old }
        ensures none { result ≡ false → get (short_log self.old).words number ≡ None }
    {
        let position = self.search(&self.numbers, number);
        if position != 0 {
            self.values[position] = value;
            return true;
        }
        if !self.takes(number, lock) {
            return false;
        }
        self.enter(number, lock, value);
        true
    }

    /// Adds a word that is not in the log.
    #[inline(always)]
    fn enter(&mut self, number: u32, lock: u32, value: u64)
        requires short { IsShort self.old }
        requires free { IsFreeFor self.old number lock }
        requires new { HasNone self.old self.old.numbers number }
        ensures short { IsShort self.new }
        ensures log { short_log self.new ≡ with_word (short_log self.old) number lock value }
    {
        let position = self.count + 1;
        self.keys
            .insert(self.count, lock * POSITIONS as u32 + position as u32);
        let mark = mark_of(number);
        self.nexts[position] = self.marks[mark];
        self.marks[mark] = position as u8;
        self.numbers[position] = number;
        self.locks[position] = lock;
        self.values[position] = value;
        self.count = position;
    }

    /// Removes all words.
    #[inline]
    pub(crate) fn clear(&mut self)
        requires { IsShort self.old }
        ensures short { IsShort self.new }
        ensures empty { self.new.count ≡ 0 }
    {
        self.marks = [0; MARKS];
        self.keys.clear();
        self.count = 0;
    }

    /// Puts all words into an empty long log. If memory is refused, the long log may have some of
    /// them.
    fn copy_to<A: Allocator + Copy>(&self, long: &mut LongLog<A>) -> Result<(), AllocError>
        requires short { IsShort self.now }
        requires empty { long.old ≡ empty_log }
        ensures { IfOk result (λ _. long.new ≡ short_log self.now) }
    {
        for e in 0..self.count {
            let addr = Addr(self.numbers[e + 1]);
            long.put(addr, self.locks[e + 1], self.values[e + 1])?;
        }
        Ok(())
    }

    /// States that the words are the numbers that have a lock.
    pub(crate) fn same_addresses(&self)
        requires { IsShort self.now }
        ensures { SameAddresses (short_log self.now) }
    {}
}

/// Moves all words of a short log to an empty long log. If memory is refused, both are unchanged.
#[cold]
pub(crate) fn lengthen<A: Allocator + Copy>(
    short: &mut ShortLog,
    long: &mut LongLog<A>,
) -> Result<(), AllocError>
    requires short { IsShort short.old }
    requires empty { long.old ≡ empty_log }
    ensures short { IsShort short.new }
    ensures ok { IfOk result (λ _.
        (short.new.count ≡ 0) × (long.new ≡ short_log short.old)) }
    ensures refused { IfErr result (λ _. (short.new ≡ short.old) × (long.new ≡ empty_log)) }
{
    if let Err(refused) = short.copy_to(long) {
        long.clear();
        return Err(refused);
    }
    short.clear();
    Ok(())
}
