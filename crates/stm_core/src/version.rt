//! Versions, and the encoding of lock words.

ghost use Rattle.std.specs.Prelude.{◌≡◌, ℕ, ◌+◌, ◌*◌, ◌^◌, ◌<◌, ◌≤◌, ◌↔◌, IsNone, IfSome, true, false};
ghost use Rattle.stm_core.specs.LockWord.{free_word, held_word};

use std::marker::Model;

/// Bound of the versions: every version is below it, so that a lock word has room for a version
/// and for the held bit.
pub const VERSION_LIMIT: u64 = 1 << 62;

/// A version of the version clock, at most 2^62 - 1.
#[derive(Clone, Copy, Debug, PartialEq, Eq, PartialOrd, Ord)]
pub struct Version {
    number: u64,
}

impl Model for Version {
    ghost use Rattle.std.specs.Prelude.{ℕ, ◌<◌};
    ghost use Rattle.stm_core.specs.declared.version.TheConstants.{VERSION_LIMIT};

    ghost Value = { ℕ };

    ghost view = { λ v. v.number };

    ghost invariant = { λ v. v.number < VERSION_LIMIT };

    ghost inverse = { λ n. record { number = n } };
}

impl Version {
    /// Returns the version of a number, or `None` if the number is above 2^62 - 1.
    #[inline]
    pub fn new(number: u64) -> Option<Version>
        ensures none { IsNone result ↔ (VERSION_LIMIT ≤ number) }
        ensures some { IfSome result (λ v. v ≡ number) }
    {
        if number < VERSION_LIMIT {
            Some(Version { number })
        } else {
            None
        }
    }

    /// Returns the version's number.
    #[inline]
    pub fn get(self) -> u64
        ensures number { result ≡ self }
        ensures small { result < VERSION_LIMIT }
    {
        self.number
    }
}

/// The encoding of lock words: twice the version if the lock is free; one more, with the version
/// from before, if it is held.
pub struct LockWord;

impl LockWord {
    /// Returns the word of a free lock of this version.
    #[inline]
    pub fn free(version: Version) -> u64
        ensures { result ≡ free_word version }
    {
        2 * version.number
    }

    /// Returns the word of a held lock whose old version is this one.
    #[inline]
    pub fn held(version: Version) -> u64
        ensures { result ≡ held_word version }
    {
        Self::free(version) + 1
    }

    /// Returns the version of a lock word and whether the lock is held.
    #[inline]
    pub fn decode(word: u64) -> (Version, bool)
        requires { word < 2 ^ 63 }
        ensures free { (v : ℕ) → word ≡ free_word v → (result.0 ≡ v) × (result.1 ≡ false) }
        ensures held { (v : ℕ) → word ≡ held_word v → (result.0 ≡ v) × (result.1 ≡ true) }
    {
        (Version { number: word / 2 }, word % 2 == 1)
    }
}
