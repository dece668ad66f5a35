//! Values of a key.

ghost use Rattle.std.specs.Prelude.{◌≡◌, ◌++◌, true, IfOk, decimal};

use smallvec::SmallVec;
use std::alloc::{AllocError, Global};
use std::marker::Model;
use vac_lines::print;

/// A value of a key: bytes, of which up to 16 stand in the value itself.
#[derive(Drop)]
pub struct Value {
    bytes: SmallVec<u8, 16>,
    /// A number of which nothing is promised.
    hash: u64,
}

impl Model for Value {
    ghost use Rattle.std.specs.Prelude.{ℕ, List};
    ghost use Rattle.std.specs.Coded.{coded_ℕ, coded_list};

    ghost Value = { List ℕ };

    ghost coded = { coded_list coded_ℕ };

    ghost view = { λ v. v.bytes.items };
}

/// The hash of no bytes (FNV-1a).
const EMPTY_HASH: u64 = 0xcbf2_9ce4_8422_2325;

/// A hash of bytes after others.
fn hashed(hash: u64, bytes: &[u8]) -> u64 {
    let mut hash = hash;
    for byte in bytes {
        hash = (hash ^ u64::from(*byte)).wrapping_mul(0x0000_0100_0000_01b3);
    }
    hash
}

impl Value {
    /// Returns the value of these bytes.
    pub fn from_bytes(bytes: Vec<u8>) -> Value
        ensures { result ≡ bytes.items }
    {
        let hash = hashed(EMPTY_HASH, bytes.as_slice());
        Value {
            bytes: SmallVec::from_vec(bytes),
            hash,
        }
    }

    /// Returns the value that writes a number in decimal.
    pub(crate) fn from_number(alloc: Global, number: u64) -> Result<Value, AllocError>
        ensures { IfOk result (λ value. value ≡ decimal number) }
    {
        let mut bytes = Vec::new(alloc);
        print(number, &mut bytes)?;
        Ok(Value::from_bytes(bytes))
    }

    /// These bytes.
    pub fn new(alloc: Global, bytes: &[u8]) -> Result<Value, AllocError>
        ensures { IfOk result (λ value. value ≡ bytes.now) }
    {
        Ok(Value {
            bytes: SmallVec::from_slice(alloc, bytes)?,
            hash: hashed(EMPTY_HASH, bytes),
        })
    }

    /// The bytes.
    pub fn as_slice(&self) -> &[u8]
        ensures { result.now ≡ self.now }
    {
        self.bytes.as_slice()
    }

    /// These bytes, and others behind them.
    pub(crate) fn with(&self, alloc: Global, more: &[u8]) -> Result<Value, AllocError>
        ensures { IfOk result (λ value. value ≡ self.now ++ more.now) }
    {
        let room = self.bytes.len().saturating_add(more.len());
        let mut bytes = SmallVec::with_capacity(alloc, room)?;
        bytes.extend_from_slice(self.bytes.as_slice())?;
        bytes.extend_from_slice(more)?;
        Ok(Value {
            bytes,
            hash: hashed(self.hash, more),
        })
    }

    /// Returns whether two values are known to be equal.
    pub fn is_same(&self, other: &Value) -> bool
        ensures { result ≡ true → self.now ≡ other.now }
    {
        self.hash == other.hash && self.bytes.as_slice() == other.bytes.as_slice()
    }

    /// A number that is the same for the same bytes.
    ///
    /// Not said: anything of it.
    pub fn hash(&self) -> u64 {
        self.hash
    }
}
