//! Memories whose words are read and written in a transaction.

ghost use Rattle.std.specs.Prelude.{◌≡◌, ℕ, ◌<◌, List, IfOk, IfErr, MatchResult};
ghost use Rattle.std.specs.FinMap.{insert};
ghost use Rattle.tx_memory.specs.View.{View, RestsOn, SameFrame, HasRead, Loaded, Stored};

/// The address of a data word.
#[derive(Clone, Copy, Debug, PartialEq, Eq, PartialOrd, Ord)]
pub struct Addr(pub u32);

/// A memory whose words are read in a transaction.
///
/// A memory's meaning is a `View`: a size, the images that fit, and two finite maps, the reads and
/// the writes. At every moment, some fitting image of that size agrees with the reads (`seen`).
/// The memory's `origin` is what no read and no write changes, refused ones included; for a
/// running transaction, this is its region and its client as the attempt began. `stopped_for` a
/// reason holds of a memory that has refused a read for that reason; for a running transaction, it
/// says that the transaction keeps the conflict that it met.
pub trait TxRead {
    /// The reason why the transaction cannot go on.
    type Stop;

    ghost Origin: { Type 0 };

    ghost origin: { Self → Origin };

    ghost view: { Self → View };

    ghost stopped_for: { Self → Self.Stop → Type 0 };

    /// Returns the word at an address below the size: the transaction's own write there, or a
    /// value that enters the reads. A refusal changes neither reads nor writes.
    ///
    /// Not said: when a read is refused.
    fn read(&mut self, addr: Addr) -> Result<u64, Self::Stop>
        requires { addr.0 < (view self.old).size }
        ensures origin { origin self.new ≡ origin self.old }
        ensures frame { SameFrame (view self.old) (view self.new) }
        ensures writes { (view self.new).writes ≡ (view self.old).writes }
        ensures answer { MatchResult result
            (λ v. HasRead (view self.old) (view self.new) addr.0 v)
            (λ _. (view self.new).reads ≡ (view self.old).reads) }
        ensures stopped { IfErr result (λ stop. stopped_for self.new stop) };

    ghost seen: { (s : Self) → ∥ ((image : List ℕ) × RestsOn (view s) image) ∥₁ };
}

/// A memory whose words are read and written in a transaction.
pub trait TxMem: TxRead {
    /// Puts the value into the writes, at an address below the size. A refusal changes neither
    /// reads nor writes.
    ///
    /// Not said: when a write is refused.
    fn write(&mut self, addr: Addr, value: u64) -> Result<(), Self::Stop>
        requires { addr.0 < (Self.view self.old).size }
        ensures origin { Self.origin self.new ≡ Self.origin self.old }
        ensures frame { SameFrame (Self.view self.old) (Self.view self.new) }
        ensures reads { (Self.view self.new).reads ≡ (Self.view self.old).reads }
        ensures answer { MatchResult result
            (λ _. (Self.view self.new).writes ≡ insert (Self.view self.old).writes addr.0 value)
            (λ _. (Self.view self.new).writes ≡ (Self.view self.old).writes) };
}

/// Reads a word: under each possible image that agrees with the reads afterwards, the word is the
/// one returned.
///
/// Not said: what a refused read leaves; that no other word enters the reads.
#[inline(always)]
pub fn load<M: TxRead>(memory: &mut M, addr: Addr) -> Result<u64, M::Stop>
    requires { addr.0 < (M.view memory.old).size }
    ensures origin { M.origin memory.new ≡ M.origin memory.old }
    ensures answer { IfOk result (λ v.
        Loaded (M.view memory.old) (M.view memory.new) addr.0 v) }
    ensures stopped { IfErr result (λ stop. M.stopped_for memory.new stop) }
{
    memory.read(addr)
}

/// Writes a word: under each possible image, the word at this address is the value, and every
/// other word is as before.
///
/// Not said: what a refused write leaves.
#[inline]
pub fn store<M: TxMem>(memory: &mut M, addr: Addr, value: u64) -> Result<(), M::Stop>
    requires { addr.0 < (M.view memory.old).size }
    ensures origin { M.origin memory.new ≡ M.origin memory.old }
    ensures answer { IfOk result (λ _.
        Stored (M.view memory.old) (M.view memory.new) addr.0 value) }
{
    memory.write(addr, value)
}
