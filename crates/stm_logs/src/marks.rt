//! The marks of addresses.
ghost use Rattle.std.specs.Prelude.{◌≡◌, ◌||◌, ℕ, ◌%◌, ◌<◌, eqb, true, false};

use tx_memory::Addr;

/// Number of marks, one for each remainder of the addresses.
const MARKS: usize = 256;

/// A set of addresses in which all addresses of one remainder are marked together: a Bloom filter
/// with one hash function.
#[derive(Drop)]
pub struct Marks {
    marks: [bool; MARKS],
}

/// Returns the index of an address's mark.
#[inline]
fn mark_of(addr: Addr) -> usize
    ensures mark { result ≡ addr.0 % MARKS }
    ensures inside { result < MARKS }
{
    addr.0 as usize % MARKS
}

impl Marks {
    ghost use Rattle.stm_logs.specs.Marks.{is_marked};

    /// Returns marks without a marked address.
    pub fn new() -> Marks
        ensures { (a : ℕ) → is_marked result a ≡ false }
    {
        Marks {
            marks: [false; MARKS],
        }
    }

    /// Returns whether the address is marked.
    #[inline(always)]
    pub fn is_marked(&self, addr: Addr) -> bool
        ensures { result ≡ is_marked self.now addr.0 }
    {
        self.marks[mark_of(addr)]
    }

    /// Marks the address, and all addresses of its remainder.
    #[inline]
    pub fn mark(&mut self, addr: Addr)
        ensures { (a : ℕ) → is_marked self.new a
            ≡ (eqb (a % MARKS) (addr.0 % MARKS) || is_marked self.old a) }
    {
        self.marks[mark_of(addr)] = true;
    }

    /// Marks all addresses.
    #[cold]
    pub fn mark_all(&mut self)
        ensures { (a : ℕ) → is_marked self.new a ≡ true }
    {
        self.marks = [true; MARKS];
    }

    /// Removes all marks.
    #[inline]
    pub fn clear(&mut self)
        ensures { (a : ℕ) → is_marked self.new a ≡ false }
    {
        self.marks = [false; MARKS];
    }
}
