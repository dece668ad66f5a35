//! The read log: the addresses that a transaction has read.
ghost use Rattle.stm_logs.specs.Chunks.{AreWhole, HasRoomInChunks, IsLonger, IsRoomier, IsSetAside, IsTurned};
ghost use Rattle.stm_logs.specs.Refusals.{OrSame, Becomes};
ghost use Rattle.stm_logs.specs.declared.read.TheConstants.{PLACES};
ghost use Rattle.std.specs.Prelude.{◌≡◌, ℕ, ◌+◌, ◌*◌, ◌<◌, ◌≤◌, List, [], ◌∷◌, ◌++◌, length, slice_index, slice_set, IfOk, MatchResult};

use std::alloc::{AllocError, Allocator, Global};
use std::marker::Model;
use std::mem::swap;
use tx_memory::Addr;

/// Number of places of a chunk.
const PLACES: usize = 1024;

/// Largest number of chunks of a log; no address space holds more.
const MAX_CHUNKS: usize = 1 << 50;

/// A chunk of `PLACES` places for addresses, or of none, which takes no memory.
#[derive(Drop)]
struct Chunk<A: Allocator> {
    places: Vec<u32, A>,
}

impl<A: Allocator> Model for Chunk<A> {
    ghost use Rattle.std.specs.Prelude.{ℕ, List};

    ghost Value = { List ℕ };

    ghost view = { λ c. c.places.items };
}

impl<A: Allocator> Chunk<A> {
    /// Creates a chunk without places.
    fn none(alloc: A) -> Chunk<A>
        ensures { result ≡ [] }
    {
        Chunk {
            places: Vec::new(alloc),
        }
    }

    fn new(alloc: A) -> Result<Chunk<A>, AllocError>
        ensures { IfOk result (λ c. length c ≡ PLACES) }
    {
        let places = Vec::from_elem(alloc, 0u32, PLACES)?;
        Ok(Chunk { places })
    }

    /// Returns the number of places.
    fn len(&self) -> usize
        ensures { result ≡ length self.now }
    {
        self.places.len()
    }

    #[inline]
    fn get(&self, i: usize) -> u32
        requires { i < length self.now }
        ensures { result ≡ slice_index self.now i }
    {
        self.places[i]
    }

    #[inline]
    fn put(&mut self, i: usize, number: u32)
        requires { i < length self.old }
        ensures { self.new ≡ slice_set self.old i number }
    {
        self.places[i] = number;
    }
}

/// A list of addresses. The log keeps its memory when it is cleared.
#[derive(Drop)]
pub struct ReadLog<A: Allocator + Copy = Global> {
    alloc: A,
    /// The current chunk, into which the next address goes. Before the first address the chunk has
    /// no places.
    hand: Chunk<A>,
    /// Number of addresses in the current chunk.
    used: usize,
    /// Number of places of the current chunk.
    end: usize,
    /// The other chunks; the full ones come first.
    rest: Vec<Chunk<A>, A>,
    /// Number of full chunks among the other chunks.
    full: usize,
}

impl<A: Allocator + Copy> Model for ReadLog<A> {
    ghost use Rattle.std.specs.Prelude.{◌≡◌, ◌≤◌, ℕ, List, length};
    ghost use Rattle.stm_logs.specs.Chunks.{logged, HasRoomInChunks};

    ghost Value = { List ℕ };

    ghost view = { λ c. logged c.rest.items c.full c.hand c.used };

    ghost invariant = { λ c. HasRoomInChunks c.rest.items c.full c.hand
        × (c.end ≡ length c.hand) × (c.used ≤ c.end) };
}

impl<A: Allocator + Copy> ReadLog<A> {
    /// Creates an empty log. The log takes no memory until the first address.
    pub fn new(alloc: A) -> ReadLog<A>
        ensures { result ≡ [] }
    {
        ReadLog {
            alloc,
            hand: Chunk::none(alloc),
            used: 0,
            end: 0,
            rest: Vec::new(alloc),
            full: 0,
        }
    }

    /// Returns the number of addresses.
    #[inline]
    pub fn len(&self) -> usize
        ensures { result ≡ length self.now }
    {
        self.full * PLACES + self.used
    }

    /// Returns the address at index `i`.
    #[inline]
    pub fn get(&self, i: usize) -> Addr
        requires { i < length self.now }
        ensures { result.0 ≡ slice_index self.now i }
    {
        let chunk = i / PLACES;
        if chunk < self.full {
            return Addr(self.rest[chunk].get(i % PLACES));
        }
        Addr(self.hand.get(i % PLACES))
    }

    /// Appends an address. If memory is refused, the log is unchanged.
    #[inline]
    pub fn push(&mut self, addr: Addr) -> Result<(), AllocError>
        ensures { Becomes result self.old self.new (self.old ++ addr.0 ∷ []) }
    {
        if self.used == self.end {
            turn(self.alloc, &mut self.hand, &mut self.rest, &mut self.full)?;
            self.used = 0;
            self.end = PLACES;
        }
        self.hand.put(self.used, addr.0);
        self.used += 1;
        Ok(())
    }

    /// Empties the log, and keeps its chunks for the next addresses.
    ///
    /// Not said: that the log keeps its chunks, which a test checks.
    #[inline]
    pub fn clear(&mut self)
        ensures { self.new ≡ [] }
    {
        self.full = 0;
        self.used = 0;
    }
}

/// Puts the current chunk after the full ones, and takes a chunk without addresses in its place.
#[cold]
fn turn<A: Allocator + Copy>(
    alloc: A,
    hand: &mut Chunk<A>,
    rest: &mut Vec<Chunk<A>, A>,
    full: &mut usize,
) -> Result<(), AllocError>
    requires { HasRoomInChunks rest.old.items full.old hand.old }
    ensures { MatchResult result
        (λ _. IsTurned rest.old.items full.old hand.old rest.new.items full.new hand.new)
        (λ _. (rest.new.items ≡ rest.old.items) × (full.new ≡ full.old) × (hand.new ≡ hand.old)) }
{
    if hand.len() == 0 {
        *hand = Chunk::new(alloc)?;
        return Ok(());
    }
    set_aside(alloc, hand, rest, full)
}

/// Puts a full chunk after the other full ones, and takes a spare chunk in its place.
fn set_aside<A: Allocator + Copy>(
    alloc: A,
    chunk: &mut Chunk<A>,
    rest: &mut Vec<Chunk<A>, A>,
    full: &mut usize,
) -> Result<(), AllocError>
    requires whole { length chunk.old ≡ PLACES }
    requires rest { AreWhole rest.old.items }
    requires full { full.old ≤ length rest.old.items }
    ensures { MatchResult result
        (λ _. IsSetAside rest.old.items full.old chunk.old rest.new.items full.new chunk.new)
        (λ _. (rest.new.items ≡ rest.old.items) × (full.new ≡ full.old)
        × (chunk.new ≡ chunk.old)) }
{
    make_room(alloc, rest, *full)?;
    swap(chunk, &mut rest[*full]);
    *full += 1;
    Ok(())
}

/// Makes a chunk after the full ones, unless there is one.
fn make_room<A: Allocator + Copy>(
    alloc: A,
    rest: &mut Vec<Chunk<A>, A>,
    full: usize,
) -> Result<(), AllocError>
    requires whole { AreWhole rest.old.items }
    requires full { full ≤ length rest.old.items }
    ensures { OrSame result (λ old new. IsRoomier old new full) rest.old.items rest.new.items }
{
    if full == rest.len() {
        grow(alloc, rest)?;
    }
    Ok(())
}

/// Appends a chunk.
fn grow<A: Allocator + Copy>(alloc: A, chunks: &mut Vec<Chunk<A>, A>) -> Result<(), AllocError>
    requires { AreWhole chunks.old.items }
    ensures { OrSame result IsLonger chunks.old.items chunks.new.items }
{
    if chunks.len() >= MAX_CHUNKS {
        return Err(AllocError);
    }
    let chunk = Chunk::new(alloc)?;
    chunks.push(chunk)?;
    Ok(())
}
