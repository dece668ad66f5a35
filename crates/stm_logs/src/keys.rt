//! The keys of a short log's words, in ascending order.
ghost use Rattle.std.specs.Prelude.{◌≡◌, ◌≢◌, ◌⊎◌, ◌↔◌, ℕ, ◌+◌, ◌<◌, ◌≤◌};
ghost use Rattle.stm_logs.specs.Keys.{key_at, AreKeys, HasKey, IsChosen};

/// Number of places for keys, and of positions of a short log.
pub(crate) const POSITIONS: usize = 128;

/// The content of a place without a key. Every key is smaller.
pub(crate) const NO_KEY: u32 = 4_294_967_295;

/// Number of places that an insertion looks at together. The compiled loop compares whole groups.
const GROUP: usize = 8;

/// Ascending keys, each once, and then `NO_KEY` at every place.
#[derive(Drop)]
pub(crate) struct Keys {
    places: [u32; POSITIONS],
}

/// Returns the number of places in as many groups as some keys take.
#[inline(always)]
fn whole_groups(count: usize) -> usize
    requires { count ≤ POSITIONS }
    ensures some { count ≤ result }
    ensures most { result ≤ POSITIONS }
{
    (count + (GROUP - 1)) / GROUP * GROUP
}

/// Returns the content of a place after an insertion, from the contents of the place and of the
/// place before.
#[inline(always)]
fn chosen(before: u32, here: u32, key: u32) -> u32
    requires { before ≤ here }
    ensures { IsChosen before here key result }
{
    let greater = if before < key { key } else { before };
    if here < greater { here } else { greater }
}

impl Keys {
    /// Returns places without a key.
    pub(crate) fn new() -> Keys
        ensures { AreKeys (key_at result) 0 }
    {
        Keys {
            places: [NO_KEY; POSITIONS],
        }
    }

    /// Returns the content of a place.
    #[inline]
    pub(crate) fn get(&self, place: usize) -> u32
        requires { place < POSITIONS }
        ensures { result ≡ key_at self.now place }
    {
        self.places[place]
    }

    /// Inserts a key among `count` keys. The insertion looks at every key and takes no branch, so
    /// that several places are compared at a time.
    #[inline(always)]
    pub(crate) fn insert(&mut self, count: usize, key: u32)
        requires keys { AreKeys (key_at self.old) count }
        requires room { count < POSITIONS }
        requires key { (0 < key) × (key < NO_KEY) }
        requires new { (j : ℕ) → j < count → key_at self.old j ≢ key }
        ensures keys { AreKeys (key_at self.new) (count + 1) }
        ensures same { (x : ℕ) → HasKey (key_at self.new) (count + 1) x
            ↔ (HasKey (key_at self.old) count x ⊎ (x ≡ key)) }
    {
        let end = whole_groups(count + 1);
        let mut before = 0;
        for place in 0..end {
            let here = self.places[place];
            self.places[place] = chosen(before, here, key);
            before = here;
        }
    }

    /// Removes all keys.
    #[inline]
    pub(crate) fn clear(&mut self)
        ensures { AreKeys (key_at self.new) 0 }
    {
        self.places = [NO_KEY; POSITIONS];
    }
}
