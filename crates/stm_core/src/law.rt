//! Tags of records, and the laws that say which records are lawful.

ghost use Rattle.std.specs.Prelude.{ℕ, List, [], ◌∷◌};
ghost use Rattle.tx_memory.specs.Image.{Agrees, laid};

/// The tag of a record: everything but its reads and writes, seen as a list of whole numbers.
pub trait Tag {
    ghost numbers: { Self → List ℕ };
}

/// A number as a tag: the list of that number alone.
impl Tag for u64 {
    ghost numbers = { λ n. n ∷ [] };
}

/// The words that a record writes, seen as a list of their addresses and values.
pub trait Writes {
    ghost pairs: { Self → List (ℕ × ℕ) };
}

/// The images that a region may have, and the records (tag, reads, writes) that may be made on
/// them.
///
/// Reads and writes are finite maps from addresses to values, given as lists of their pairs. A
/// region relies on the law `keeps`: a lawful record whose reads agree with a fitting image gives
/// a fitting image.
pub trait Law {
    ghost fits: { List ℕ → Type 0 };

    ghost lawful: { List ℕ → List (ℕ × ℕ) → List (ℕ × ℕ) → Type 0 };

    ghost keeps: { (tag image : List ℕ) (reads writes : List (ℕ × ℕ)) → fits image
        → Agrees image reads → lawful tag reads writes → fits (laid image writes) };
}

/// The law for tests: every image fits and every record is lawful.
pub struct FreeLaw;

impl Law for FreeLaw {
    ghost fits = { λ _. Unit {0} };

    ghost lawful = { λ _ _ _. Unit {0} };

    ghost keeps = { λ tag image reads writes f a l. tt };
}

/// States that under every law a lawful record keeps a fitting image fitting.
pub fn law_keeps_fitting<L: Law>()
    ensures { (tag image : List ℕ) (reads writes : List (ℕ × ℕ)) → L.fits image
        → Agrees image reads → L.lawful tag reads writes → L.fits (laid image writes) }
{}
