//! The height of a table, as the contract of a function that does nothing.

ghost use Rattle.std.specs.Prelude.{ℕ, ◌+◌, ◌≤◌, ◌^◌, length};
ghost use Rattle.tx_alloc.specs.Rows.{Rows};
ghost use Rattle.tx_tree.specs.Table.{IsTable, Descends};

/// States that, in a table of n entries, a way down of h nodes has `2^h <= (n + 1)^2`.
///
/// The bound on the height of a red-black tree is due to Guibas and Sedgewick (FOCS 1978).
///
/// Not said: the number of reads and writes of a call; `docs/MEASURED.md` has measurements.
pub fn height_is_logarithmic()
    ensures { (m : ℕ → ℕ) (n p h : ℕ) (rs : Rows) → IsTable m n p rs → Descends m p h →
        2 ^ h ≤ (length rs + 1) ^ 2 }
{}
