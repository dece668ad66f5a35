//! The abstract value of structures that map keys to blocks.

ghost use Rattle.tx_alloc.specs.Rows.{PutLaw, CutLaw};

/// States that rows of keys and blocks are a finite map.
pub fn rows_are_a_map()
    ensures put { PutLaw }
    ensures cut { CutLaw }
{}
