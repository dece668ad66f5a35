//! Laws of whole runs of a region, over what `stm_region` says of the one list of a run and what
//! `stm_replay` says of every list.
#![tactic(auto)]

mod opacity;

pub use opacity::runs_are_opaque;
