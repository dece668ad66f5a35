//! Opacity of running threads, as the contract of a function that does nothing.
ghost use Rattle.stm_runs.specs.Opaque.{EveryRunIsOpaque};

use stm_core::Law;
use stm_replay::opaque;

/// States that every run of a region is opaque (Guerraoui, Kapałka): in each of its states all
/// attempts so far, committed, live and aborted ones, fit one order, in which each reads what the
/// committed attempts before it leave. The order keeps the order of attempts of which one is over
/// when the other begins, in the one list of the run.
pub fn runs_are_opaque<L: Law>()
    ensures { EveryRunIsOpaque L.fits L.lawful }
{
    opaque::<L>();
}
