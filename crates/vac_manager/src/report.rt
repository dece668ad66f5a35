//! The report of the words of a closed manager.

ghost use Rattle.std.specs.Prelude.{◌≡◌};
ghost use Rattle.vac_model.specs.State.{State, report};
ghost use Rattle.vac_manager.specs.Law.{Shows, IsFitting};

use tx_memory::Flat;
use vac_model::Report;

/// Returns the report of the state that the words of a closed manager represent.
pub fn report_of(words: Vec<u64>) -> Report
    requires { IsFitting words.items }
    ensures { (s : State) → Shows words.items s → report s ≡ result }
{
    let mut flat = Flat::new(words);
    let Ok(report) = vac_tasks::report(&mut flat);
    report
}
