//! Commit positions of records.

ghost use Rattle.std.specs.Prelude.{◌≡◌};

use stm_core::Version;
use vac_manager::CommitPosition;

/// Returns the commit position at the first version, of its writer or of a reader.
pub(crate) fn first_place(wrote: bool) -> CommitPosition
    ensures { result ≡ record { renewal = 0; version = 0; wrote = wrote } }
{
    let Some(version) = Version::new(0) else {
        unreachable!()
    };
    CommitPosition {
        renewal: 0,
        version,
        wrote,
    }
}
