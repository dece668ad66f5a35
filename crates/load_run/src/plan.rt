//! The plan that each thread of a load gets.

ghost use Rattle.std.specs.Prelude.{◌≡◌, true};
ghost use Rattle.load_tasks.specs.Setting.{is_settings};

use load_tasks::Settings;
use std::alloc::{AllocError, Global};

/// The plan of a load, copied to each thread: the settings, which are in their ranges, and the
/// allocator of the tasks.
#[derive(Drop)]
pub(crate) struct Plan {
    pub(crate) alloc: Global,
    pub(crate) settings: Settings,
    ghost in_range: { is_settings settings ≡ true },
}

/// Implemented by hand, because a struct with a ghost field cannot derive `Clone`.
impl Clone for Plan {
    ghost is_clone = { λ x y. y ≡ x };

    ghost is_infallible = { λ _. Unit {0} };

    fn clone(&self) -> Result<Plan, AllocError> {
        Ok(*self)
    }
}

impl Copy for Plan {}
