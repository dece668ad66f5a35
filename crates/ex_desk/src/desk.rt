//! A desk: the number of trips it has issued, and their results.

ghost use Rattle.std.specs.Prelude.{◌≡◌, ◌<◌, ◌^◌, true, nat_lt, IfOk, All};
ghost use Rattle.std.specs.List.{list_any};
ghost use Rattle.ex_desk.specs.Setting.{is_desk_settings};
ghost use Rattle.ex_desk.specs.Desks.{asked, new_desk, new_desks, MayServe};

use crate::settings::DeskSettings;
use std::alloc::{AllocError, Global};

/// A desk, which issues its trips one after the other, from number 0 on. Some were booked, some
/// were given up, and the others are left.
#[derive(Clone, Copy, Debug, PartialEq, Eq)]
pub struct Desk {
    /// Number of the desk, 0 to 3.
    pub number: u32,
    /// Trips that a call completed.
    pub booked: u32,
    /// Trips that met a conflict in each of their attempts.
    pub given_up: u32,
}

impl Desk {
    /// Returns a desk that has issued no trip.
    fn new(number: u32) -> Desk
        ensures { result ≡ new_desk number }
    {
        Desk {
            number,
            booked: 0,
            given_up: 0,
        }
    }

    /// Returns the number of trips that the desk has issued, which is the number of the next trip.
    pub fn asked(&self) -> u32
        requires { asked self.now < 2 ^ 32 }
        ensures { result ≡ asked self.now }
    {
        self.booked + self.given_up
    }
}

/// Returns the desks before the first round.
pub(crate) fn new_desks(alloc: Global) -> Result<Vec<Desk>, AllocError>
    ensures { IfOk result (λ desks. desks.items ≡ new_desks) }
{
    Ok(vec![in alloc; Desk::new(0), Desk::new(1), Desk::new(2), Desk::new(3)]?)
}

/// Returns whether a trip of some desk is left.
pub(crate) fn is_left(desks: &[Desk], settings: DeskSettings) -> bool
    requires settings { is_desk_settings settings ≡ true }
    requires desks { All (MayServe settings) desks.now }
    ensures { result ≡ list_any (λ d. nat_lt (asked d) settings.trips) desks.now }
{
    desks.iter().any(|desk| desk.asked() < settings.trips)
}
