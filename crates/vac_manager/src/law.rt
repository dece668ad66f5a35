//! The manager as a sequential object, and a consequence of its law.

ghost use Rattle.vac_manager.specs.Legal.{SerialIsLegal};

use crate::client::Lists;
use stm_object::Object;
use vac_model::{Reply, Task};

/// The manager as a sequential object. An image fits if it represents a balanced state. A record
/// is lawful if, on every fitting image that agrees with its reads, its task gives its reply and
/// its writes make the state after the task.
pub struct Vacation;

impl Object for Vacation {
    ghost use Rattle.std.proofs.Common.{ap, ◌∙◌};
    ghost use Rattle.vac_model.proofs.Codes.{code_determines};
    ghost use Rattle.vac_records.proofs.Single.{same_words};
    ghost use Rattle.vac_manager.specs.Law.{vacation};

    type Entry = (Task, Reply);

    type UserState = Lists;

    ghost is = { vacation };

    ghost local = { λ m m' n s same h. record {
      represents = same_words m m' n _ s h.represents same;
      small = h.small;
    } };

    ghost determined = { λ e e' same.
        let both = code_determines e.0 e'.0 e.1 e'.1 same in
        ap (λ t. (t, e.1)) both.0 ∙ ap (λ r. (e'.0, r)) both.1 };
}

/// States that lawful records, if they are serial from an image of a balanced state, are legal
/// from that state, and that the image after them represents the final state.
pub fn serial_records_are_legal()
    ensures { SerialIsLegal }
{}
