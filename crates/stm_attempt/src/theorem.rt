//! The effect of transactions' records on images, as the contract of a function that does nothing.

ghost use Rattle.std.specs.Prelude.{ℕ, List};
ghost use Rattle.stm_attempt.specs.Leading.{AreFittingWords, KeepsFitting, LeadsFitting, ReadingsLead, RecordsLead};

use stm_core::Law;

/// States that the records of transactions keep images fitting. Suppose that a transaction begins
/// with an empty write log and carries words of a fitting image to words of a fitting image, for
/// every image that is possible for its memory. Then its record, applied to a fitting image that
/// agrees with its reads, gives a fitting image. `specs/Leading.antt` has the same lemmas for any
/// property of the words.
pub fn records_keep_fitting<L: Law>()
    ensures records { RecordsLead L.fits (AreFittingWords L.fits) (AreFittingWords L.fits) }
    ensures readings { ReadingsLead L.fits (AreFittingWords L.fits) (AreFittingWords L.fits) }
    ensures keeps { (reads writes : List (ℕ × ℕ)) →
        LeadsFitting L.fits (AreFittingWords L.fits) (AreFittingWords L.fits) reads writes →
        KeepsFitting L.fits reads writes }
{}
