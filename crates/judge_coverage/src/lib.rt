//! Coverage of a log of calls, or of attempts of transactions: the figures that tell whether a
//! verdict on the log says anything about concurrency.
//!
//! A verdict `legal` on a log in which hardly any calls overlapped says next to nothing. The
//! figures of a log are its numbers of calls, clients and pending calls, the number of calls that
//! began while a call of another client ran, and the greatest number of calls that ran at one
//! moment. A call that only touches another does not overlap it here, though a judge lets either of
//! two such calls come first.
#![tactic(auto)]

mod attempts;
mod collector;
mod coverage;
mod entries;
mod meetings;
mod moments;
mod text;
mod watched;

pub use attempts::{AttemptCoverage, Outcome, measure_attempts};
pub use coverage::{Coverage, measure_calls};
pub use entries::MOST_ENTRIES;
pub use text::{AttemptsWarning, CallsWarning, PendingWarning};
pub use watched::Watched;
