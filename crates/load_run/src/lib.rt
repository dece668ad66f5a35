//! The load generator: clients that call one manager with tasks drawn at random. Each client runs
//! the tasks that it draws, and counts their results.
//!
//! The tasks are like those of the client of the program Vacation of the STAMP benchmarks (Cao
//! Minh, Chung, Kozyrakis, Olukotun, IISWC 2008).
#![tactic(auto)]

mod alone;
mod asking;
mod counts;
mod gathering;
mod load;
mod looping;
mod opening;
mod outcomes;
mod plan;
mod rounds;
mod slots;
mod statistics;
mod summary;
mod sums;
mod workers;

pub use counts::TaskCounts;
pub use load::{Load, LoadFault, LoadReport};
pub use looping::count_loop;
pub use opening::open_kept;
pub use outcomes::Outcomes;
pub use slots::{Recorders, Slot, no_recorders};
pub use statistics::AttemptStatistics;
pub use summary::LoadSummary;
