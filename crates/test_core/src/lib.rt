//! Tests of the words of a transactional memory, of its core, its logs and its regions. Events are
//! played one by one, with and without the memory that they take. Random lists of events run
//! beside a history that is computed anew. There are worked examples of logs, many addresses,
//! openings and closings, clocks that end and go on, two threads, and each growth refused.
#![tactic(auto)]

#[cfg(test)]
mod core_steps;
#[cfg(test)]
mod events;
#[cfg(test)]
mod history;
#[cfg(test)]
mod logs;
#[cfg(test)]
mod losses;
#[cfg(test)]
mod moves;
#[cfg(test)]
mod player;
#[cfg(test)]
mod random_lists;
#[cfg(test)]
mod refusals;
#[cfg(test)]
mod regions;
#[cfg(test)]
mod renewals;
#[cfg(test)]
mod same;
#[cfg(test)]
mod words;
