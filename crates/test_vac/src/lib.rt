//! Tests of the reservation crates: clients over a region, and random tasks beside the plain
//! manager. The clients conflict, come and go, and call from threads. Scripts whose replies were
//! worked out by hand from the rules (`docs/RULES.md`) are run by `tests/rows.sh`, over a region
//! and on the plain manager.
#![tactic(auto)]

#[cfg(test)]
mod audits;
#[cfg(test)]
mod calls;
#[cfg(test)]
mod clients;
#[cfg(test)]
mod draws;
#[cfg(test)]
mod heap;
#[cfg(test)]
mod in_place;
#[cfg(test)]
mod lines;
#[cfg(test)]
mod managers;
#[cfg(test)]
mod meetings;
#[cfg(test)]
mod openings;
#[cfg(test)]
mod outcome;
#[cfg(test)]
mod plain;
#[cfg(test)]
mod points;
#[cfg(test)]
mod random;
#[cfg(test)]
mod ranges;
#[cfg(test)]
mod refused;
#[cfg(test)]
mod renewals;
#[cfg(test)]
mod same;
#[cfg(test)]
mod scripts;
#[cfg(test)]
mod spent;
#[cfg(test)]
mod states;
