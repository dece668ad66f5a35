//! Tests of the transactional crates: conflicts between clients in turn, the memory that logs
//! keep, and the structures in words over plain memory and over a region alike.
#![tactic(auto)]

#[cfg(test)]
mod attempts;
#[cfg(test)]
mod commits;
#[cfg(test)]
mod conflicts;
#[cfg(test)]
mod customers;
#[cfg(test)]
mod gates;
#[cfg(test)]
mod heaps;
#[cfg(test)]
mod lengths;
#[cfg(test)]
mod lists;
#[cfg(test)]
mod logs;
#[cfg(test)]
mod meetings;
#[cfg(test)]
mod memory;
#[cfg(test)]
mod records;
#[cfg(test)]
mod same;
#[cfg(test)]
mod tables;
#[cfg(test)]
mod threads;
#[cfg(test)]
mod words;
