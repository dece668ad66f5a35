//! Tests of the structures in words over plain memory: blocks, lists of bookings, tables, the
//! records in them, and reports, with words and answers that were worked out by hand. Audits of
//! words are asked by `tests/rows.sh` and `tests/check.py`, and tasks by `tests/rows.sh`.
#![tactic(auto)]

#[cfg(test)]
mod blocks;
#[cfg(test)]
mod bookings;
#[cfg(test)]
mod records;
#[cfg(test)]
mod reports;
#[cfg(test)]
mod shapes;
#[cfg(test)]
mod steps;
#[cfg(test)]
mod tables;
