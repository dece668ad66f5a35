//! Tests of the load and of the program's calls. The tests run scripts, dumps, checks and command
//! lines over input and output that fail. They check the searches for an order, drawn tasks, loads
//! of one client, loads of several clients that meet, loads with memory refused, the times of a
//! history, and the text of attempts. Replies and verdicts of the program are asked by
//! `tests/rows.sh`.
#![tactic(auto)]

#[cfg(test)]
mod attempts;
#[cfg(test)]
mod beside;
#[cfg(test)]
mod busy;
#[cfg(test)]
mod command_lines;
#[cfg(test)]
mod draws;
#[cfg(test)]
mod example;
#[cfg(test)]
mod failing;
#[cfg(test)]
mod faults;
#[cfg(test)]
mod gates;
#[cfg(test)]
mod loading;
#[cfg(test)]
mod loads;
#[cfg(test)]
mod loops;
#[cfg(test)]
mod meetings;
#[cfg(test)]
mod orders;
#[cfg(test)]
mod refused;
#[cfg(test)]
mod rounds;
#[cfg(test)]
mod same;
#[cfg(test)]
mod small_load;
#[cfg(test)]
mod stamps;
#[cfg(test)]
mod streams;
#[cfg(test)]
mod watching;
#[cfg(test)]
mod work;
