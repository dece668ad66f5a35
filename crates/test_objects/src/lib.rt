//! Tests of the examples of objects and of the desks: each call of a teller of the bank, and of a
//! user of the queue; a question beside a writer; tellers, users and desks in threads; and a desk
//! that gives up. Tests also cover the searches that `stm_object` offers to bodies.
#![tactic(auto)]

#[cfg(test)]
mod beside;
#[cfg(test)]
mod desks;
#[cfg(test)]
mod given_up;
#[cfg(test)]
mod rounds;
#[cfg(test)]
mod search;
#[cfg(test)]
mod tellers;
#[cfg(test)]
mod users;
