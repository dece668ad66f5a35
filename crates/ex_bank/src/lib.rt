//! A bank of accounts over a transactional memory, as an example of how to use the library. Many
//! tellers move money from one account to another, while others add up all accounts.
#![tactic(auto)]

mod bank;
mod bodies;
mod entry;
mod law;

pub use bank::{Bank, BankCaller, Teller, audit, close_bank, new_bank, transfer};
pub use entry::Entry;
pub use law::{ACCOUNTS, BankObject, keeps_sum};
