//! The bodies of the bank's transactions, over any memory of transactions.

ghost use Rattle.std.specs.Prelude.{◌<◌};
ghost use Rattle.ex_bank.specs.declared.law.TheConstants.{ACCOUNTS};

use crate::law::{ACCOUNTS, BankObject};
use stm_object::{Query, Update};
use tx_memory::{Addr, TxMem, TxRead, load, store};

/// A transfer: moves an amount from one account to another if there is enough, and returns whether
/// it did.
#[derive(Drop)]
pub(crate) struct Move {
    pub(crate) from: u32,
    pub(crate) to: u32,
    pub(crate) amount: u64,
    ghost range: { (from < ACCOUNTS) × (to < ACCOUNTS) },
}

impl Update<BankObject> for Move {
    ghost use Rattle.ex_bank.specs.declared.entry.Entry.TheVariants.{Transfer};

    type Answer = bool;

    ghost entry_of = { λ s moved. Transfer s.from s.to s.amount moved };

    ghost changes = { λ s moved. moved };

    fn run<M: TxMem>(&self, memory: &mut M) -> Result<bool, M::Stop> {
        let left = load(memory, Addr(self.from))?;
        if left < self.amount {
            return Ok(false);
        }
        store(memory, Addr(self.from), left - self.amount)?;
        let there = load(memory, Addr(self.to))?;
        store(memory, Addr(self.to), there + self.amount)?;
        Ok(true)
    }
}

/// An audit: adds up all balances.
#[derive(Drop)]
pub(crate) struct AddUp;

impl Query<BankObject> for AddUp {
    ghost use Rattle.ex_bank.specs.declared.entry.Entry.TheVariants.{Sum};

    type Answer = u64;

    ghost entry_of = { λ s total. Sum total };

    fn read<M: TxRead>(&self, memory: &mut M) -> Result<u64, M::Stop> {
        let mut total = 0;
        for account in 0..ACCOUNTS {
            let balance = load(memory, Addr(account))?;
            total += balance;
        }
        Ok(total)
    }
}
