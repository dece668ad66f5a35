//! The bank as a sequential object.

ghost use Rattle.ex_bank.specs.Accounts.{KeepsSum};

use crate::entry::Entry;
use stm_object::Object;

/// Number of accounts of a bank. Each account is one word, its balance.
pub const ACCOUNTS: u32 = 64;

/// The bank as a sequential object. An image fits if it has the accounts and their balances add up
/// to less than 2^64.
pub struct BankObject;

impl Object for BankObject {
    ghost use Rattle.stm_object.specs.Steps.{words_local};
    ghost use Rattle.ex_bank.specs.Accounts.{bank, IsBank};
    ghost use Rattle.ex_bank.specs.Keeping.{codes_determine};

    type Entry = Entry;

    type UserState = ();

    ghost is = { bank };

    ghost local = { λ m m' n xs same h. words_local IsBank m m' n xs same h };

    ghost determined = { λ e e' same. codes_determine e e' same };
}

/// States that no entry changes the sum of all balances.
pub fn keeps_sum()
    ensures { KeepsSum }
{}
