//! The bank and its tellers.

ghost use Rattle.std.specs.Prelude.{◌≡◌, ◌*◌, ◌<◌, ◌≤◌, IfOk, IfErr, replicate, sum, true, false};
ghost use Rattle.stm_core.specs.Event.{opener};
ghost use Rattle.stm_region.specs.Shown.{opened_on};
ghost use Rattle.stm_region.specs.Refused.{RefusesClose, IsLast, RefusesOpening};
ghost use Rattle.stm_object.specs.Callers.{GoesOn};
ghost use Rattle.stm_object.specs.History.{HasCalled, IsAlone};
ghost use Rattle.ex_bank.specs.declared.entry.Entry.TheVariants.{Transfer, Sum};
ghost use Rattle.ex_bank.specs.declared.law.TheConstants.{ACCOUNTS};
ghost use Rattle.ex_bank.specs.Accounts.{bank, ClosesBalanced};

use crate::bodies::{AddUp, Move};
use crate::law::{ACCOUNTS, BankObject};
use std::alloc::Global;
use stm_attempt::Stop;
use stm_core::Version;
use stm_object::{Caller, Shared, User};
use stm_region::RegionFault;

/// A bank, used by many tellers at once.
pub type Bank = Shared<BankObject>;

/// A teller: the right to use the bank, from one thread at a time. Between calls a teller holds no
/// lock.
pub type Teller = User<BankObject>;

/// A teller together with the bank.
pub type BankCaller<'a> = Caller<'a, BankObject>;

/// Opens a bank with `each` on each account, and returns the bank and its first teller. The
/// version clock ends at `last`, 1 to 2^62 - 1.
pub fn new_bank(alloc: Global, each: u32, last: u64) -> Result<(Bank, Teller), RegionFault>
    ensures region { IfOk result (λ r.
        r.0 ≡ opened_on r.0.table (replicate ACCOUNTS each) last ACCOUNTS) }
    ensures first { IfOk result (λ r. r.0.first ≡ replicate ACCOUNTS each) }
    ensures total { IfOk result (λ r. sum r.0.first ≡ ACCOUNTS * each) }
    ensures teller { IfOk result (λ r.
        r.1 ≡ record { table = r.0.table; value = opener; own = tt }) }
    ensures range { IfOk result (λ _. IsLast last) }
    ensures refused { IfErr result (λ fault. RefusesOpening ACCOUNTS last ACCOUNTS fault) }
{
    let image = [u64::from(each); ACCOUNTS as usize];
    Shared::new(alloc, &image, last, ACCOUNTS, ())
}

/// Moves an amount from one account to another as a transaction, in at most `tries` attempts, and
/// returns whether there was enough. A transfer that stops with an error moves nothing.
pub fn transfer(
    caller: &mut BankCaller<'_>,
    from: u32,
    to: u32,
    amount: u64,
    tries: u32,
) -> Result<bool, Stop>
    requires range { (from < ACCOUNTS) × (to < ACCOUNTS) }
    requires tries { 1 ≤ tries }
    ensures caller { GoesOn caller.old caller.new }
    ensures call { HasCalled bank caller.old.shared (λ moved. Transfer from to amount moved)
        (λ moved. moved) false tries result caller.old.user.value caller.new.user.value }
{
    caller.run(&Move { from, to, amount }, tries)
}

/// Adds up all balances as a transaction, in at most `tries` attempts. The sum is that of the
/// opening, whatever the other tellers do.
pub fn audit(caller: &mut BankCaller<'_>, tries: u32) -> Result<u64, Stop>
    requires tries { 1 ≤ tries }
    ensures caller { GoesOn caller.old caller.new }
    ensures call { HasCalled bank caller.old.shared (λ total. Sum total) (λ total. false) true
        tries result caller.old.user.value caller.new.user.value }
    ensures total { IfOk result (λ total. total ≡ sum caller.old.shared.first) }
{
    caller.ask(&AddUp, tries)
}

/// Closes a bank once every other teller was gathered, and returns its balances and its clock. The
/// teller's records are then one order of all completed transactions. If closing is refused,
/// returns the bank and the teller as they were.
pub fn close_bank(
    shared: Bank,
    teller: Teller,
) -> Result<(Vec<u64>, Version), (Bank, Teller, RegionFault)>
    requires { teller.table ≡ shared.table }
    ensures closes { IfOk result (λ r. ClosesBalanced shared teller.value r.0.items r.1) }
    ensures alone { IfOk result (λ _. IsAlone teller.value) }
    ensures kept { IfErr result
        (λ r. (r.0 ≡ shared) × (r.1 ≡ teller) × RefusesClose teller.value.grants r.2) }
{
    shared.close(teller)
}
