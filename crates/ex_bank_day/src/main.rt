//! A day at the bank: three tellers move money between accounts drawn at random, each in a thread
//! of its own, while a fourth adds up all accounts again and again. Each sum is that of the
//! opening, however the threads interleave.
#![tactic(auto)]

ghost use Rattle.std.specs.Prelude.{◌≡◌};

use ex_bank::{ACCOUNTS, Bank, BankCaller, Teller, audit, close_bank, new_bank, transfer};
use rand_core::Rng;
use rand_pcg::Pcg32;
use std::process::ExitCode;
use std::thread;
use std::thread::Threads;

/// Number of tellers that move money.
const MOVERS: u64 = 3;

/// Number of transactions of each teller.
const TURNS: u32 = 2_000;

/// Balance of each account at the opening.
const EACH: u32 = 1_000;

/// Sum of all balances, at any moment.
const TOTAL: u64 = EACH as u64 * ACCOUNTS as u64;

/// Bound on the amount of one transfer, which is smaller.
const MOST: u64 = 10;

/// Attempts that a transaction may make at most.
const TRIES: u32 = 1 << 20;

/// The results of a day: the transfers that moved money, and the sums that were that of the
/// opening.
#[derive(Clone, Copy)]
struct Day {
    moved: u32,
    sums: u32,
}

/// Moves money between accounts, as this stream draws them.
fn move_many(bank: &Bank, teller: Teller, stream: u64) -> (Teller, u32)
    requires { teller.table ≡ bank.now.table }
    ensures { result.0.table ≡ bank.now.table }
{
    let mut caller = BankCaller::of(bank, teller);
    let mut random = Pcg32::new(1, stream);
    let mut moved = 0u32;
    for _ in 0..TURNS {
        let from = random.next_u32() % ACCOUNTS;
        let to = random.next_u32() % ACCOUNTS;
        let amount = u64::from(random.next_u32()) % MOST;
        if transfer(&mut caller, from, to, amount, TRIES) == Ok(true) {
            moved = moved.saturating_add(1);
        }
    }
    (caller.into_user(), moved)
}

/// Adds up all accounts again and again, and counts the sums that are that of the opening.
fn add_many(bank: &Bank, teller: Teller) -> (Teller, u32)
    requires { teller.table ≡ bank.now.table }
    ensures { result.0.table ≡ bank.now.table }
{
    let mut caller = BankCaller::of(bank, teller);
    let mut sums = 0u32;
    for _ in 0..TURNS {
        if audit(&mut caller, TRIES) == Ok(TOTAL) {
            sums = sums.saturating_add(1);
        }
    }
    (caller.into_user(), sums)
}

/// Runs a day with `movers` movers: the last of them runs beside those before it, and the adding
/// teller beside them all. Returns the teller that has gathered all others.
fn spend<R: Threads + Sync>(rt: &R, bank: &Bank, teller: Teller, movers: u64) -> (Teller, Day)
    requires { teller.table ≡ bank.now.table }
    ensures { result.0.table ≡ bank.now.table }
{
    if movers == 0 {
        let (teller, sums) = add_many(bank, teller);
        return (teller, Day { moved: 0, sums });
    }
    let mut caller = BankCaller::of(bank, teller);
    let Ok(own) = caller.split() else {
        return (caller.into_user(), Day { moved: 0, sums: 0 });
    };
    let (teller, own) = (caller.into_user(), own.into_user());
    let fewer = movers - 1;
    let move_money = move || -> (Teller, u32)
        requires { own.table ≡ bank.now.table }
        ensures { result.0.table ≡ bank.entry.now.table }
    { move_many(bank, own, movers) };
    let spend_others = move || -> (Teller, Day)
        requires { teller.table ≡ bank.now.table }
        ensures { result.0.table ≡ bank.entry.now.table }
    { spend(rt, bank, teller, fewer) };
    let ((own, moved), (teller, day)) = thread::join(rt, move_money, spend_others);
    let mut caller = BankCaller::of(bank, teller);
    caller.gather(BankCaller::of(bank, own));
    let moved = day.moved.saturating_add(moved);
    (caller.into_user(), Day { moved, ..day })
}

fn main(rt: HostRuntime) -> ExitCode {
    let Ok((bank, teller)) = new_bank(rt.alloc(), EACH, 1 << 40) else {
        let _ = eprintln!(rt; "the bank could not be opened");
        return ExitCode::FAILURE;
    };
    let (teller, day) = spend(&rt, &bank, teller, MOVERS);
    let Ok((balances, _)) = close_bank(bank, teller) else {
        let _ = eprintln!(rt; "the bank could not be closed");
        return ExitCode::FAILURE;
    };
    let sum = balances
        .iter()
        .fold(0u64, |sum, balance| sum.wrapping_add(*balance));
    let told = println!(rt;
        "money was moved {} times\n{} sums were {TOTAL}\nthe bank closed with {sum}",
        day.moved, day.sums
    );
    match told {
        Ok(()) => ExitCode::SUCCESS,
        Err(_) => ExitCode::FAILURE,
    }
}
