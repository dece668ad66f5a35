//! Customers and their bookings over plain memory and over a region.
ghost use Rattle.std.specs.Prelude.{◌≡◌, IfOk};
ghost use Rattle.stm_core.specs.Core.{IsFreeHanded};
ghost use Rattle.test_stm.specs.Laws.{HoldsUnder};
ghost use Rattle.test_stm.specs.Records.{IsSized, HasOneBooking, flight_key};

use crate::records::SizeLaw;
use crate::same::same;
use crate::words::has_words;
use std::test::Fail;
use stm_attempt::{Attempt, Logs};
use stm_region::{Client, Region};
use tx_alloc::Block;
use tx_memory::{Addr, Flat, TxMem};
use vac_model::{Booking, Kind};
use vac_records::{bill, book_at, book_more, init_customer, spot_of, sum_at, unbook_at, units_at};

const CUSTOMER: Block = Block(Addr(24));

const BOOKING: Block = Block(Addr(32));

const FLIGHT: u32 = 7;

/// Creates a customer and books three units at 50.
fn make_customer<M: TxMem>(memory: &mut M) -> Result<(), M::Stop>
    requires sized { HoldsUnder (λ m n. IsSized m n) 96 (M.view memory.old) }
    ensures origin { M.origin memory.new ≡ M.origin memory.old }
    ensures booking { IfOk result (λ _. HasOneBooking (M.view memory.new) flight_key 3 150) }
{
    init_customer(memory, CUSTOMER, 5)?;
    let spot = spot_of(memory, CUSTOMER, Kind::Flight, FLIGHT)?;
    book_at(memory, spot, BOOKING, (Kind::Flight, FLIGHT), 3, 50)?;
    Ok(())
}

/// Returns the bill, and then adds two units at 80 to the booking.
fn bill_and_extend<M: TxMem>(memory: &mut M) -> Result<u64, M::Stop>
    requires booking { HasOneBooking (M.view memory.old) flight_key 3 150 }
    ensures origin { M.origin memory.new ≡ M.origin memory.old }
    ensures booking { IfOk result (λ _. HasOneBooking (M.view memory.new) flight_key 5 310) }
{
    let total = bill(memory, CUSTOMER)?;
    book_more(memory, BOOKING, 2, 80)?;
    Ok(total)
}

/// Returns the booking.
fn read_booking<M: TxMem>(memory: &mut M) -> Result<Booking, M::Stop>
    requires booking { HasOneBooking (M.view memory.old) flight_key 5 310 }
    ensures origin { M.origin memory.new ≡ M.origin memory.old }
    ensures booking { IfOk result (λ _. HasOneBooking (M.view memory.new) flight_key 5 310) }
{
    let units = units_at(memory, BOOKING)?;
    let sum = sum_at(memory, BOOKING)?;
    Ok(Booking { units, sum })
}

type Gone = (Option<Block>, u64, Option<(Block, u64)>);

/// Returns the booking's block, the bill, and the block and the units of the booking, which is
/// removed.
fn bill_and_unbook<M: TxMem>(memory: &mut M) -> Result<Gone, M::Stop>
    requires booking { HasOneBooking (M.view memory.old) flight_key 5 310 }
    ensures origin { M.origin memory.new ≡ M.origin memory.old }
{
    let total = bill(memory, CUSTOMER)?;
    let spot = spot_of(memory, CUSTOMER, Kind::Flight, FLIGHT)?;
    let found = spot.entry;
    let gone = unbook_at(memory, spot)?;
    Ok((found, total, gone))
}

#[derive(Clone, Copy, Debug, PartialEq, Eq)]
struct Answers {
    first: u64,
    booking: Booking,
    gone: Gone,
}

fn change_customer<M: TxMem>(memory: &mut M) -> Result<Answers, M::Stop>
    requires sized { HoldsUnder (λ m n. IsSized m n) 96 (M.view memory.old) }
    ensures origin { M.origin memory.new ≡ M.origin memory.old }
{
    make_customer(memory)?;
    let first = bill_and_extend(memory)?;
    let booking = read_booking(memory)?;
    let gone = bill_and_unbook(memory)?;
    Ok(Answers {
        first,
        booking,
        gone,
    })
}

fn change_customer_in_an_attempt(
    region: &Region<SizeLaw>,
    client: &mut Client<SizeLaw>,
    logs: &mut Logs,
    words: &[u64],
) -> Option<(Answers, bool)>
    requires own { client.old.table ≡ region.now.table }
    requires free { IsFreeHanded client.old.value }
    requires size { region.now.size ≡ 96 }
{
    let mut attempt = Attempt::begin(region, client, logs);
    let answers = change_customer(&mut attempt).ok();
    let same = has_words(&mut attempt, 96, words).ok();
    attempt.abort();
    Some((answers?, same?))
}

#[test]
fn a_customer_of_plain_memory_and_of_a_region(rt: HostRuntime) -> Result<(), Fail> {
    let alloc = rt.alloc();
    let mut flat = Flat::new(vec![in alloc; 9u64; 96]?);
    let Ok(expected) = change_customer(&mut flat);
    let words = flat.words();
    let answers = {
        let (region, mut client) = Region::<SizeLaw>::new(alloc, &[9; 96], 100, 96)?;
        let mut logs = Logs::new(alloc);
        change_customer_in_an_attempt(&region, &mut client, &mut logs, &words)
    };
    same(&rt, &answers, &Some((expected, true)));
    let by_hand = Answers {
        first: 150,
        booking: Booking { units: 5, sum: 310 },
        gone: (Some(BOOKING), 310, Some((BOOKING, 5))),
    };
    same(&rt, &expected, &by_hand);
    same(
        &rt,
        &words.get(24..40),
        &Some([5, 9, 9, 9, 0, 0, 0, 0, 1, 7, 310, 0, 5, 0, 0, 0].as_slice()),
    );
    Ok(())
}
