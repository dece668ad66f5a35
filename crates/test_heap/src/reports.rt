//! Reports of heaps in plain memory.
ghost use Rattle.std.specs.Prelude.{◌≡◌, IfOk};
ghost use Rattle.test_heap.specs.Stock.{stock_words};

use std::alloc::{AllocError, Global};
use std::test::Fail;
use tx_alloc::spread_words;
use tx_memory::Flat;
use vac_audit::{Report, report};

#[test]
fn no_entries(rt: HostRuntime) -> Result<(), Fail> {
    let mut flat = Flat::new(spread_words(rt.alloc(), 4)?);
    let Ok(found) = report(&mut flat);
    let expected = Report {
        cars: 0,
        flights: 0,
        rooms: 0,
        customers: 0,
        bookings: 0,
        used: 0,
        free: 0,
        total: 0,
        billed: 0,
    };
    assert_eq!(rt; found, expected);
    Ok(())
}

/// Returns the words of a heap whose seven blocks are all taken.
fn stock(alloc: Global) -> Result<Vec<u64>, AllocError>
    ensures { IfOk result (λ words. words.items ≡ stock_words) }
{
    let roots = [0, 16, 0, 32, 40, 0, 0, 0];
    let heads = [0, 0, 0, 0, 0, 0, 0, 0];
    let car = [1, 0, 24, 0, 2, 3, 5, 50];
    let other_car = [2, 0, 0, 1, 0, 6, 6, 60];
    let room = [9, 0, 0, 0, 1, 3, 4, 70];
    let customer = [7, 0, 48, 0, 56, 0, 0, 0];
    let other_customer = [8, 0, 0, 1, 0, 0, 0, 0];
    let car_booking = [0, 1, 90, 64, 2, 0, 0, 0];
    let room_booking = [2, 9, 75, 0, 1, 0, 0, 0];
    let mut words = Vec::new(alloc);
    words.extend_from_slice(&roots)?;
    words.extend_from_slice(&heads)?;
    words.extend_from_slice(&car)?;
    words.extend_from_slice(&other_car)?;
    words.extend_from_slice(&room)?;
    words.extend_from_slice(&customer)?;
    words.extend_from_slice(&other_customer)?;
    words.extend_from_slice(&car_booking)?;
    words.extend_from_slice(&room_booking)?;
    Ok(words)
}

#[test]
fn entries_of_each_table(rt: HostRuntime) -> Result<(), Fail> {
    let mut flat = Flat::new(stock(rt.alloc())?);
    let Ok(found) = report(&mut flat);
    let expected = Report {
        cars: 2,
        flights: 0,
        rooms: 1,
        customers: 2,
        bookings: 3,
        used: 3,
        free: 12,
        total: 15,
        billed: 165,
    };
    assert_eq!(rt; found, expected);
    Ok(())
}
