//! Arguments out of their range, over a region.

use crate::calls::{Answer, Called, expect};
use crate::managers::open;
use crate::scripts::{LAST, Line, delete, free, new_customer};
use std::alloc::Global;
use vac_manager::{Fault, Manager};
use vac_model::Kind::{Car, Flight};
use vac_model::Reply::Number;

const REFUSED: Answer = Err(Fault::Arguments);

const WITHOUT_TRIES: [Called; 1] = [(free!(Car, 7), REFUSED)];

const OUT_OF_RANGE: [Called; 3] = [
    (Line::Trip(3, &[]), REFUSED),
    (delete!(Flight, 1, 1), REFUSED),
    (new_customer!(0), REFUSED),
];

const IN_RANGE: [Called; 1] = [(free!(Car, 7), Ok(Number(None)))];

#[test]
fn calls_out_of_range(rt: HostRuntime) {
    let alloc = rt.alloc();
    let (manager, client) = open(&rt, alloc, 8, LAST);
    let mut caller = manager.caller(client);
    expect(&rt, alloc, &mut caller, 0, &WITHOUT_TRIES);
    expect(&rt, alloc, &mut caller, 1_048_577, &WITHOUT_TRIES);
    expect(&rt, alloc, &mut caller, 1, &OUT_OF_RANGE);
    expect(&rt, alloc, &mut caller, 1_048_576, &IN_RANGE);
}

/// Returns the reason why a manager does not open, if it does not.
fn refusal(alloc: Global, blocks: u32, last: u64, stripes: u32) -> Option<Fault> {
    Manager::with_stripes(alloc, blocks, last, stripes).err()
}

const ARGUMENTS: Option<Fault> = Some(Fault::Arguments);

/// Blocks, last version and lock words, with the reason why a manager does not open, if it does
/// not.
const OPENINGS: [(u32, u64, u32, Option<Fault>); 8] = [
    (0, 2, 1, ARGUMENTS),
    (262_145, 2, 1, ARGUMENTS),
    (8, 0, 1, ARGUMENTS),
    (8, LAST + 1, 1, ARGUMENTS),
    (8, 2, 0, ARGUMENTS),
    (8, 2, 1_048_577, ARGUMENTS),
    (1, 1, 1, None),
    (8, LAST, 1_048_576, None),
];

/// Blocks and last versions with which a manager does not open.
const REFUSED_OPENINGS: [(u32, u64); 4] = [(0, 2), (262_145, 2), (8, 0), (8, LAST + 1)];

#[test]
fn openings_out_of_range(rt: HostRuntime) {
    for (blocks, last, stripes, want) in OPENINGS {
        let fault = refusal(rt.alloc(), blocks, last, stripes);
        assert_eq!(rt; fault, want, "{blocks} {last} {stripes}");
    }
    for (blocks, last) in REFUSED_OPENINGS {
        let fault = Manager::new(rt.alloc(), blocks, last).err();
        assert_eq!(rt; fault, ARGUMENTS, "{blocks} {last}");
    }
}
