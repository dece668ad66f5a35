//! Tables in plain memory: steps in random, rising, falling and alternating order, and as many
//! entries as a heap has blocks.
use crate::steps::{Look, Step, holds, play};
use std::alloc::{AllocError, Global};
use std::test::Fail;
use tx_tree::height_is_logarithmic;

/// The order in which the blocks of a heap are put or cut.
#[derive(Clone, Copy)]
enum Order {
    Ascending,
    Descending,
    /// First, last, second, last but one, and so on.
    Alternating,
}

fn numbers(alloc: Global, count: usize, order: Order) -> Result<Vec<usize>, AllocError> {
    let mut numbers = Vec::new(alloc);
    for n in 0..count {
        let number = match order {
            Order::Ascending => n,
            Order::Descending => count - 1 - n,
            Order::Alternating => { if n % 2 == 0 { n / 2 } else { count - 1 - n / 2 } }
        };
        numbers.push(number)?;
    }
    Ok(numbers)
}

/// Returns the keys from 1 to `count`.
fn rising_keys(alloc: Global, count: u64) -> Result<Vec<u64>, AllocError> {
    let mut keys = Vec::new(alloc);
    for n in 0..count {
        keys.push(n + 1)?;
    }
    Ok(keys)
}

/// Returns keys in mixed order. The keys differ if there are at most 65,537 of them.
fn mixed_keys(alloc: Global, count: u64) -> Result<Vec<u64>, AllocError> {
    let mut keys = Vec::new(alloc);
    for n in 0..count {
        keys.push(n.wrapping_mul(7919) % 65_537 + 1)?;
    }
    Ok(keys)
}

fn draw(state: &mut u64) -> u64 {
    *state = state
        .wrapping_mul(6_364_136_223_846_793_005)
        .wrapping_add(1_442_695_040_888_963_407);
    *state / 8_589_934_592
}

/// Returns random steps: mostly puts in five hundred steps, mostly cuts in the next five hundred.
fn random_steps(
    alloc: Global,
    seed: u64,
    blocks: u64,
    count: usize,
) -> Result<Vec<Step>, AllocError> {
    let mut state = seed;
    let mut steps = Vec::new(alloc);
    for i in 0..count {
        let number = (draw(&mut state) % blocks.max(1)) as usize;
        let puts = if i / 500 % 2 == 0 { 7 } else { 3 };
        if draw(&mut state) % 10 < puts {
            steps.push(Step::Put(number))?;
        } else {
            steps.push(Step::Cut(number))?;
        }
    }
    Ok(steps)
}

#[test]
fn random_steps_beside_the_ordered_map(rt: HostRuntime) -> Result<(), Fail> {
    height_is_logarithmic();
    let alloc = rt.alloc();
    let rounds = [
        (1u64, 5u64, 2_000usize),
        (2, 10, 4_000),
        (3, 40, 10_000),
        (4, 300, 20_000),
    ];
    for (seed, blocks, count) in rounds {
        let keys = mixed_keys(alloc, blocks)?;
        let steps = random_steps(alloc, seed, blocks, count)?;
        play(
            alloc,
            keys.as_slice(),
            steps.as_slice(),
            Look::AfterEachStep,
        )?;
    }
    Ok(())
}

#[test]
fn ascending_descending_and_alternating_orders(rt: HostRuntime) -> Result<(), Fail> {
    let alloc = rt.alloc();
    let orders = [Order::Ascending, Order::Descending, Order::Alternating];
    let keys = rising_keys(alloc, 200)?;
    for order in orders {
        for cut_order in orders {
            let mut steps = Vec::new(alloc);
            for number in numbers(alloc, 200, order)? {
                steps.push(Step::Put(number))?;
            }
            for number in numbers(alloc, 200, cut_order)? {
                steps.push(Step::Cut(number))?;
            }
            let left = play(
                alloc,
                keys.as_slice(),
                steps.as_slice(),
                Look::AfterEachStep,
            )?;
            holds(left == 0)?;
        }
    }
    Ok(())
}

#[test]
fn the_odd_ones_of_a_thousand_entries_go(rt: HostRuntime) -> Result<(), Fail> {
    let alloc = rt.alloc();
    let keys = rising_keys(alloc, 1_000)?;
    let mut steps = Vec::new(alloc);
    for number in 0..1_000usize {
        steps.push(Step::Put(number))?;
    }
    // The key of block n is n + 1.
    for number in 0..500usize {
        steps.push(Step::Cut(2 * number))?;
    }
    let left = play(
        alloc,
        keys.as_slice(),
        steps.as_slice(),
        Look::AfterEachStep,
    )?;
    holds(left == 500)
}

#[test]
fn as_many_entries_as_a_heap_has_blocks(rt: HostRuntime) -> Result<(), Fail> {
    let alloc = rt.alloc();
    let keys = rising_keys(alloc, 262_144)?;
    let mut steps = Vec::new(alloc);
    for number in 0..262_144usize {
        steps.push(Step::Put(number))?;
    }
    let left = play(alloc, keys.as_slice(), steps.as_slice(), Look::AtTheEnd)?;
    holds(left == 262_144)
}
