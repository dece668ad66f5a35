//! Random tasks.

use rand_core::Rng;
use rand_pcg::Pcg32;
use std::alloc::{AllocError, Global};
use vac_model::limits::KINDS;
use vac_model::{Command, Kind, Task};

/// Number of tasks that each test runs.
pub(crate) const TASKS: u32 = 3_000;

/// Number of blocks: few, so that some commands find none left.
pub(crate) const BLOCKS: u32 = 24;

/// Draws one of five ids.
fn draw_id(draws: &mut Pcg32) -> u32 {
    1 + draws.next_u32() % 5
}

fn draw_kind(draws: &mut Pcg32) -> Kind {
    Kind::from_number((draws.next_u32() % KINDS) as u64)
}

/// Draws an Add of up to three units, with a price or without.
fn draw_add(draws: &mut Pcg32) -> Command {
    let num = draws.next_u32() % 4;
    let tens = draws.next_u32() % 5;
    Command::Add {
        kind: draw_kind(draws),
        id: draw_id(draws),
        num,
        price: (tens > 0).then_some(10 * tens),
    }
}

/// Draws a Delete or a DropFlight.
fn draw_removal(draws: &mut Pcg32) -> Command {
    let id = draw_id(draws);
    let num = draws.next_u32() % 4;
    match draw_kind(draws) {
        Kind::Flight => Command::DropFlight { id },
        kind => Command::Delete { kind, id, num },
    }
}

/// Draws an Add, a Delete or a DropFlight.
fn draw_change(draws: &mut Pcg32) -> Command {
    match draws.next_u32() % 3 {
        0 | 1 => draw_add(draws),
        _ => draw_removal(draws),
    }
}

/// Draws a command on a customer and an item.
fn draw_booking(draws: &mut Pcg32) -> Command {
    let customer = draw_id(draws);
    let kind = draw_kind(draws);
    let id = draw_id(draws);
    match draws.next_u32() % 3 {
        0 => Command::Cancel { customer, kind, id },
        drawn => Command::Reserve {
            customer,
            kind,
            id,
            num: drawn,
        },
    }
}

/// Draws a command that only reads.
fn draw_question(draws: &mut Pcg32) -> Command {
    let kind = draw_kind(draws);
    let id = draw_id(draws);
    match draws.next_u32() % 4 {
        0 => Command::Free { kind, id },
        1 => Command::Price { kind, id },
        2 => Command::Bill { id },
        _ => Command::Audit,
    }
}

fn draw_command(draws: &mut Pcg32) -> Command {
    match draws.next_u32() % 12 {
        0 | 1 => draw_change(draws),
        2 | 3 => Command::NewCustomer { id: draw_id(draws) },
        4 => Command::DropCustomer { id: draw_id(draws) },
        5..=8 => draw_question(draws),
        _ => draw_booking(draws),
    }
}

fn draw_trip(alloc: Global, draws: &mut Pcg32) -> Result<Task, AllocError> {
    let asks = [
        (draw_kind(draws), draw_id(draws)),
        (draw_kind(draws), draw_id(draws)),
        (draw_kind(draws), draw_id(draws)),
        (draw_kind(draws), draw_id(draws)),
    ];
    Task::trip(alloc, draw_id(draws), &asks)
}

fn draw_update(alloc: Global, draws: &mut Pcg32) -> Result<Task, AllocError> {
    let changes = [draw_change(draws), draw_change(draws), draw_change(draws)];
    Task::update(alloc, &changes)
}

pub(crate) fn draw_task(alloc: Global, draws: &mut Pcg32) -> Result<Task, AllocError> {
    match draws.next_u32() % 8 {
        0 => draw_trip(alloc, draws),
        1 => draw_update(alloc, draws),
        2 => Ok(Task::Leave {
            customer: draw_id(draws),
        }),
        _ => Ok(Task::One(draw_command(draws))),
    }
}
