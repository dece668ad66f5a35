//! Drawn words, and the tasks that are read from them.

use crate::same::{holds, same};
use crate::small_load::SETTINGS;
use load_tasks::{Draws, FixedDraws, PcgDraws, draw_task};
use vac_model::{Kind, Task};

/// The first word that PCG's reference code gives for the seed 42 in the stream 54.
const REFERENCE: u32 = 0xa15c02b7;

#[test]
fn draws(rt: HostRuntime) {
    same(&rt, &PcgDraws::new(42, 54).word(), &REFERENCE);
    same(&rt, &FixedDraws(7).word(), &7);
}

#[test]
fn tasks_of_one_word(rt: HostRuntime) {
    let mut draws = FixedDraws(0);
    for _ in 0..3 {
        let task = draw_task(rt.alloc(), &mut draws, &SETTINGS);
        let is_expected = match &task {
            Ok(Task::Trip { customer, asks }) => {
                *customer == 1 && asks.as_slice() == [(Kind::Car, 1)].as_slice()
            }
            _ => false,
        };
        holds(&rt, is_expected);
    }
}
