//! Two clients of a load that meet in their commits.

use crate::loading::gated_load;
use crate::same::{holds, same};
use crate::small_load::SETTINGS;
use load_tasks::{FixedDraws, Settings};
use std::sync::atomic::{AtomicBool, AtomicU32, Ordering};
use std::test::Fail;
use stm_attempt::{Gate, Point};

/// A gate that shows that its client is at its first commit, and waits until the other client
/// shows the same. The gate counts the completed calls.
#[derive(Drop)]
struct Meeting<'a> {
    mine: &'a AtomicBool,
    other: &'a AtomicBool,
    saw: &'a AtomicBool,
    answers: &'a AtomicU32,
    met: bool,
}

impl<'a> Gate for Meeting<'a> {
    fn at(&mut self, point: Point) {
        if point == Point::Answered {
            self.answers.fetch_add(1, Ordering::SeqCst);
        }
        if point != Point::ReadsDone || self.met {
            return;
        }
        self.met = true;
        self.mine.store(true, Ordering::SeqCst);
        for _ in 0..1_000_000u32 {
            if self.other.load(Ordering::SeqCst) {
                self.saw.store(true, Ordering::SeqCst);
                return;
            }
            std::thread::yield_now();
        }
    }
}

#[test]
fn two_clients_meet_in_their_commits(rt: HostRuntime) -> Result<(), Fail> {
    let (a, b) = (AtomicBool::new(false), AtomicBool::new(false));
    let (a_saw, b_saw) = (AtomicBool::new(false), AtomicBool::new(false));
    let answers = AtomicU32::new(0);
    let first = Meeting {
        mine: &a,
        other: &b,
        saw: &a_saw,
        answers: &answers,
        met: false,
    };
    let second = Meeting {
        mine: &b,
        other: &a,
        saw: &b_saw,
        answers: &answers,
        met: false,
    };
    let clients = vec![in rt.alloc(); (FixedDraws(0), first), (FixedDraws(0), second)]?;
    let settings = Settings {
        clients: 2,
        tasks: 1,
        ..SETTINGS
    };
    let loaded = gated_load(&rt, &settings, clients);
    let told = u64::from(answers.load(Ordering::SeqCst));
    let ended = loaded
        .outcomes
        .answered
        .saturating_add(loaded.outcomes.busy);
    holds(
        &rt,
        a_saw.load(Ordering::SeqCst) && b_saw.load(Ordering::SeqCst),
    );
    same(&rt, &(ended, told), &(2, loaded.outcomes.answered));
    Ok(())
}
