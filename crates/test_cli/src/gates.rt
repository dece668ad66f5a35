//! Gates that stay with their clients.

use crate::loading::gated_load;
use crate::same::same;
use crate::small_load::SETTINGS;
use load_tasks::{FixedDraws, Settings};
use std::sync::atomic::{AtomicU32, Ordering};
use std::test::Fail;
use stm_attempt::{Gate, Point};

/// A gate that counts the commits that have written back their values.
#[derive(Drop)]
struct Stored<'a>(&'a AtomicU32);

impl<'a> Gate for Stored<'a> {
    fn at(&mut self, point: Point) {
        if point == Point::Written {
            self.0.fetch_add(1, Ordering::SeqCst);
        }
    }
}

/// Draws questions for one client and trips that book for the other, in two rounds.
#[test]
fn each_gate_stays_with_its_client(rt: HostRuntime) -> Result<(), Fail> {
    let (asking, booking) = (AtomicU32::new(0), AtomicU32::new(0));
    let first = (FixedDraws(0), Stored(&asking));
    let second = (FixedDraws(40), Stored(&booking));
    let clients = vec![in rt.alloc(); first, second]?;
    let settings = Settings {
        clients: 2,
        reads: 30,
        rounds: 2,
        ..SETTINGS
    };
    let loaded = gated_load(&rt, &settings, clients);
    let stored = (
        asking.load(Ordering::SeqCst),
        booking.load(Ordering::SeqCst),
    );
    same(&rt, &(loaded.outcomes.answered, stored), &(12, (0, 6)));
    Ok(())
}
