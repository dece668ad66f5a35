//! The times in a history, by a clock that counts its readings.

use crate::same::same;
use load_record::{CallRecorder, ElapsedClock, write_history};
use std::alloc::Global;
use std::cell::Cell;
use std::io;
use std::process::Abort;
use std::time::{Clock, Duration, Instant};
use stm_core::Version;
use vac_manager::{CommitPosition, PlacedReply, Recorder};
use vac_model::{Command, Reply, Task};

/// A clock that shows the number of its earlier readings.
#[derive(Drop)]
struct Readings {
    count: Cell<u64>,
}

impl Clock for Readings {
    fn monotonic(&self) -> io::Result<Duration> {
        let count = self.count.get();
        self.count.set(count.saturating_add(1));
        Ok(Duration::from_nanos(count))
    }

    fn since_1970(&self) -> io::Result<Duration> {
        Ok(Duration::from_nanos(0))
    }
}

/// The call recorder of a client, by this clock.
type Kept<'a> = CallRecorder<ElapsedClock<'a, Readings>>;

/// Records a call that made this customer with this version.
fn keep(rt: &impl Abort, journal: &mut Kept<'_>, id: u32, version: u64) {
    let version = Version::new(version).expect(rt, "it is a version");
    let place = CommitPosition {
        renewal: 0,
        version,
        wrote: true,
    };
    let reply = Reply::Done;
    journal.begin().expect(rt, "there is memory");
    journal.keep(
        Task::One(Command::NewCustomer { id }),
        PlacedReply { reply, place },
    );
}

/// Writes the history of the setup phase and of a client, and returns whether that succeeds, and
/// the text.
fn written(
    rt: &impl Abort,
    alloc: Global,
    opening: &Kept<'_>,
    client: Kept<'_>,
) -> (bool, Vec<u8>) {
    let mut clients = Vec::new(alloc);
    clients.push(client).expect(rt, "there is memory");
    let mut out = Vec::new(alloc);
    let written = write_history(alloc, opening, clients.as_slice(), &mut out).is_ok();
    (written, out)
}

/// Starts the clock at reading 0. Each call is recorded with the reading before the call and the
/// reading after it.
#[test]
fn calls_have_the_readings_around_them(rt: HostRuntime) {
    let clock = Readings {
        count: Cell::new(0),
    };
    let start = Instant::now(&clock).ok();
    let mut opening = CallRecorder::new(rt.alloc(), ElapsedClock::new(&clock, start));
    let mut client = CallRecorder::new(rt.alloc(), ElapsedClock::new(&clock, start));
    keep(&rt, &mut opening, 1, 1);
    keep(&rt, &mut client, 2, 3);
    keep(&rt, &mut opening, 3, 2);
    let (written, out) = written(&rt, rt.alloc(), &opening, client);
    let wants = b"0 1 2 newcust 1 -> true\n\
        0 5 6 newcust 3 -> true\n\
        1 3 4 newcust 2 -> true\n";
    same(&rt, &(written, out.as_slice()), &(true, wants.as_slice()));
}
