//! The points that a commit reports to its gate, up to the point at which the commit stops, and
//! the state that other clients find at those points.
ghost use Rattle.std.specs.Prelude.{◌≡◌, ◌<◌, true};
ghost use Rattle.stm_core.specs.Core.{IsFreeHanded};

use crate::attempts::{read_one, write_one};
use crate::same::{holds, same, split, version};
use std::alloc::Global;
use std::process::Abort;
use std::test::Fail;
use stm_attempt::{Attempt, Conflict, Gate, Logs, NoGate, Point, Refusal, Stop};
use stm_core::{FreeLaw, Version};
use stm_region::{Client, Region, RegionFault};
use tx_memory::{Addr, TxMem, TxRead};

type Answer = Result<Version, Stop>;

/// A gate that records the points that it is told.
#[derive(Drop)]
struct Points {
    points: [Option<Point>; 6],
    told: usize,
}

impl Points {
    fn new() -> Points {
        Points {
            points: [None; 6],
            told: 0,
        }
    }
}

impl Gate for Points {
    fn at(&mut self, point: Point) {
        if self.told < 6 {
            self.points[self.told] = Some(point);
            self.told += 1;
        }
    }
}

const ALL_POINTS: [Option<Point>; 5] = [
    Some(Point::ReadsDone),
    Some(Point::Locked),
    Some(Point::Ticked),
    Some(Point::Decided),
    Some(Point::Written),
];

#[test]
fn gates_are_told_each_point(rt: HostRuntime) -> Result<(), Fail> {
    let alloc = rt.alloc();
    let mut writing = Points::new();
    let mut reading = Points::new();
    let mut validating = Points::new();
    let answers = {
        let (region, mut a) = Region::<FreeLaw>::new(alloc, &[0; 32], 100, 4)?;
        let mut b = split(&rt, &region, &mut a);
        let mut logs_a = Logs::new(alloc);
        let mut logs_b = Logs::new(alloc);
        let mut attempt = Attempt::begin(&region, &mut a, &mut logs_a);
        let written = attempt.write(Addr(9), 1);
        let first = attempt.commit(&1u64, &mut writing);
        let attempt = Attempt::begin(&region, &mut a, &mut logs_a);
        let second = attempt.commit(&2u64, &mut reading);
        // The third attempt validates its reads, since another client commits between.
        let mut attempt = Attempt::begin(&region, &mut a, &mut logs_a);
        let read = attempt.read(Addr(9));
        let rewritten = attempt.write(Addr(9), 3);
        let between = write_one(&region, &mut b, &mut logs_b, Addr(10), 2);
        let third = attempt.commit(&3u64, &mut validating);
        holds(&rt, written.is_ok() && rewritten.is_ok() && read == Ok(1));
        [first, second, between, third]
    };
    let versions = [
        Ok(version(&rt, 1)),
        Ok(version(&rt, 1)),
        Ok(version(&rt, 2)),
        Ok(version(&rt, 3)),
    ];
    same(&rt, &answers, &versions);
    holds(
        &rt,
        &writing.points[..5] == ALL_POINTS.as_slice() && writing.points[5].is_none(),
    );
    holds(
        &rt,
        reading.points == [Some(Point::ReadsDone), None, None, None, None, None],
    );
    holds(&rt, validating.points == writing.points);
    Ok(())
}

/// Reads word 9, writes word 10 and commits under the gate, after the other client has written
/// word 9 since the read.
fn commit_after_a_newer_write<G: Gate>(
    region: &Region<FreeLaw>,
    client: &mut Client<FreeLaw>,
    other: &mut Client<FreeLaw>,
    logs: &mut Logs,
    others: &mut Logs,
    gate: &mut G,
) -> [Answer; 2]
    requires own { (client.old.table ≡ region.now.table) × (other.old.table ≡ region.now.table) }
    requires free { IsFreeHanded client.old.value × IsFreeHanded other.old.value }
    requires range { 10 < region.now.size }
    ensures own { (client.new.table ≡ client.old.table) × (other.new.table ≡ other.old.table) }
    ensures free { IsFreeHanded client.new.value × IsFreeHanded other.new.value }
{
    let mut attempt = Attempt::begin(region, client, logs);
    let written = attempt.write(Addr(10), 7).is_ok();
    let read = attempt.read(Addr(9)).is_ok();
    let between = write_one(region, other, others, Addr(9), 1);
    let committed = attempt.commit(&2u64, gate);
    if written && read {
        [between, committed]
    } else {
        [between, Err(Stop::Memory)]
    }
}

/// Reads word 9 and commits under the gate, after the other client has written word 9 since the
/// attempt began.
fn commit_after_a_stopped_read<G: Gate>(
    region: &Region<FreeLaw>,
    client: &mut Client<FreeLaw>,
    other: &mut Client<FreeLaw>,
    logs: &mut Logs,
    others: &mut Logs,
    gate: &mut G,
) -> [Answer; 2]
    requires own { (client.old.table ≡ region.now.table) × (other.old.table ≡ region.now.table) }
    requires free { IsFreeHanded client.old.value × IsFreeHanded other.old.value }
    requires range { 10 < region.now.size }
    ensures own { (client.new.table ≡ client.old.table) × (other.new.table ≡ other.old.table) }
    ensures free { IsFreeHanded client.new.value × IsFreeHanded other.new.value }
{
    let mut attempt = Attempt::begin(region, client, logs);
    let written = attempt.write(Addr(10), 7).is_ok();
    let between = write_one(region, other, others, Addr(9), 1);
    let read = attempt.read(Addr(9)).is_err();
    let committed = attempt.commit(&2u64, gate);
    if written && read {
        [between, committed]
    } else {
        [between, Err(Stop::Memory)]
    }
}

/// Returns the conflict of a read word that is newer than the read version.
fn newer(rt: &impl Abort) -> Stop {
    Stop::Conflict(Conflict::Newer {
        lock: 9,
        version: version(rt, 1),
        rv: version(rt, 0),
    })
}

#[test]
fn no_decision_is_told_after_a_refused_validation(rt: HostRuntime) -> Result<(), Fail> {
    let alloc = rt.alloc();
    let mut told = Points::new();
    let (answers, ten) = {
        let (region, mut a) = Region::<FreeLaw>::new(alloc, &[0; 32], 100, 32)?;
        let mut b = split(&rt, &region, &mut a);
        let mut logs_a = Logs::new(alloc);
        let mut logs_b = Logs::new(alloc);
        (
            commit_after_a_newer_write(
                &region,
                &mut a,
                &mut b,
                &mut logs_a,
                &mut logs_b,
                &mut told,
            ),
            read_one(&region, &mut a, &mut logs_a, Addr(10)),
        )
    };
    same(&rt, &answers, &[Ok(version(&rt, 1)), Err(newer(&rt))]);
    same(&rt, &ten, &Ok(0));
    let points = [
        Some(Point::ReadsDone),
        Some(Point::Locked),
        Some(Point::Ticked),
        None,
        None,
        None,
    ];
    holds(&rt, told.points == points);
    Ok(())
}

#[test]
fn nothing_is_told_where_a_read_was_stopped(rt: HostRuntime) -> Result<(), Fail> {
    let alloc = rt.alloc();
    let mut told = Points::new();
    let (answers, ten) = {
        let (region, mut a) = Region::<FreeLaw>::new(alloc, &[0; 32], 100, 32)?;
        let mut b = split(&rt, &region, &mut a);
        let mut logs_a = Logs::new(alloc);
        let mut logs_b = Logs::new(alloc);
        (
            commit_after_a_stopped_read(
                &region,
                &mut a,
                &mut b,
                &mut logs_a,
                &mut logs_b,
                &mut told,
            ),
            read_one(&region, &mut a, &mut logs_a, Addr(10)),
        )
    };
    same(&rt, &answers, &[Ok(version(&rt, 1)), Err(newer(&rt))]);
    same(&rt, &ten, &Ok(0));
    holds(&rt, told.points == [None; 6]);
    Ok(())
}

/// The other client has made the last version.
#[test]
fn no_tick_is_told_where_the_clock_is_spent(rt: HostRuntime) -> Result<(), Fail> {
    let alloc = rt.alloc();
    let mut told = Points::new();
    let answers = {
        let (region, mut a) = Region::<FreeLaw>::new(alloc, &[0; 32], 1, 32)?;
        let mut b = split(&rt, &region, &mut a);
        let mut logs_a = Logs::new(alloc);
        let mut logs_b = Logs::new(alloc);
        commit_after_a_newer_write(&region, &mut a, &mut b, &mut logs_a, &mut logs_b, &mut told)
    };
    let spent = Stop::Spent {
        version: version(&rt, 1),
    };
    same(&rt, &answers, &[Ok(version(&rt, 1)), Err(spent)]);
    let points = [
        Some(Point::ReadsDone),
        Some(Point::Locked),
        None,
        None,
        None,
        None,
    ];
    holds(&rt, told.points == points);
    Ok(())
}

/// An attempt of another client that has not ended.
pub(crate) struct Running<'b> {
    pub(crate) attempt: Attempt<'b, FreeLaw>,
    ghost runs: { attempt.logs.now.in_use ≡ true },
    ghost range: { 9 < attempt.region.now.size },
}

/// The result of a read, and the conflict that its attempt has met.
type Met = (Result<u64, Refusal>, Option<Conflict>);

/// A gate that reads word 9 in another client's attempt at one point, and ends that attempt.
struct ReadsAt<'a, 'b> {
    other: Option<Running<'b>>,
    when: Point,
    answer: &'a mut Option<Met>,
}

impl<'a, 'b> Gate for ReadsAt<'a, 'b> {
    fn at(&mut self, point: Point) {
        if point == self.when
            && let Some(Running { attempt }) = self.other.take()
        {
            let mut attempt = attempt;
            let read = attempt.read(Addr(9));
            *self.answer = Some((read, attempt.stopped()));
            attempt.abort();
        }
    }
}

/// Writes 1 to word 9 under the gate.
pub(crate) fn write_under<G: Gate>(
    region: &Region<FreeLaw>,
    client: &mut Client<FreeLaw>,
    logs: &mut Logs,
    gate: &mut G,
) -> Answer
    requires own { client.old.table ≡ region.now.table }
    requires free { IsFreeHanded client.old.value }
    requires range { 9 < region.now.size }
    ensures own { client.new.table ≡ client.old.table }
    ensures free { IsFreeHanded client.new.value }
{
    let mut attempt = Attempt::begin(region, client, logs);
    match attempt.write(Addr(9), 1) {
        Ok(()) => attempt.commit(&1u64, gate),
        Err(_) => {
            attempt.abort();
            Err(Stop::Memory)
        }
    }
}

/// Returns the result of reading word 9 at a point of the commit, in an attempt of another client
/// that began before the commit.
fn read_at(
    region: &Region<FreeLaw>,
    client: &mut Client<FreeLaw>,
    other: &mut Client<FreeLaw>,
    logs: &mut Logs,
    others: &mut Logs,
    when: Point,
) -> (Option<Met>, Answer)
    requires own { (client.old.table ≡ region.now.table) × (other.old.table ≡ region.now.table) }
    requires free { IsFreeHanded client.old.value × IsFreeHanded other.old.value }
    requires range { 9 < region.now.size }
{
    let mut answer = None;
    let attempt = Attempt::begin(region, other, others);
    let mut gate = ReadsAt {
        other: Some(Running { attempt }),
        when,
        answer: &mut answer,
    };
    let committed = write_under(region, client, logs, &mut gate);
    let ReadsAt {
        other,
        when: _,
        answer: _,
    } = gate;
    if let Some(Running { attempt }) = other {
        attempt.abort();
    }
    (answer, committed)
}

type Read = (Option<Met>, Answer);

fn read_in_new_region(alloc: Global, when: Point) -> Result<Read, RegionFault> {
    let (region, mut a) = Region::<FreeLaw>::new(alloc, &[0; 32], 100, 32)?;
    let mut b = region.split(&mut a)?;
    let mut logs_a = Logs::new(alloc);
    let mut logs_b = Logs::new(alloc);
    Ok(read_at(&region, &mut a, &mut b, &mut logs_a, &mut logs_b, when))
}

/// The locks are held until all values are stored, and are free before anything is written.
#[test]
fn locks_are_held_from_locked_to_written(rt: HostRuntime) -> Result<(), Fail> {
    let held = Conflict::Held { lock: 9, word: 1 };
    let before = read_in_new_region(rt.alloc(), Point::ReadsDone)?;
    let locked = read_in_new_region(rt.alloc(), Point::Locked)?;
    let ticked = read_in_new_region(rt.alloc(), Point::Ticked)?;
    let decided = read_in_new_region(rt.alloc(), Point::Decided)?;
    let written = read_in_new_region(rt.alloc(), Point::Written)?;
    let expected = (
        Some((Err(Refusal::Stopped), Some(held))),
        Ok(version(&rt, 1)),
    );
    same(&rt, &before, &(Some((Ok(0), None)), Ok(version(&rt, 1))));
    same(&rt, &[locked, ticked, decided, written], &[expected; 4]);
    Ok(())
}

/// A gate that commits another client's attempt at one point.
pub(crate) struct CommitsAt<'a, 'b> {
    pub(crate) other: Option<Running<'b>>,
    pub(crate) when: Point,
    pub(crate) answer: &'a mut Option<Answer>,
}

impl<'a, 'b> Gate for CommitsAt<'a, 'b> {
    fn at(&mut self, point: Point) {
        if point == self.when
            && let Some(Running { attempt }) = self.other.take()
        {
            *self.answer = Some(attempt.commit(&3u64, &mut NoGate));
        }
    }
}

/// Returns the results of two commits: that of another client's attempt, which writes word 10 and
/// commits at a point, and that of the commit that reaches this point.
fn commit_at(
    region: &Region<FreeLaw>,
    client: &mut Client<FreeLaw>,
    other: &mut Client<FreeLaw>,
    logs: &mut Logs,
    others: &mut Logs,
    when: Point,
) -> (Option<Answer>, Answer)
    requires own { (client.old.table ≡ region.now.table) × (other.old.table ≡ region.now.table) }
    requires free { IsFreeHanded client.old.value × IsFreeHanded other.old.value }
    requires range { 10 < region.now.size }
{
    let mut answer = None;
    let mut attempt = Attempt::begin(region, other, others);
    let written = attempt.write(Addr(10), 2).is_ok();
    let mut gate = CommitsAt {
        other: Some(Running { attempt }),
        when,
        answer: &mut answer,
    };
    let committed = write_under(region, client, logs, &mut gate);
    let CommitsAt {
        other,
        when: _,
        answer: _,
    } = gate;
    if let Some(Running { attempt }) = other {
        attempt.abort();
    }
    if written {
        (answer, committed)
    } else {
        (None, committed)
    }
}

fn commit_in_new_region(
    alloc: Global,
    when: Point,
) -> Result<(Option<Answer>, Answer), RegionFault> {
    let (region, mut a) = Region::<FreeLaw>::new(alloc, &[0; 32], 100, 32)?;
    let mut b = region.split(&mut a)?;
    let mut logs_a = Logs::new(alloc);
    let mut logs_b = Logs::new(alloc);
    Ok(commit_at(&region, &mut a, &mut b, &mut logs_a, &mut logs_b, when))
}

/// The clock is ticked after the locks are taken and before the next point: an attempt that
/// commits before the tick has the lower version.
#[test]
fn the_clock_is_ticked_between_locked_and_ticked(rt: HostRuntime) -> Result<(), Fail> {
    let locked = commit_in_new_region(rt.alloc(), Point::Locked)?;
    let ticked = commit_in_new_region(rt.alloc(), Point::Ticked)?;
    let written = commit_in_new_region(rt.alloc(), Point::Written)?;
    let one = (Some(Ok(version(&rt, 1))), Ok(version(&rt, 2)));
    let two = (Some(Ok(version(&rt, 2))), Ok(version(&rt, 1)));
    same(&rt, &locked, &one);
    same(&rt, &[ticked, written], &[two; 2]);
    Ok(())
}
