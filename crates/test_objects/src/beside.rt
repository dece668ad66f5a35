//! A question beside a writer of one queue. One question meets the writer's locks. Another one is
//! answered as before the writer, which commits while the question ends.

use ex_ring::{Count, Push, RingCaller, RingObject, new_ring};
use std::test::Fail;
use stm_attempt::{Conflict, Gate, Point, Stop};
use stm_object::{Body, Caller, Query, Untraced, Update};
use tx_memory::{TxMem, TxRead};

/// A push as a body.
#[derive(Drop)]
struct Pushing(Push);

impl Body<RingObject> for Pushing {
    ghost use Rattle.std.specs.Prelude.{false};
    ghost use Rattle.ex_ring.specs.declared.entry.Entry.TheVariants.{Push as Pushed};

    type Answer = bool;

    ghost reads = { λ _. false };

    ghost entry_of = { λ b room. Pushed b.0.0 room };

    ghost changes = { λ b room. room };

    fn only_reads(&self) -> bool {
        false
    }

    fn read<M: TxRead>(&self, _memory: &mut M) -> Option<Result<bool, M::Stop>> {
        None
    }

    fn run<M: TxMem>(&self, memory: &mut M) -> Option<Result<bool, M::Stop>> {
        Some(self.0.run(memory))
    }
}

/// A count as a body.
#[derive(Drop)]
struct Counting(Count);

impl Body<RingObject> for Counting {
    ghost use Rattle.std.specs.Prelude.{true, false};
    ghost use Rattle.ex_ring.specs.declared.entry.Entry.TheVariants.{Len};

    type Answer = u64;

    ghost reads = { λ _. true };

    ghost entry_of = { λ b count. Len count };

    ghost changes = { λ _ _. false };

    fn only_reads(&self) -> bool {
        true
    }

    fn read<M: TxRead>(&self, memory: &mut M) -> Option<Result<u64, M::Stop>> {
        Some(self.0.read(memory))
    }

    fn run<M: TxMem>(&self, _memory: &mut M) -> Option<Result<u64, M::Stop>> {
        None
    }
}

/// A gate that counts the values once, while the locks of another user's transaction are held.
#[derive(Drop)]
struct CountsAtLocked<'a> {
    waiting: Option<RingCaller<'a>>,
    count: Option<Result<u64, Stop>>,
}

impl<'a> Gate for CountsAtLocked<'a> {
    fn at(&mut self, point: Point) {
        if point == Point::Locked
            && let Some(mut caller) = self.waiting.take()
        {
            self.count = Some(caller.ask(&Count, 1));
        }
    }
}

/// A gate that puts a value in once another user's question has done its reads.
#[derive(Drop)]
struct PushesAtReadsDone<'a> {
    waiting: Option<RingCaller<'a>>,
    room: Option<Result<bool, Stop>>,
}

impl<'a> Gate for PushesAtReadsDone<'a> {
    fn at(&mut self, point: Point) {
        if point == Point::ReadsDone
            && let Some(mut caller) = self.waiting.take()
        {
            self.room = Some(caller.run(&Push(5), 1));
        }
    }
}

/// Asks a question that meets a lock of the writer, and a later question that finds the value.
#[test]
fn a_question_while_a_writer_commits(rt: HostRuntime) -> Result<(), Fail> {
    let (ring, user) = new_ring(rt.alloc(), 100)?;
    let mut caller = Caller::of(&ring, user);
    let other = caller.split()?;
    let mut gate = CountsAtLocked {
        waiting: Some(other),
        count: None,
    };
    let put = caller.call(&Pushing(Push(5)), 1, &mut gate, &mut Untraced);
    let after = caller.ask(&Count, 1);
    let Ok((room, place)) = put else {
        panic!(rt; "it was stopped")
    };
    assert!(rt; room);
    assert!(rt; place.wrote);
    assert_eq!(rt; place.version.get(), 1);
    assert!(rt; matches!(gate.count, Some(Err(Stop::Conflict(Conflict::Held { .. })))));
    assert_eq!(rt; after, Ok(1));
    Ok(())
}

/// Asks a question that has done its reads when the writer commits. The answer is that from before
/// the writer, and the record has the version from before the writer.
#[test]
fn a_question_before_a_writer(rt: HostRuntime) -> Result<(), Fail> {
    let (ring, user) = new_ring(rt.alloc(), 100)?;
    let mut caller = Caller::of(&ring, user);
    let other = caller.split()?;
    let mut gate = PushesAtReadsDone {
        waiting: Some(other),
        room: None,
    };
    let counted = caller.call(&Counting(Count), 1, &mut gate, &mut Untraced);
    let after = caller.ask(&Count, 1);
    let Ok((count, place)) = counted else {
        panic!(rt; "it was stopped")
    };
    assert_eq!(rt; count, 0);
    assert!(rt; !place.wrote);
    assert_eq!(rt; place.version.get(), 0);
    assert_eq!(rt; gate.room, Some(Ok(true)));
    assert_eq!(rt; after, Ok(1));
    Ok(())
}
