//! The core as running code.

ghost use Rattle.std.specs.Prelude.{◌≡◌, ◌<◌, ◌≤◌, true, length, IfOk, IfErr};
ghost use Rattle.stm_replay.specs.Played.{event_of};
ghost use Rattle.stm_replay.specs.Running.{may_run, stripes_of, run_played, run_opened, found_of};
ghost use Rattle.stm_replay.specs.Refusals.{IsRefusal};
ghost use Rattle.stm_replay.specs.Follows.{IsReached, IsOrderOfCore};
ghost use Rattle.stm_core.specs.declared.limits.TheConstants.{MOST_WORDS, MOST_STRIPES};
ghost use Rattle.stm_core.specs.declared.version.TheConstants.{VERSION_LIMIT};

use crate::event::{Entry, Event, NotAllowed};
use crate::state::State;
use std::alloc::{AllocError, Allocator, Global};
use std::marker::Model;

/// A region as running code on one thread, for tests and for replaying a list of events. Plays one
/// event after another, and refuses events that are not allowed.
#[derive(Drop)]
pub struct Core<A: Allocator + Copy = Global> {
    alloc: A,
    state: State<A>,
}

impl<A: Allocator + Copy> Model for Core<A> {
    ghost use Rattle.stm_replay.specs.Running.{Running};

    ghost Value = { Running };

    ghost use Rattle.stm_replay.specs.Follows.{IsReached};

    ghost view = { λ c. c.state };

    ghost invariant = { λ c. IsReached c.state };
}

impl<A: Allocator + Copy> Core<A> {
    /// Opens a region on an image: clock 0, every lock free with version 0, and client 1 with all
    /// 63 grants.
    ///
    /// # Errors
    ///
    /// Returns an error if the memory for the region is refused.
    pub fn start(alloc: A, image: &[u64], last: u64, stripes: u32) -> Result<Core<A>, AllocError>
        requires words { (1 ≤ length image.now) × (length image.now ≤ MOST_WORDS) }
        requires versions { (1 ≤ last) × (last < VERSION_LIMIT) }
        requires locks { (1 ≤ stripes) × (stripes ≤ MOST_STRIPES) }
        ensures { IfOk result (λ c. c ≡ run_opened image.now last stripes) }
    {
        let state = State::open(alloc, image, last, stripes)?;
        Ok(Core { alloc, state })
    }

    /// Plays an event.
    ///
    /// # Errors
    ///
    /// Returns `Event` exactly if the event is not allowed. Returns `Memory` if the event is
    /// allowed and memory was refused or no more events can be counted. The core comes back as it
    /// was.
    ///
    /// Not said: which events take memory, which a test's list of events shows; that events can
    /// still be counted.
    pub fn play(mut self, event: Event<A>) -> Result<Core<A>, (Core<A>, NotAllowed)>
        ensures played { IfOk result (λ c.
            (may_run (stripes_of self.core) (event_of event) self.core ≡ true)
            × (c ≡ run_played (event_of event) self)) }
        ensures refused { IfErr result (λ e.
            (e.0 ≡ self)
            × IsRefusal (may_run (stripes_of self.core) (event_of event) self.core) e.1) }
    {
        if !self.state.allows(&event) {
            return Err((self, NotAllowed::Event));
        }
        match self.state.make(self.alloc, event) {
            Ok(()) => Ok(self),
            Err(_) => Err((self, NotAllowed::Memory)),
        }
    }

    /// Returns the word that the client's last step found. Returns `None` before the client's
    /// first step, and after a put, a release, a give back, a split, a gather and a renewal.
    pub fn found(&self, client: u32) -> Option<u64>
        ensures { result ≡ found_of self.now.core client }
    {
        self.state.found(client)
    }

    /// Returns the decided records in the order of their point steps: a writer's won tick, a
    /// reader's begin.
    pub fn order(&self) -> &[Entry]
        ensures entries { result.now ≡ self.now.order.entries }
        ensures reached { IsReached self.now }
        ensures history { (r : IsReached self.now)
            → IsOrderOfCore r.core result.now self.now.order.points }
    {
        self.state.entries()
    }
}
