//! Laws of a region between any two steps of any threads.
ghost use Rattle.std.specs.Prelude.{◌≡◌, false, map};
ghost use Rattle.tx_memory.specs.Image.{In, Agrees};
ghost use Rattle.stm_core.specs.Client.{Record, shed};
ghost use Rattle.stm_core.specs.Event.{taking};
ghost use Rattle.stm_core.specs.History.{Serial, Sub, all_records, image_at};
ghost use Rattle.stm_region.specs.Shown.{with_gathered};
ghost use Rattle.stm_region.specs.Rule.{Always, OfEach, OfEachTwo};
ghost use Rattle.stm_region.specs.Running.{IsListed};
ghost use Rattle.stm_region.specs.Runs.{EveryListGoesOn, EveryRunHasOneList};
ghost use Rattle.stm_region.specs.RealTime.{EveryRunKeepsRealTime};
ghost use Rattle.stm_region.specs.Fresh.{EveryBeginIsFresh};

use stm_core::Law;

/// States that running threads are a list of events: between any two steps of any threads, a list
/// of allowed events leads from the first opening to a core with the table's words and clients.
/// Each renewal is an event of the list. So the core theorem holds of the table. The core also has
/// what a region does not keep: the positions of the events, the client of each record, and
/// clients that were gathered before a renewal. Of its records, readers of one version may be in
/// another order.
pub fn running_threads_are_a_list<L: Law>()
    ensures { Always L.fits L.lawful (λ o s. IsListed L.lawful o s) }
{}

/// States that between any two steps of any threads the records of all clients are lawful and
/// serial from the first opening image. Each client's own records are among them, each once and in
/// their order.
///
/// Not said: any order in time between clients that are out.
pub fn records_are_serial<L: Law>()
    ensures serial { Always L.fits L.lawful (λ o s. Serial o.first (all_records s.views)) }
    ensures lawful { Always L.fits L.lawful (λ o s.
        (r : Record) → In r (all_records s.views) → L.lawful r.tag r.reads r.writes) }
    ensures among { Always L.fits L.lawful (λ o s.
        OfEach s (λ v. Sub v.records (all_records s.views))) }
{}

/// States that between any two steps of any threads all words that an attempt has read are those
/// of the image of its read version.
pub fn reads_are_of_one_version<L: Law>()
    ensures { Always L.fits L.lawful (λ o s. OfEach s (λ v.
        Agrees (image_at o.image v.attempt.rv (all_records (map (shed o.renewal) s.views)))
        v.attempt.reads)) }
{}

/// States that gathering takes no grant away: two clients that are out have fewer grants together
/// than there are, so the bound in `with_gathered` is never reached.
pub fn gathering_keeps_all_grants<L: Law>()
    ensures { Always L.fits L.lawful (λ o s. OfEachTwo s (λ v w.
        v.is_gathered ≡ false → w.is_gathered ≡ false → with_gathered v w ≡ taking v w)) }
{}

/// States that each move goes on with the list before it. A move is a step of a client, a split, a
/// gathering or a renewal. Whatever list of allowed events leads to the state before the move: the
/// list with the move's event at its end, and nothing else, leads to the state after the move.
pub fn every_list_goes_on<L: Law>()
    ensures { EveryListGoesOn L.fits L.lawful }
{}

/// States that a run of a region has one list of events. A run is a sequence of states, each
/// reached from the one before by a move of some client. Each state meets the invariant, and the
/// list of each state is a prefix of the list of every later state.
pub fn a_run_has_one_list<L: Law>()
    ensures { EveryRunHasOneList L.fits L.lawful }
{}

/// States that the order of the records keeps the real time of a run. A call that has returned in
/// some state of the run has its record there. A call that begins after that state gets a later
/// record, whichever clients make the two calls.
///
/// Not said: that the moves of a program's threads are such a run. `atomic_table` says that each of
/// its accesses is one change of the table, and the step calls of `Region` say which.
pub fn runs_keep_real_time<L: Law>()
    ensures { EveryRunKeepsRealTime L.fits L.lawful }
{}

/// States that in a run an attempt begins at a version which is at least that of every record that
/// any client has in that state. So the attempt reads what each call has written that had returned
/// before the attempt began, whichever client made the call.
///
/// Not said: that the moves of a program's threads are such a run; see
/// [`runs_keep_real_time`](crate::runs_keep_real_time).
pub fn begins_see_returned_calls<L: Law>()
    ensures { EveryBeginIsFresh L.fits L.lawful }
{}
