//! A point of a search among the calls of a history.

ghost use Rattle.std.specs.Prelude.{◌≡◌, ◌⊎◌, ◌==◌, [], ◌≤◌, ◌<◌, ℕ, IfOk, IfSome, length, take, true, get_or};
ghost use Rattle.std.specs.List.{list_any};
ghost use Rattle.judge_search.specs.Marks.{is_made};
ghost use Rattle.judge_search.specs.Calls.{calls_of, are_sorted, rest_of};
ghost use Rattle.judge_search.specs.Calls.{can_come, TellsTry, TellsTryBefore, IsFirstOf, AreAlike};
ghost use Rattle.judge_object.specs.declared.line.Line.{Line as Lines};
ghost use Rattle.judge_search.specs.Configurations.{answered};
ghost use Rattle.judge_search.specs.Views.{TellsLeft, TellsNext, LedTo};
ghost use Rattle.judge_search.specs.Point.{made_of, point_at, point_views, RunsTo};
ghost use Rattle.judge_search.specs.Walk.{AreChoices, AreApart};
ghost use Rattle.judge_object.specs.Call.{Call, is_completed};

use crate::calls::Calls;
use crate::marks::{first_left, is_made, mark};
use judge_object::{Line, NEVER, Object, is_right};
use std::alloc::{AllocError, Global};

/// The marks of the calls that have a position in the order, and the state after them.
#[derive(Drop)]
pub struct Point<M> {
    /// All calls before this place have a position.
    pub(crate) low: usize,
    /// So have the calls at these places, which ascend.
    pub(crate) beyond: Vec<usize>,
    pub(crate) machine: M,
}

impl<M: Drop> Point<M> {
    /// Returns the point at which no call has a position, in this state.
    pub(crate) fn new(alloc: Global, machine: M) -> Point<M>
        ensures low { result.low ≡ 0 }
        ensures beyond { result.beyond.items ≡ [] }
        ensures machine { result.machine ≡ machine }
    {
        Point {
            low: 0,
            beyond: Vec::new(alloc),
            machine,
        }
    }
}

/// Returns whether a call of the same client before the one at a place has no position. The calls
/// before `first` all have one.
fn has_earlier<M: Object>(
    low: usize,
    beyond: &[usize],
    calls: &Calls<M::Op>,
    first: usize,
    place: usize,
) -> bool
    requires within { place < length calls.now.lines.items }
    requires made { (other : ℕ) → other < first → is_made low beyond.now other ≡ true }
    ensures { (d : Lines M.Op) → result ≡
        list_any
        (λ (other : Call M.Op). other.client == (get_or calls.now.lines.items place d).client)
        (rest_of (is_made low beyond.now) 0 (take place (calls_of calls.now.lines.items))) }
{
    let mut after = calls.link(place);
    'links: while first < after {
        if !is_made(low, beyond, after - 1) {
            return true;
        }
        after = calls.link(after - 1);
    }
    false
}

/// Returns whether no completed call is left.
pub(crate) fn is_finished<M: Object>(low: usize, beyond: &[usize], lines: &[Line<M::Op>]) -> bool
    requires { are_sorted lines.now ≡ true }
    ensures { TellsLeft
        (answered (rest_of (is_made low beyond.now) 0 (calls_of lines.now))) result }
{
    let first = first_left(low, beyond, lines.len());
    if first == lines.len() {
        return true;
    }
    NEVER <= lines[first].end
}

/// Returns whether the call at a place is completed.
pub(crate) fn is_completed<M: Object>(calls: &Calls<M::Op>, place: usize) -> bool
    requires { place < length calls.now.lines.items }
    ensures { result ≡ is_completed ((point_views M.rules calls.now).call place) }
{
    calls.as_slice()[place].end < NEVER
}

/// Returns the later of a place and another.
fn later_of(from: usize, other: usize) -> usize
    ensures either { (result ≡ from) ⊎ ((result ≡ other) × (from ≤ other)) }
    ensures later { from ≤ result }
    ensures other { other ≤ result }
{
    if from < other { other } else { from }
}

/// Returns the place of the first call between two places that may come next. The calls between
/// them are all completed, or all pending; `first` is the first call that has no position.
fn next_between<M: Object>(
    low: usize,
    beyond: &[usize],
    calls: &Calls<M::Op>,
    first: usize,
    from: usize,
    to: usize,
) -> Option<usize>
    requires within { to ≤ length calls.now.lines.items }
    requires first { IsFirstOf (is_made low beyond.now) (length calls.now.lines.items) first }
    requires alike { AreAlike calls.now.lines.items from to }
    ensures next { TellsTryBefore M.rules (is_made low beyond.now) (calls_of calls.now.lines.items)
        from to result }
    ensures small { IfSome result (λ place. place < to) }
    ensures after { IfSome result (λ place. from ≤ place) }
{
    let lines = calls.as_slice();
    let end = lines[first].end;
    'lines: for place in from..to {
        let line = &lines[place];
        if end < u128::from(line.soonest) {
            return None;
        }
        if is_made(low, beyond, place) || end < u128::from(line.begin) {
            continue;
        }
        if !has_earlier::<M>(low, beyond, calls, first, place) {
            return Some(place);
        }
    }
    None
}

/// Returns the place of the first call from a place on that may come next. Completed calls come
/// first; the search among them ends at the first that began too late for it and all after it.
pub(crate) fn next_call<M: Object>(
    low: usize,
    beyond: &[usize],
    calls: &Calls<M::Op>,
    from: usize,
) -> Option<usize>
    ensures next { TellsTry M.rules (is_made low beyond.now) (calls_of calls.now.lines.items)
        from result }
    ensures small { IfSome result (λ place. place < usize.MAX) }
    ensures after { IfSome result (λ place. from ≤ place) }
{
    let count = calls.as_slice().len();
    let first = first_left(low, beyond, count);
    if first == count {
        return None;
    }
    let start = later_of(from, first);
    let completed = calls.completed();
    match next_between::<M>(low, beyond, calls, first, start, completed) {
        Some(place) => Some(place),
        None => {
            let pending = later_of(start, completed);
            next_between::<M>(low, beyond, calls, first, pending, count)
        }
    }
}

/// Returns the most marks beyond the first place without one, after one more place is marked.
///
/// Not said: anything about the number.
fn room_for(low: usize, beyond: &[usize], place: usize) -> usize {
    if place == low {
        beyond.len()
    } else {
        beyond.len().saturating_add(1)
    }
}

/// Returns the point after the call at a place, which may come next and led to this state and
/// reply, if the reply is the correct one.
fn point_after<M: Object + Drop>(
    alloc: Global,
    calls: &Calls<M::Op>,
    low: usize,
    beyond: &[usize],
    place: usize,
    made: (M, M::Reply),
) -> Result<Option<Point<M>>, AllocError>
    requires within { place < length calls.now.lines.items }
    requires can { can_come M.rules (is_made low beyond.now) (calls_of calls.now.lines.items) place
        ≡ true }
    ensures { IfOk result (λ next. (point : Point M) → point.low ≡ low →
        point.beyond.items ≡ beyond.now → RunsTo M.rules calls.now point place made →
        LedTo M.rules (point_views M.rules calls.now) point place next) }
{
    let (machine, reply) = made;
    let line = &calls.as_slice()[place];
    if !is_right::<M>(&mut Vec::new(alloc), &line.reply, &reply)? {
        return Ok(None);
    }
    let mut marks = Vec::with_capacity(alloc, room_for(low, beyond, place))?;
    marks.extend_from_slice(beyond)?;
    let (low, beyond) = mark(low, marks, place)?;
    Ok(Some(Point {
        low,
        beyond,
        machine,
    }))
}

impl<M: Object + Drop> Point<M> {
    /// Returns whether no completed call is left.
    ///
    /// Also shown, for the search: the calls that may come next are all among those to try, and no
    /// two of those are of one client.
    pub(crate) fn is_done(&self, calls: &Calls<M::Op>) -> bool
        ensures left { TellsLeft (answered (point_at M.rules calls.now self.now).rest) result }
        ensures all { AreChoices (point_at M.rules calls.now self.now).rest
            ((point_views M.rules calls.now).tries self.now 0) }
        ensures apart { AreApart ((point_views M.rules calls.now).tries self.now 0) }
    {
        is_finished::<M>(self.low, self.beyond.as_slice(), calls.as_slice())
    }

    /// Returns the place of the first call from a place on that may come next.
    pub(crate) fn next_try(&self, calls: &Calls<M::Op>, from: usize) -> Option<usize>
        ensures next { TellsNext (point_views M.rules calls.now) self.now from result }
        ensures after { IfSome result (λ place. from ≤ place) }
    {
        next_call::<M>(self.low, self.beyond.as_slice(), calls, from)
    }

    /// Returns the point after a call that may come next, if the reply is the correct one.
    pub(crate) fn after(
        &self,
        alloc: Global,
        calls: &Calls<M::Op>,
        place: usize,
    ) -> Result<Option<Self>, AllocError>
        requires can { can_come M.rules (made_of self.now) (calls_of calls.now.lines.items) place
            ≡ true }
        requires within { place < length calls.now.lines.items }
        ensures { IfOk result (λ next.
            LedTo M.rules (point_views M.rules calls.now) self.now place next) }
    {
        let made = self.machine.make(&calls.as_slice()[place].op)?;
        let next = point_after(alloc, calls, self.low, self.beyond.as_slice(), place, made)?;
        Ok(next)
    }

    /// Returns true only if both points are equal.
    pub(crate) fn is_same(&self, other: &Self) -> bool
        ensures { result ≡ true → (calls : Calls M.Op) →
            point_at M.rules calls self.now ≡ point_at M.rules calls other.now }
    {
        self.low == other.low
            && self.beyond.as_slice() == other.beyond.as_slice()
            && self.machine.is_same(&other.machine)
    }

    /// Returns a hash of the point, which is meant to be the same for equal points.
    ///
    /// Not said: anything about the hash.
    pub(crate) fn hash(&self) -> u64 {
        let mut hash = self.machine.hash() ^ self.low as u64;
        for place in self.beyond.as_slice() {
            hash = hash.wrapping_mul(0x9e37_79b9_7f4a_7c15) ^ *place as u64;
        }
        hash
    }
}
