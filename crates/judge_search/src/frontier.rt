//! A search that goes through the ends of the calls, in their order. It keeps the points at which
//! all calls that ended by then have a position: each other such point is covered by one of these.

ghost use Rattle.std.specs.Prelude.{◌≡◌, ◌<◌, ◌++◌, ◌∷◌, [], IfOk, OnOk, None, map, true, length};
ghost use Rattle.std.specs.List.{Contains};
ghost use Rattle.judge_search.specs.declared.calls.Calls.{Calls};
ghost use Rattle.judge_search.specs.Calls.{calls_of, can_come};
ghost use Rattle.judge_search.specs.Point.{made_of, point_at, point_views};
ghost use Rattle.judge_search.specs.Frontier.{node_at, AreNodesAfter, AreUnfinished, IsDeepestOf};
ghost use Rattle.judge_search.specs.Frontier.{IsReadOnly, KeepsAll, Meets, NodeLedTo, Settles};
ghost use Rattle.judge_search.specs.Frontier.{FailsAt, ShowsNoOrder, Sweeps};

use crate::calls::Calls;
use crate::index::Index;
use crate::point::{Point, is_completed};
use crate::walk::{Finding, counted};
use judge_object::{Object, Watcher};
use std::alloc::{AllocError, Global};

/// Most points that are kept for one end.
const MOST_POINTS: usize = 20_000;

/// Most steps of all trails together.
const MOST_TRAIL: usize = 1 << 24;

/// A step of a trail: the call that was made, and the number after that of the step before it; 0 if
/// there is none. Trails propose an order, which is checked.
#[derive(Clone, Copy)]
struct TrailStep {
    before: usize,
    place: usize,
}

/// A point of the frontier.
#[derive(Drop)]
pub(crate) struct Node<M> {
    pub(crate) point: Point<M>,
    /// The number of completed calls with a position there.
    pub(crate) placed: u64,
    /// The number after that of the last step of its trail; 0 if there is none.
    trail: usize,
}

/// Nodes at points of which no two are found equal.
#[derive(Drop)]
pub(crate) struct Level<M> {
    pub(crate) nodes: Vec<Node<M>>,
    index: Index,
}

/// Returns true only if an equal point is that of a node; it looks at this place.
fn is_node_at<M: Object + Drop>(nodes: &[Node<M>], place: usize, point: &Point<M>) -> bool
    ensures { result ≡ true → (calls : Calls M.Op) → Contains
        (map (node_at M.rules calls) nodes.now) (point_at M.rules calls point.now) }
{
    if place < nodes.len() {
        if nodes[place].point.is_same(point) {
            return true;
        }
    }
    false
}

impl<M: Object + Drop> Level<M> {
    /// Returns a level without nodes.
    fn new(alloc: Global) -> Level<M>
        ensures { result.nodes.items ≡ [] }
    {
        Level {
            nodes: Vec::new(alloc),
            index: Index::new(alloc),
        }
    }

    /// Returns true only if a node is at an equal point.
    fn has(&self, point: &Point<M>) -> bool
        ensures { result ≡ true → (calls : Calls M.Op) → Contains
            (map (node_at M.rules calls) self.now.nodes.items)
            (point_at M.rules calls point.now) }
    {
        let hash = point.hash();
        let mut after = self.index.last(hash);
        'chain: while 0 < after {
            let place = after - 1;
            if self.index.has_hash(place, hash) {
                if is_node_at(self.nodes.as_slice(), place, point) {
                    return true;
                }
            }
            after = self.index.before(place);
        }
        false
    }

    /// Adds a node, unless one is at an equal point.
    fn meet(&mut self, node: Node<M>) -> Result<(), AllocError>
        ensures { OnOk result ((calls : Calls M.Op) →
            Meets M.rules calls node self.old.nodes.items self.new.nodes.items) }
    {
        if self.has(&node.point) {
            return Ok(());
        }
        self.add(node)
    }

    /// Adds a node.
    fn add(&mut self, node: Node<M>) -> Result<(), AllocError>
        ensures { OnOk result (self.new.nodes.items ≡ self.old.nodes.items ++ node ∷ []) }
    {
        self.index.push(node.point.hash())?;
        self.nodes.push(node)?;
        Ok(())
    }
}

/// Returns the node after the call at a place, which may come next, if its reply is the correct
/// one.
fn node_after<M: Object + Drop>(
    alloc: Global,
    calls: &Calls<M::Op>,
    node: &Node<M>,
    place: usize,
    trail: &mut Vec<TrailStep>,
) -> Result<Option<Node<M>>, AllocError>
    requires can { can_come M.rules (made_of node.now.point) (calls_of calls.now.lines.items) place
        ≡ true }
    requires within { place < length calls.now.lines.items }
    ensures { IfOk result (NodeLedTo M.rules calls.now node.now place) }
{
    let Some(point) = node.point.after(alloc, calls, place)? else {
        return Ok(None);
    };
    let Some(placed) = counted(node.placed, is_completed::<M>(calls, place)) else {
        return Err(AllocError);
    };
    trail.push(TrailStep {
        before: node.trail,
        place,
    })?;
    Ok(Some(Node {
        point,
        placed,
        trail: trail.len(),
    }))
}

/// Returns whether the call at a place is known to change no state in which it gives its reply.
fn is_read<M: Object>(calls: &Calls<M::Op>, place: usize) -> bool
    requires { place < length calls.now.lines.items }
    ensures { result ≡ true →
        IsReadOnly M.rules ((point_views M.rules calls.now).call place) }
{
    let line = &calls.as_slice()[place];
    M::is_read_only(&line.op, &line.reply)
}

/// Makes the calls that may come next, give their replies and change no state: whatever follows
/// them could follow without them.
fn settled<M: Object + Drop>(
    alloc: Global,
    calls: &Calls<M::Op>,
    node: Node<M>,
    trail: &mut Vec<TrailStep>,
) -> Result<Node<M>, AllocError>
    ensures { IfOk result (Settles M.rules calls.now node) }
{
    let mut node = node;
    let mut from = 0;
    'tries: while let Some(place) = node.point.next_try(calls, from) {
        if is_read::<M>(calls, place) {
            if let Some(next) = node_after(alloc, calls, &node, place, trail)? {
                node = next;
            }
        }
        from = place + 1;
    }
    Ok(node)
}

/// Returns settled nodes after each call that may come next at a node and gives its reply there.
fn nodes_after<M: Object + Drop>(
    alloc: Global,
    calls: &Calls<M::Op>,
    node: &Node<M>,
    trail: &mut Vec<TrailStep>,
) -> Result<Vec<Node<M>>, AllocError>
    ensures { IfOk result (λ nodes. AreNodesAfter M.rules calls.now node.now nodes.items) }
{
    let mut nodes = Vec::new(alloc);
    let mut from = 0;
    'tries: while let Some(place) = node.point.next_try(calls, from) {
        if let Some(next) = node_after(alloc, calls, node, place, trail)? {
            nodes.push(settled(alloc, calls, next, trail)?)?;
        }
        from = place + 1;
    }
    Ok(nodes)
}

/// The nodes of one end: those that are due to be expanded, and those that are ahead, at which all
/// calls up to this end have a position.
#[derive(Drop)]
pub(crate) struct Front<M> {
    pub(crate) due: Level<M>,
    pub(crate) ahead: Level<M>,
}

impl<M: Object + Drop> Front<M> {
    /// Returns a front without nodes.
    fn new(alloc: Global) -> Front<M>
        ensures due { result.due.nodes.items ≡ [] }
        ensures ahead { result.ahead.nodes.items ≡ [] }
    {
        Front {
            due: Level::new(alloc),
            ahead: Level::new(alloc),
        }
    }

    /// Adds a node, unless one is at an equal point. The call at this end has no position there if
    /// the node is to be expanded.
    fn keep(&mut self, node: Node<M>, end: usize) -> Result<(), AllocError>
        ensures { OnOk result ((calls : Calls M.Op) →
            KeepsAll M.rules calls (node ∷ []) self.old self.new) }
    {
        if node.point.low <= end {
            self.due.meet(node)
        } else {
            self.ahead.meet(node)
        }
    }
}

/// Adds nodes, unless they are at equal points. Returns the end of the trail of a node at which no
/// completed call is left, if there is one.
fn keep_all<M: Object + Drop>(
    calls: &Calls<M::Op>,
    front: &mut Front<M>,
    nodes: Vec<Node<M>>,
    end: usize,
) -> Result<Option<usize>, AllocError>
    ensures { IfOk result (λ last. last ≡ None →
        KeepsAll M.rules calls.now nodes.items front.old front.new
        × AreUnfinished M.rules calls.now nodes.items) }
{
    'nodes: for node in nodes {
        if node.point.is_done(calls) {
            return Ok(Some(node.trail));
        }
        front.keep(node, end)?;
    }
    Ok(None)
}

/// Returns the least number of calls before the first that has no position, of these nodes.
fn lowest<M>(nodes: &[Node<M>]) -> usize {
    let mut low = usize::MAX;
    for place in 0..nodes.len() {
        low = low.min(nodes[place].point.low);
    }
    low
}

/// The result of an end.
#[derive(Drop)]
pub(crate) enum Sweep<M> {
    /// All nodes of the end were expanded.
    Swept(Front<M>),
    /// No completed call is left at the end of this trail.
    Found(usize),
    /// There are too many nodes.
    Full,
}

/// Expands nodes until each of them has a position for the first call that has none in one of them.
fn sweep_end<M: Object + Drop>(
    alloc: Global,
    calls: &Calls<M::Op>,
    nodes: Vec<Node<M>>,
    trail: &mut Vec<TrailStep>,
) -> Result<Sweep<M>, AllocError>
    ensures { IfOk result (Sweeps M.rules calls.now nodes.items) }
{
    let end = lowest(nodes.as_slice());
    let mut front = Front::new(alloc);
    if let Some(last) = keep_all(calls, &mut front, nodes, end)? {
        return Ok(Sweep::Found(last));
    }
    'nodes: for number in 0..MOST_POINTS {
        if front.due.nodes.len() <= number {
            return Ok(Sweep::Swept(front));
        }
        let nodes = nodes_after(alloc, calls, &front.due.nodes[number], trail)?;
        if let Some(last) = keep_all(calls, &mut front, nodes, end)? {
            return Ok(Sweep::Found(last));
        }
    }
    Ok(Sweep::Full)
}

/// Returns the given node if more completed calls have a position there, or the other one: of two
/// nodes with as many, the one of the later end, where the calls of earlier ends have positions.
fn deeper_of<M: Drop>(best: Option<Node<M>>, node: Node<M>) -> Option<Node<M>>
    ensures { IsDeepestOf best (node ∷ []) result }
{
    match best {
        Some(best) => {
            if node.placed < best.placed {
                Some(best)
            } else {
                Some(node)
            }
        }
        None => Some(node),
    }
}

/// Returns a node with the most completed calls that have a position: the given one, or one of
/// these.
fn deepest_of<M: Drop>(best: Option<Node<M>>, nodes: Vec<Node<M>>) -> Option<Node<M>>
    ensures { IsDeepestOf best nodes.items result }
{
    let mut best = best;
    'nodes: for node in nodes {
        best = deeper_of(best, node);
    }
    best
}

/// Returns the places of the calls of a trail, from the first to the last.
fn trail_places(alloc: Global, trail: &[TrailStep], last: usize) -> Result<Vec<usize>, AllocError> {
    let mut places = Vec::new(alloc);
    let mut after = last;
    'trail: while 0 < after {
        let Some(step) = trail.get(after - 1) else {
            break;
        };
        places.push(step.place)?;
        after = step.before.min(after - 1);
    }
    places.reverse();
    Ok(places)
}

/// Returns the finding that no order places more completed calls than lead to a node.
fn failure_at<M>(best: Option<Node<M>>) -> Finding<Point<M>>
    ensures { FailsAt best result }
{
    match best {
        Some(node) => Finding::NoOrder(node.placed, node.point),
        None => Finding::Unknown(0),
    }
}

/// Searches for a linearization of the calls that are left at a point, one end after the other, and
/// expands about `steps` nodes at most. An order that it finds is a proposal.
pub(crate) fn find_by_ends<M: Object + Drop, P: Watcher>(
    alloc: Global,
    calls: &Calls<M::Op>,
    start: Point<M>,
    steps: u64,
    watcher: &mut P,
) -> Result<Finding<Point<M>>, AllocError>
    ensures { IfOk result (ShowsNoOrder M.rules (point_views M.rules calls.now)
        (point_at M.rules calls.now start)) }
{
    let mut trail = Vec::new(alloc);
    let mut best = None;
    let mut nodes = Vec::new(alloc);
    nodes.push(Node {
        point: start,
        placed: 0,
        trail: 0,
    })?;
    let mut expanded: u64 = 0;
    'ends: for end in 0..steps {
        watcher.tell(end, expanded);
        let front = match sweep_end(alloc, calls, nodes, &mut trail)? {
            Sweep::Swept(front) => front,
            Sweep::Found(last) => {
                return Ok(Finding::Order(trail_places(alloc, trail.as_slice(), last)?));
            }
            Sweep::Full => return Ok(Finding::Unknown(0)),
        };
        let Front { due, ahead } = front;
        expanded = expanded.saturating_add(due.nodes.len() as u64);
        best = deepest_of(best, due.nodes);
        nodes = ahead.nodes;
        if nodes.len() == 0 {
            return Ok(failure_at(best));
        }
        if steps < expanded || MOST_TRAIL < trail.len() {
            return Ok(Finding::Unknown(0));
        }
    }
    Ok(Finding::Unknown(0))
}
