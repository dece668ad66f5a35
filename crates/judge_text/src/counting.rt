//! Counting the calls, clients and objects of a history.

ghost use Rattle.std.specs.Prelude.{◌≡◌, IfOk};
ghost use Rattle.judge_text.specs.Classing.{object_of, for_object};
ghost use Rattle.judge_search.specs.Calls.{calls_of};
ghost use Rattle.judge_text.specs.Counting.{clients_in, objects_in, counts_of};

use crate::named::Named;
use crate::names::Names;
use judge_object::Line;
use std::alloc::{AllocError, Global};
use std::collections::{BTreeSet, HashSet};

/// Numbers of calls, clients and objects of a history.
#[derive(Clone, Copy, Debug, PartialEq, Eq)]
pub struct Counts {
    /// Calls.
    pub calls: u64,
    /// Clients that made a call.
    pub clients: u64,
    /// Objects that a call is for.
    pub objects: u64,
}

/// Returns the number of clients that made the calls of these lines.
pub(crate) fn count_clients<O>(alloc: Global, lines: &[Line<O>]) -> Result<u64, AllocError>
    ensures { IfOk result (λ count. count ≡ clients_in (calls_of lines.now)) }
{
    let mut clients = BTreeSet::new(alloc);
    'lines: for place in 0..lines.len() {
        clients.insert(lines[place].client)?;
    }
    Ok(clients.len() as u64)
}

/// Returns the number of objects that the calls of these lines are for.
fn count_objects<M: Named>(
    alloc: Global,
    names: &Names,
    lines: &[Line<M::Op>],
) -> Result<u64, AllocError>
    ensures { IfOk result (λ count.
        count ≡ objects_in (for_object (object_of names.now) M.name) (calls_of lines.now)) }
{
    let mut objects = HashSet::new(alloc);
    'lines: for place in 0..lines.len() {
        objects.insert(names.name::<M>(&lines[place].op))?;
    }
    Ok(objects.len() as u64)
}

impl Counts {
    /// Counts the calls and objects of lines, of which the number of clients is known.
    pub(crate) fn of<M: Named>(
        alloc: Global,
        clients: u64,
        names: &Names,
        lines: &[Line<M::Op>],
    ) -> Result<Counts, AllocError>
        ensures { IfOk result (λ counts. counts ≡ record (counts_of
            (for_object (object_of names.now) M.name) (calls_of lines.now)) { clients = clients }) }
    {
        Ok(Counts {
            calls: lines.len() as u64,
            clients,
            objects: count_objects::<M>(alloc, names, lines)?,
        })
    }
}
