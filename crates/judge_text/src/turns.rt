//! Clients whose calls are in turn.

ghost use Rattle.std.specs.Prelude.{◌≡◌, ◌<◌, ◌^◌, ℕ, List, IfOk};
ghost use Rattle.std.specs.FinMap as map;
ghost use Rattle.judge_object.specs.Call.{Call};
ghost use Rattle.judge_search.specs.Calls.{call_of, calls_of};
ghost use Rattle.judge_text.specs.Turns.{KeepsEnds, KnowsClients, KnowsEnds, Stands, AreTurns};

use judge_object::{Ends, Line};
use std::alloc::{AllocError, Global};

/// How a call stands after those of its client.
#[derive(Clone, Copy, Debug, PartialEq, Eq)]
enum Standing {
    /// The call ends before it begins, or begins before the last earlier one ended.
    Breaks,
    /// The call begins at the moment at which the last earlier one ended.
    Touches,
    /// The call begins later.
    Follows,
}

/// How the calls of all clients stand.
#[derive(Clone, Copy, Debug, PartialEq, Eq)]
pub enum Turns {
    /// The call at this place is not in turn.
    Broken(usize),
    /// All are, and where this is true none begins at the moment at which an earlier one ended.
    Held(bool),
}

/// How a call stands, where these are the ends of the last calls of clients.
fn stands<O>(ends: &Ends, line: &Line<O>) -> Standing
    ensures begun { line.now.begin < 2 ^ 64 }
    ensures stands { (calls : List (Call O)) → KeepsEnds ends.now calls →
        KnowsClients ends.now calls → KnowsEnds ends.now calls →
        Stands calls (call_of line.now) result }
{
    let begin = u128::from(line.begin);
    if line.end < begin {
        return Standing::Breaks;
    }
    match ends.get(line.client) {
        None => Standing::Follows,
        Some(last) => {
            if begin < last {
                return Standing::Breaks;
            }
            if begin == last {
                return Standing::Touches;
            }
            Standing::Follows
        }
    }
}

/// How the calls of these lines stand, each client's being in their order. If all are in turn, a
/// pending call is its client's last one.
pub fn find_turns<O: Drop>(alloc: Global, lines: &[Line<O>]) -> Result<Turns, AllocError>
    ensures { IfOk result (λ turns. AreTurns (calls_of lines.now) turns) }
{
    let mut ends = Ends::new(alloc);
    let mut is_strict = true;
    'lines: for place in 0..lines.len() {
        let line = &lines[place];
        match stands(&ends, line) {
            Standing::Breaks => return Ok(Turns::Broken(place)),
            Standing::Touches => is_strict = false,
            Standing::Follows => {}
        }
        ends.insert(line.client, line.end)?;
    }
    Ok(Turns::Held(is_strict))
}
