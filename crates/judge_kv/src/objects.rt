//! The objects of a store's history: classes of its keys.

ghost use Rattle.std.specs.Prelude.{◌≡◌, true, false, OnOk, IfOk, map};
ghost use Rattle.judge_search.specs.Calls.{calls_of};
ghost use Rattle.judge_search.specs.Walk.{IsWhole};
ghost use Rattle.judge_text.specs.Classes.{AreWellFormed};
ghost use Rattle.judge_text.specs.Many.{AreStrict};
ghost use Rattle.judge_text.specs.Classing.{object_of};
ghost use Rattle.judge_kv.specs.Classes.{AreStoreObjects, AreKeysJoined, JoinsCalls, keys_of};

use crate::clause::Clause;
use crate::request::{Request, RequestKind};
use judge_object::Line;
use judge_text::{Classes, Names, Turns, find_turns};
use std::alloc::{AllocError, Global};

/// Joins the classes of the keys of clauses.
fn join_clauses(classes: &mut Classes, clauses: &[Clause]) -> Result<(), AllocError>
    requires { AreWellFormed classes.old }
    ensures formed { OnOk result (AreWellFormed classes.new) }
    ensures joined { OnOk result
        (AreKeysJoined (map (λ clause. clause.key) clauses.now) classes.old classes.new) }
{
    'clauses: for place in 1..clauses.len() {
        let first = clauses[0].key();
        let other = clauses[place].key();
        classes.join(first, other)?;
    }
    Ok(())
}

/// Joins the classes of the keys that an operation touches.
fn join_request(classes: &mut Classes, request: &Request) -> Result<(), AllocError>
    requires { AreWellFormed classes.old }
    ensures formed { OnOk result (AreWellFormed classes.new) }
    ensures joined { OnOk result (AreKeysJoined (keys_of request.now) classes.old classes.new) }
{
    match request.kind() {
        RequestKind::One(_) => Ok(()),
        RequestKind::Transact(clauses) => join_clauses(classes, clauses.as_slice()),
    }
}

/// Returns the classes of the keys of a history's operations.
fn key_classes(alloc: Global, lines: &[Line<Request>]) -> Result<Classes, AllocError>
    ensures formed { IfOk result (λ classes. AreWellFormed classes) }
    ensures joined { IfOk result (λ classes. JoinsCalls (calls_of lines.now) classes) }
{
    let mut classes = Classes::new(alloc);
    'lines: for place in 0..lines.len() {
        join_request(&mut classes, &lines[place].op)?;
    }
    Ok(classes)
}

/// Returns whether the calls are in turn and a client made one at the moment at which an earlier
/// one of its own ended.
fn are_touching(alloc: Global, lines: &[Line<Request>]) -> Result<bool, AllocError>
    ensures some { IfOk result (λ touching. touching ≡ true →
        AreStrict (calls_of lines.now) → ⊥) }
    ensures none { IfOk result (λ touching. touching ≡ false →
        IsWhole (calls_of lines.now) → AreStrict (calls_of lines.now)) }
{
    match find_turns(alloc, lines)? {
        Turns::Held(is_strict) => Ok(!is_strict),
        Turns::Broken(_) => Ok(false),
    }
}

/// Returns the objects of a history: the classes of its keys, or the whole store if a client made a
/// call at the moment at which an earlier one of its own ended.
pub(crate) fn store_objects(alloc: Global, lines: &[Line<Request>]) -> Result<Names, AllocError>
    ensures { IfOk result (λ names. AreStoreObjects (calls_of lines.now) (object_of names)) }
{
    let touching = are_touching(alloc, lines)?;
    if touching {
        return Ok(Names::Together);
    }
    let classes = key_classes(alloc, lines)?;
    Ok(Names::joined(classes))
}
