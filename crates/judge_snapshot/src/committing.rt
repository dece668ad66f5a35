//! The version histories after a commit.

ghost use Rattle.std.specs.Prelude.{◌≡◌, ◌≤◌, ◌<◌, ◌&&◌, ◌||◌, ◌∷◌, suc, not, IfOk, length, take, drop, map};
ghost use Rattle.std.specs.List.{list_any};
ghost use Rattle.judge_object.specs.Rules.{is_right};
ghost use Rattle.judge_snapshot.specs.Snapshots.{strong_needs, written};
ghost use Rattle.judge_snapshot.specs.Possible.{can_commit, repeats, grown, with_commit, longer, all_longer};
ghost use Rattle.judge_snapshot.specs.Trimmed.{trim};

use crate::commit::Commit;
use crate::past::Past;
use crate::version::Version;
use crate::write_sets::WriteSetObject;
use judge_object::is_right;
use std::alloc::{AllocError, Global};
use std::rc::Rc;

/// Returns whether one of the newest versions wrote a key of this write set.
fn clashes<M: WriteSetObject + Drop>(
    past: &Past<M, M::Written>,
    missed: usize,
    written: &M::Written,
) -> bool
    requires { missed ≤ length past.now.versions }
    ensures { result ≡ list_any (λ v. M.write_sets.conflicts v.written written.now)
        (take missed past.now.versions) }
{
    'versions: for place in 0..missed {
        if M::conflicts(past.version(place).written(), written) {
            return true;
        }
    }
    false
}

/// Returns whether a commit is allowed.
fn is_allowed(is_right: bool, clashes: bool, is_needed: bool) -> bool
    ensures { result ≡ (is_right && not clashes && not is_needed) }
{
    is_right && !clashes && !is_needed
}

/// Returns whether a reply is that of a call, if it is known.
fn is_reply<M: WriteSetObject + Drop>(
    alloc: Global,
    commit: &Commit<M::Op>,
    reply: &M::Reply,
) -> Result<bool, AllocError>
    ensures { IfOk result (λ right. right ≡ is_right M.rules commit.now.call.reply reply.now) }
{
    is_right::<M>(&mut Vec::new(alloc), commit.reply(), reply)
}

/// Returns the write set of a call that misses this many versions, and whether the call may
/// commit.
fn find_commit<M: WriteSetObject + Drop>(
    alloc: Global,
    past: &Past<M, M::Written>,
    commit: &Commit<M::Op>,
    missed: usize,
) -> Result<(M::Written, bool), AllocError>
    requires { missed ≤ length past.now.versions }
    ensures written { IfOk result (λ found. found.0 ≡ written M.rules M.write_sets past.now.first
        past.now.versions (record { call = commit.now.call; missed = missed })) }
    ensures can { IfOk result (λ found. found.1 ≡ can_commit M.rules M.write_sets strong_needs
        past.now (record { call = commit.now.call; missed = missed })) }
{
    let (written, reply) = past.state(missed).read(commit.op())?;
    let is_right = is_reply::<M>(alloc, commit, &reply)?;
    let clashes = clashes(past, missed, &written);
    let is_needed = past.is_needed(missed, &commit.span());
    Ok((written, is_allowed(is_right, clashes, is_needed)))
}

/// Returns whether a write set is found, here or before.
fn is_found(can: bool, is_same: bool, before: bool) -> bool
    ensures { result ≡ (can && is_same || before) }
{
    (can && is_same) || before
}

/// Returns whether a call that misses fewer versions may commit with this write set, which the
/// call has if it misses `missed` versions.
fn repeats<M: WriteSetObject + Drop>(
    alloc: Global,
    past: &Past<M, M::Written>,
    commit: &Commit<M::Op>,
    missed: usize,
    own: &M::Written,
) -> Result<bool, AllocError>
    requires within { missed ≤ length past.now.versions }
    requires own { own.now ≡ written M.rules M.write_sets past.now.first past.now.versions
        (record { call = commit.now.call; missed = missed }) }
    ensures { IfOk result (λ found. found ≡ repeats M.rules M.write_sets strong_needs past.now
        commit.now.call missed missed) }
{
    let mut found = false;
    'fewer: for fewer in 0..missed {
        let (written, can) = find_commit(alloc, past, commit, fewer)?;
        found = is_found(can, M::is_same_written(&written, own), found);
    }
    Ok(found)
}

/// Returns the version history after a commit with this write set.
fn grown<M: WriteSetObject + Drop>(
    alloc: Global,
    past: &Past<M, M::Written>,
    commit: &Commit<M::Op>,
    missed: usize,
    own: M::Written,
) -> Result<Past<M, M::Written>, AllocError>
    requires { own ≡ written M.rules M.write_sets past.now.first past.now.versions
        (record { call = commit.now.call; missed = missed }) }
    ensures { IfOk result (λ made. made ≡ grown M.rules M.write_sets strong_needs past.now
        (record { call = commit.now.call; missed = missed })) }
{
    let state = Rc::new(alloc, past.state(0).copy()?.install(&own)?)?;
    past.with(alloc, Version::new(state, own, commit.span()))
}

/// Puts a version history before others.
fn prepended<S: Drop, W: Drop>(
    past: Past<S, W>,
    mut others: Vec<Past<S, W>>,
) -> Result<Vec<Past<S, W>>, AllocError>
    ensures { IfOk result (λ made. made.items ≡ past ∷ others.items) }
{
    others.insert(0, past)?;
    Ok(others)
}

/// Returns version histories with the one after a commit that misses this many versions, if it may
/// be made and no commit that misses fewer has the same write set.
fn with_commit<M: WriteSetObject + Drop>(
    alloc: Global,
    past: &Past<M, M::Written>,
    commit: &Commit<M::Op>,
    missed: usize,
    others: Vec<Past<M, M::Written>>,
) -> Result<Vec<Past<M, M::Written>>, AllocError>
    requires { missed ≤ length past.now.versions }
    ensures { IfOk result (λ made. made.items ≡ with_commit M.rules M.write_sets strong_needs
        past.now commit.now.call missed others.items) }
{
    let (own, can) = find_commit(alloc, past, commit, missed)?;
    if !can {
        return Ok(others);
    }
    if repeats(alloc, past, commit, missed, &own)? {
        return Ok(others);
    }
    let next = grown(alloc, past, commit, missed, own)?;
    prepended(next, others)
}

/// Returns version histories with those after a commit, from this one on.
fn longer<M: WriteSetObject + Drop>(
    alloc: Global,
    past: &Past<M, M::Written>,
    commit: &Commit<M::Op>,
    others: Vec<Past<M, M::Written>>,
) -> Result<Vec<Past<M, M::Written>>, AllocError>
    ensures { IfOk result (λ made. made.items ≡ longer M.rules M.write_sets strong_needs past.now
        commit.now.call (suc (length past.now.versions)) others.items) }
{
    let mut nexts = others;
    'missed: for missed in 0..past.len() {
        nexts = with_commit(alloc, past, commit, missed, nexts)?;
    }
    with_commit(alloc, past, commit, past.len(), nexts)
}

/// Returns version histories with those after a commit from the one at a position on, before
/// others.
fn longer_at<M: WriteSetObject + Drop>(
    alloc: Global,
    pasts: &[Past<M, M::Written>],
    place: usize,
    commit: &Commit<M::Op>,
    others: Vec<Past<M, M::Written>>,
) -> Result<Vec<Past<M, M::Written>>, AllocError>
    requires within { place < length pasts.now }
    requires others { others.items ≡ all_longer M.rules M.write_sets strong_needs
        (drop (suc place) pasts.now) commit.now.call }
    ensures { IfOk result (λ made. made.items ≡ all_longer M.rules M.write_sets strong_needs
        (drop place pasts.now) commit.now.call) }
{
    longer(alloc, &pasts[place], commit, others)
}

/// Returns the version histories after a commit, from any of these on.
fn all_longer<M: WriteSetObject + Drop>(
    alloc: Global,
    pasts: &[Past<M, M::Written>],
    commit: &Commit<M::Op>,
) -> Result<Vec<Past<M, M::Written>>, AllocError>
    ensures { IfOk result (λ made. made.items ≡ all_longer M.rules M.write_sets strong_needs
        pasts.now commit.now.call) }
{
    let mut nexts = Vec::new(alloc);
    'pasts: for done in 0..pasts.len() {
        let place = pasts.len() - 1 - done;
        nexts = longer_at(alloc, pasts, place, commit, nexts)?;
    }
    Ok(nexts)
}

/// Returns version histories without the versions before a time.
fn all_trimmed<S: Drop, W: Drop>(
    alloc: Global,
    pasts: &[Past<S, W>],
    horizon: u64,
) -> Result<Vec<Past<S, W>>, AllocError>
    ensures { IfOk result (λ made. made.items ≡ map (trim horizon) pasts.now) }
{
    let mut made = Vec::with_capacity(alloc, pasts.len())?;
    'pasts: for place in 0..pasts.len() {
        made.push(pasts[place].trimmed(alloc, horizon)?)?;
    }
    Ok(made)
}

/// Returns the version histories after a commit, from any of these on, without the versions before
/// its horizon.
pub(crate) fn pasts_after<M: WriteSetObject + Drop>(
    alloc: Global,
    pasts: &[Past<M, M::Written>],
    commit: &Commit<M::Op>,
) -> Result<Vec<Past<M, M::Written>>, AllocError>
    ensures { IfOk result (λ made. made.items ≡ map (trim commit.now.horizon)
        (all_longer M.rules M.write_sets strong_needs pasts.now commit.now.call)) }
{
    let nexts = all_longer(alloc, pasts, commit)?;
    all_trimmed(alloc, nexts.as_slice(), commit.horizon())
}
