//! The search for the places of attempts, of which only the committed writers have places.
//!
//! The search is greedy. An attempt that is no committed writer comes as soon as no other attempt
//! that is left has to come before it and its reads are right. If there is no such attempt, the
//! next committed writer comes. A free attempt changes no word, so an earlier place never
//! spoils the place of another attempt.

ghost use Rattle.std.specs.Prelude.{◌≡◌, ◌≢◌, ◌<◌, ◌==◌, ◌∷◌, ℕ, true, false, None, All, List, [], length, remove, slice_index_or, IfOk, OnOk, IfErr, IfSome, MatchOption};
ghost use Rattle.vac_lines.specs.declared.stream_fault.StreamFault.TheVariants.{Write};
ghost use Rattle.judge_opacity.specs.Attempt.{Attempt};
ghost use Rattle.judge_opacity.specs.Parts.{AllAmong};
ghost use Rattle.judge_opacity.specs.Verdict.{violation_of};
ghost use Rattle.judge_opacity.specs.declared.logged.Logged.{Logged};
ghost use Rattle.judge_opacity.specs.Placing.{IsPlaceable, Completes};
ghost use Rattle.judge_opacity.specs.Judging.{FollowsAttempts};
ghost use Rattle.judge_opacity.specs.Logs as spec;
ghost use Rattle.judge_opacity.specs.Logs.{attempts_in, AreAmong, IsFreeAt, IsFirstWriter, IsSameJudge, MayComeNext, PlacesNext, IsPlacedAs};

use crate::finding::Counts;
use crate::judge::Judge;
use crate::logged::Logged;
use judge_object::Span;
use std::alloc::AllocError;
use vac_lines::StreamFault;

/// Returns whether an attempt may stand behind a first one, by their clients and times.
fn spans_follow(first: &Span, later: &Span) -> bool
    ensures { result ≡ spec.spans_follow first.now later.now }
{
    let overlaps = first.client == later.client && u128::from(later.begin) < first.end;
    !(overlaps || later.end < u128::from(first.begin))
}

/// Returns 1 if an attempt with this interval counts among those that have to come before it.
fn own_block(span: &Span) -> u64
    ensures { result ≡ spec.own_block span.now }
{
    if spans_follow(span, span) { 0 } else { 1 }
}

/// Returns whether no other attempt that is left has to come before an attempt with this interval,
/// which is one of them.
fn is_first(left: &[Logged], span: &Span) -> bool
    ensures { result ≡ (spec.blocked_by span.now left.now == spec.own_block span.now) }
{
    let own = own_block(span);
    let mut blocked = 0;
    'left: for place in 0..left.len() {
        if !spans_follow(span, &left[place].head.span) {
            blocked += 1;
            if blocked > own {
                return false;
            }
        }
    }
    blocked == own
}

/// Returns whether an attempt that is left is free: it is no committed writer, none of the others
/// has to come before it, and it has no fault.
fn is_free(judge: &mut Judge, left: &[Logged], logged: &Logged) -> Result<bool, AllocError>
    requires { AllAmong (length judge.old.memory.words.items) logged.now.accesses.items }
    ensures same { OnOk result (IsSameJudge judge.old judge.new) }
    ensures free { IfOk result (λ free. (words : ℕ) (earlier : List Attempt) →
        FollowsAttempts words judge.old earlier →
        free ≡ spec.is_free earlier left.now logged.now) }
{
    if logged.writer {
        return Ok(false);
    }
    if !is_first(left, &logged.head.span) {
        return Ok(false);
    }
    judge.fits(&logged.head, logged.accesses.as_slice())
}

/// Returns the position of a free attempt.
fn find_free(judge: &mut Judge, left: &[Logged]) -> Result<Option<usize>, AllocError>
    requires { AreAmong (length judge.old.memory.words.items) left.now }
    ensures same { OnOk result (IsSameJudge judge.old judge.new) }
    ensures within { IfOk result (λ found. IfSome found (λ place. place < length left.now)) }
    ensures found { IfOk result (λ found. (words : ℕ) (earlier : List Attempt) →
        FollowsAttempts words judge.old earlier → MatchOption found
        (All (λ logged. spec.is_free earlier left.now logged ≡ false) left.now)
        (λ place. IsFreeAt earlier left.now place)) }
{
    'left: for place in 0..left.len() {
        if is_free(judge, left, &left[place])? {
            return Ok(Some(place));
        }
    }
    Ok(None)
}

/// Returns the position of the first committed writer.
fn first_writer(left: &[Logged]) -> Option<usize>
    ensures { MatchOption result (All (λ logged. logged.writer ≡ false) left.now)
        (λ place. IsFirstWriter left.now place) }
{
    'left: for place in 0..left.len() {
        if left[place].writer {
            return Some(place);
        }
    }
    None
}

/// Takes the attempt at a position, which has no fault.
fn take_at(judge: &mut Judge, left: &mut Vec<Logged>, place: usize) -> Result<(), StreamFault>
    requires place { place < length left.old.items }
    requires among { AreAmong (length judge.old.memory.words.items) left.old.items }
    ensures left { OnOk result (left.new.items ≡ remove left.old.items place) }
    ensures size { OnOk result (length judge.new.memory.words.items
        ≡ length judge.old.memory.words.items) }
    ensures taken { OnOk result ((words : ℕ) (earlier : List Attempt) (d : Logged) →
        FollowsAttempts words judge.old earlier →
        violation_of earlier (spec.logged_attempt (slice_index_or left.old.items place d)) ≡ None →
        FollowsAttempts words judge.new
        (spec.logged_attempt (slice_index_or left.old.items place d) ∷ earlier)) }
    ensures refused { IfErr result (λ fault. fault ≢ Write) }
{
    let logged = left.remove(place);
    judge.take(&logged.head, logged.accesses.as_slice())
}

/// Returns the position of the attempt that comes next: a free attempt, or the first committed
/// writer if it has no fault.
fn find_next(judge: &mut Judge, left: &[Logged]) -> Result<Option<usize>, AllocError>
    requires { AreAmong (length judge.old.memory.words.items) left.now }
    ensures same { OnOk result (IsSameJudge judge.old judge.new) }
    ensures within { IfOk result (λ found. IfSome found (λ place. place < length left.now)) }
    ensures found { IfOk result (λ found. (words : ℕ) (earlier : List Attempt) →
        FollowsAttempts words judge.old earlier → MatchOption found
        (Completes earlier (attempts_in left.now) → attempts_in left.now ≡ [])
        (λ place. MayComeNext earlier left.now place)) }
{
    if let Some(place) = find_free(judge, left)? {
        return Ok(Some(place));
    }
    let Some(place) = first_writer(left) else {
        return Ok(None);
    };
    let logged = &left[place];
    if judge.fits(&logged.head, logged.accesses.as_slice())? {
        return Ok(Some(place));
    }
    Ok(None)
}

/// Places one more attempt, and returns false if none can be placed.
fn place_next(judge: &mut Judge, left: &mut Vec<Logged>) -> Result<bool, StreamFault>
    requires among { AreAmong (length judge.old.memory.words.items) left.old.items }
    ensures among { IfOk result (λ placed. placed ≡ true →
        AreAmong (length judge.new.memory.words.items) left.new.items) }
    ensures less { IfOk result (λ placed. placed ≡ true →
        length left.new.items < length left.old.items) }
    ensures next { IfOk result (λ placed. (words : ℕ) (earlier : List Attempt) →
        FollowsAttempts words judge.old earlier →
        PlacesNext words judge.new earlier (attempts_in left.old.items)
        (attempts_in left.new.items) placed) }
    ensures refused { IfErr result (λ fault. fault ≢ Write) }
{
    match find_next(judge, left.as_slice())? {
        Some(place) => {
            take_at(judge, left, place)?;
            Ok(true)
        }
        None => Ok(false),
    }
}

/// Places all attempts that are left, and returns their counts, or `None` if they have no places.
pub(crate) fn place_all(
    mut judge: Judge,
    mut left: Vec<Logged>,
) -> Result<Option<Counts>, StreamFault>
    requires fresh { FollowsAttempts (length judge.memory.words.items) judge [] }
    requires among { AreAmong (length judge.memory.words.items) left.items }
    ensures found { IfOk result (λ found. MatchOption found
        (IsPlaceable (attempts_in left.items) → ⊥)
        (λ counts. IsPlacedAs (attempts_in left.items) counts)) }
    ensures refused { IfErr result (λ fault. fault ≢ Write) }
{
    'left: while !left.is_empty() {
        if !place_next(&mut judge, &mut left)? {
            return Ok(None);
        }
    }
    Ok(Some(judge.counts()))
}
