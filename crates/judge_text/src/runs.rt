//! The lines of each object.

ghost use Rattle.std.specs.Prelude.{◌≡◌, ◌<◌, ◌≤◌, ℕ, List, true, false, IfOk, OnOk, [], length, get_or, vec_len, slice_index_or};
ghost use Rattle.judge_text.specs.Classing.{object_of, for_object};
ghost use Rattle.judge_text.specs.Numbers.{AreNumbered, name_in};
ghost use Rattle.judge_text.specs.Runs.{AreOfOne, AreNumbersOf, AreEmpty, AreRunsOf, HasOneMore, AreNamedRuns, AreRunsByName};

use crate::named::Named;
use crate::names::Names;
use crate::numbers::Numbers;
use judge_object::Line;
use std::alloc::{AllocError, Global};
use std::collections::BTreeMap;

/// The lines of each object, by the object's name.
pub(crate) type Runs<O> = BTreeMap<Vec<u8>, Vec<Line<O>>>;

/// Numbers the objects of lines, and returns the number of the object of each line.
fn numbers_of<M: Named>(
    alloc: Global,
    names: &Names,
    lines: &[Line<M::Op>],
) -> Result<(Numbers, Vec<usize>), AllocError>
    ensures formed { IfOk result (λ found. AreNumbered found.0) }
    ensures numbers { IfOk result (λ found.
        AreNumbersOf (for_object (object_of names.now) M.name) found.0 lines.now found.1.items) }
{
    let mut numbers = Numbers::new(alloc);
    let mut found = Vec::with_capacity(alloc, lines.len())?;
    'lines: for place in 0..lines.len() {
        let number = numbers.number_of(names.name::<M>(&lines[place].op))?;
        found.push(number)?;
    }
    Ok((numbers, found))
}

/// Returns how often each number below `count` is among these.
///
/// Not said: that the counts are right. They only say for how many lines to take memory.
fn counts_of(alloc: Global, count: usize, numbers: &[usize]) -> Result<Vec<usize>, AllocError>
    ensures { IfOk result (λ counts. length counts.items ≡ count) }
{
    let mut counts = vec![in alloc; 0usize; count]?;
    'numbers: for place in 0..numbers.len() {
        let number = numbers[place];
        if number < count {
            counts[number] = counts[number].saturating_add(1);
        }
    }
    Ok(counts)
}

/// Returns this many runs without lines, which have room for as many lines as these counts say.
fn empty_runs<O: Drop>(alloc: Global, counts: &[usize]) -> Result<Vec<Vec<Line<O>>>, AllocError>
    ensures { IfOk result (λ runs. AreEmpty (length counts.now) runs.items) }
{
    let mut runs = Vec::with_capacity(alloc, counts.len())?;
    'counts: for place in 0..counts.len() {
        runs.push(Vec::with_capacity(alloc, counts[place])?)?;
    }
    Ok(runs)
}

/// Appends a line to the run of this number.
fn push_at<O: Drop>(
    runs: &mut Vec<Vec<Line<O>>>,
    number: usize,
    line: Line<O>,
) -> Result<(), AllocError>
    requires { number < length runs.old.items }
    ensures { OnOk result (HasOneMore number line runs.old.items runs.new.items) }
{
    runs[number].push(line)?;
    Ok(())
}

/// Returns the names of the objects of lines, and the lines of each object at the place of its
/// name. The lines of an object keep their order.
fn runs_of<M: Named>(
    alloc: Global,
    names: &Names,
    lines: Vec<Line<M::Op>>,
) -> Result<(Vec<Vec<u8>>, Vec<Vec<Line<M::Op>>>), AllocError>
    ensures { IfOk result (λ made.
        AreRunsOf (for_object (object_of names.now) M.name) made.0.items lines.items
        made.1.items) }
{
    let (numbers, found) = numbers_of::<M>(alloc, names, lines.as_slice())?;
    let own = numbers.into_names();
    let counts = counts_of(alloc, own.len(), found.as_slice())?;
    let mut runs = empty_runs(alloc, counts.as_slice())?;
    let found = found.as_slice();
    let mut place = 0;
    for line in lines {
        push_at(&mut runs, found[place], line)?;
        place += 1;
    }
    Ok((own, runs))
}

/// Returns the name at a place, which is empty if there is no such place.
fn name_at(names: &[Vec<u8>], place: usize) -> &[u8]
    ensures { result.now ≡ name_in names.now place }
{
    match names.get(place) {
        Some(name) => name.as_slice(),
        None => b"",
    }
}

/// Returns runs by the names of their objects.
fn named_runs<O: Drop>(
    alloc: Global,
    names: &[Vec<u8>],
    runs: Vec<Vec<Line<O>>>,
) -> Result<Runs<O>, AllocError>
    requires long { length runs.items ≡ length names.now }
    ensures { IfOk result (λ named. AreNamedRuns names.now runs.items named) }
{
    let mut named = BTreeMap::new(alloc);
    let mut number = 0;
    for run in runs {
        let name = Vec::from_slice(alloc, name_at(names, number))?;
        named.insert(name, run)?;
        number += 1;
    }
    Ok(named)
}

/// Returns the lines of each object by the object's name. The lines of an object keep their order.
pub(crate) fn runs_by_name<M: Named>(
    alloc: Global,
    names: &Names,
    lines: Vec<Line<M::Op>>,
) -> Result<Runs<M::Op>, AllocError>
    ensures { IfOk result (λ runs.
        AreRunsByName (for_object (object_of names.now) M.name) lines.items runs) }
{
    let (own, runs) = runs_of::<M>(alloc, names, lines)?;
    let named = named_runs(alloc, own.as_slice(), runs)?;
    Ok(named)
}

/// Returns whether all lines are for one object.
pub(crate) fn is_of_one<M: Named>(names: &Names, lines: &[Line<M::Op>]) -> bool
    ensures one { result ≡ true →
        AreOfOne (for_object (object_of names.now) M.name) lines.now }
    ensures many { result ≡ false →
        AreOfOne (for_object (object_of names.now) M.name) lines.now → ⊥ }
{
    'lines: for place in 1..lines.len() {
        if names.name::<M>(&lines[place].op) != names.name::<M>(&lines[0].op) {
            return false;
        }
    }
    true
}
