//! The part of a completed update.

ghost use Rattle.std.specs.Prelude.{◌≡◌, ◌+◌, ◌++◌, ◌<◌, [], drop, length, IfOk, OnOk};
ghost use Rattle.std.specs.List.{cons_option};
ghost use Rattle.vac_lines.specs.Lines.{texts};
ghost use Rattle.judge_reservations.specs.Completed.{made};
ghost use Rattle.judge_reservations.specs.Updates as spec;

use crate::answers::AnsweredTask;
use crate::scope::Scope;
use crate::words::{join_words, split_words};
use std::alloc::{AllocError, Global};
use vac_model::{Command, Kind, Refusal, Task};

/// A change of the tables with the word for its result.
type Changed<'a> = (Command, &'a [u8]);

/// Some changes and, in the same order, the words for their results.
#[derive(Drop)]
struct Changes<'a> {
    commands: Vec<Command>,
    results: Vec<&'a [u8]>,
}

impl<'a> Changes<'a> {
    /// Creates a list without changes.
    fn new(alloc: Global) -> Changes<'a>
        ensures commands { result.commands.items ≡ [] }
        ensures results { texts result.results.items ≡ [] }
    {
        Changes {
            commands: Vec::new(alloc),
            results: Vec::new(alloc),
        }
    }

    /// Takes one more change, if there is one.
    fn take(&mut self, changed: Option<Changed<'a>>) -> Result<(), AllocError>
        ensures commands { OnOk result (self.new.commands.items ≡ self.old.commands.items
            ++ spec.commands_of (cons_option (spec.changed changed.entry) [])) }
        ensures results { OnOk result (texts self.new.results.items
            ≡ texts self.old.results.items
            ++ spec.results_of (cons_option (spec.changed changed.entry) [])) }
    {
        if let Some((change, word)) = changed {
            self.commands.push(change)?;
            self.results.push(word)?;
        }
        Ok(())
    }
}

/// Returns the part of a completed update.
pub(crate) fn update_part(
    alloc: Global,
    scope: &Scope,
    changes: &[Command],
    text: &[u8],
) -> Result<Option<AnsweredTask>, AllocError>
    ensures { IfOk result (λ part. made part ≡ spec.update_part scope.now changes.now text.now) }
{
    let words = split_words(alloc, text)?;
    let kept = changes_part(alloc, scope, changes, words.as_slice())?;
    if kept.commands.is_empty() {
        return Ok(None);
    }
    Ok(Some(AnsweredTask {
        task: Task::update(alloc, kept.commands.as_slice())?,
        text: join_words(alloc, b"update", kept.results.as_slice())?,
    }))
}

/// Returns the parts of changes, given the words of the reply to their update.
fn changes_part<'a>(
    alloc: Global,
    scope: &Scope,
    changes: &[Command],
    words: &[&'a [u8]],
) -> Result<Changes<'a>, AllocError>
    ensures commands { IfOk result (λ kept. kept.commands.items ≡ spec.commands_of
        (spec.changes_part scope.now changes.now (drop 1 (texts words.now)))) }
    ensures results { IfOk result (λ kept. texts kept.results.items ≡ spec.results_of
        (spec.changes_part scope.now changes.now (drop 1 (texts words.now)))) }
{
    let mut kept = Changes::new(alloc);
    'changes: for at in 0..changes.len() {
        kept.take(change_at(scope, changes, words, at))?;
    }
    Ok(kept)
}

/// Returns the part of the change at a position, if the reply has a word for the change.
fn change_at<'a>(
    scope: &Scope,
    changes: &[Command],
    words: &[&'a [u8]],
    at: usize,
) -> Option<Changed<'a>>
    requires { at < length changes.now }
    ensures { spec.changes_part scope.now (drop at changes.now) (drop (at + 1) (texts words.now))
        ≡ cons_option (spec.changed result)
        (spec.changes_part scope.now (drop (at + 1) changes.now)
        (drop (at + 1 + 1) (texts words.now))) }
{
    if at + 1 < words.len() {
        change_part(scope, changes[at], words[at + 1])
    } else {
        None
    }
}

/// Returns the part of a change.
fn change_part<'a>(scope: &Scope, change: Command, word: &'a [u8]) -> Option<Changed<'a>>
    ensures { spec.changed result ≡ spec.change_part scope.now change word.now }
{
    match change {
        Command::Add { kind, id, .. } => {
            if !scope.has_item(kind, id) || word == Refusal::Full.name().as_bytes() {
                None
            } else {
                Some((change, word))
            }
        }
        Command::Delete { kind, id, .. } => {
            units_change(scope, (kind, id), change, word, Refusal::NotFree)
        }
        Command::DropFlight { id } => {
            units_change(scope, (Kind::Flight, id), change, word, Refusal::InUse)
        }
        _ => None,
    }
}

/// Returns a change of the units of an item as it is, if it was not refused for this reason or the
/// item is closed; else a change that shows that the item exists.
fn units_change<'a>(
    scope: &Scope,
    item: (Kind, u32),
    change: Command,
    word: &'a [u8],
    why: Refusal,
) -> Option<Changed<'a>>
    ensures { spec.changed result ≡ spec.units_change scope.now item change word.now why }
{
    if !scope.has_item(item.0, item.1) {
        None
    } else if word == why.name().as_bytes() && !scope.is_closed(item.0, item.1) {
        let exists = Command::Add {
            kind: item.0,
            id: item.1,
            num: 0,
            price: None,
        };
        Some((exists, b"true"))
    } else {
        Some((change, word))
    }
}
