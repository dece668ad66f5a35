//! The part of a completed task. A pending call whose reply is known has the same part.

ghost use Rattle.std.specs.Prelude.{◌≡◌, ◌&&◌, not, Some, None, if◌then◌else◌, IfOk};
ghost use Rattle.vac_model.specs.declared.commands.Command.TheVariants as command;
ghost use Rattle.vac_model.specs.declared.commands.Refusal.TheVariants.{SoldOut};
ghost use Rattle.vac_model.specs.declared.replies.Reply.TheVariants as reply;
ghost use Rattle.vac_model.specs.declared.tasks.Task.TheVariants as task;
ghost use Rattle.vac_model.specs.ReplyText.{reply_text};
ghost use Rattle.judge_reservations.specs.Scopes.{is_closed};
ghost use Rattle.judge_reservations.specs.Completed as whole;
ghost use Rattle.judge_reservations.specs.Completed.{made};
ghost use Rattle.judge_reservations.specs.Tasks as spec;

use crate::scope::Scope;
use crate::trips::trip_part;
use crate::updates::update_part;
use std::alloc::{AllocError, Global};
use vac_model::{Command, Kind, Refusal, Task};

/// A task with the text of its reply.
#[derive(Drop)]
pub struct AnsweredTask {
    /// The task.
    pub task: Task,
    /// The text of the reply.
    pub text: Vec<u8>,
}

/// A command with the text of its reply.
pub(crate) type Seen<'a> = (Command, &'a [u8]);

/// Returns the part of a completed task on a scope, or `None` if nothing of the task is kept. A
/// bill of a customer who is not whole, unless the customer is missing, and the free units of an
/// item that is not closed, are not kept, though their replies may show that the customer or the
/// item exists.
pub fn task_part(
    alloc: Global,
    scope: &Scope,
    task: &Task,
    text: &[u8],
) -> Result<Option<AnsweredTask>, AllocError>
    ensures { IfOk result (λ part. made part ≡ whole.task_part scope.now task.now text.now) }
{
    match task {
        Task::One(command) => owned(alloc, command_part(scope, *command, text)),
        Task::Leave { customer } => leave_part(alloc, scope, *customer, text),
        Task::Trip { customer, asks } => trip_part(alloc, scope, *customer, asks.as_slice(), text),
        Task::Update { changes } => update_part(alloc, scope, changes.as_slice(), text),
    }
}

/// Returns a command with a copy of the text of its reply.
pub(crate) fn owned(
    alloc: Global,
    seen: Option<Seen<'_>>,
) -> Result<Option<AnsweredTask>, AllocError>
    ensures { IfOk result (λ part. made part ≡ spec.answered seen.entry) }
{
    match seen {
        Some((command, text)) => Ok(Some(AnsweredTask {
            task: Task::One(command),
            text: Vec::from_slice(alloc, text)?,
        })),
        None => Ok(None),
    }
}

/// Returns whether a bill of a customer of the scope is kept: the scope has all items that the
/// customer books, or the reply shows that the customer is missing.
fn keeps_bill(scope: &Scope, customer: u32, text: &[u8]) -> bool
    ensures { result ≡ spec.keeps_bill scope.now customer text.now }
{
    scope.is_whole(customer) || text == b"-1".as_slice()
}

/// Returns the part of a completed leave.
fn leave_part(
    alloc: Global,
    scope: &Scope,
    customer: u32,
    text: &[u8],
) -> Result<Option<AnsweredTask>, AllocError>
    ensures { IfOk result (λ part. made part ≡ spec.leave_part scope.now customer text.now) }
{
    if !scope.has_customer(customer) {
        return Ok(None);
    }
    if keeps_bill(scope, customer, text) {
        return Ok(Some(AnsweredTask {
            task: Task::Leave { customer },
            text: Vec::from_slice(alloc, text)?,
        }));
    }
    owned(
        alloc,
        Some((Command::DropCustomer { id: customer }, b"true")),
    )
}

/// Returns the part of a completed bill on a scope: the bill with the text of its reply, or
/// nothing.
fn bill_part<'a>(scope: &Scope, id: u32, text: &'a [u8]) -> Option<Seen<'a>>
    ensures { spec.answered result ≡ spec.bill_part scope.now id text.now }
{
    let is_kept = scope.has_customer(id) && keeps_bill(scope, id, text);
    kept_if(is_kept, Command::Bill { id }, text)
}

/// Returns the part of a completed command on a scope: a command with the text of its reply, or
/// nothing.
fn command_part<'a>(scope: &Scope, command: Command, text: &'a [u8]) -> Option<Seen<'a>>
    ensures { spec.answered result ≡ spec.command_part scope.now command text.now }
{
    match command {
        Command::Add { kind, id, .. } => {
            if scope.has_item(kind, id) {
                kept(command, text)
            } else {
                None
            }
        }
        Command::Delete { kind, id, .. } => units_part(
            scope,
            (kind, id),
            command,
            text,
            Refusal::NotFree,
        ),
        Command::DropFlight { id } => {
            units_part(scope, (Kind::Flight, id), command, text, Refusal::InUse)
        }
        Command::NewCustomer { id } => {
            if scope.has_customer(id) {
                kept(command, text)
            } else {
                None
            }
        }
        Command::DropCustomer { id } => kept_if(scope.has_customer(id), command, text),
        Command::Free { kind, id } => kept_if(scope.is_closed(kind, id), command, text),
        Command::Price { kind, id } => kept_if(scope.has_item(kind, id), command, text),
        Command::Bill { id } => bill_part(scope, id, text),
        Command::Reserve {
            customer,
            kind,
            id,
            ..
        } => {
            let both = reserve_part(scope, customer, (kind, id), command, text);
            booking_part(scope, customer, (kind, id), text, both)
        }
        Command::Cancel { customer, kind, id } => {
            booking_part(scope, customer, (kind, id), text, Some((command, text)))
        }
        Command::Audit => None,
    }
}

/// The text of a refusal.
fn refusal_text(why: Refusal) -> &'static [u8]
    ensures { result.now ≡ reply_text (reply.No why) }
{
    match why {
        Refusal::NeedsCountAndPrice => b"false needs-count-and-price",
        Refusal::TotalLimit => b"false total-limit",
        Refusal::Full => b"false full",
        Refusal::NoItem => b"false no-item",
        Refusal::NotFree => b"false not-free",
        Refusal::InUse => b"false in-use",
        Refusal::Exists => b"false exists",
        Refusal::NoCustomer => b"false no-customer",
        Refusal::SoldOut => b"false sold-out",
        Refusal::NotBooked => b"false not-booked",
        Refusal::UnitLimit => b"false unit-limit",
    }
}

/// Returns whether a reply is this refusal.
fn is_refused(text: &[u8], why: Refusal) -> bool
    ensures { result ≡ spec.is_reply (reply.No why) text.now }
{
    text == refusal_text(why)
}

/// Returns a command as it is, if a condition holds.
fn kept_if(holds: bool, command: Command, text: &[u8]) -> Option<Seen<'_>>
    ensures { spec.answered result
        ≡ (if holds then Some (task.One command, text.now) else None) }
{
    if holds { Some((command, text)) } else { None }
}

/// Returns a command as it is, unless no block was left.
fn kept(command: Command, text: &[u8]) -> Option<Seen<'_>>
    ensures { spec.answered result ≡ spec.kept (task.One command) text.now }
{
    kept_if(!is_refused(text, Refusal::Full), command, text)
}

/// Returns a command that shows that a customer exists, and changes nothing.
pub(crate) fn customer_exists<'a>(customer: u32) -> Option<Seen<'a>>
    ensures { spec.answered result ≡ spec.customer_exists customer }
{
    Some((
        Command::NewCustomer { id: customer },
        refusal_text(Refusal::Exists),
    ))
}

/// Returns a command that shows that a customer is missing.
fn customer_missing<'a>(customer: u32) -> Option<Seen<'a>>
    ensures { spec.answered result ≡ spec.customer_missing customer }
{
    Some((Command::Bill { id: customer }, b"-1"))
}

/// Returns an `Add` of no units, which changes nothing.
fn probe(item: (Kind, u32)) -> Command
    ensures { result ≡ command.Add item.0 item.1 0 None }
{
    Command::Add {
        kind: item.0,
        id: item.1,
        num: 0,
        price: None,
    }
}

/// Returns a command that shows that an item exists, and changes nothing.
fn item_exists<'a>(item: (Kind, u32)) -> Option<Seen<'a>>
    ensures { spec.answered result ≡ spec.item_exists item.0 item.1 }
{
    Some((probe(item), b"true"))
}

/// Returns a command that shows that an item is missing, and changes nothing.
fn item_missing<'a>(item: (Kind, u32)) -> Option<Seen<'a>>
    ensures { spec.answered result ≡ spec.item_missing item.0 item.1 }
{
    Some((probe(item), refusal_text(Refusal::NeedsCountAndPrice)))
}

/// Returns a command on the units of an item as it is, if it was not refused for this reason or the
/// item is closed; else a command that shows that the item exists.
fn units_part<'a>(
    scope: &Scope,
    item: (Kind, u32),
    command: Command,
    text: &'a [u8],
    why: Refusal,
) -> Option<Seen<'a>>
    ensures { spec.answered result
        ≡ spec.units_part scope.now item (task.One command) text.now why }
{
    if !scope.has_item(item.0, item.1) {
        None
    } else if is_refused(text, why) && !scope.is_closed(item.0, item.1) {
        item_exists(item)
    } else {
        Some((command, text))
    }
}

/// Returns a command that shows if a customer exists, from the reply to a booking, or to the end of
/// a booking, of an item outside the scope.
fn customer_seen<'a>(customer: u32, text: &[u8]) -> Option<Seen<'a>>
    ensures { spec.answered result
        ≡ spec.customer_seen customer text.now }
{
    if is_refused(text, Refusal::NoCustomer) {
        customer_missing(customer)
    } else {
        customer_exists(customer)
    }
}

/// Returns a command that shows if an item exists, from the reply to a booking, or to the end of a
/// booking, by a customer outside the scope.
fn item_seen<'a>(item: (Kind, u32), text: &[u8]) -> Option<Seen<'a>>
    ensures { spec.answered result
        ≡ spec.item_seen item.0 item.1 text.now }
{
    if is_refused(text, Refusal::NoCustomer) {
        None
    } else if is_refused(text, Refusal::NoItem) {
        item_missing(item)
    } else {
        item_exists(item)
    }
}

/// Returns the part of a booking, or of the end of a booking, given the part for a customer and an
/// item that both belong to the scope.
fn booking_part<'a>(
    scope: &Scope,
    customer: u32,
    item: (Kind, u32),
    text: &[u8],
    both: Option<Seen<'a>>,
) -> Option<Seen<'a>>
    ensures { spec.answered result
        ≡ spec.booking_part scope.now customer item.0 item.1 text.now
        (spec.answered both.entry) }
{
    match (scope.has_customer(customer), scope.has_item(item.0, item.1)) {
        (true, true) => both,
        (true, false) => customer_seen(customer, text),
        (false, true) => item_seen(item, text),
        (false, false) => None,
    }
}

/// Returns the part of a `Reserve` of a customer and an item that both belong to the scope.
fn reserve_part<'a>(
    scope: &Scope,
    customer: u32,
    item: (Kind, u32),
    command: Command,
    text: &'a [u8],
) -> Option<Seen<'a>>
    ensures { spec.answered result
        ≡ (if spec.is_reply (reply.No SoldOut) text.now && not (is_closed scope.now item)
        then spec.customer_exists customer else spec.kept (task.One command) text.now) }
{
    if is_refused(text, Refusal::SoldOut) && !scope.is_closed(item.0, item.1) {
        customer_exists(customer)
    } else {
        kept(command, text)
    }
}
