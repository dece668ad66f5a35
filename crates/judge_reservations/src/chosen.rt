//! Scopes with the closed items and whole customers that a history has.

ghost use Rattle.std.specs.Prelude.{◌≡◌, ◌++◌, ◌∷◌, [], true, IfOk, IfSome, None, OnOk, if◌then◌else◌};
ghost use Rattle.std.specs.List.{list_all};
ghost use Rattle.judge_reservations.specs.declared.scope.Scope.{Scope};
ghost use Rattle.judge_reservations.specs.Scopes.{is_closed, is_whole};
ghost use Rattle.judge_reservations.specs.Largest as largest;
ghost use Rattle.judge_reservations.specs.Lines as spec;

use crate::history::has_part;
use crate::scope::Scope;
use judge_object::Line;
use std::alloc::{AllocError, Global};
use vac_model::{Kind, ValidTask};

/// Returns the scope of some customers and items, on which all calls of a history have parts: the
/// items that only customers of the scope book are closed, and the customers that only book items
/// of the scope are whole. No scope of these customers and items, on which all calls have parts,
/// has more closed items or whole customers. Returns `None` if and only if no scope of these
/// customers and items has parts of all calls.
pub fn scope_of(
    alloc: Global,
    customers: &[u32],
    items: &[(Kind, u32)],
    lines: &[Line<ValidTask>],
) -> Result<Option<Scope>, AllocError>
    ensures scope { IfOk result (λ found. IfSome found (λ scope.
        largest.IsScopeOf customers.now items.now (spec.calls_of lines.now) scope)) }
    ensures closed { IfOk result (λ found. IfSome found (λ scope.
        largest.HasAllClosed customers.now items.now (spec.calls_of lines.now)
        scope.closed.items)) }
    ensures whole { IfOk result (λ found. IfSome found (λ scope.
        largest.HasAllWhole customers.now items.now (spec.calls_of lines.now)
        scope.whole.items)) }
    ensures none { IfOk result (λ found. found ≡ None →
        largest.HasNoScope customers.now items.now (spec.calls_of lines.now)) }
{
    let closed = closed_items(alloc, customers, items, lines)?;
    let whole = whole_customers(alloc, customers, items, lines)?;
    let scope = Scope {
        customers: Vec::from_slice(alloc, customers)?,
        items: Vec::from_slice(alloc, items)?,
        closed,
        whole,
    };
    if all_have_parts(&scope, lines) {
        Ok(Some(scope))
    } else {
        Ok(None)
    }
}

/// Returns the items that only customers of the scope book.
fn closed_items(
    alloc: Global,
    customers: &[u32],
    items: &[(Kind, u32)],
    lines: &[Line<ValidTask>],
) -> Result<Vec<(Kind, u32)>, AllocError>
    ensures all { IfOk result (λ closed.
        largest.HasAllClosed customers.now items.now (spec.calls_of lines.now) closed.items) }
    ensures each { IfOk result (λ closed.
        largest.MayCloseEach customers.now items.now (spec.calls_of lines.now) closed.items) }
{
    let mut closed = Vec::new(alloc);
    'items: for at in 0..items.len() {
        let item = items[at];
        let shut = is_shut(alloc, customers, items, item, lines)?;
        push_if(&mut closed, shut, item)?;
    }
    Ok(closed)
}

/// Returns the customers that only book items of the scope.
fn whole_customers(
    alloc: Global,
    customers: &[u32],
    items: &[(Kind, u32)],
    lines: &[Line<ValidTask>],
) -> Result<Vec<u32>, AllocError>
    ensures all { IfOk result (λ whole.
        largest.HasAllWhole customers.now items.now (spec.calls_of lines.now) whole.items) }
    ensures each { IfOk result (λ whole.
        largest.MayBeWholeEach customers.now items.now (spec.calls_of lines.now) whole.items) }
{
    let mut whole = Vec::new(alloc);
    'customers: for at in 0..customers.len() {
        let customer = customers[at];
        let own = is_own(alloc, customers, items, customer, lines)?;
        push_if(&mut whole, own, customer)?;
    }
    Ok(whole)
}

/// Appends a value, if a condition holds.
fn push_if<T: Copy>(values: &mut Vec<T>, holds: bool, value: T) -> Result<(), AllocError>
    ensures { OnOk result
        (values.new.items ≡ values.old.items ++ (if holds then value ∷ [] else [])) }
{
    if holds {
        values.push(value)?;
    }
    Ok(())
}

/// Returns whether only customers of the scope book an item.
fn is_shut(
    alloc: Global,
    customers: &[u32],
    items: &[(Kind, u32)],
    item: (Kind, u32),
    lines: &[Line<ValidTask>],
) -> Result<bool, AllocError>
    ensures all { IfOk result (λ shut. (other : Scope) →
        largest.IsScopeOf customers.now items.now (spec.calls_of lines.now) other →
        is_closed other item ≡ true → shut ≡ true) }
    ensures each { IfOk result (λ shut. shut ≡ true →
        largest.MayClose customers.now items.now (spec.calls_of lines.now) item) }
{
    let scope = Scope {
        customers: Vec::from_slice(alloc, customers)?,
        items: Vec::from_slice(alloc, items)?,
        closed: Vec::from_slice(alloc, &[item])?,
        whole: Vec::new(alloc),
    };
    Ok(all_have_parts(&scope, lines))
}

/// Returns whether a customer only books items of the scope.
fn is_own(
    alloc: Global,
    customers: &[u32],
    items: &[(Kind, u32)],
    customer: u32,
    lines: &[Line<ValidTask>],
) -> Result<bool, AllocError>
    ensures all { IfOk result (λ own. (other : Scope) →
        largest.IsScopeOf customers.now items.now (spec.calls_of lines.now) other →
        is_whole other customer ≡ true → own ≡ true) }
    ensures each { IfOk result (λ own. own ≡ true →
        largest.MayBeWhole customers.now items.now (spec.calls_of lines.now) customer) }
{
    let scope = Scope {
        customers: Vec::from_slice(alloc, customers)?,
        items: Vec::from_slice(alloc, items)?,
        closed: Vec::new(alloc),
        whole: Vec::from_slice(alloc, &[customer])?,
    };
    Ok(all_have_parts(&scope, lines))
}

/// Returns whether the calls of all lines have parts.
fn all_have_parts(scope: &Scope, lines: &[Line<ValidTask>]) -> bool
    ensures { result ≡ list_all (λ line. spec.has_part scope.now (spec.call_of line)) lines.now }
{
    lines.iter().all(|line| has_part(scope, line))
}
