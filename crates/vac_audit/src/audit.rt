//! The audit of all words of a heap.

ghost use Rattle.std.specs.Prelude.{◌≡◌, ◌+◌, ◌*◌, ◌≤◌, IfOk, Err, length, slice_index};
ghost use Rattle.vac_audit.specs.Marks.{IsMarked};
ghost use Rattle.vac_audit.specs.Ran.{Blank, ItemsRan, Inside, UsedRan, HeapRan, IsHeapSize, Audited, fault_answer};
ghost use Rattle.vac_audit.specs.Represented.{StateOf, Recognised};
ghost use Rattle.tx_alloc.specs.declared.place.TheConstants.{MOST_BLOCKS};
ghost use Rattle.tx_alloc.specs.Pool.{heap_words};
ghost use Rattle.vac_audit.specs.declared.audit.AuditFault.TheVariants.{Size};
ghost use Rattle.vac_audit.specs.declared.audit.TheConstants.{MOST_HEAP_WORDS};

use crate::Flaw;
use crate::lists::{check_reached, walk_lists};
use crate::notes::{Notes, Tally};
use crate::pointers::{BLOCK_WORDS, FIRST_BLOCK};
use crate::tree::{Fault, Table, USED, walk_table};
use std::alloc::{AllocError, Global};
use tx_alloc::place::MOST_BLOCKS;
use vac_model::{Kind, Report};
use vac_records::{CARS, CUSTOMERS, FLIGHTS, ROOMS};

/// Number of words of the largest heap.
pub const MOST_HEAP_WORDS: usize = FIRST_BLOCK + BLOCK_WORDS * MOST_BLOCKS;

/// The reason why words have no report.
#[derive(Clone, Copy, Debug, PartialEq, Eq)]
pub enum AuditFault {
    /// The length is not that of a heap of 1 to 262,144 blocks.
    Size,
    /// Memory was refused.
    Memory,
    /// The words have a flaw.
    Flaw(Flaw),
}

impl From<Fault> for AuditFault {
    ghost from_gives = { λ fault answer. answer ≡ fault_answer fault };

    fn from(fault: Fault) -> AuditFault {
        match fault {
            Fault::Memory => AuditFault::Memory,
            Fault::Found(flaw) => AuditFault::Flaw(flaw),
        }
    }
}

/// Number of items of each kind.
#[derive(Clone, Copy)]
struct Kinds {
    cars: u64,
    flights: u64,
    rooms: u64,
}

/// Walks the three tables of items.
fn walk_items(
    alloc: Global,
    words: &[u64],
    reached: &mut Vec<bool>,
    notes: &mut Notes,
) -> Result<Kinds, Fault>
    requires marked { IsMarked words.now reached.old.items }
    requires some { 1 ≤ length reached.old.items }
    requires blank { Blank notes.old }
    ensures size { length reached.new.items ≡ length reached.old.items }
    ensures ran { ItemsRan words.now reached.old.items reached.new.items notes.new result }
{
    let table = Table::Items(Kind::Car);
    let cars = walk_table(alloc, words, reached, notes, table, CARS.0 as usize)?;
    let table = Table::Items(Kind::Flight);
    let flights = walk_table(alloc, words, reached, notes, table, FLIGHTS.0 as usize)?;
    let table = Table::Items(Kind::Room);
    let rooms = walk_table(alloc, words, reached, notes, table, ROOMS.0 as usize)?;
    Ok(Kinds {
        cars,
        flights,
        rooms,
    })
}

/// Checks that each item has as many used units as are booked of it.
fn check_used(words: &[u64], notes: &Notes) -> Result<(), Flaw>
    requires few { length words.now ≤ MOST_HEAP_WORDS }
    requires inside { Inside words.now notes.now.items.items }
    ensures ran { UsedRan words.now notes.now.items.items result }
{
    for item in &notes.items {
        let at = item.block + USED;
        if words[at] != item.booked {
            return Err(Flaw::Bookings(at as u32));
        }
    }
    Ok(())
}

/// Audits a heap of `blocks` blocks.
fn audit_heap(alloc: Global, words: &[u64], blocks: usize) -> Result<Report, Fault>
    requires some { 1 ≤ blocks }
    requires few { blocks ≤ MOST_BLOCKS }
    requires size { length words.now ≡ heap_words blocks }
    ensures ran { HeapRan words.now blocks result }
{
    let mut reached = Vec::from_elem(alloc, false, blocks)?;
    let mut notes = Notes {
        items: Vec::new(alloc),
        tally: Tally {
            used: 0,
            free: 0,
            total: 0,
            bookings: 0,
            billed: 0,
        },
    };
    let kinds = walk_items(alloc, words, &mut reached, &mut notes)?;
    let customers = walk_table(
        alloc,
        words,
        &mut reached,
        &mut notes,
        Table::Customers,
        CUSTOMERS.0 as usize,
    )?;
    check_used(words, &notes)?;
    walk_lists(words, &mut reached)?;
    check_reached(&reached)?;
    Ok(Report {
        cars: kinds.cars,
        flights: kinds.flights,
        rooms: kinds.rooms,
        customers,
        bookings: notes.tally.bookings,
        used: notes.tally.used,
        free: notes.tally.free,
        total: notes.tally.total,
        billed: notes.tally.billed,
    })
}

/// Returns the report of the balanced state that the words of a heap represent, or their first
/// flaw. The walk goes over the tables, the customers' bookings and the free lists.
///
/// # Errors
///
/// Returns `Size` if the length is not that of a heap of 1 to 262,144 blocks, `Memory` if memory
/// was refused for the walk, and `Flaw` with the first flaw that the walk met.
///
/// Not said: that no stack grows with the words and that time is near linear in them: the code has
/// no recursion, and a test has a long chain.
pub fn audit_words(alloc: Global, words: &[u64]) -> Result<Report, AuditFault>
    ensures size { (IsHeapSize (length words.now) → ⊥) → result ≡ Err Size }
    ensures audited { (heap : IsHeapSize (length words.now)) →
        Audited (slice_index words.now) heap.0 result }
    ensures found { IfOk result (λ found. StateOf words.now found) }
    ensures recognised { Recognised words.now result }
{
    if words.len() < FIRST_BLOCK + BLOCK_WORDS
        || words.len() > MOST_HEAP_WORDS
        || words.len() % BLOCK_WORDS != 0
    {
        return Err(AuditFault::Size);
    }
    let report = audit_heap(alloc, words, (words.len() - FIRST_BLOCK) / BLOCK_WORDS)?;
    Ok(report)
}
