//! The drawn tasks of a load.

ghost use Rattle.std.specs.Prelude.{◌≡◌, ◌<◌, ◌≤◌, ◌&&◌, Bool, true, length, IfOk};
ghost use Rattle.std.specs.List.{list_all};
ghost use Rattle.vac_model.specs.Amounts.{is_amount, is_id};
ghost use Rattle.vac_model.specs.Ranges.{is_change, is_command, is_task};
ghost use Rattle.load_tasks.specs.Draws.{Reader, Drawn, below, times_over};
ghost use Rattle.load_tasks.specs.Setting.{is_settings};
ghost use Rattle.load_tasks.specs.Tasks.{up_to, kind, price, ask, drawn_trip, drawn_leave, removal};
ghost use Rattle.load_tasks.specs.Tasks.{change_of, change, update_of, drawn_update, work};
ghost use Rattle.load_tasks.specs.Tasks.{task_of, DrawnTask};
ghost use Rattle.load_tasks.specs.Tasks.{question_at, question};
ghost use Rattle.load_tasks.specs.Tasks.{TurnsMakeTasks};

use crate::draws::Draws;
use crate::settings::{LEVELS, LOWEST_PRICE, PERCENT, PRICE_STEP, Settings, UNITS};
use arrayvec::ArrayVec;
use std::alloc::{AllocError, Global};
use vac_model::limits::{KINDS, MOST_PARTS};
use vac_model::{Command, INLINE_ASKS, INLINE_CHANGES, Kind, Task};

/// Draws a number below `n`.
pub(crate) fn draw_below<D: Draws>(draws: &mut D, n: u32) -> u32
    requires { 0 < n }
    ensures drawn { Drawn D.leads (below n) draws.old result draws.new }
    ensures less { result < n }
{
    draws.word() % n
}

/// Draws a number from 1 to `n`.
fn draw_up_to<D: Draws>(draws: &mut D, n: u32) -> u32
    requires { 0 < n }
    ensures drawn { Drawn D.leads (up_to n) draws.old result draws.new }
    ensures least { 1 ≤ result }
    ensures most { result ≤ n }
{
    draw_below(draws, n) + 1
}

fn draw_kind<D: Draws>(draws: &mut D) -> Kind
    ensures { Drawn D.leads kind draws.old result draws.new }
{
    Kind::from_number(draw_below(draws, KINDS) as u64)
}

pub(crate) fn draw_price<D: Draws>(draws: &mut D) -> u32
    ensures drawn { Drawn D.leads price draws.old result draws.new }
    ensures range { is_amount result ≡ true }
{
    draw_below(draws, LEVELS) * PRICE_STEP + LOWEST_PRICE
}

/// Returns the command that takes an item away.
fn removal_of(kind: Kind, id: u32) -> Command
    requires { is_id id ≡ true }
    ensures removal { result ≡ removal kind id }
    ensures change { is_change result ≡ true }
    ensures range { is_command result ≡ true }
{
    match kind {
        Kind::Car | Kind::Room => Command::Delete {
            kind,
            id,
            num: UNITS,
        },
        Kind::Flight => Command::DropFlight { id },
    }
}

/// Draws the rest of a change of this item, whose direction is given by a number below 2.
fn draw_change_of<D: Draws>(draws: &mut D, kind: Kind, id: u32, number: u32) -> Command
    requires { is_id id ≡ true }
    ensures drawn { Drawn D.leads (change_of kind id number) draws.old result draws.new }
    ensures change { is_change result ≡ true }
    ensures range { is_command result ≡ true }
{
    if number == 1 {
        Command::Add {
            kind,
            id,
            num: UNITS,
            price: Some(draw_price(draws)),
        }
    } else {
        removal_of(kind, id)
    }
}

/// Settings in their ranges, by which tasks are drawn, with the allocator for the tasks.
#[derive(Drop)]
struct Drawing<'a> {
    alloc: Global,
    settings: &'a Settings,
    ghost in_range: { is_settings settings.now ≡ true },
}

/// A part of a trip or an update, of which several are drawn one after the other.
trait Part: Default + Drop {
    ghost use Rattle.load_tasks.specs.declared.settings.Settings.{Settings};

    ghost read: { Settings → Reader Self };

    ghost is_part: { Self → Bool };

    /// Draws one part.
    fn draw<D: Draws>(drawing: &Drawing<'_>, draws: &mut D) -> Self
        ensures drawn { Drawn D.leads (read drawing.now.settings.now) draws.old result draws.new }
        ensures range { is_part result ≡ true };
}

/// An ask of a trip, or the item of a question.
impl Part for (Kind, u32) {
    ghost read = { ask };

    ghost is_part = { λ a. is_id a.1 };

    fn draw<D: Draws>(drawing: &Drawing<'_>, draws: &mut D) -> (Kind, u32) {
        let kind = draw_kind(draws);
        (kind, draw_up_to(draws, drawing.settings.items))
    }
}

/// A change of an update.
impl Part for Command {
    ghost read = { change };

    ghost is_part = { λ c. is_change c && is_command c };

    fn draw<D: Draws>(drawing: &Drawing<'_>, draws: &mut D) -> Command {
        let kind = draw_kind(draws);
        let id = draw_up_to(draws, drawing.settings.items);
        let number = draw_below(draws, 2);
        draw_change_of(draws, kind, id, number)
    }
}

impl Drawing<'_> {
    /// Draws `count` parts, one after the other, into an array with `N` places.
    #[inline(always)]
    fn draw_parts<P: Part, D: Draws, const N: usize>(
        &self,
        draws: &mut D,
        count: u32,
    ) -> ArrayVec<P, N>
        requires { count ≤ N }
        ensures drawn { Drawn D.leads (times_over count (P.read self.now.settings.now))
            draws.old result.items draws.new }
        ensures number { length result.items ≡ count }
        ensures range { list_all P.is_part result.items ≡ true }
    {
        let mut parts = ArrayVec::new();
        'parts: for _ in 0..count {
            parts.push(P::draw(self, draws));
        }
        parts
    }

    /// Draws a trip. All its words are drawn, even if memory to build the trip is refused.
    ///
    /// Few asks are drawn into a short array, since all places of an array are filled first.
    #[inline(always)]
    fn draw_trip<D: Draws>(&self, draws: &mut D) -> Result<Task, AllocError>
        ensures drawn { DrawnTask D.leads (drawn_trip self.now.settings.now)
            draws.old result draws.new }
        ensures range { IfOk result (λ task. is_task task ≡ true) }
    {
        let count = draw_up_to(draws, self.settings.asks);
        let customer = draw_up_to(draws, self.settings.items);
        if count as usize <= INLINE_ASKS {
            let asks = self.draw_parts::<(Kind, u32), D, INLINE_ASKS>(draws, count);
            Task::trip(self.alloc, customer, asks.as_slice())
        } else {
            let asks = self.draw_parts::<(Kind, u32), D, MOST_PARTS>(draws, count);
            Task::trip(self.alloc, customer, asks.as_slice())
        }
    }

    fn draw_leave<D: Draws>(&self, draws: &mut D) -> Task
        ensures drawn { Drawn D.leads (drawn_leave self.now.settings.now)
            draws.old result draws.new }
        ensures range { is_task result ≡ true }
    {
        Task::Leave {
            customer: draw_up_to(draws, self.settings.items),
        }
    }

    /// Draws `count` changes, and builds their update.
    ///
    /// `cold` keeps the compiler from inlining this function. Otherwise `draw_update` fills the
    /// array for the longest update on entry, for each short update.
    #[cold]
    fn draw_long_update<D: Draws>(&self, draws: &mut D, count: u32) -> Result<Task, AllocError>
        requires some { 1 ≤ count }
        requires few { count ≤ self.now.settings.now.asks }
        ensures drawn { DrawnTask D.leads (update_of self.now.settings.now count)
            draws.old result draws.new }
        ensures range { IfOk result (λ task. is_task task ≡ true) }
    {
        let changes = self.draw_parts::<Command, D, MOST_PARTS>(draws, count);
        Task::update(self.alloc, changes.as_slice())
    }

    /// Draws an update. All its words are drawn, even if memory to build the update is refused.
    /// Few changes are drawn into a short array, as the asks of a trip are.
    fn draw_update<D: Draws>(&self, draws: &mut D) -> Result<Task, AllocError>
        ensures drawn { DrawnTask D.leads (drawn_update self.now.settings.now)
            draws.old result draws.new }
        ensures range { IfOk result (λ task. is_task task ≡ true) }
    {
        let count = draw_up_to(draws, self.settings.asks);
        if count as usize <= INLINE_CHANGES {
            let changes = self.draw_parts::<Command, D, INLINE_CHANGES>(draws, count);
            Task::update(self.alloc, changes.as_slice())
        } else {
            self.draw_long_update(draws, count)
        }
    }

    /// Draws the rest of the question that a number below 100 selects.
    fn draw_question_at<D: Draws>(&self, draws: &mut D, number: u32) -> Task
        ensures drawn { Drawn D.leads (question_at self.now.settings.now number)
            draws.old result draws.new }
        ensures range { is_task result ≡ true }
    {
        if number == 0 {
            return Task::One(Command::Audit);
        }
        if number % 3 == 0 {
            let id = draw_up_to(draws, self.settings.items);
            return Task::One(Command::Bill { id });
        }
        let (kind, id) = <(Kind, u32)>::draw(self, draws);
        if number % 3 == 1 {
            Task::One(Command::Free { kind, id })
        } else {
            Task::One(Command::Price { kind, id })
        }
    }

    /// Draws a question.
    fn draw_question<D: Draws>(&self, draws: &mut D) -> Task
        ensures drawn { Drawn D.leads (question self.now.settings.now) draws.old result draws.new }
        ensures range { is_task result ≡ true }
    {
        let number = draw_below(draws, PERCENT);
        self.draw_question_at(draws, number)
    }

    /// Draws a task that is no question. All its words are drawn, even if memory to build the task
    /// is refused.
    #[inline(always)]
    fn draw_work<D: Draws>(&self, draws: &mut D) -> Result<Task, AllocError>
        ensures drawn { DrawnTask D.leads (work self.now.settings.now) draws.old result draws.new }
        ensures range { IfOk result (λ task. is_task task ≡ true) }
    {
        let number = draw_below(draws, PERCENT);
        if number < self.settings.user {
            self.draw_trip(draws)
        } else if number % 2 == 1 {
            Ok(self.draw_leave(draws))
        } else {
            self.draw_update(draws)
        }
    }
}

/// Draws a task. All its words are drawn, even if memory to build the task is refused.
#[inline(always)]
pub fn draw_task<D: Draws>(
    alloc: Global,
    draws: &mut D,
    settings: &Settings,
) -> Result<Task, AllocError>
    requires { is_settings settings.now ≡ true }
    ensures drawn { DrawnTask D.leads (task_of settings.now) draws.old result draws.new }
    ensures range { IfOk result (λ task. is_task task ≡ true) }
{
    let drawing = Drawing { alloc, settings };
    if settings.reads == 0 {
        return drawing.draw_work(draws);
    }
    let number = draw_below(draws, PERCENT);
    if number < settings.reads {
        Ok(drawing.draw_question(draws))
    } else {
        drawing.draw_work(draws)
    }
}

/// States that n calls of [`draw_task`], one after the other, draw exactly the words of n tasks and
/// give those tasks, as far as they are built. If memory to build a task is refused, its words are
/// drawn all the same, so that the tasks after it stay the same.
pub fn turns_make_tasks<D: Draws>()
    ensures { TurnsMakeTasks D.leads }
{}
