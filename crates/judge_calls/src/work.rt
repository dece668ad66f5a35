//! The workload that was given out: reading the workload, and finding a client's tasks.

ghost use Rattle.std.specs.Prelude.{◌≡◌, ◌≢◌, ◌<◌, ◌∷◌, ◌++◌, [], IfOk, OnOk, IfErr, MatchOption, MatchResult, Ok, Err, List, length, slice_get};
ghost use Rattle.std.specs.Option.{option_copied};
ghost use Rattle.vac_lines.specs.Lines.{lines_of};
ghost use Rattle.std.specs.FinMap as map;
ghost use Rattle.std.specs.Prelude as list;
ghost use Rattle.judge_calls.specs.Work.{Asked, text_asked, line_asked, work_of, tasks_of};
ghost use Rattle.judge_calls.specs.Holding.{IsWork, asked_of, tasks_listed};

use crate::by_client::ByClient;
use crate::call::client_at;
use crate::fault::CallFault;
use std::alloc::{AllocError, Global};
use vac_lines::{LineFault, StreamFault, cut_at, read_line};
use vac_model::Task;

/// A workload: the tasks that were given to clients.
#[derive(Drop)]
pub(crate) struct Workload {
    /// The client of each task, in the order of the workload.
    clients: Vec<u32>,
    /// The tasks of each client, in the order of the workload.
    tasks: ByClient<Vec<Task>>,
}

/// Returns the first line of a text, without its end, and the text after the line. Returns `None`
/// if there is no line.
pub(crate) fn next_line(text: &[u8]) -> Option<(&[u8], &[u8])>
    ensures lines { MatchOption result (lines_of text.now ≡ [])
        (λ cut. lines_of text.now ≡ cut.0.now ∷ lines_of cut.1.now) }
    ensures less { MatchOption result (length text.now ≡ 0)
        (λ cut. length cut.1.now < length text.now) }
{
    if text.is_empty() {
        return None;
    }
    if let Some((line, behind)) = cut_at(b'\n', text) {
        return Some((line, behind));
    }
    Some((text, &[]))
}

/// Reads the client and the task that CLIENT and LINE give, or finds the first fault.
fn text_asked(alloc: Global, client: &[u8], line: &[u8]) -> Result<(u32, Task), CallFault>
    ensures asked { IfOk result (λ asked. text_asked client.now line.now ≡ Ok (asked_of asked)) }
    ensures fault { IfErr result (λ fault. fault ≢ CallFault.Line LineFault.Memory →
        text_asked client.now line.now ≡ Err fault) }
{
    let client = client_at(client)?;
    let task = read_line(alloc, line)?;
    Ok((client, task))
}

/// Reads the client and the task of a line of the workload, or finds its first fault.
fn asked_at(alloc: Global, line: &[u8]) -> Result<(u32, Task), CallFault>
    ensures asked { IfOk result (λ asked. line_asked line.now ≡ Ok (asked_of asked)) }
    ensures fault { IfErr result (λ fault. fault ≢ CallFault.Line LineFault.Memory →
        line_asked line.now ≡ Err fault) }
{
    if let Some((client, rest)) = cut_at(b' ', line) {
        return text_asked(alloc, client, rest);
    }
    Err(CallFault::BadCall)
}

impl Workload {
    /// Creates an empty workload.
    fn new(alloc: Global) -> Workload
        ensures { IsWork result [] }
    {
        Workload {
            clients: Vec::new(alloc),
            tasks: ByClient::new(alloc),
        }
    }

    /// Removes the tasks of a client from the workload and returns them. The list of clients does
    /// not change.
    fn take_tasks(&mut self, alloc: Global, client: u32) -> Vec<Task>
        ensures tasks { result.items ≡ tasks_listed (map.get self.old.tasks client) }
        ensures left { self.new.tasks ≡ map.remove self.old.tasks client }
        ensures clients { self.new.clients ≡ self.old.clients }
    {
        match self.tasks.remove(client) {
            Some(tasks) => tasks,
            None => Vec::new(alloc),
        }
    }

    /// Appends a task to the workload.
    fn push(&mut self, alloc: Global, client: u32, task: Task) -> Result<(), AllocError>
        ensures { OnOk result ((work : List Asked) → IsWork self.old work →
            IsWork self.new (work ++ asked_of (client, task) ∷ [])) }
    {
        let mut tasks = self.take_tasks(alloc, client);
        tasks.push(task)?;
        self.tasks.insert(client, tasks)?;
        self.clients.push(client)?;
        Ok(())
    }

    /// Returns the client of each task, in the order of the workload.
    pub(crate) fn clients(&self) -> &[u32]
        ensures { result.now ≡ self.now.clients.items }
    {
        self.clients.as_slice()
    }

    /// Returns a client's task with this number, counted from 0.
    pub(crate) fn get(&self, client: u32, number: usize) -> Option<&Task>
        ensures { (work : List Asked) → IsWork self.now work →
            option_copied result ≡ slice_get (tasks_of client work) number }
    {
        match self.tasks.get(client) {
            Some(tasks) => tasks.get(number),
            None => None,
        }
    }
}

/// Reads the lines of a workload. Returns the workload, or the number of the first line that gives
/// no task.
pub(crate) fn read_workload(
    alloc: Global,
    text: &[u8],
) -> Result<Result<Workload, u64>, StreamFault>
    ensures work { IfOk result (λ found. MatchResult found
        (λ kept. (work : List Asked) × IsWork kept work
        × (work_of (list.map line_asked (lines_of text.now)) ≡ Ok work))
        (λ line. work_of (list.map line_asked (lines_of text.now)) ≡ Err line)) }
    ensures fault { IfErr result (λ fault. fault ≢ StreamFault.Write) }
{
    let mut work = Workload::new(alloc);
    let mut rest = text;
    let mut count: u64 = 0;
    while let Some((line, behind)) = next_line(rest) {
        count = count.checked_add(1).ok_or(StreamFault::Bound)?;
        match asked_at(alloc, line) {
            Ok((client, task)) => work.push(alloc, client, task)?,
            Err(CallFault::Line(LineFault::Memory)) => return Err(StreamFault::Memory),
            Err(_) => return Ok(Err(count)),
        }
        rest = behind;
    }
    Ok(Ok(work))
}
