//! The body of each command.

ghost use Rattle.std.specs.Prelude.{◌≡◌, IfOk, IfErr, true};
ghost use Rattle.vac_model.specs.Run.{refusal_of};
ghost use Rattle.vac_records.specs.InMemory.{HoldsState};
ghost use Rattle.vac_tasks.specs.Ran.{CanRun, Ran, RanQuestion};
ghost use Rattle.vac_tasks.specs.Reading.{is_question};

use crate::bookings::{cancel, reserve};
use crate::customers::{bill, drop_customer, new_customer};
use crate::items::{add, delete, drop_flight, free, price};
use crate::reporting::report;
use tx_alloc::FreeList;
use tx_memory::{TxMem, TxRead};
use vac_model::{Command, Refusal, Reply};

/// Returns whether the command is a question, which changes nothing.
pub(crate) fn asks_only(command: &Command) -> bool
    ensures { result ≡ is_question command.now }
{
    matches!(
        command,
        Command::Free { .. } | Command::Price { .. } | Command::Bill { .. } | Command::Audit
    )
}

/// Returns the reason of a refusal, or `None` if the reply is no refusal.
pub(crate) fn refusal(reply: &Reply) -> Option<Refusal>
    ensures { result ≡ refusal_of reply.now }
{
    match reply {
        Reply::No(why) => Some(*why),
        _ => None,
    }
}

/// Runs a question.
pub(crate) fn read_command<M: TxRead>(memory: &mut M, command: Command) -> Result<Reply, M::Stop>
    requires state { HoldsState (M.view memory.old) }
    requires asks { is_question command ≡ true }
    ensures origin { M.origin memory.new ≡ M.origin memory.old }
    ensures answer { IfOk result (λ reply. RanQuestion (M.view memory.old) (M.view memory.new)
        command reply) }
    ensures stopped { IfErr result (λ stop. M.stopped_for memory.new stop) }
{
    match command {
        Command::Free { kind, id } => {
            let n = free(memory, kind, id)?;
            Ok(Reply::Number(n))
        }
        Command::Price { kind, id } => {
            let n = price(memory, kind, id)?;
            Ok(Reply::Number(n))
        }
        Command::Bill { id } => {
            let n = bill(memory, id)?;
            Ok(Reply::Number(n))
        }
        Command::Audit => {
            let report = report(memory)?;
            Ok(Reply::Report(report))
        }
        _ => unreachable!(),
    }
}

/// Runs a command. New entries take their blocks from the free lists, beginning with list `start`.
pub(crate) fn run_command<M: TxMem>(
    memory: &mut M,
    command: Command,
    start: FreeList,
) -> Result<Reply, M::Stop>
    requires { CanRun (M.view memory.old) command }
    ensures origin { M.origin memory.new ≡ M.origin memory.old }
    ensures answer { IfOk result (λ reply. Ran (M.view memory.old) (M.view memory.new)
        command reply) }
{
    match command {
        Command::Add {
            kind,
            id,
            num,
            price,
        } => add(memory, kind, id, num, price, start),
        Command::Delete { kind, id, num } => delete(memory, kind, id, num, start),
        Command::DropFlight { id } => drop_flight(memory, id, start),
        Command::NewCustomer { id } => new_customer(memory, id, start),
        Command::DropCustomer { id } => drop_customer(memory, id, start),
        Command::Reserve {
            customer,
            kind,
            id,
            num,
        } => reserve(memory, customer, (kind, id), num, start),
        Command::Cancel { customer, kind, id } => cancel(memory, customer, (kind, id), start),
        _ => read_command(memory, command),
    }
}
