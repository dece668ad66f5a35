//! Running a script: lines in, output lines out.

ghost use Rattle.std.specs.Prelude.{◌≡◌, ◌⊎◌, true, OnOk, OnErr, IfOk, IfErr, IsErr, []};
ghost use Rattle.vac_model.specs.Ranges.{is_block_count};
ghost use Rattle.vac_manager.specs.Called.{HasAllGrants};
ghost use Rattle.vac_manager.specs.Legal.{capacity_of};
ghost use Rattle.vac_lines.specs.Writing.{AppendsPrefix};
ghost use Rattle.vac_lines.specs.declared.stream_fault.StreamFault.TheVariants.{Memory, Write};
ghost use Rattle.cli_script.specs.Hearing.{answer_line, Puts};
ghost use Rattle.cli_script.specs.System.{RanScript, IsLoneCaller, IsNew};
ghost use Rattle.cli_script.specs.Script.{WroteAll, WrotePrefix};

use crate::system::open;
use std::alloc::{AllocError, Global};
use std::io::{Read, Write};
use vac_lines::{
    CHUNK_BYTES, LINE_BYTES, LineFault, Next, Sink, StreamFault, print, read_line, read_lines,
    send_all, send_rest,
};
use vac_manager::{Caller, Client, Fault, call};
use vac_model::Reply;

/// A running script.
#[derive(Drop)]
struct Script<'a> {
    alloc: Global,
    caller: Caller<'a>,
    /// The output lines that are not yet written.
    out: Vec<u8>,
    ghost lone: { IsLoneCaller caller },
}

/// Writes the buffered text before refused memory ends the script.
fn halt<W: Write>(out: &mut Vec<u8>, output: &mut W) -> Result<Next, StreamFault>
    ensures written { AppendsPrefix (W.contents output.old) (W.contents output.new)
        out.old.items }
    ensures err { IsErr result }
    ensures fault { IfErr result (λ fault. (fault ≡ Memory) ⊎ (fault ≡ Write)) }
{
    send_all(output, out)?;
    Err(StreamFault::Memory)
}

/// Appends the output line for a reply or for the fault of a line to the buffered text. If memory
/// is refused, writes the buffered text and ends the script.
fn put<W: Write>(
    answer: Result<Reply, LineFault>,
    out: &mut Vec<u8>,
    output: &mut W,
) -> Result<Next, StreamFault>
    ensures { Puts out.old.items (answer_line answer) (W.contents output.old) result
        out.new.items (W.contents output.new) }
{
    let printed = match answer {
        Ok(reply) => print(format_args!("{reply}\n"), out),
        Err(fault) => print(format_args!("fault {}\n", fault.name()), out),
    };
    match printed {
        Ok(()) => Ok(Next::GoOn),
        Err(_) => halt(out, output),
    }
}

impl<'a> Script<'a> {
    /// Returns a script of which no line was read.
    fn new(alloc: Global, caller: Caller<'a>) -> Result<Script<'a>, AllocError>
        requires lone { IsLoneCaller caller }
        ensures caller { IfOk result (λ script. script.caller ≡ caller.entry) }
        ensures out { IfOk result (λ script. script.out.items ≡ []) }
    {
        let out = Vec::with_capacity(alloc, CHUNK_BYTES)?;
        Ok(Script { alloc, caller, out })
    }
}

impl<'a, W: Write> Sink<W> for Script<'a> {
    ghost use Rattle.std.specs.Prelude.{◌-◌};
    ghost use Rattle.cli_script.specs.declared.system.TheConstants.{LAST_VERSION};
    ghost use Rattle.cli_script.specs.Hearing.{Hears};

    ghost room = { λ script. LAST_VERSION - script.caller.user.value.floor };

    ghost hears = { λ x o told answer y p. Hears x.caller x.out.items (W.contents o) told answer
        y.caller y.out.items (W.contents p) };

    /// Runs the task of a line as a transaction. A solo client meets no conflict, and the clock is
    /// not spent while a version is left.
    #[tactic(auto, using(crate::proofs::Causes::only_memory))]
    fn line(&mut self, line: &[u8], output: &mut W) -> Result<Next, StreamFault> {
        match read_line(self.alloc, line) {
            Ok(task) => match call(&mut self.caller, &task, 1) {
                Ok(reply) => put(Ok(reply), &mut self.out, output),
                Err(Fault::Memory) => halt(&mut self.out, output),
                Err(_) => unreachable!(),
            },
            Err(LineFault::Memory) => halt(&mut self.out, output),
            Err(fault) => put(Err(fault), &mut self.out, output),
        }
    }

    fn long_line(&mut self, output: &mut W) -> Result<Next, StreamFault> {
        put(Err(LineFault::LongLine), &mut self.out, output)
    }

    fn pause(&mut self, output: &mut W) -> Result<Next, StreamFault> {
        send_all(output, &mut self.out)?;
        Ok(Next::GoOn)
    }
}

/// Runs a script on a system without entries, and returns the client. Reads the lines to the end
/// of the input and writes an output line for each.
pub(crate) fn run_input<R: Read, W: Write>(
    alloc: Global,
    caller: Caller<'_>,
    input: &mut R,
    output: &mut W,
) -> Result<Client, StreamFault>
    requires lone { IsLoneCaller caller }
    requires fresh { IsNew caller }
    ensures own { IfOk result (λ client. client.table ≡ caller.entry.shared.table) }
    ensures alone { IfOk result (λ client. HasAllGrants client.value) }
    ensures ok { IfOk result (λ client. RanScript (capacity_of caller.entry.shared)
        (record { shared = caller.entry.shared; user = client })
        (R.remaining input.old) (R.remaining input.new)
        (W.contents output.old) (W.contents output.new)) }
    ensures err { OnErr result (WrotePrefix (capacity_of caller.entry.shared)
        (R.remaining input.old) (R.remaining input.new)
        (W.contents output.old) (W.contents output.new)) }
{
    let mut script = Script::new(alloc, caller)?;
    let _next = read_lines(alloc, LINE_BYTES, input, &mut script, output)?;
    send_rest(output, script.out.as_slice())?;
    Ok(script.caller.into_user())
}

/// Runs a script for a system of `blocks` blocks. Reads its lines to the end of the input and
/// writes an output line for each.
///
/// After a fault, the output has a prefix of the script's whole output.
#[tactic(auto, using(crate::proofs::Running::wrote_all))]
pub fn run_script<R: Read, W: Write>(
    alloc: Global,
    blocks: u32,
    input: &mut R,
    output: &mut W,
) -> Result<(), StreamFault>
    requires { is_block_count blocks ≡ true }
    ensures ok { OnOk result (WroteAll blocks (R.remaining input.old) (R.remaining input.new)
        (W.contents output.old) (W.contents output.new)) }
    ensures err { OnErr result (WrotePrefix blocks (R.remaining input.old) (R.remaining input.new)
        (W.contents output.old) (W.contents output.new)) }
{
    let (manager, client) = open(alloc, blocks)?;
    run_input(alloc, manager.caller(client), input, output)?;
    Ok(())
}
