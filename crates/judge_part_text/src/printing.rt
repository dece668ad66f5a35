//! The lines of calls.

ghost use Rattle.std.specs.Prelude.{◌≡◌, ◌++◌, OnOk, Some, codes, decimal};
ghost use Rattle.vac_lines.specs.Script.{as_line};
ghost use Rattle.judge_calls.specs.CallText.{answer_text, call_text, end_text, history_text};
ghost use Rattle.judge_reservations.specs.Lines.{call_of, calls_of};

use judge_object::{Line, NEVER};
use std::alloc::AllocError;
use std::fmt;
use std::fmt::{Display, Formatter};
use vac_lines::print;
use vac_model::ValidTask;

/// CLIENT, BEGIN and END of a call; END of a pending call is `-`.
#[derive(Clone, Copy)]
struct Stamps<'a> {
    line: &'a Line<ValidTask>,
}

impl Display for Stamps<'_> {
    ghost output = { λ stamps. Some (decimal stamps.line.now.client ++ codes " "
        ++ decimal stamps.line.now.begin ++ codes " " ++ end_text stamps.line.now.end) };

    fn fmt<W: fmt::Write>(&self, f: &mut Formatter<W>) -> fmt::Result {
        let (client, begin, end) = (self.line.client, self.line.begin, self.line.end);
        if end < NEVER {
            return write!(f, "{client} {begin} {end}");
        }
        write!(f, "{client} {begin} -")
    }
}

/// Returns REPLY of a call: the text of the reply, or `?` if the reply is not known.
fn reply_word(line: &Line<ValidTask>) -> &[u8]
    ensures { result.now ≡ answer_text (call_of line.now).reply }
{
    match &line.reply {
        Some(text) => text.as_slice(),
        None => b"?",
    }
}

/// Appends the line of a call.
fn print_call(line: &Line<ValidTask>, out: &mut Vec<u8>) -> Result<(), AllocError>
    ensures { OnOk result
        (out.new.items ≡ out.old.items ++ as_line (call_text (call_of line.now))) }
{
    print(
        format_args!("{} {} -> ", Stamps { line }, line.op.task()),
        out,
    )?;
    out.extend_from_slice(reply_word(line))?;
    out.extend_from_slice(b"\n")
}

/// Appends the lines of some calls.
pub(crate) fn print_calls(lines: &[Line<ValidTask>], out: &mut Vec<u8>) -> Result<(), AllocError>
    ensures { OnOk result
        (out.new.items ≡ out.old.items ++ history_text (calls_of lines.now)) }
{
    'lines: for line in lines {
        print_call(line, out)?;
    }
    Ok(())
}
