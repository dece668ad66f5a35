//! Cuts of a history: the history as it stood at a moment.

ghost use Rattle.std.specs.Prelude.{◌≡◌, ◌++◌, [], IfOk, OnOk, map};
ghost use Rattle.std.specs.List.{filter_map, cons_option};
ghost use Rattle.std.specs.Option.{option_map};
ghost use Rattle.judge_object.specs.Relaxed.{call_of};
ghost use Rattle.judge_object.specs.Cut.{cut, cut_call, line_cut, numbered, running};

use crate::line::Line;
use crate::span::NEVER;
use std::alloc::{AllocError, Global};

/// Returns the line of a call that is running: without end. A reply is kept: then the call gave
/// this reply, or never took effect.
fn running_line<O: Drop>(line: Line<O>) -> Line<O>
    ensures number { result.number ≡ line.number }
    ensures text { result.text ≡ line.text }
    ensures call { call_of result ≡ running (call_of line) }
{
    let end = if line.end < NEVER { NEVER } else { line.end };
    Line {
        number: line.number,
        text: line.text,
        client: line.client,
        begin: line.begin,
        end,
        op: line.op,
        reply: line.reply,
        soonest: line.soonest,
    }
}

/// Returns the call of a line as it stood at a moment: the line as it is if the call had ended by
/// then, the line without end if the call was running, and `None` if the call had not begun.
pub fn cut_line<O: Drop>(moment: u64, line: Line<O>) -> Option<Line<O>>
    ensures { option_map numbered result ≡ line_cut moment line }
{
    if line.end <= u128::from(moment) {
        Some(line)
    } else if line.begin <= moment {
        Some(running_line(line))
    } else {
        None
    }
}

/// Takes one more line, if there is one.
fn take_line<O: Drop>(cut: &mut Vec<Line<O>>, line: Option<Line<O>>) -> Result<(), AllocError>
    ensures { OnOk result (map numbered cut.new.items
        ≡ map numbered cut.old.items ++ cons_option (option_map numbered line) []) }
{
    if let Some(line) = line {
        cut.push(line)?;
    }
    Ok(())
}

/// Returns the cut of a history at a moment: the calls as they stood then, in the order of the
/// lines, each with the number of its line.
pub fn cut_lines<O: Drop>(
    alloc: Global,
    moment: u64,
    lines: Vec<Line<O>>,
) -> Result<Vec<Line<O>>, AllocError>
    ensures lines { IfOk result (λ cut_off.
        map numbered cut_off.items ≡ filter_map (line_cut moment) lines.items) }
    ensures calls { IfOk result (λ cut_off.
        map call_of cut_off.items ≡ cut moment (map call_of lines.items)) }
{
    let mut cut = Vec::new(alloc);
    'lines: for line in lines {
        take_line(&mut cut, cut_line(moment, line))?;
    }
    Ok(cut)
}
