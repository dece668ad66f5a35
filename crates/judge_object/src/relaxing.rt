//! Lines of a history without the order that a level does not keep.

ghost use Rattle.std.specs.Prelude.{◌≡◌, IfSome};
ghost use Rattle.judge_object.specs.Relaxed.{client_at, IsRelaxed};

use crate::level::Level;
use crate::line::Line;
use crate::span::NEVER;

/// Returns the client of a call at a level: a client of its own, numbered as its line, if the level
/// does not keep the order of each client's calls. Returns `None` if the number is too large.
fn client_at<O>(level: Level, line: &Line<O>) -> Option<u32>
    ensures { IfSome result (λ client. client ≡ client_at level line.now) }
{
    match level {
        Level::Linearizable | Level::Sequential => Some(line.client),
        Level::Serializable => u32::try_from(line.number).ok(),
    }
}

/// Takes from the call of a line the order that a level does not keep. Returns `None` if the level
/// keeps no order and the number of the line is no number of a client.
pub fn relaxed_line<O: Drop>(level: Level, line: Line<O>) -> Option<Line<O>>
    ensures { IfSome result (IsRelaxed level line) }
{
    let mut line = line;
    line.client = client_at(level, &line)?;
    if matches!(level, Level::Linearizable) {
        return Some(line);
    }
    line.begin = 0;
    if line.end < NEVER {
        line.end = 0;
    }
    Some(line)
}
