//! Cutting a call's line into its parts.

ghost use Rattle.std.specs.Prelude.{◌≡◌, MatchOption, None, Some};
ghost use Rattle.judge_calls.specs.Call.{call_parts};
ghost use Rattle.judge_calls.specs.Parts.{IsCutAtArrow, shown_parts, NoParts};

use vac_lines::cut_at;

/// The arrow between a task's line and its reply.
const ARROW: &[u8] = b"->";

/// The texts of which a call's line consists.
#[derive(Clone, Copy)]
pub(crate) struct CallParts<'a> {
    pub(crate) client: &'a [u8],
    pub(crate) begin: &'a [u8],
    pub(crate) end: &'a [u8],
    pub(crate) line: &'a [u8],
    pub(crate) reply: &'a [u8],
}

/// Cuts a line at its first word that is an arrow, and returns the texts before and after the
/// arrow. Returns `None` if no word is an arrow or the arrow is the first word.
fn cut_at_arrow(line: &[u8]) -> Option<(&[u8], &[u8])>
    ensures { MatchOption result (NoParts line.now)
        (λ cut. IsCutAtArrow line.now cut.0.now cut.1.now) }
{
    let mut start = 0;
    while let Some((word, behind)) = cut_at(b' ', &line[start..]) {
        if word == ARROW {
            if start == 0 {
                return None;
            }
            return Some((&line[..start - 1], behind));
        }
        start += word.len() + 1;
    }
    None
}

/// Cuts a call's line into its parts. Returns `None` unless four words or more stand before the
/// first arrow and one or more after it.
pub(crate) fn cut_parts(line: &[u8]) -> Option<CallParts<'_>>
    ensures { MatchOption result (call_parts line.now ≡ None)
        (λ parts. call_parts line.now ≡ Some (shown_parts parts)) }
{
    let (claim, reply) = cut_at_arrow(line)?;
    let (client, rest) = cut_at(b' ', claim)?;
    let (begin, rest) = cut_at(b' ', rest)?;
    let (end, line) = cut_at(b' ', rest)?;
    Some(CallParts {
        client,
        begin,
        end,
        line,
        reply,
    })
}
