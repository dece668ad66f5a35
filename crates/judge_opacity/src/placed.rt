//! The verdict on attempts of which only the committed writers have places, and its text.

ghost use Rattle.std.specs.Prelude.{◌≡◌, ◌≢◌, Some, IfOk, IfErr};
ghost use Rattle.vac_lines.specs.declared.stream_fault.StreamFault.TheVariants.{Write};
ghost use Rattle.judge_opacity.specs.Placed as spec;
ghost use Rattle.judge_opacity.specs.Placed.{IsPlacedText, IsReadWhole, HasPlaced, HasStoppedPlacing};

use crate::finding::{Counts, Finding};
use crate::judge::Judge;
use crate::log_reading::{Log, read_log};
use crate::placing::place_all;
use std::alloc::Global;
use std::fmt;
use std::fmt::{Display, Formatter};
use std::io::{ErrorKind, Read, Write};
use vac_lines::{LineFault, StreamFault, print, write_and_flush};

/// The verdict on a text of attempts of which only the committed writers have places. Lines are
/// numbered from 1.
#[derive(Clone, Copy)]
pub(crate) enum Placed {
    /// Some places of the other attempts make an order that shows that all attempts are opaque.
    Opaque(Counts),
    /// The line is no attempt.
    Fault { line: u64, fault: LineFault },
    /// Each line is an attempt, and no places make such an order.
    NoPlaces,
}

impl Display for Placed {
    ghost output = { λ placed. Some (spec.placed_verdict_text placed) };

    fn fmt<W: fmt::Write>(&self, f: &mut Formatter<W>) -> fmt::Result {
        match *self {
            Placed::Opaque(counts) => write!(f, "{}", Finding::Opaque(counts)),
            Placed::Fault { line, fault } => write!(f, "{}", Finding::Fault { line, fault }),
            Placed::NoPlaces => write!(f, "illegal places"),
        }
    }
}

/// Judges a text of attempts at `words` words.
fn find_places(alloc: Global, words: u32, text: &[u8]) -> Result<Placed, StreamFault>
    ensures placed { IfOk result (λ placed. IsPlacedText words text.now placed) }
    ensures refused { IfErr result (λ fault. fault ≢ Write) }
{
    match read_log(alloc, words, text)? {
        Log::Fault { line, fault } => Ok(Placed::Fault { line, fault }),
        Log::Attempts(attempts) => match place_all(Judge::new(alloc, words)?, attempts)? {
            Some(counts) => Ok(Placed::Opaque(counts)),
            None => Ok(Placed::NoPlaces),
        },
    }
}

/// Returns whether the verdict is that the attempts are opaque.
fn is_placed(placed: &Placed) -> bool
    ensures { result ≡ spec.is_placed placed.now }
{
    matches!(placed, Placed::Opaque(_))
}

/// Reads an input to its end.
fn read_all<R: Read>(alloc: Global, input: &mut R) -> Result<Vec<u8>, StreamFault>
    ensures bytes { IfOk result (λ bytes.
        IsReadWhole (R.remaining input.old) (R.remaining input.new) bytes.items) }
    ensures fault { IfErr result (λ fault. fault ≢ Write) }
{
    let mut bytes = Vec::new(alloc);
    match input.read_to_end(&mut bytes) {
        Ok(_) => Ok(bytes),
        Err(error) if error.kind() == ErrorKind::OutOfMemory => Err(StreamFault::Memory),
        Err(_) => Err(StreamFault::Read),
    }
}

/// Judges a text of attempts at `words` words, in which only the committed attempts that wrote a
/// word stand in the order that is claimed for them. Each other attempt may stand anywhere: its
/// place is searched for. Reads the input to its end, and writes the verdict. Returns whether the
/// attempts are opaque in some such order.
///
/// A line is as for [`judge_attempts`](crate::judge_attempts). The whole text is kept in memory.
///
/// # Errors
/// After a fault of the output a prefix of the verdict's text was written, after any other fault
/// nothing.
///
/// Not said: how much memory the function takes; how long the search takes, which grows with the
/// square of the number of attempts.
pub fn place_attempts<R: Read, W: Write>(
    alloc: Global,
    words: u32,
    input: &mut R,
    output: &mut W,
) -> Result<bool, StreamFault>
    ensures ok { IfOk result (λ opaque. HasPlaced words opaque
        (R.remaining input.old) (R.remaining input.new)
        (W.contents output.old) (W.contents output.new)) }
    ensures err { IfErr result (λ fault. HasStoppedPlacing words fault
        (R.remaining input.old) (R.remaining input.new)
        (W.contents output.old) (W.contents output.new)) }
{
    let bytes = read_all(alloc, input)?;
    let placed = find_places(alloc, words, bytes.as_slice())?;
    let mut text = Vec::new(alloc);
    print(format_args!("{placed}\n"), &mut text)?;
    write_and_flush(output, text.as_slice())?;
    Ok(is_placed(&placed))
}
