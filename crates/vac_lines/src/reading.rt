//! Reading an input for a sink.

ghost use Rattle.std.specs.Prelude.{◌<◌, ◌≤◌, ◌^◌};
ghost use Rattle.vac_lines.specs.Heard.{Heard};

use crate::limits::{CHUNK_BYTES, MOST_READS};
use crate::lines::Lines;
use crate::next::Next;
use crate::sink::Sink;
use crate::stream_fault::StreamFault;
use std::alloc::Global;
use std::io::{ErrorKind, Read};

/// Largest number of lines that are passed to a sink: no read has more line ends than a chunk has
/// bytes, and the text after the last line end is one more line.
pub const MOST_LINES: u64 = (MOST_READS + 1) * CHUNK_BYTES as u64 + 1;

/// Reads an input and passes its lines to the sink in order, each without its end, until the input
/// ends, the sink stops or a fault occurs. For a line longer than `longest`, the sink is told only
/// that the line is too long. The text after the last line end is a line if it has a byte. After
/// each read the sink is told of a pause. An interrupted read is retried.
///
/// Returns whether the sink still wants more at the end of the input.
///
/// # Errors
/// Returns the first fault that the sink returns; `Read` if a read failed; `Bound` if the input
/// did not end within `MOST_READS` reads and one more; `Memory` before anything was read.
///
/// Not said: which of the last three faults it is, only that it is no fault of an output.
pub fn read_lines<R: Read, O, S: Sink<O>>(
    alloc: Global,
    longest: usize,
    input: &mut R,
    sink: &mut S,
    output: &mut O,
) -> Result<Next, StreamFault>
    requires longest { longest < 2 ^ 63 }
    requires room { MOST_LINES ≤ S.room sink.old }
    ensures { Heard S.hears longest result (R.remaining input.old) (R.remaining input.new)
        sink.old output.old sink.new output.new }
{
    let mut lines = Lines::new(alloc, longest)?;
    let mut buffer = vec![in alloc; 0; CHUNK_BYTES]?;
    let chunk = buffer.as_mut_slice();
    'reads: for _ in 0..=MOST_READS {
        match input.read(chunk) {
            Ok(0) => return lines.finish(sink, output),
            Ok(count) => {
                if let Next::Stop = lines.feed(&chunk[..count], sink, output)? {
                    return Ok(Next::Stop);
                }
            }
            Err(error) => {
                if error.kind() != ErrorKind::Interrupted {
                    return Err(StreamFault::Read);
                }
            }
        }
    }
    Err(StreamFault::Bound)
}
