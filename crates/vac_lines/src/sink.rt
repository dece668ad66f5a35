//! Sinks, which receive the lines of a text.

ghost use Rattle.std.specs.Prelude.{ℕ, ◌+◌, ◌<◌, ◌≤◌, Result, IfOk};
ghost use Rattle.vac_lines.specs.declared.stream_fault.StreamFault.{StreamFault};
ghost use Rattle.vac_lines.specs.declared.next.Next.{Next};
ghost use Rattle.vac_lines.specs.Told.{Message, Line, LongLine, Pause};

use crate::next::Next;
use crate::stream_fault::StreamFault;

/// A receiver of the lines of a text, in order. A sink keeps its findings, or writes to an output
/// that is lent to it. It receives nothing more once it stops or returns a fault.
pub trait Sink<O> {
    /// Number of lines that the sink can still receive.
    ghost room: { Self → ℕ };

    /// The effect of a message: from the first sink and output, this message with this answer
    /// leads to the last sink and output.
    ghost hears: { Self → O → Message → Result Next StreamFault → Self → O → Type 0 };

    /// Receives a line, without its end.
    fn line(&mut self, line: &[u8], output: &mut O) -> Result<Next, StreamFault>
        requires { 0 < room self.old }
        ensures heard { hears self.old output.old (Line line.now) result self.new output.new }
        ensures room { IfOk result (λ _. room self.old ≤ room self.new + 1) };

    /// Receives the message that a line is longer than the longest that is passed.
    fn long_line(&mut self, output: &mut O) -> Result<Next, StreamFault>
        requires { 0 < room self.old }
        ensures heard { hears self.old output.old LongLine result self.new output.new }
        ensures room { IfOk result (λ _. room self.old ≤ room self.new + 1) };

    /// Receives the message that each line that was read to its end has been passed.
    fn pause(&mut self, output: &mut O) -> Result<Next, StreamFault>
        ensures heard { hears self.old output.old Pause result self.new output.new }
        ensures room { IfOk result (λ _. room self.old ≤ room self.new) };
}
