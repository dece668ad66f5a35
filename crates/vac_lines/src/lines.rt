//! Cutting an input into lines.

ghost use Rattle.std.specs.Prelude.{◌≡◌, ◌<◌, ◌≤◌, ◌+◌, ◌^◌, [], ◌++◌, length, take, vec_capacity};
ghost use Rattle.std.specs.Prelude.{IfOk, OnOk};
ghost use Rattle.vac_lines.specs.Told.{message_of};
ghost use Rattle.vac_lines.specs.Feeding.{HasBegun, Fed, Ended};

use crate::cutting::cut_at;
use crate::next::Next;
use crate::sink::Sink;
use crate::stream_fault::StreamFault;
use std::alloc::{AllocError, Global};

/// The state of cutting a text into lines.
#[derive(Drop)]
pub(crate) struct Lines {
    /// Largest number of bytes of a line that is passed to a sink.
    longest: usize,
    /// The line that has begun, up to one byte more than the longest: enough to see that it is too
    /// long. The room is reserved at the start.
    line: Vec<u8>,
    ghost fits: { longest < 2 ^ 63 },
    ghost roomy: { longest + 1 ≤ vec_capacity line },
}

impl Lines {
    /// Returns the state before anything was read.
    pub(crate) fn new(alloc: Global, longest: usize) -> Result<Lines, AllocError>
        requires { longest < 2 ^ 63 }
        ensures longest { IfOk result (λ lines. lines.longest ≡ longest) }
        ensures line { IfOk result (λ lines. lines.line.items ≡ []) }
    {
        let line = Vec::with_capacity(alloc, longest + 1)?;
        Ok(Lines { longest, line })
    }

    /// Appends bytes to the line that has begun, as far as they are needed. The bytes fit the
    /// reserved room, so no memory can be refused.
    fn keep(&mut self, more: &[u8])
        requires { length self.old.line.items ≤ self.old.longest + 1 }
        ensures longest { self.new.longest ≡ self.old.longest }
        ensures line { self.new.line.items
            ≡ take (self.old.longest + 1) (self.old.line.items ++ more.now) }
    {
        let room = self.longest + 1 - self.line.len();
        let kept = room.min(more.len());
        match self.line.extend_from_slice(&more[..kept]) {
            Ok(()) => {}
            Err(_) => unreachable!(),
        }
    }

    /// Passes a line to the sink, or reports that the line is too long.
    fn tell<O, S: Sink<O>>(
        &self,
        line: &[u8],
        sink: &mut S,
        output: &mut O,
    ) -> Result<Next, StreamFault>
        requires { 0 < S.room sink.old }
        ensures heard { S.hears sink.old output.old (message_of self.now.longest line.now)
            result sink.new output.new }
        ensures room { IfOk result (λ _. S.room sink.old ≤ S.room sink.new + 1) }
    {
        if line.len() > self.longest {
            return sink.long_line(output);
        }
        sink.line(line, output)
    }

    /// Passes the line that has begun to the sink, with its rest.
    fn end_line<O, S: Sink<O>>(
        &mut self,
        rest: &[u8],
        sink: &mut S,
        output: &mut O,
    ) -> Result<Next, StreamFault>
        requires short { length self.old.line.items ≤ self.old.longest + 1 }
        requires room { 0 < S.room sink.old }
        ensures longest { self.new.longest ≡ self.old.longest }
        ensures line { OnOk result (self.new.line.items ≡ []) }
        ensures heard { S.hears sink.old output.old
            (message_of self.old.longest (self.old.line.items ++ rest.now))
            result sink.new output.new }
        ensures room { IfOk result (λ _. S.room sink.old ≤ S.room sink.new + 1) }
    {
        if self.line.is_empty() {
            return self.tell(rest, sink, output);
        }
        self.keep(rest);
        let next = self.tell(self.line.as_slice(), sink, output)?;
        self.line.clear();
        Ok(next)
    }

    /// Passes the lines that end in a chunk of the input to the sink, and keeps what follows them.
    pub(crate) fn feed<O, S: Sink<O>>(
        &mut self,
        chunk: &[u8],
        sink: &mut S,
        output: &mut O,
    ) -> Result<Next, StreamFault>
        requires begun { HasBegun self.old.longest self.old.line.items }
        requires room { length chunk.now ≤ S.room sink.old }
        ensures longest { self.new.longest ≡ self.old.longest }
        ensures fed { Fed S.hears self.old.longest result self.old.line.items self.new.line.items
            chunk.now sink.old output.old sink.new output.new }
        ensures room { IfOk result (λ _. S.room sink.old ≤ S.room sink.new + length chunk.now) }
    {
        let mut rest = chunk;
        while let Some((line, behind)) = cut_at(b'\n', rest) {
            if let Next::Stop = self.end_line(line, sink, output)? {
                return Ok(Next::Stop);
            }
            rest = behind;
        }
        self.keep(rest);
        sink.pause(output)
    }

    /// Passes the last line to the sink if it has begun and has no end.
    pub(crate) fn finish<O, S: Sink<O>>(
        &mut self,
        sink: &mut S,
        output: &mut O,
    ) -> Result<Next, StreamFault>
        requires begun { HasBegun self.old.longest self.old.line.items }
        requires room { 0 < S.room sink.old }
        ensures { Ended S.hears self.old.longest result self.old.line.items
            sink.old output.old sink.new output.new }
    {
        if self.line.is_empty() {
            return Ok(Next::GoOn);
        }
        self.end_line(&[], sink, output)
    }
}
