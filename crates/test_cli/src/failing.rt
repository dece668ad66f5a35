//! Readers and writers that transfer few bytes at a call, and that fail.

use std::alloc::Global;
use std::io;
use std::io::{ErrorKind, Read, Write};

/// The number of a call that is never made.
pub(crate) const NEVER: usize = usize::MAX;

/// A reader that gives at most `most` bytes at a call and fails at one call, with this error.
#[derive(Drop)]
pub(crate) struct Pieces<'a> {
    bytes: &'a [u8],
    most: usize,
    /// Calls made so far.
    pub(crate) calls: usize,
    fails_at: usize,
    error: ErrorKind,
}

impl<'a> Pieces<'a> {
    pub(crate) fn of(
        bytes: &'a [u8],
        most: usize,
        fails_at: usize,
        error: ErrorKind,
    ) -> Pieces<'a> {
        Pieces {
            bytes,
            most,
            calls: 0,
            fails_at,
            error,
        }
    }
}

impl Read for Pieces<'_> {
    fn read(&mut self, buf: &mut [u8]) -> io::Result<usize> {
        let fails = self.calls == self.fails_at;
        self.calls = self.calls.saturating_add(1);
        if fails {
            return Err(io::Error::from(self.error));
        }
        let count = self.bytes.len().min(buf.len()).min(self.most);
        buf[..count].copy_from_slice(&self.bytes[..count]);
        self.bytes = &self.bytes[count..];
        Ok(count)
    }
}

/// The result of the call at which a writer takes no byte.
#[derive(Clone, Copy, Debug, PartialEq, Eq)]
pub(crate) enum Stop {
    /// The call returns that it took no byte.
    Nothing,
    /// The call returns this error.
    Fails(ErrorKind),
}

impl Stop {
    /// Returns whether the caller writes again after this result.
    pub(crate) fn is_tried_again(self) -> bool {
        self == Stop::Fails(ErrorKind::Interrupted)
    }
}

/// A writer that takes at most `most` bytes at a call, and none at one call.
#[derive(Drop)]
pub(crate) struct Sink {
    pub(crate) taken: Vec<u8>,
    most: usize,
    calls: usize,
    stops_at: usize,
    stop: Stop,
    /// True if every byte taken was flushed.
    pub(crate) is_flushed: bool,
    /// True if flushing succeeds.
    flushes: bool,
}

impl Sink {
    pub(crate) fn new(alloc: Global, most: usize, stops_at: usize, stop: Stop) -> Sink {
        Sink {
            taken: Vec::new(alloc),
            most,
            calls: 0,
            stops_at,
            stop,
            is_flushed: true,
            flushes: true,
        }
    }

    /// Returns a writer that takes all bytes and cannot be flushed.
    pub(crate) fn without_flush(alloc: Global) -> Sink {
        Sink {
            flushes: false,
            ..Sink::new(alloc, NEVER, NEVER, Stop::Nothing)
        }
    }
}

impl Write for Sink {
    fn write(&mut self, buf: &[u8]) -> io::Result<usize> {
        let stops = self.calls == self.stops_at;
        self.calls = self.calls.saturating_add(1);
        if stops {
            return match self.stop {
                Stop::Nothing => Ok(0),
                Stop::Fails(kind) => Err(io::Error::from(kind)),
            };
        }
        let count = buf.len().min(self.most);
        self.taken.extend_from_slice(&buf[..count])?;
        self.is_flushed = false;
        Ok(count)
    }

    fn flush(&mut self) -> io::Result<()> {
        if !self.flushes {
            return Err(io::Error::from(ErrorKind::Other));
        }
        self.is_flushed = true;
        Ok(())
    }
}
