//! Histories that are checked against the tasks in a file, over files and streams that fail.

use crate::command_lines::{Ended, run_line};
use crate::failing::{NEVER, Pieces, Sink, Stop};
use crate::same::same;
use cli_judge::Open;
use std::io;
use std::io::{ErrorKind, Read, Write};
use std::process::Abort;
use std::sync::Wait;
use std::thread::Threads;
use std::time::Clock;

/// The name of the only file that exists.
const NAME: &str = "tasks.txt";

/// One file that fails at one read; all other files fail to open with this error.
#[derive(Drop)]
struct Shelf {
    bytes: &'static [u8],
    fails_at: usize,
    missing: ErrorKind,
}

impl Open for Shelf {
    type File = Pieces<'static>;

    fn open(&self, name: &str) -> io::Result<Pieces<'static>> {
        if name != NAME {
            return Err(io::Error::from(self.missing));
        }
        let bytes = self.bytes;
        Ok(Pieces::of(bytes, 7, self.fails_at, ErrorKind::Other))
    }
}

/// A history of one call.
const HISTORY: &[u8] = b"1 0 5 newcust 1 -> true\n";

/// Judges a history against the tasks in the file of this name.
fn judge<T: Threads + Wait + Clock + Sync + Abort + AllocGlobal, R: Read, W: Write>(
    rt: &T,
    files: &Shelf,
    name: &str,
    input: &mut R,
    output: &mut W,
) -> Ended {
    let words = &["judge", "history", "--given-order", "--tasks", name];
    run_line(rt, files, words, input, output)
}

/// The name of the file, the read of the file that fails, the error of opening other files, the
/// output, and the number of reads of the history.
const FAILING: [(&str, usize, ErrorKind, &[u8], usize); 4] = [
    ("other.txt", NEVER, ErrorKind::NotFound, b"fault open\n", 0),
    (
        "other.txt",
        NEVER,
        ErrorKind::OutOfMemory,
        b"fault memory\n",
        0,
    ),
    (NAME, 0, ErrorKind::NotFound, b"fault read\n", 0),
    (NAME, 1, ErrorKind::NotFound, b"fault read\n", 0),
];

/// Opens the file before the history is read. A file that cannot be opened has a fault of its own.
#[test]
fn files_that_fail(rt: HostRuntime) {
    for (name, fails_at, missing, output, reads) in FAILING {
        let files = Shelf {
            bytes: b"1 newcust 1\n",
            fails_at,
            missing,
        };
        let mut input = Pieces::of(HISTORY, 9, NEVER, ErrorKind::Other);
        let mut out = Vec::new(rt.alloc());
        let ended = judge(&rt, &files, name, &mut input, &mut out);
        let found = (ended, out.as_slice(), input.calls);
        same(&rt, &found, &((4, true), output, reads));
    }
}

/// The file with the tasks of the history.
const FILE: Shelf = Shelf {
    bytes: b"1 newcust 1\n",
    fails_at: NEVER,
    missing: ErrorKind::NotFound,
};

/// Uses a writer that takes seven bytes, fails once, and would take more afterwards.
#[test]
fn a_verdict_that_is_cut(rt: HostRuntime) {
    let mut input = HISTORY;
    let mut out = Sink::new(rt.alloc(), 7, 1, Stop::Fails(ErrorKind::Other));
    let ended = judge(&rt, &FILE, NAME, &mut input, &mut out);
    same(
        &rt,
        &(ended.0, out.taken.as_slice()),
        &(4, b"legal c".as_slice()),
    );
}

/// Reads the tasks to their end; then the read of the history fails.
#[test]
fn a_history_that_fails(rt: HostRuntime) {
    let mut input = Pieces::of(HISTORY, 9, 1, ErrorKind::Other);
    let mut out = Vec::new(rt.alloc());
    let ended = judge(&rt, &FILE, NAME, &mut input, &mut out);
    same(
        &rt,
        &(ended.0, out.as_slice()),
        &(4, b"fault read\n".as_slice()),
    );
}
