//! Command lines over input and output that fail, with their outputs and statuses.

use crate::command_lines::{Ended, run_line};
use crate::example::{DUMP, SCRIPT};
use crate::failing::{NEVER, Pieces, Sink, Stop};
use crate::same::same;
use cli_judge::Open;
use std::io::ErrorKind;
use std::process::Abort;
use std::sync::Wait;
use std::thread::Threads;
use std::time::Clock;

/// A command line that reads an input, with its output if nothing fails.
#[derive(Clone, Copy)]
struct Row {
    words: &'static [&'static str],
    input: &'static [u8],
    output: &'static [u8],
    /// The first seven bytes of the output.
    first: &'static [u8],
    /// The status after a fault.
    fault: u8,
}

/// A history of one call.
const HISTORY: &[u8] = b"1 0 5 newcust 1 -> true\n";

/// A history whose calls concern two customers.
const CALLS: &[u8] = b"1 0 5 newcust 3 -> true\n2 1 6 newcust 4 -> true\n1 7 9 leave 3 -> 0\n";

/// Command lines that write nothing before they have read their input.
const ROWS: [Row; 4] = [
    Row {
        words: &["judge", "history", "--given-order"],
        input: HISTORY,
        output: b"legal calls=1 clients=1\ncars=0 flights=0 rooms=0 customers=1 bookings=0 \
            used=0 free=0 total=0 billed=0\n",
        first: b"legal c",
        fault: 4,
    },
    Row {
        words: &["vacation", "dump", "--blocks", "1"],
        input: SCRIPT,
        output: DUMP,
        first: b"0\n16\n0\n",
        fault: 1,
    },
    Row {
        words: &["vacation", "check"],
        input: DUMP,
        output: b"cars=1 flights=0 rooms=0 customers=0 bookings=0 \
            used=0 free=100 total=100 billed=0\n",
        first: b"cars=1 ",
        fault: 1,
    },
    Row {
        words: &["judge", "part", "--customer", "3"],
        input: CALLS,
        output: b"1 0 5 newcust 3 -> true\n1 7 9 leave 3 -> 0\n",
        first: b"1 0 5 n",
        fault: 4,
    },
];

/// Command lines that read nothing.
const WRITING: [&[&str]; 3] = [
    &[
        "vacation",
        "tasks",
        "--clients",
        "1",
        "--items",
        "1",
        "--tasks",
        "1",
    ],
    &[
        "vacation",
        "load",
        "--clients",
        "1",
        "--items",
        "1",
        "--tasks",
        "1",
        "--history",
    ],
    LONG_HISTORY,
];

/// A load whose history is longer than a chunk of text.
const LONG_HISTORY: &[&str] = &[
    "vacation",
    "load",
    "--clients",
    "1",
    "--tasks",
    "4000",
    "--history",
];

/// Checks the end and the output of a command line when each of its first three reads fails in
/// turn.
fn fail_each_read<T: Threads + Wait + Clock + Sync + Abort + AllocGlobal + Open>(
    rt: &T,
    row: &Row,
    error: ErrorKind,
    wants: (Ended, &[u8]),
) {
    for fails_at in 0..3 {
        let mut input = Pieces::of(row.input, 9, fails_at, error);
        let mut out = Sink::new(rt.alloc(), NEVER, NEVER, Stop::Nothing);
        let ended = run_line(rt, rt, row.words, &mut input, &mut out);
        let found = (
            row.words,
            fails_at,
            ended,
            out.taken.as_slice(),
            out.is_flushed,
        );
        same(rt, &found, &(row.words, fails_at, wants.0, wants.1, true));
    }
}

#[test]
fn reads_that_fail(rt: HostRuntime) {
    for row in ROWS {
        let wants = ((row.fault, true), b"fault read\n".as_slice());
        fail_each_read(&rt, &row, ErrorKind::Other, wants);
    }
}

#[test]
fn reads_that_are_interrupted(rt: HostRuntime) {
    for row in ROWS {
        fail_each_read(&rt, &row, ErrorKind::Interrupted, ((0, true), row.output));
    }
}

/// Runs a command line over a writer, and returns its status and the writer.
fn write_to<T: Threads + Wait + Clock + Sync + Abort + AllocGlobal + Open>(
    rt: &T,
    words: &[&str],
    mut input: &[u8],
    mut out: Sink,
) -> (u8, Sink) {
    let (status, _) = run_line(rt, rt, words, &mut input, &mut out);
    (status, out)
}

/// Uses a writer that takes seven bytes, fails once, and would take more afterwards.
#[test]
fn writes_that_fail_once(rt: HostRuntime) {
    let stop = Stop::Fails(ErrorKind::Other);
    for row in ROWS {
        let out = Sink::new(rt.alloc(), 7, 1, stop);
        let (status, out) = write_to(&rt, row.words, row.input, out);
        let found = (row.words, status, out.taken.as_slice());
        same(&rt, &found, &(row.words, row.fault, row.first));
    }
    for line in WRITING {
        let out = Sink::new(rt.alloc(), 7, 1, stop);
        let (status, out) = write_to(&rt, line, b"", out);
        same(&rt, &(line, status, out.taken.len()), &(line, 1, 7));
    }
}

#[test]
fn flushes_that_fail(rt: HostRuntime) {
    for row in ROWS {
        let out = Sink::without_flush(rt.alloc());
        let (status, out) = write_to(&rt, row.words, row.input, out);
        let found = (row.words, status, out.taken.as_slice());
        same(&rt, &found, &(row.words, row.fault, row.output));
    }
    for line in WRITING {
        let out = Sink::without_flush(rt.alloc());
        let (status, out) = write_to(&rt, line, b"", out);
        let is_whole = out.taken.ends_with(b"\n");
        same(&rt, &(line, status, is_whole), &(line, 1, true));
    }
}
