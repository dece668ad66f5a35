//! Scripts, dumps and checks over input and output that fail.

use crate::example::{ANSWERS, DUMP, SCRIPT};
use crate::failing::{NEVER, Pieces, Sink, Stop};
use crate::same::{holds, same};
use cli_main::{StreamFault, check_words, dump_script, run_script};
use std::alloc::Global;
use std::io::{ErrorKind, Read, Write};
use std::process::Abort;

/// The function that is called.
#[derive(Clone, Copy, Debug, PartialEq, Eq)]
enum Call {
    Run,
    Dump,
    Check,
}

/// A call with its input, the number of its reads if each read gives one byte, its result and its
/// output.
#[derive(Clone, Copy)]
struct Row {
    call: Call,
    input: &'static [u8],
    reads: usize,
    answer: bool,
    output: &'static [u8],
}

/// The words of the dump, except that one word is no pointer.
const DAMAGED: &[u8] =
    b"0\n17\n0\n0\n0\n0\n0\n0\n0\n0\n0\n0\n0\n0\n0\n0\n7\n0\n0\n0\n0\n100\n100\n50\n";

/// Calls over input that does not fail. The last read of a complete input gives no byte. A check
/// stops at the end of a line that is no word.
const ROWS: [Row; 6] = [
    Row {
        call: Call::Run,
        input: SCRIPT,
        reads: SCRIPT.len() + 1,
        answer: true,
        output: ANSWERS,
    },
    Row {
        call: Call::Dump,
        input: SCRIPT,
        reads: SCRIPT.len() + 1,
        answer: true,
        output: DUMP,
    },
    Row {
        call: Call::Check,
        input: DUMP,
        reads: DUMP.len() + 1,
        answer: true,
        output: b"cars=1 flights=0 rooms=0 customers=0 bookings=0 \
            used=0 free=100 total=100 billed=0\n",
    },
    Row {
        call: Call::Check,
        input: DAMAGED,
        reads: DAMAGED.len() + 1,
        answer: false,
        output: b"flaw pointer 1\n",
    },
    Row {
        call: Call::Check,
        input: b"0\nx\n0\n",
        reads: 4,
        answer: false,
        output: b"fault bad-words\n",
    },
    Row {
        call: Call::Check,
        input: b"0\n0",
        reads: 4,
        answer: false,
        output: b"fault bad-words\n",
    },
];

/// The result of a call.
type Ended = Result<bool, StreamFault>;

/// Makes a call.
fn play<R: Read, W: Write>(alloc: Global, call: Call, input: &mut R, output: &mut W) -> Ended {
    match call {
        Call::Run => run_script(alloc, 1024, input, output).map(|()| true),
        Call::Dump => dump_script(alloc, 1, input, output).map(|()| true),
        Call::Check => check_words(alloc, input, output),
    }
}

/// Returns the output before a byte-by-byte read of the script fails: the output lines of the
/// script's lines that have ended.
fn written_before(call: Call, fails_at: usize) -> &'static [u8] {
    match (call, fails_at) {
        (Call::Run, 17..=27) => b"true\n",
        (Call::Run, 28..=31) => b"true\n100\n",
        (Call::Run, 32..) => b"true\n100\nfault bad-command\n",
        _ => b"",
    }
}

/// Returns the result, the output and the number of reads of a call when one of its byte-by-byte
/// reads fails.
fn play_reading(
    alloc: Global,
    row: &Row,
    fails_at: usize,
    error: ErrorKind,
) -> (Ended, Vec<u8>, usize) {
    let mut input = Pieces::of(row.input, 1, fails_at, error);
    let mut out = Vec::new(alloc);
    let ended = play(alloc, row.call, &mut input, &mut out);
    (ended, out, input.calls)
}

/// Returns the expected result and output when this read fails for good.
fn wanted_of_reads(row: &Row, fails_at: usize) -> (Ended, &'static [u8]) {
    if fails_at < row.reads {
        (Err(StreamFault::Read), written_before(row.call, fails_at))
    } else {
        (Ok(row.answer), row.output)
    }
}

/// Checks a call when each of its reads fails in turn.
fn fail_each_read(rt: &impl Abort, alloc: Global, row: &Row) {
    for fails_at in 0..row.reads.saturating_add(2) {
        let (ended, out, calls) = play_reading(alloc, row, fails_at, ErrorKind::Other);
        let found = (row.call, fails_at, (ended, out.as_slice()), calls);
        let reads = row.reads.min(fails_at.saturating_add(1));
        let wants = wanted_of_reads(row, fails_at);
        same(rt, &found, &(row.call, fails_at, wants, reads));
    }
}

#[test]
fn readers_that_fail(rt: HostRuntime) {
    for row in ROWS {
        fail_each_read(&rt, rt.alloc(), &row);
    }
}

/// Checks a call when each of its reads is interrupted in turn.
fn interrupt_each_read(rt: &impl Abort, alloc: Global, row: &Row) {
    let reads = row.reads.saturating_add(1);
    for fails_at in 0..row.reads {
        let (ended, out, calls) = play_reading(alloc, row, fails_at, ErrorKind::Interrupted);
        let found = (fails_at, ended, out.as_slice(), calls);
        same(rt, &found, &(fails_at, Ok(row.answer), row.output, reads));
    }
}

#[test]
fn readers_that_are_interrupted(rt: HostRuntime) {
    for row in ROWS {
        interrupt_each_read(&rt, rt.alloc(), &row);
    }
}

/// Returns the result of a call and its writer, which takes nothing at one write.
fn play_writing(alloc: Global, row: &Row, stops_at: usize, stop: Stop) -> (Ended, Sink) {
    let mut input = Pieces::of(row.input, 5, NEVER, ErrorKind::Other);
    let mut out = Sink::new(alloc, 1, stops_at, stop);
    let ended = play(alloc, row.call, &mut input, &mut out);
    (ended, out)
}

/// Returns whether the call writes its complete output.
fn is_whole(row: &Row, stops_at: usize, stop: Stop) -> bool {
    stop.is_tried_again() || stops_at >= row.output.len()
}

/// Returns the expected result and output.
fn wanted_of_writes(row: &Row, stops_at: usize, stop: Stop) -> (Ended, &'static [u8]) {
    if is_whole(row, stops_at, stop) {
        (Ok(row.answer), row.output)
    } else {
        let written = &row.output[..stops_at.min(row.output.len())];
        (Err(StreamFault::Write), written)
    }
}

/// Checks a call when each of its writes is stopped in turn.
fn stop_each_write(rt: &impl Abort, alloc: Global, row: &Row, stop: Stop) {
    for stops_at in 0..row.output.len().saturating_add(2) {
        let (ended, out) = play_writing(alloc, row, stops_at, stop);
        let found = (stop, stops_at, (ended, out.taken.as_slice()));
        let wants = wanted_of_writes(row, stops_at, stop);
        same(rt, &found, &(stop, stops_at, wants));
        holds(rt, out.is_flushed || !is_whole(row, stops_at, stop));
    }
}

#[test]
fn writers_that_fail(rt: HostRuntime) {
    for row in ROWS {
        stop_each_write(&rt, rt.alloc(), &row, Stop::Nothing);
        stop_each_write(&rt, rt.alloc(), &row, Stop::Fails(ErrorKind::Other));
        stop_each_write(&rt, rt.alloc(), &row, Stop::Fails(ErrorKind::Interrupted));
    }
}

#[test]
fn flushes_that_fail(rt: HostRuntime) {
    for row in ROWS {
        let mut input = row.input;
        let mut out = Sink::without_flush(rt.alloc());
        let ended = play(rt.alloc(), row.call, &mut input, &mut out);
        let found = (row.call, ended, out.taken.as_slice());
        let wants = (row.call, Err(StreamFault::Write), row.output);
        same(&rt, &found, &wants);
    }
}

#[test]
fn dump_of_many_chunks(rt: HostRuntime) {
    let mut input = SCRIPT;
    let mut out = Vec::new(rt.alloc());
    let ended = dump_script(rt.alloc(), 16_384, &mut input, &mut out);
    let lines = out.iter().filter(|byte| **byte == b'\n').count();
    same(&rt, &(ended, lines), &(Ok(()), 16 + 8 * 16_384));
    holds(&rt, out.len() > 262_144);
}
