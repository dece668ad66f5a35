//! Command lines over input and output that fail, and their exit statuses.

use crate::example::SCRIPT;
use crate::failing::{NEVER, Pieces, Sink, Stop};
use crate::same::same;
use cli_judge::{Open, Watched};
use std::alloc::{AllocError, Global};
use std::io::{ErrorKind, Read, Write};
use std::process::Abort;
use std::sync::Wait;
use std::thread::Threads;
use std::time::Clock;

/// Returns the words of a command line.
fn words_of(alloc: Global, words: &[&str]) -> Result<Vec<String>, AllocError> {
    let mut owned = Vec::new(alloc);
    for word in words {
        owned.push(String::from_str(alloc, word)?)?;
    }
    Ok(owned)
}

/// The end of a command line: its status, and true if no error message was written. The warning of
/// a judge about its log is no error message.
pub(crate) type Ended = (u8, bool);

/// Runs a command line, whose first word names the program.
pub(crate) fn run_line<
    T: Threads + Wait + Clock + Sync + Abort + AllocGlobal,
    F: Open,
    R: Read,
    W: Write,
>(rt: &T, files: &F, words: &[&str], input: &mut R, output: &mut W) -> Ended {
    let alloc = rt.alloc();
    let judges = words.first().is_some_and(|program| *program == "judge");
    let words = words_of(alloc, words).expect(rt, "there is memory");
    let mut errors = Vec::new(alloc);
    let status = if judges {
        let mut watched = Watched::new(alloc, input);
        cli_judge::run_words(
            rt,
            files,
            words.as_slice(),
            &mut watched,
            output,
            &mut errors,
        )
    } else {
        cli_main::run_words(rt, words.as_slice(), input, output, &mut errors)
    };
    let warns = errors.as_slice().starts_with(b"warning: ");
    (status, errors.is_empty() || warns)
}

/// The output of `--version`.
const VERSION: &[u8] = b"vacation 0.1.0\nrattle-kit-13f logic dac8208d650f15bf\n";

#[test]
fn a_version_that_is_not_written_whole(rt: HostRuntime) {
    for stops_at in 0..VERSION.len() {
        let mut input: &[u8] = b"";
        let mut broken = Sink::new(rt.alloc(), 1, stops_at, Stop::Nothing);
        let words = &["vacation", "--version"];
        let ended = run_line(&rt, &rt, words, &mut input, &mut broken);
        let wants = ((1, true), &VERSION[..stops_at]);
        same(&rt, &(ended, broken.taken.as_slice()), &wants);
    }
}

#[test]
fn a_help_that_is_not_written(rt: HostRuntime) {
    for last in ["--help", "help", "-h"] {
        let words = &["vacation", last];
        let mut input: &[u8] = b"";
        let mut broken = Sink::new(rt.alloc(), 1, 0, Stop::Nothing);
        let ended = run_line(&rt, &rt, words, &mut input, &mut broken);
        same(&rt, &ended.0, &1);
    }
}

#[test]
fn faults_of_runs(rt: HostRuntime) {
    let words = &["vacation", "run"];
    let mut input = Pieces::of(SCRIPT, 30, 1, ErrorKind::Other);
    let mut out = Sink::new(rt.alloc(), NEVER, NEVER, Stop::Nothing);
    let unread = run_line(&rt, &rt, words, &mut input, &mut out);
    let wants = ((1, true), b"true\n100\nfault read\n".as_slice(), true);
    same(&rt, &(unread, out.taken.as_slice(), out.is_flushed), &wants);
    let mut input = SCRIPT;
    let mut sink = Sink::new(rt.alloc(), 7, 1, Stop::Fails(ErrorKind::Other));
    let unwritten = run_line(&rt, &rt, words, &mut input, &mut sink);
    let wants = ((1, true), b"true\n10".as_slice());
    same(&rt, &(unwritten, sink.taken.as_slice()), &wants);
}
