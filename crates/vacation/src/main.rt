//! A reservation system after the program Vacation of the STAMP benchmarks. `vacation run` reads
//! commands from standard input, one a line, and writes a line for each to standard output;
//! `vacation dump` writes the words of the memory that they leave, and `vacation check` audits such
//! words. `vacation load` runs clients in threads, which call the system with tasks drawn at
//! random, and `vacation tasks` writes these tasks for other programs.
#![tactic(auto)]

use cli_main::{refuse_words, run_words};
use std::io::ErrorKind;
use std::process::ExitCode;
use std::{env, io};

/// The words of the command line. One that is not UTF-8 is an error.
fn words(rt: &HostRuntime) -> io::Result<Vec<String>> {
    let words = env::args(rt)?.collect(rt.alloc())?;
    Ok(words)
}

fn main(rt: HostRuntime) -> ExitCode {
    let words = match words(&rt) {
        Ok(words) => words,
        Err(error) => {
            if error.kind() == ErrorKind::InvalidData {
                return ExitCode::from(refuse_words(&mut rt.stderr()));
            }
            let _ = println!(rt; "fault memory");
            return ExitCode::FAILURE;
        }
    };
    let status = run_words(
        &rt,
        words.as_slice(),
        &mut rt.stdin(),
        &mut rt.stdout(),
        &mut rt.stderr(),
    );
    ExitCode::from(status)
}
