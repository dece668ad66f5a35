//! Proved judges of logs. `judge history` says whether a history of a reservation system has a
//! linearization, or an order of a weaker level; `judge order` writes the order; `judge attempts`
//! says whether the attempts of a transactional memory are opaque; `judge part` writes what a
//! history says of some customers and items; and `judge keys` and `judge queue` judge histories of
//! a key-value store and of a queue. Each reads its log from standard input.
#![tactic(auto)]

use cli_judge::{Watched, refuse_words, run_words};
use std::io::ErrorKind;
use std::process::ExitCode;
use std::{env, io};

/// Status of a judge for which memory was refused.
const NO_MEMORY: u8 = 4;

/// The words of the command line. One that is not UTF-8 is an error.
fn words(rt: &HostRuntime) -> io::Result<Vec<String>> {
    let words = env::args(rt)?.collect(rt.alloc())?;
    Ok(words)
}

fn main(rt: HostRuntime) -> ExitCode {
    let words = match words(&rt) {
        Ok(words) => words,
        Err(error) => {
            if error.kind() == ErrorKind::InvalidData {
                return ExitCode::from(refuse_words(&mut rt.stderr()));
            }
            let _ = println!(rt; "fault memory");
            return ExitCode::from(NO_MEMORY);
        }
    };
    let status = run_words(
        &rt,
        &rt,
        words.as_slice(),
        &mut Watched::new(rt.alloc(), rt.stdin()),
        &mut rt.stdout(),
        &mut rt.stderr(),
    );
    ExitCode::from(status)
}
