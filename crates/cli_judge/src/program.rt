//! The judge: runs the command of a command line, and returns its status.

ghost use Rattle.std.specs.Prelude.{◌≡◌, List, map, string_bytes};
ghost use Rattle.clap.specs.Words.{kind_of};
ghost use Rattle.judge_coverage.specs.Watching.{inner_of};
ghost use Rattle.cli_common.specs.Showing.{ShowsError};
ghost use Rattle.cli_judge.specs.declared.status.TheConstants.{FAULT};
ghost use Rattle.cli_judge.specs.Program.{Serves, version_text};

use crate::files::Open;
use crate::judging::{judge, judge_opaque};
use crate::keys::judge_keys;
use crate::objects::judge_queue;
use crate::parting::part;
use crate::searching::order;
use crate::status::FAULT;
use clap::Error;
use cli_common::{refuse, show};
use judge_coverage::Watched;
use judge_options::{Request, VERSION, read_asked};
use std::alloc::Global;
use std::io::{Read, Write};
use std::time::Clock;

/// The refusal of a command line with a word that is no text.
const UNREADABLE_WORD: &[u8] = b"error: a word of the command line is not valid UTF-8\n";

/// The refusal of a command line whose word for a level names none.
const UNKNOWN_LEVEL: &[u8] = b"error: --level is linearizable, sequential or serializable\n";

/// Runs the judge on a command line, whose first word is the program's name, and returns its
/// status.
///
/// | Status | Meaning |
/// |---|---|
/// | 0 | yes, the order or part was written, or help or version were shown |
/// | 1 | no, or a line is no call, no attempt or no first value of a key |
/// | 2 | the command line was refused |
/// | 3 | a search did not decide within its steps |
/// | 4 | a stream failed, a file was not opened, or memory was refused |
///
/// Help and the version go to `output`, the text of a refused command line to `errors`. A fault is
/// the last line of `output`, unless `output` failed. The lines that a judge writes to `errors`
/// (its progress, the figures of its log, a warning) change neither `output` nor the status.
///
/// Not said: that the lines for `errors` are written at all; that the figures of a judge's log are
/// those of the log. Tests look at both.
///
/// Not said: what a search writes to `errors` with `--progress`; what `part` writes there; what is
/// written there about a refused command line.
pub fn run_words<T: Clock + AllocGlobal, R: Read, W: Write, E: Write, F: Open>(
    rt: &T,
    files: &F,
    words: &[String],
    input: &mut Watched<R>,
    output: &mut W,
    errors: &mut E,
) -> u8
    ensures served { Serves (F.holds files.now) (map string_bytes words.now) result
        (R.remaining (inner_of input.old)) (R.remaining (inner_of input.new))
        (W.contents output.old) (W.contents output.new)
        (E.contents errors.old) (E.contents errors.new) }
{
    let alloc = rt.alloc();
    match read_asked(alloc, words) {
        Ok(Request::History(how)) => judge(rt, files, how, input, output, errors),
        Ok(Request::Order(blocks, search)) => order(rt, blocks, search, input, output, errors),
        Ok(Request::UnknownLevel) => refuse(UNKNOWN_LEVEL, errors),
        Ok(Request::Attempts(how)) => judge_opaque(alloc, how, input, output, errors),
        Ok(Request::Part(words)) => part(alloc, &words, input, output, errors),
        Ok(Request::Keys(how)) => judge_keys(rt, files, how, input, output, errors),
        Ok(Request::Queue(search)) => judge_queue(rt, search, input, output, errors),
        Err(error) => explain(alloc, &error, output, errors),
    }
}

/// Writes that a word of the command line is no text, and returns the status of a refused command
/// line. A failed write changes nothing.
///
/// Not said: that `main` calls this function for words that are no text, and passes the words of
/// any other command line to `run_words`. Those three lines are read in the code.
pub fn refuse_words<E: Write>(errors: &mut E) -> u8
    ensures { result ≡ 2 }
{
    refuse(UNREADABLE_WORD, errors)
}

/// Shows the help, the version, or the reason why the command line was refused, and returns the
/// status.
fn explain<W: Write, E: Write>(alloc: Global, error: &Error, output: &mut W, errors: &mut E) -> u8
    ensures { ShowsError version_text FAULT (kind_of error.now) result
        (W.contents output.old) (W.contents output.new) }
{
    show(alloc, error, VERSION.as_bytes(), FAULT, output, errors)
}
