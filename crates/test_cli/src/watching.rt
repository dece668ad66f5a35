//! The figures of the entries that pass a watched reader.

use judge_coverage::{CallsWarning, Watched};
use std::io;
use std::io::Read;
use vac_lines::print;

/// Largest number of bytes of a line of these logs.
const LONGEST: usize = 40;

/// Largest number of calls that are watched.
const MOST: usize = 5;

/// A log, the lines about it, and the warning.
type Row = (&'static str, &'static str, &'static str);

/// Two calls stand beside lines that are no calls: two words, no number, an interval without a
/// task, an empty line, and a line that is too long. The program reads no further than such a line.
const CALLS: &[Row] = &[(
    "1 10\n1 10 20 newcust 8 -> true\nx 10 20 bill 8 -> 0\n4 10 20\n\n\
     5 10 20 trip 7 car 1 car 2 car 3 car 4 car 5 -> trip\n2 20 22 bill 8 -> 0",
    "calls: 2\nclients: 2\npending calls: 0\n\
     calls that began while another client's ran: 0\nmost calls at one moment: 1\n",
    "warning: fewer than one call in ten began beside another: legal says little\n",
)];

/// A reader that gives at most `most` bytes at a call.
#[derive(Drop)]
struct Pieces {
    bytes: &'static [u8],
    most: usize,
}

impl Read for Pieces {
    fn read(&mut self, buf: &mut [u8]) -> io::Result<usize> {
        let count = self.bytes.len().min(buf.len()).min(self.most);
        buf[..count].copy_from_slice(&self.bytes[..count]);
        self.bytes = &self.bytes[count..];
        Ok(count)
    }
}

/// Returns a reader of a log.
fn pieces_of(log: &'static str, most: usize) -> Pieces {
    Pieces {
        bytes: log.as_bytes(),
        most,
    }
}

#[test]
fn calls_that_pass_have_these_figures(rt: HostRuntime) {
    for row in CALLS.iter() {
        for most in [1, 3, 7, 4096] {
            let mut watched = Watched::new(rt.alloc(), pieces_of(row.0, most));
            watched.watch(LONGEST, MOST);
            let mut bytes = Vec::new(rt.alloc());
            let read = watched.read_to_end(&mut bytes).expect(&rt, "the log");
            let coverage = watched.measure_calls().expect(&rt, "memory for the calls");
            let mut text = Vec::new(rt.alloc());
            print(&coverage, &mut text).expect(&rt, "memory for the lines");
            let warning = CallsWarning {
                coverage: &coverage,
            };
            print(warning, &mut text).expect(&rt, "memory for the warning");
            assert!(rt; read == row.0.len(), "bytes of {}", row.0);
            assert!(rt;
                bytes.as_slice() == row.0.as_bytes(),
                "the bytes of {}",
                row.0
            );
            assert!(rt;
                text.as_slice().starts_with(row.1.as_bytes()),
                "the lines of {}",
                row.0
            );
            assert!(rt;
                &text.as_slice()[row.1.len()..] == row.2.as_bytes(),
                "the warning of {}",
                row.0
            );
        }
    }
}

#[test]
fn a_log_that_is_not_watched_has_no_figures(rt: HostRuntime) {
    let mut watched = Watched::new(rt.alloc(), pieces_of("1 10 20 bill 8 -> 0\n", 4096));
    let mut bytes = Vec::new(rt.alloc());
    let read = watched.read_to_end(&mut bytes).expect(&rt, "the log");
    assert!(rt; read == bytes.len());
    assert!(rt; watched.measure_calls().is_none());
    assert!(rt; watched.measure_attempts().is_none());
}
