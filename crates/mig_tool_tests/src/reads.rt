//! Inputs that are read byte by byte, that don't end, and that fail.

use crate::folder::Folder;
use crate::script::{SCENARIO, SCENARIO_ANSWER, Wanted, is_answer, words_in};
use mig_command::run;
use std::alloc::AllocGlobal;
use std::fs::Files;
use std::io::{self, Read};
use std::process::Abort;
use std::sync::Wait;
use std::thread::Threads;

/// The length of a read of the tool.
const READ_LEN: usize = 65_536;

// Returns one byte a read, and fails once, after `good` reads.
#[derive(Drop)]
struct Slow<'a> {
    rest: &'a [u8],
    good: usize,
    // whether a read had another length
    has_other_len: bool,
}

impl Read for Slow<'_> {
    fn read(&mut self, buf: &mut [u8]) -> io::Result<usize> {
        self.has_other_len |= buf.len() != READ_LEN;
        if self.good == 0 {
            // (the next one would succeed)
            self.good = usize::MAX;
            return Err(io::Error::from(io::ErrorKind::Other));
        }
        self.good -= 1;
        match (self.rest.split_first(), buf.first_mut()) {
            (Some((byte, rest)), Some(place)) => {
                *place = *byte;
                self.rest = rest;
                Ok(1)
            }
            _ => Ok(0),
        }
    }
}

// Runs the tool on arguments and an input that is read byte by byte, with `good` reads that don't
// fail. Returns whether the answer is this one, and `left` bytes of the input weren't read.
fn is_read<H: AllocGlobal + Files + Threads + Wait + Sync + Abort>(
    rt: &H,
    words: &[String],
    text: &[u8],
    good: usize,
    wanted: Wanted<'_>,
    left: usize,
) -> bool {
    let mut input = Slow {
        rest: text,
        good,
        has_other_len: false,
    };
    let mut output = Vec::new(rt.alloc());
    let status = run(rt, rt.alloc(), words, &mut input, &mut output);
    !input.has_other_len && input.rest.len() == left && is_answer(&(status, output), wanted)
}

// Arguments that ask for no check.
const OTHERS: [(&str, Wanted<'static>); 2] = [
    ("frob", (2, b"fault 88\n")),
    ("compare @none @none", (3, b"fault 90\n")),
];

// They read no byte of the input.
#[test]
fn input_that_is_not_read(rt: HostRuntime) {
    let folder = Folder::new(&rt, "not_read");
    for (line, wanted) in OTHERS {
        let words = words_in(&rt, &folder, line);
        assert!(rt;
            is_read(&rt, &words, SCENARIO, 0, wanted, SCENARIO.len()),
            "{line}"
        );
    }
    folder.remove(&rt);
}

// Returns a block, and empty lines up to a length.
fn with_empty_lines(rt: &(impl AllocGlobal + Abort), len: usize) -> Vec<u8> {
    let mut text = Vec::from_slice(rt.alloc(), b"block 1 a").expect(rt, "a text");
    assert!(rt; text.resize(len, b'\n').is_ok());
    text
}

// The length of an input, the reads before the one that fails, the answer, and the bytes that
// aren't read.
type Long = (usize, usize, Wanted<'static>, usize);

const EMPTY_LINES: &[u8] = b"single 75 sections 2\nsame\n";

// Reads of one byte that end with the last one that there may be, and one read too many, and two.
const LONG: [Long; 4] = [
    (65_535, usize::MAX, (0, EMPTY_LINES), 0),
    (65_535, 65_536, (0, EMPTY_LINES), 0),
    (65_536, usize::MAX, (3, b"fault 71\n"), 0),
    (65_537, usize::MAX, (3, b"fault 71\n"), 1),
];

#[test]
fn most_reads(rt: HostRuntime) {
    for (len, good, wanted, left) in LONG {
        let text = with_empty_lines(&rt, len);
        assert!(rt; is_read(&rt, &[], &text, good, wanted, left), "{len}");
    }
}

// The scenario has 26 bytes. Each read fails in turn, up to the one that finds its end, and isn't
// repeated.
#[test]
fn each_read_failing(rt: HostRuntime) {
    for good in 0..27usize {
        let left = 26usize.saturating_sub(good);
        assert!(rt;
            is_read(&rt, &[], SCENARIO, good, (3, b"fault 90\n"), left),
            "{good}"
        );
    }
    assert!(rt; is_read(&rt, &[], SCENARIO, 27, (0, SCENARIO_ANSWER), 0));
}
