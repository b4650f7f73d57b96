//! Outputs that fail.

use crate::folder::Folder;
use crate::script::{SCENARIO, SCENARIO_ANSWER, Wanted, words_in};
use mig_command::run;
use std::alloc::{AllocGlobal, Global};
use std::fs::Files;
use std::io::{self, Write};
use std::process::Abort;
use std::sync::Wait;
use std::thread::Threads;

// Takes at most `most` bytes at a write, fails after `good` writes, and at a flush if that is set.
#[derive(Drop)]
struct Halting {
    text: Vec<u8>,
    most: usize,
    good: usize,
    fails_at_flush: bool,
    has_failed: bool,
}

impl Write for Halting {
    fn write(&mut self, buf: &[u8]) -> io::Result<usize> {
        if self.good == 0 {
            self.has_failed = true;
            return Err(io::Error::from(io::ErrorKind::Other));
        }
        self.good -= 1;
        let len = buf.len().min(self.most);
        self.text.extend_from_slice(&buf[..len])?;
        Ok(len)
    }

    fn flush(&mut self) -> io::Result<()> {
        if self.fails_at_flush {
            self.has_failed = true;
            return Err(io::Error::from(io::ErrorKind::Other));
        }
        Ok(())
    }
}

// Returns an output that takes at most `most` bytes at a write, and fails after `good` writes.
fn output_of(alloc: Global, most: usize, good: usize) -> Halting {
    Halting {
        text: Vec::new(alloc),
        most,
        good,
        fails_at_flush: false,
        has_failed: false,
    }
}

// The arguments of a run, and its result if the output doesn't fail.
#[derive(Clone, Copy)]
struct Expected<'a> {
    words: &'a [String],
    scenario: &'a [u8],
    text: &'a [u8],
    status: u8,
}

// Runs the tool, and returns whether its answer is right: exit status 3 if the output failed.
fn answers<H: AllocGlobal + Files + Threads + Wait + Sync>(
    rt: &H,
    expected: Expected,
    output: &mut Halting,
) -> bool {
    let mut input = expected.scenario;
    let status = run(rt, rt.alloc(), expected.words, &mut input, output);
    if output.has_failed {
        status == 3
    } else {
        status == expected.status && output.text.as_slice() == expected.text
    }
}

// Runs the tool with each write failing in turn, until a run has no failure. Returns whether each
// answer is right.
fn is_right_at_each_write<H: AllocGlobal + Files + Threads + Wait + Sync>(
    rt: &H,
    expected: Expected,
    most: usize,
) -> bool {
    for good in 0..100 {
        let mut output = output_of(rt.alloc(), most, good);
        if !answers(rt, expected, &mut output) {
            return false;
        }
        if !output.has_failed {
            return good > 0;
        }
    }
    false
}

// Runs the tool with a flush that fails. Returns whether there was one.
fn is_right_at_a_flush<H: AllocGlobal + Files + Threads + Wait + Sync>(
    rt: &H,
    expected: Expected,
) -> bool {
    let mut output = output_of(rt.alloc(), usize::MAX, usize::MAX);
    output.fails_at_flush = true;
    answers(rt, expected, &mut output) && output.has_failed
}

// Arguments, the scenario, and the answer.
type Case<'a> = (&'a str, &'a [u8], Wanted<'a>);

// Runs the tool with each write failing, of whole lines and of single bytes, and with a flush that
// fails.
fn is_right<H: AllocGlobal + Files + Threads + Wait + Sync + Abort>(
    rt: &H,
    folder: &Folder,
    case: Case<'_>,
) -> bool {
    let words = words_in(rt, folder, case.0);
    let expected = Expected {
        words: &words,
        scenario: case.1,
        text: case.2.1,
        status: case.2.0,
    };
    is_right_at_each_write(rt, expected, usize::MAX)
        && is_right_at_each_write(rt, expected, 1)
        && is_right_at_a_flush(rt, expected)
}

// A valid scenario, a fault of each kind of line, and arguments. Then the answers on arguments that
// read and write files.
const CASES: [Case<'static>; 13] = [
    ("", SCENARIO, (0, SCENARIO_ANSWER)),
    ("", b"block 0 a", (1, b"fault 82 table 5\n")),
    ("", b"block 1 a\n\r", (1, b"fault 81 line 2\n")),
    ("", b"block 1 a\ntouch 0 0", (1, b"fault 80 line 2\n")),
    ("frob", SCENARIO, (2, b"fault 88\n")),
    ("check --channels 2", SCENARIO, (0, SEVERAL)),
    ("send @s @o", b"", (0, b"sent 4199 0\n")),
    ("load @o @i", b"", (0, b"loaded sections 3\n")),
    ("compare @s @i", b"", (0, b"same\n")),
    ("compare @t @i", b"", (4, b"differs 1 first 0 0\n")),
    ("load @s @i", b"", (1, b"fault 11 round 0 in main\n")),
    ("send @none/o @o", b"", (3, b"fault 90\n")),
    ("send @s @none/o", b"", (3, b"fault 91\n")),
];

const SEVERAL: &[u8] = b"single 4199 sections 3\nmulti 101 8256 rounds 1\nsame\n";

#[test]
fn each_output(rt: HostRuntime) {
    let folder = Folder::new(&rt, "output");
    folder.put(&rt, "s", SCENARIO);
    folder.put(&rt, "t", b"block 1 a\nset 0 0 8\nround\n");
    for case in CASES {
        assert!(rt; is_right(&rt, &folder, case), "{}", case.0);
    }
    folder.remove(&rt);
}
