//! Files of the largest length, and files whose reads and changes fail in turn.

use crate::fake_files::{Outcome, Plan, outcome_of};
use crate::folder::Folder;
use crate::script::{SCENARIO, Wanted, assert_script, is_answer, plain_words};
use std::alloc::AllocGlobal;
use std::fs::Files;
use std::process::Abort;
use std::sync::Wait;
use std::thread::Threads;

// Runs the tool on the arguments in a line, with a file of these bytes that is read byte by byte.
fn slow_outcome<H: AllocGlobal + Files + Threads + Wait + Sync + Abort>(
    rt: &H,
    line: &str,
    text: &[u8],
    reads: u64,
    changes: u64,
) -> Outcome {
    let mut plan = Plan::good(text);
    plan.piece = 1;
    plan.reads = reads;
    plan.changes = changes;
    outcome_of(rt, &plain_words(rt, line), plan)
}

// ---- reads

// Runs the tool with a file that is read byte by byte. Returns whether the answer is this one, and
// each read asks for 65,536 bytes.
fn is_read<H: AllocGlobal + Files + Threads + Wait + Sync + Abort>(
    rt: &H,
    line: &str,
    text: &[u8],
    wanted: Wanted<'_>,
) -> bool {
    let outcome = slow_outcome(rt, line, text, u64::MAX, 0);
    !outcome.has_other_len && is_answer(&outcome.answer, wanted)
}

const LONG: [(&str, Wanted<'static>); 7] = [
    ("send f o", (1, b"fault 82 table 1\n")),
    ("send f o --channels 2", (1, b"fault 82 table 1\n")),
    ("load f i", (1, b"fault 11 round 0 in main\n")),
    ("load f i --channels 1", (1, b"fault 11 round 0 in main\n")),
    (
        "load f i --channels 1 --feed",
        (1, b"fault 11 round 0 in main\n"),
    ),
    ("compare f f", (1, b"fault 82 table 1\n")),
    ("compare f i --page 8192", (1, b"fault 82 table 1\n")),
];

// A file whose end the last of 65,536 reads of one byte finds, and one that hasn't ended after
// them.
#[test]
fn most_reads_of_files(rt: HostRuntime) {
    let text = [b'\n'; 65_536];
    for (line, wanted) in LONG {
        assert!(rt; is_read(&rt, line, &text[1..], wanted), "{line}");
        assert!(rt; is_read(&rt, line, &text, (3, b"fault 71\n")), "{line}");
    }
}

// Runs the tool with each read of a file failing in turn, up to the one that finds its end. None is
// repeated. The scenario has 26 bytes.
fn is_refused_at_each_read<H: AllocGlobal + Files + Threads + Wait + Sync + Abort>(
    rt: &H,
    line: &str,
) -> bool {
    for reads in 0..27 {
        let outcome = slow_outcome(rt, line, SCENARIO, reads, u64::MAX);
        if !is_answer(&outcome.answer, (3, b"fault 90\n")) {
            return false;
        }
    }
    let outcome = slow_outcome(rt, line, SCENARIO, 27, u64::MAX);
    !outcome.has_failed && outcome.answer.0 <= 1
}

const READING: [&str; 5] = [
    "send f o",
    "load f i",
    "load f i --channels 2",
    "load f i --channels 2 --feed",
    "compare f i",
];

#[test]
fn each_read_of_files_failing(rt: HostRuntime) {
    for line in READING {
        assert!(rt; is_refused_at_each_read(&rt, line), "{line}");
    }
}

// ---- changes

// Runs the tool with each query for the kind of a file, and each write, seek, change of length and
// flush failing in turn, until a run has no failure. Calls after the failing one would succeed.
fn is_refused_at_each_change<H: AllocGlobal + Files + Threads + Wait + Sync + Abort>(
    rt: &H,
    line: &str,
    text: &[u8],
    wanted: &[u8],
) -> bool {
    for changes in 0..100 {
        let outcome = slow_outcome(rt, line, text, u64::MAX, changes);
        if !outcome.has_failed {
            return changes > 0 && is_answer(&outcome.answer, (0, wanted));
        }
        if !is_answer(&outcome.answer, (3, b"fault 91\n")) {
            return false;
        }
    }
    false
}

const SENDING: [(&str, &[u8]); 3] = [
    ("send f o", b"sent 4199 0\n"),
    ("send f o --channels 2", b"sent 101 8256\n"),
    ("send f o --page 8192", b"sent 8295 0\n"),
];

#[test]
fn each_change_of_sent_files_failing(rt: HostRuntime) {
    for (line, wanted) in SENDING {
        assert!(rt;
            is_refused_at_each_change(&rt, line, SCENARIO, wanted),
            "{line}"
        );
    }
}

// Returns the stream of a scenario.
fn stream_of<H: AllocGlobal + Files + Threads + Wait + Sync + Abort>(
    rt: &H,
    scenario: &[u8],
    sent: &[u8],
) -> Vec<u8> {
    let folder = Folder::new(rt, "changes");
    folder.put(rt, "s", scenario);
    assert_script(rt, &folder, "send @s @o", (0, sent));
    let stream = folder.bytes(rt, "o");
    folder.remove(rt);
    stream
}

// A memory of zeros, and one whose page after one of zeros needs a seek.
const LOADED: [(&[u8], &[u8], &[u8]); 2] = [
    (b"block 1 a", b"sent 75 0\n", b"loaded sections 2\n"),
    (
        b"block 2 a\nset 0 4096 7\nround",
        b"sent 4199 0\n",
        b"loaded sections 3\n",
    ),
];

#[test]
fn each_change_of_a_memorys_file_failing(rt: HostRuntime) {
    for (scenario, sent, wanted) in LOADED {
        let stream = stream_of(&rt, scenario, sent);
        assert!(rt; is_refused_at_each_change(&rt, "load f i", &stream, wanted));
    }
}
