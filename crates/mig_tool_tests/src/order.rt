//! The order in which files are opened, read to their end, changed and flushed. This order lets two
//! tools run at the same time with pipes between them: neither waits for a pipe that the other
//! opens later.

use crate::fake_files::{Plan, outcome_of};
use crate::folder::Folder;
use crate::script::{SCENARIO, assert_script, plain_words};
use std::alloc::AllocGlobal;
use std::fs::Files;
use std::process::Abort;
use std::sync::Wait;
use std::thread::Threads;

// Arguments, the output, and the log.
type Case<'a> = (&'a str, &'a [u8], u64);

// Runs the tool on the arguments in a line, with planned files. Returns whether the output and the
// log are these.
fn is_order<H: AllocGlobal + Files + Threads + Wait + Sync + Abort>(
    rt: &H,
    plan: Plan,
    case: Case<'_>,
) -> bool {
    let outcome = outcome_of(rt, &plain_words(rt, case.0), plan);
    outcome.answer.1.as_slice() == case.1 && outcome.log == case.2 && !outcome.has_other_len
}

// In the logs the scenario `s` has the digit 5, the main or single stream `m` has 1, the channels
// `m.0` and `m.1` have 2 and 3, and the memory `i` has 4.
const SENDING: [Case<'static>; 2] = [
    ("send s m", b"sent 4199 0\n", 0x5d_189),
    (
        "send s m --channels 2",
        b"sent 101 8256\n",
        0x5d_189_28a_38b,
    ),
];

// No file is opened for writing before the scenario is judged.
const REFUSED: [Case<'static>; 2] = [
    ("send s m", b"fault 80 line 2\n", 0x5d),
    ("send s m --channels 2", b"fault 80 line 2\n", 0x5d),
];

#[test]
fn order_of_sending(rt: HostRuntime) {
    for case in SENDING {
        assert!(rt; is_order(&rt, Plan::good(SCENARIO), case), "{}", case.0);
    }
    for case in REFUSED {
        let plan = Plan::good(b"block 1 a\ntouch 0 0");
        assert!(rt; is_order(&rt, plan, case), "{}", case.0);
    }
}

// Faulty streams are read to their ends, and the memory's file isn't opened.
const FAULTY: [Case<'static>; 4] = [
    ("load m i", b"fault 11 round 0 in main\n", 0x19),
    (
        "load m i --channels 2",
        b"fault 11 round 0 in main\n",
        0x19_2a_3b,
    ),
    (
        "load m i --channels 2 --feed",
        b"fault 11 round 0 in main\n",
        0x19_2a_3b,
    ),
    ("compare s i", b"fault 85\n", 0x5d_4c),
];

#[test]
fn order_of_reading_faulty_streams(rt: HostRuntime) {
    for case in FAULTY {
        assert!(rt; is_order(&rt, Plan::good(SCENARIO), case), "{}", case.0);
    }
}

// Returns the file `name` that the tool writes when it sends the scenario, in a folder of that
// name.
fn sent<H: AllocGlobal + Files + Threads + Wait + Sync + Abort>(
    rt: &H,
    name: &str,
    line: &str,
    text: &[u8],
) -> Vec<u8> {
    let folder = Folder::new(rt, name);
    folder.put(rt, "s", SCENARIO);
    assert_script(rt, &folder, line, (0, text));
    let bytes = folder.bytes(rt, name);
    folder.remove(rt);
    bytes
}

#[test]
fn order_of_reading(rt: HostRuntime) {
    let single = sent(&rt, "o", "send @s @o", b"sent 4199 0\n");
    let case: Case<'_> = ("load m i", b"loaded sections 3\n", 0x19_48c);
    assert!(rt; is_order(&rt, Plan::good(&single), case));
}

const OF_CHANNEL: [&str; 2] = ["load m i --channels 1", "load m i --channels 1 --feed"];

#[test]
fn order_of_reading_a_channel(rt: HostRuntime) {
    let line = "send @s @m --channels 1";
    let main = sent(&rt, "m", line, b"sent 101 6848\n");
    let channel = sent(&rt, "m.0", line, b"sent 101 6848\n");
    let mut plan = Plan::good(&main);
    plan.channel = &channel;
    for line in OF_CHANNEL {
        let case: Case<'_> = (line, b"loaded rounds 1\n", 0x19_2a_48c);
        assert!(rt; is_order(&rt, plan, case), "{line}");
    }
}
