//! The bytes that a load holds: with `--feed` it holds no complete stream.

use crate::folder::Folder;
use crate::script::{answer_in, assert_script, is_answer, words_in};
use mig_fixtures::TestHeap;
use std::alloc::AllocGlobal;
use std::fs::Files;
use std::io::Write;
use std::process::Abort;
use std::sync::Wait;
use std::thread::Threads;

/// The number of rounds in which the guest's only page is sent.
const ROUNDS: u64 = 300;

/// The bytes on the channel: a hello, and in each round a packet with a page and a SYNC packet.
const CHANNEL_LEN: u64 = 64 + ROUNDS * (1344 + 4096 + 1344);

// Returns the scenario.
fn scenario(rt: &(impl AllocGlobal + Abort)) -> Vec<u8> {
    let mut text = Vec::from_slice(rt.alloc(), b"block 1 a\n").expect(rt, "a text");
    for round in 0..ROUNDS {
        assert!(rt; write!(text, "fill 0 0 {}\nround\n", 1 + round % 255).is_ok());
    }
    text
}

// Returns the most bytes that a load on the arguments in `line` holds at once. It is done, and
// holds none at the end.
fn peak_of<H: AllocGlobal + Files + Threads + Wait + Sync + Abort>(
    rt: &H,
    folder: &Folder,
    line: &str,
) -> u64 {
    let heap = TestHeap::new(rt.alloc());
    let answer = answer_in(rt, &heap, &words_in(rt, folder, line), b"");
    assert!(rt; is_answer(&answer, (0, b"loaded rounds 300\n")) && heap.held() == 0);
    heap.peak()
}

// A load that reads complete streams holds all of them. With `--feed` it holds less than a quarter
// of the channel's bytes.
#[test]
fn streams_that_are_held(rt: HostRuntime) {
    let folder = Folder::new(&rt, "held");
    folder.put(&rt, "s", &scenario(&rt));
    let line = "send @s @m --channels 1";
    assert_script(&rt, &folder, line, (0, b"sent 7875 2035264\n"));
    let whole = peak_of(&rt, &folder, "load @m @i --channels 1");
    let fed = peak_of(&rt, &folder, "load @m @i --channels 1 --feed");
    assert!(rt; whole > CHANNEL_LEN && fed < CHANNEL_LEN / 4);
    folder.remove(&rt);
}
