//! The load in place of one stream, in pieces of any length.

use crate::texts::LIMIT;
use mig_fixtures::{at, places_of, set, zeroed};
use mig_load_types::{Fault, InPlaceFault, LoadFault, LoadSettings, Origin};
use mig_mem::{Memory, Place};
use mig_send::SingleSender;
use mig_single_load::InPlaceState;
use mig_stream::StreamFault;
use std::alloc::AllocGlobal;
use std::process::Abort;

// ---- a stream of two rounds

// The length of the stream below.
const LEN: u64 = 8330;

// Sends the pages of a memory at some places, as a round.
fn is_sent(
    rt: &(impl AllocGlobal + Abort),
    sender: &mut SingleSender,
    memory: &Memory,
    places: &[Place],
) -> bool {
    let dirty = places_of(rt.alloc(), memory.table(), places).expect(rt, "a set");
    sender.round(memory, &dirty).is_ok()
}

// Makes the stream of a block `a` of two pages. Round 0 has page 0 with the first byte 7, and page
// 1 as zeros. Round 1 has page 0 with the first byte 8.
fn stream(rt: &(impl AllocGlobal + Abort)) -> Vec<u8> {
    let mut memory = zeroed(rt.alloc(), &[("a", 2)]).expect(rt, "a memory");
    let mut sender = SingleSender::new(rt.alloc(), memory.table()).expect(rt, "a sender");
    let first: &[Place] = &[at(0, 0), at(0, 1)];
    for (byte, places) in [(7u8, first), (8, &first[..1])] {
        assert!(rt; set(&mut memory, 0, 0, byte) && is_sent(rt, &mut sender, &memory, places));
    }
    sender.finish().ok().expect(rt, "a stream")
}

// Returns the first bytes of both pages after `len` bytes of it. The records of round 0 end at 4167
// and 4176, that of round 1 at 8298.
fn bytes_after(len: u64) -> (u8, u8) {
    match len {
        0..4167 => (5, 5),
        4167..4176 => (7, 5),
        4176..8298 => (7, 0),
        _ => (8, 0),
    }
}

// Counts the complete sections in `len` bytes of it. START ends at 56, the rounds at 4189 and 8311,
// and END at 8329.
fn sections_after(len: u64) -> u64 {
    match len {
        0..56 => 0,
        56..4189 => 1,
        4189..8311 => 2,
        8311..8329 => 3,
        _ => 4,
    }
}

// Returns how many of the two pages have no record in `len` bytes of it.
fn missing_after(len: u64) -> u64 {
    match len {
        0..4167 => 2,
        4167..4176 => 1,
        _ => 0,
    }
}

// Returns the verdict on `len` bytes of it.
fn verdict_after(len: u64) -> Result<(), LoadFault> {
    if len >= LEN {
        return Ok(());
    }
    Err(LoadFault {
        round: sections_after(len),
        source: Origin::Main,
        fault: Fault::Stream(StreamFault::Truncated),
    })
}

// ---- its load

// Makes a memory of a block `a` of two pages, each with the first byte 5.
fn fives(rt: &(impl AllocGlobal + Abort)) -> Memory {
    let mut memory = zeroed(rt.alloc(), &[("a", 2)]).expect(rt, "a memory");
    assert!(rt; set(&mut memory, 0, 0, 5) && set(&mut memory, 0, 4096, 5));
    memory
}

// Returns the first bytes of its two pages.
fn bytes_of(rt: &impl Abort, memory: &Memory) -> (u8, u8) {
    let first = memory.page(at(0, 0)).expect(rt, "a page");
    let second = memory.page(at(0, 1)).expect(rt, "a page");
    (
        *first.first().expect(rt, "a byte"),
        *second.first().expect(rt, "a byte"),
    )
}

// Feeds a piece of a short stream to a load.
fn feed(
    rt: &impl Abort,
    state: &mut InPlaceState,
    memory: &mut Memory,
    piece: &[u8],
) -> Result<(), InPlaceFault> {
    assert!(rt; !state.ended() && state.fed() <= LIMIT && piece.len() as u64 <= LIMIT);
    state.feed(memory, piece)
}

// Loads the stream in place, in pieces of `len` bytes. After each piece the memory has the records
// so far, and the count and the verdict are those of the bytes so far.
fn load_pieces(rt: &(impl AllocGlobal + Abort), text: &[u8], len: usize) {
    let mut memory = fives(rt);
    let settings = LoadSettings::new(4096, LIMIT);
    let mut state = InPlaceState::new(rt.alloc(), settings, memory.table()).expect(rt, "a load");
    for piece in text.chunks(len.max(1)) {
        assert!(rt; feed(rt, &mut state, &mut memory, piece) == Ok(()));
        let fed = state.fed();
        assert!(rt; bytes_of(rt, &memory) == bytes_after(fed));
        assert!(rt; (state.rounds(), state.verdict()) == (sections_after(fed), verdict_after(fed)));
    }
    assert!(rt; state.fed() == LEN && state.verdict() == Ok(()));
}

#[test]
fn pieces_of_any_length(rt: HostRuntime) {
    let text = stream(&rt);
    for len in [1usize, 7, 4096, 10_000] {
        load_pieces(&rt, &text, len);
    }
}

// Loads the stream in place, in pieces of 7 bytes. Returns whether the number of missing pages is
// right after each.
fn counts_missing(rt: &(impl AllocGlobal + Abort), text: &[u8]) -> bool {
    let mut memory = fives(rt);
    let settings = LoadSettings::new(4096, LIMIT);
    let mut state = InPlaceState::new(rt.alloc(), settings, memory.table()).expect(rt, "a load");
    for piece in text.chunks(7) {
        let fed = feed(rt, &mut state, &mut memory, piece);
        if fed.is_err() || state.missing() != missing_after(state.fed()) {
            return false;
        }
    }
    true
}

#[test]
fn pages_that_no_record_named(rt: HostRuntime) {
    assert!(rt; counts_missing(&rt, &stream(&rt)));
}
