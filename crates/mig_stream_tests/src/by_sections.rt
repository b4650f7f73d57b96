//! The load of one stream by whole sections into memory that is there already: what the memory has
//! after each piece, also of a stream with a fault in its last section, and where an allocation is
//! refused.

use mig_fixtures::{TestHeap, at, places_of, set, table, zeroed};
use mig_load_types::{Fault, InPlaceFault, LoadFault, LoadSettings, Origin};
use mig_mem::{Memory, Place};
use mig_sections::SectionsLoad;
use mig_send::SingleSender;
use mig_stream::StreamFault;
use std::alloc::{AllocGlobal, Allocator, Global};
use std::process::Abort;

// The limit of the blocks' bytes.
const LIMIT: u64 = 1 << 40;

// The length of the stream below.
const LEN: u64 = 8330;

// Sends the pages of a memory at some places, as a round.
fn is_sent(alloc: Global, sender: &mut SingleSender, memory: &Memory, places: &[Place]) -> bool {
    let Some(dirty) = places_of(alloc, memory.table(), places) else {
        return false;
    };
    sender.round(memory, &dirty).is_ok()
}

// Makes the stream of a block `a` of two pages. Round 0 has page 0 with the first byte 7, and page
// 1 as zeros. Round 1 has page 0 with the first byte 8.
fn stream(rt: &(impl AllocGlobal + Abort)) -> Vec<u8> {
    let mut memory = zeroed(rt.alloc(), &[("a", 2)]).expect(rt, "a memory");
    let mut sender = SingleSender::new(rt.alloc(), memory.table()).expect(rt, "a sender");
    let first: &[Place] = &[at(0, 0), at(0, 1)];
    for (byte, places) in [(7u8, first), (8, &first[..1])] {
        let round = set(&mut memory, 0, 0, byte);
        assert!(rt; round && is_sent(rt.alloc(), &mut sender, &memory, places));
    }
    sender.finish().ok().expect(rt, "a stream")
}

// Counts the complete sections in `len` bytes of it. START ends at 56, the rounds at 4189 and 8311,
// and END at 8329.
fn sections_after(len: u64) -> u64 {
    match len {
        0..56 => 0,
        56..4189 => 1,
        4189..8311 => 2,
        8311..8329 => 3,
        _ => 4,
    }
}

// Returns the first bytes of both pages after these sections, of which each held 5 before them.
fn bytes_of_sections(count: u64) -> (u8, u8) {
    match count {
        0 | 1 => (5, 5),
        2 => (7, 0),
        _ => (8, 0),
    }
}

// Returns how many of the two pages these sections don't name.
fn missing_of_sections(count: u64) -> u64 {
    if count < 2 { 2 } else { 0 }
}

// Makes a memory of a block `a` of two pages, each with the first byte 5.
fn fives(rt: &(impl AllocGlobal + Abort)) -> Memory {
    let mut memory = zeroed(rt.alloc(), &[("a", 2)]).expect(rt, "a memory");
    assert!(rt; set(&mut memory, 0, 0, 5) && set(&mut memory, 0, 4096, 5));
    memory
}

// Returns the first bytes of its two pages.
fn bytes_of(memory: &Memory) -> Option<(u8, u8)> {
    let first = memory.page(at(0, 0))?.first()?;
    let second = memory.page(at(0, 1))?.first()?;
    Some((*first, *second))
}

// Feeds a piece of a short stream to a load.
fn feed<A: Allocator + Copy>(
    load: &mut SectionsLoad<A>,
    memory: &mut Memory,
    piece: &[u8],
) -> Result<(), InPlaceFault> {
    if load.ended() || load.fed() > LIMIT || piece.len() as u64 > LIMIT {
        return Err(InPlaceFault::OtherTable);
    }
    load.feed(memory, piece)
}

// Returns whether a load and its memory are as after this many sections.
fn is_after<A: Allocator>(load: &SectionsLoad<A>, memory: &Memory, count: u64) -> bool {
    load.rounds() == count
        && load.missing() == missing_of_sections(count)
        && bytes_of(memory) == Some(bytes_of_sections(count))
}

// Returns the verdict on a stream that is cut after this many sections.
fn cut_after(count: u64) -> Result<(), LoadFault> {
    Err(LoadFault {
        round: count,
        source: Origin::Main,
        fault: Fault::Stream(StreamFault::Truncated),
    })
}

// Loads the stream in pieces of `len` bytes. After each the memory has the sections so far alone.
fn load_pieces(rt: &(impl AllocGlobal + Abort), text: &[u8], len: usize) {
    let mut memory = fives(rt);
    let settings = LoadSettings::new(4096, LIMIT);
    let mut load = SectionsLoad::new(rt.alloc(), settings, memory.table()).expect(rt, "a load");
    for piece in text.chunks(len.max(1)) {
        assert!(rt; load.goes_on() && feed(&mut load, &mut memory, piece) == Ok(()));
        let count = sections_after(load.fed());
        assert!(rt; is_after(&load, &memory, count));
        assert!(rt; load.fed() == LEN || load.verdict() == cut_after(count));
    }
    assert!(rt; load.fed() == LEN && load.verdict() == Ok(()) && !load.goes_on());
    assert!(rt; load.closed_at() == Some(LEN) && load.valid_up_to() == Some(LEN));
}

#[test]
fn pieces_of_any_length(rt: HostRuntime) {
    let text = stream(&rt);
    for len in [1usize, 7, 4096, 10_000] {
        load_pieces(&rt, &text, len);
    }
}

// The footer of round 1 is changed: the round before it stays, and nothing of round 1 comes.
#[test]
fn bad_section(rt: HostRuntime) {
    let mut text = stream(&rt);
    *text.get_mut(8310).expect(&rt, "a byte") = 9;
    let mut memory = fives(&rt);
    let settings = LoadSettings::new(4096, LIMIT);
    let mut load = SectionsLoad::new(rt.alloc(), settings, memory.table()).expect(&rt, "a load");
    assert!(rt; feed(&mut load, &mut memory, &text) == Ok(()));
    assert!(rt; is_after(&load, &memory, 2) && !load.goes_on());
    let fault = Fault::Stream(StreamFault::Footer);
    let verdict = load.verdict();
    assert!(rt; verdict.is_err_and(|found| found.round == 2 && found.fault == fault));
}

// A stream of another table is loaded into none of the pages, and all lack.
#[test]
fn stream_of_another_table(rt: HostRuntime) {
    let text = stream(&rt);
    let mut memory = zeroed(rt.alloc(), &[("b", 2)]).expect(&rt, "a memory");
    assert!(rt; set(&mut memory, 0, 0, 5) && set(&mut memory, 0, 4096, 5));
    let settings = LoadSettings::new(4096, LIMIT);
    let mut load = SectionsLoad::new(rt.alloc(), settings, memory.table()).expect(&rt, "a load");
    assert!(rt; feed(&mut load, &mut memory, &text) == Ok(()));
    assert!(rt; is_after(&load, &memory, 0) && load.fed() == LEN && load.valid_up_to().is_none());
    assert!(rt;
        load.verdict()
            .is_err_and(|found| found.fault == Fault::OtherTable)
    );
    // a memory of another table than the load's changes nothing
    let mut other = fives(&rt);
    assert!(rt; feed(&mut load, &mut other, &text) == Err(InPlaceFault::OtherTable));
    assert!(rt; load.fed() == LEN);
}

// Feeds the stream at once, where the allocation with this number is refused, and again. Returns
// whether nothing changed the first time, and all came the second time; None if none was refused.
fn is_fed_again(rt: &(impl AllocGlobal + Abort), text: &[u8], number: u64) -> Option<bool> {
    let mut memory = fives(rt);
    let heap = TestHeap::new(rt.alloc());
    let of = table(rt.alloc(), &[("a", 2)])?;
    let settings = LoadSettings::new(4096, LIMIT);
    let mut load = SectionsLoad::new(&heap, settings, &of).ok()?;
    heap.refuse(number);
    let first = feed(&mut load, &mut memory, text);
    heap.refuse(0);
    if first == Ok(()) {
        return None;
    }
    let same = first == Err(InPlaceFault::NoMemory) && load.fed() == 0;
    let was = same && is_after(&load, &memory, 0);
    let now = feed(&mut load, &mut memory, text) == Ok(()) && is_after(&load, &memory, 4);
    Some(was && now)
}

#[test]
fn refused_allocations(rt: HostRuntime) {
    let text = stream(&rt);
    for number in 1..1000u64 {
        let Some(fed) = is_fed_again(&rt, &text, number) else {
            assert!(rt; number > 3);
            return;
        };
        assert!(rt; fed);
    }
    panic!(rt; "each feed was refused");
}
