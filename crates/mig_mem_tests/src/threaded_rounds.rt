//! A round that several threads write into a target.

use crate::rounds::records;
use mig_assemble::{Gathered, Target};
use mig_fixtures::{at, has_byte, is_full, places_of, set, zeroed};
use mig_mem::{Memory, Place};
use mig_stream::StreamRound;
use std::alloc::{AllocGlobal, Global};
use std::process::Abort;
use std::thread::Threads;

// A round of all pages of the large block is written by threads.
const BLOCKS: [(&str, u64); 2] = [("a", 5000), ("b", 3)];

// Returns all pages of the large block.
fn all_places(rt: &(impl AllocGlobal + Abort)) -> Vec<Place> {
    let mut places = Vec::new(rt.alloc());
    for page in 0..5000u64 {
        assert!(rt; places.push(at(0, page)).is_ok());
    }
    places
}

// Returns a round of all pages of the large block: page 7 begins with a 3, and all else is zeros.
fn round(rt: &(impl AllocGlobal + Abort)) -> StreamRound<'static> {
    let mut image = zeroed(rt.alloc(), &BLOCKS).expect(rt, "a memory");
    assert!(rt; set(&mut image, 0, 7 * 4096, 3));
    let dirty = places_of(rt.alloc(), image.table(), &all_places(rt)).expect(rt, "a set");
    records(rt, image, dirty)
}

// Returns a target without a round, whose memory has a byte in some pages of both blocks.
fn target(alloc: Global) -> Option<Target> {
    let mut memory = zeroed(alloc, &BLOCKS)?;
    for (block, offset) in [(0usize, 0u64), (0, 7 * 4096), (0, 4999 * 4096), (1, 0)] {
        if !set(&mut memory, block, offset, 9) {
            return None;
        }
    }
    Target::over(alloc, memory).ok()
}

// Judges a round of records and applies it by four threads. Returns whether that was done.
fn is_put<R: AllocGlobal + Threads + Sync>(
    rt: &R,
    target: &mut Target,
    round: &StreamRound<'_>,
) -> bool {
    if target.memory().table().page_size() != 4096 || !target.fits(round) {
        return false;
    }
    if target.base() != 0 || target.rounds() != 0 {
        return false;
    }
    target.round_by(rt, 4, round, &Gathered::new(rt.alloc())) == Ok(()) && target.rounds() == 1
}

// Returns whether a memory has the pages of that round. The small block isn't in it.
fn has_round(memory: &Memory) -> bool {
    is_full(memory, at(0, 0), 0)
        && has_byte(memory, at(0, 7), 0, 3)
        && is_full(memory, at(0, 4999), 0)
        && has_byte(memory, at(1, 0), 0, 9)
}

#[test]
fn round_that_threads_write(rt: HostRuntime) {
    let mut target = target(rt.alloc()).expect(&rt, "a target");
    assert!(rt; is_put(&rt, &mut target, &round(&rt)));
    assert!(rt; has_round(target.memory()));
}
