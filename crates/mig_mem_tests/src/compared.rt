//! The set of the places where two memories differ, of a block that threads share.

use mig_fixtures::{at, set, zeroed};
use mig_mem::{Memory, Place, differences, first_difference};
use std::alloc::{AllocGlobal, Global};
use std::process::Abort;
use std::thread::Threads;

// A block whose pages threads share, between two that they don't.
const BLOCKS: [(&str, u64); 3] = [("a", 1), ("pc.ram", 5000), ("b", 63)];

// Returns a memory of zeros except for the first byte of some pages.
fn memory(alloc: Global, places: &[Place]) -> Option<Memory> {
    let mut memory = zeroed(alloc, &BLOCKS)?;
    for place in places {
        if !set(&mut memory, place.block, place.page.checked_mul(4096)?, 7) {
            return None;
        }
    }
    Some(memory)
}

// Returns whether these are the places where two memories differ.
fn differ<R: AllocGlobal + Threads + Sync>(
    rt: &R,
    a: &Memory,
    b: &Memory,
    places: &[Place],
) -> Option<bool> {
    if !a.table().same(b.table()) {
        return None;
    }
    let found = differences(rt, rt.alloc(), a, b).ok()?.pages().ok()?;
    Some(found.as_slice() == places && first_difference(a, b) == places.first().copied())
}

// Whichever of the memories comes first.
#[test]
fn pages_that_threads_share(rt: HostRuntime) {
    let both = at(1, 3000);
    let one = [at(1, 0), at(1, 63), at(1, 2047), both, at(1, 4999)];
    let other = [at(0, 0), at(1, 64), at(1, 2048), both, at(2, 62)];
    let all = [
        at(0, 0),
        at(1, 0),
        at(1, 63),
        at(1, 64),
        at(1, 2047),
        at(1, 2048),
        at(1, 4999),
        at(2, 62),
    ];
    let one = memory(rt.alloc(), &one).expect(&rt, "a memory");
    let other = memory(rt.alloc(), &other).expect(&rt, "a memory");
    assert!(rt; differ(&rt, &one, &other, &all) == Some(true));
    assert!(rt; differ(&rt, &other, &one, &all) == Some(true));
}
