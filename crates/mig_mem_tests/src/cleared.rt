//! A memory that was written, cleared and written again, beside one that is new.

use mig_fixtures::{at, set, zeroed};
use mig_mem::{Memory, Place, first_difference};
use std::alloc::{AllocGlobal, Global};
use std::process::Abort;

// A block of two regions, and a small one.
const BLOCKS: [(&str, u64); 2] = [("pc.ram", 16400), ("b", 2)];

// Fills pages with a byte. Returns whether the memory has them.
fn fill(memory: &mut Memory, places: &[Place], byte: u8) -> bool {
    for place in places {
        let table = memory.table();
        if !table.holds(*place) || table.page_size() != 4096 {
            return false;
        }
        memory.put_page(*place, &[byte; 4096]);
    }
    true
}

// Sets the first byte of pages. Returns whether the memory has them.
fn mark(memory: &mut Memory, places: &[Place], byte: u8) -> bool {
    for place in places {
        if !set(memory, place.block, place.page.saturating_mul(4096), byte) {
            return false;
        }
    }
    true
}

// Returns whether a memory has a page that was never written.
fn is_blank(memory: &Memory, place: Place) -> bool {
    memory.table().holds(place) && memory.is_blank(place)
}

// Returns whether no page of a memory counts as written.
fn is_all_blank(memory: &Memory) -> bool {
    for (block, (_, pages)) in BLOCKS.iter().enumerate() {
        if !(0..*pages).all(|page| is_blank(memory, at(block, page))) {
            return false;
        }
    }
    true
}

// Returns whether two memories are the same, whichever comes first.
fn are_same(a: &Memory, b: &Memory) -> bool {
    if !a.table().same(b.table()) || !b.table().same(a.table()) {
        return false;
    }
    first_difference(a, b).is_none() && first_difference(b, a).is_none()
}

// Clears a memory of full pages, and then writes others in another order, which take their room.
fn is_as_new(alloc: Global) -> Option<bool> {
    let first = [at(0, 16390), at(0, 3), at(1, 0), at(0, 16384), at(0, 0)];
    let second = [
        at(0, 0),
        at(0, 1),
        at(0, 16391),
        at(1, 1),
        at(0, 3),
        at(0, 2),
    ];
    let mut memory = zeroed(alloc, &BLOCKS)?;
    let mut new = zeroed(alloc, &BLOCKS)?;
    let was_written = fill(&mut memory, &first, 7) && !is_blank(&memory, at(0, 3));
    memory.clear();
    let is_cleared = is_all_blank(&memory) && are_same(&memory, &new);
    let is_marked = mark(&mut memory, &second, 8) && mark(&mut new, &second, 8);
    Some(was_written && is_cleared && is_marked && are_same(&memory, &new))
}

#[test]
fn cleared_memory_is_as_a_new_one(rt: HostRuntime) {
    assert!(rt; is_as_new(rt.alloc()) == Some(true));
}
