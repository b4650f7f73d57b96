//! A guest whose memory is lent as slices: a round of all its pages, loaded again.

use mig_mem::{Dirty, LentMemory, Memory, PAGE_SIZE_4K, Place, Table};
use mig_send::SingleSender;
use mig_single_load::load_single;
use std::alloc::Allocator;

const PLACES: [Place; 3] = [
    Place { block: 0, page: 0 },
    Place { block: 1, page: 0 },
    Place { block: 1, page: 1 },
];

// Returns a table of two blocks, of one page and of two.
fn table<A: Allocator + Copy>(alloc: A) -> Option<Table<A>> {
    let first = Vec::from_slice(alloc, b"a").ok()?;
    let second = Vec::from_slice(alloc, b"b").ok()?;
    let mut blocks = Vec::new(alloc);
    blocks.push((first, 1)).ok()?;
    blocks.push((second, 2)).ok()?;
    Table::new(alloc, PAGE_SIZE_4K, blocks).ok()
}

// Returns all pages of the table, marked.
fn all<A: Allocator + Copy>(alloc: A, table: &Table<A>) -> Option<Dirty<A>> {
    mig_fixtures::places_of(alloc, table, &PLACES)
}

// Returns the stream of a guest lent as these blocks: one round of all its pages.
fn sent<A: Allocator + Copy>(alloc: A, blocks: &[&[u8]]) -> Option<Vec<u8, A>> {
    let table = table(alloc)?;
    let lent = LentMemory::new(&table, blocks)?;
    let mut sender = SingleSender::new(alloc, &table).ok()?;
    sender.round(&lent, &all(alloc, &table)?).ok()?;
    sender.finish().ok()
}

// Returns the memory that a stream of three sections is loaded into.
fn loaded<A: Allocator + Copy>(alloc: A, stream: &[u8]) -> Option<Memory<A>> {
    let loaded = load_single(alloc, PAGE_SIZE_4K, stream, 1 << 20);
    if loaded.verdict != Ok(()) || loaded.rounds != 3 {
        return None;
    }
    loaded.memory
}

// Returns whether a memory has these bytes in its pages, one page after another.
fn has_pages<A: Allocator>(memory: &Memory<A>, blocks: [&[u8]; 3]) -> bool {
    for (place, bytes) in PLACES.iter().zip(blocks) {
        if memory.page(*place) != Some(bytes) {
            return false;
        }
    }
    true
}

// Returns whether all pages of a guest are loaded as they were sent in one round.
fn is_sent_and_loaded<A: Allocator + Copy>(alloc: A) -> Option<bool> {
    let first = [7; 4096];
    let mut second = [0; 8192];
    second[4100] = 9;
    let memory = loaded(alloc, &sent(alloc, &[&first, &second])?)?;
    Some(has_pages(&memory, [&first, &second[..4096], &second[4096..]]))
}

#[test]
fn lent_and_loaded(rt: HostRuntime) {
    assert!(rt; is_sent_and_loaded(rt.alloc()) == Some(true));
}
