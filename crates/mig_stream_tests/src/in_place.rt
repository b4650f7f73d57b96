//! The loader over bytes that the caller keeps: the bytes after the guest's stream, and what is
//! held while it is sent and loaded.

use crate::parts::{PIECE, all_of, block_of, send};
use mig_fixtures::{TestHeap, table, table_of};
use mig_load_types::{LoadFault, LoadSettings};
use mig_mem::{
    Dirty, GuestTarget, LentMemory, LentMemoryMut, MAX_TOTAL, PAGE_SIZE_4K, PAGE_SIZE_8K, Table,
};
use mig_single_load::InPlaceLoader;
use std::alloc::{AllocGlobal, Allocator, Global};
use std::process::Abort;

// What a load came to: the sections that were put, and the verdict.
type Answer = (u64, Result<(), LoadFault>);

// Returns one value as an array.
fn alone<T: Drop>(one: T) -> [T; 1] {
    [one]
}

// Returns two values as an array.
fn both<T: Drop>(one: T, other: T) -> [T; 2] {
    [one, other]
}

// Sends the marked pages of a guest to a memory, in parts of at most `most` pages, fed in pieces of
// 64 KiB.
fn migrate<A: Allocator + Copy, B: Allocator, M: GuestTarget + Drop>(
    alloc: A,
    guest: &LentMemory<'_, B>,
    dirty: Dirty<A>,
    most: u64,
    memory: M,
) -> Option<Answer> {
    let settings = LoadSettings::new(memory.table().page_size(), MAX_TOTAL);
    let mut loader = InPlaceLoader::new(alloc, settings, memory).ok()?;
    send(alloc, guest, dirty, most, &mut loader)?;
    loader.end();
    Some((loader.rounds(), loader.verdict()))
}

// Sends all pages of a guest in the bytes of `guest`, to the bytes of `onto`.
fn migrate_all<A: Allocator + Copy, B: Allocator>(
    alloc: A,
    table: &Table<B>,
    guest: &[&[u8]],
    onto: &mut [&mut [u8]],
    most: u64,
) -> Option<Answer> {
    let guest = LentMemory::new(table, guest)?;
    let memory = LentMemoryMut::new(table, onto).ok()?;
    migrate(alloc, &guest, all_of(alloc, table)?, most, memory)
}

// Returns bytes that are none of the guest's, as many as `bytes`.
fn others(alloc: Global, bytes: &[u8]) -> Option<Vec<u8>> {
    vec![in alloc; 0xEE; bytes.len()].ok()
}

// Sends all pages of a guest of two blocks onto such bytes, in parts of 16 pages, so that there are
// START, five parts and END. Returns whether the guest is there then.
fn is_loaded(alloc: Global, table: &Table, first: &[u8], second: &[u8]) -> Option<bool> {
    let mut one = others(alloc, first)?;
    let mut two = others(alloc, second)?;
    let mut onto = both(one.as_mut_slice(), two.as_mut_slice());
    let answer = migrate_all(alloc, table, &both(first, second), &mut onto, 16)?;
    Some(answer == (7, Ok(())) && one.as_slice() == first && two.as_slice() == second)
}

// Migrates a guest of blocks of 3 and of 71 pages.
fn is_migrated(alloc: Global, page_size: u64) -> Option<bool> {
    let table = table_of(alloc, page_size, &[("a", 3), ("pc.ram", 71)])?;
    let first = block_of(alloc, page_size, 0, 3)?;
    let second = block_of(alloc, page_size, 1, 71)?;
    is_loaded(alloc, &table, &first, &second)
}

#[test]
fn migrated(rt: HostRuntime) {
    for page_size in [PAGE_SIZE_4K, PAGE_SIZE_8K] {
        assert!(rt; is_migrated(rt.alloc(), page_size) == Some(true));
    }
}

// A part of 64 pages without zeros, and its stream: for the guest's first pages also the opening,
// which has less than 100 bytes.
const PART: u64 = 64 * PAGE_SIZE_4K;

const TEXT: u64 = PART + 64 * 8 + 128;

// The most bytes that sender and loader may hold at once: the stream that is fed and the buffer of
// the next one, both of which doubled as they grew, so that each has room for two streams. The
// marks, the table and a page that a piece cut in two don't take another piece.
const MOST_HELD: u64 = 2 * (2 * TEXT) + PIECE as u64;

// Returns whether a guest of one block, sent onto other bytes in parts of 64 pages, is there then,
// and little was held.
fn is_migrated_in_little(heap: &TestHeap, table: &Table, guest: &[u8], onto: &mut [u8]) -> bool {
    let answer = migrate_all(heap, table, &[guest], &mut alone(&mut *onto), 64);
    answer == Some((66, Ok(()))) && *onto == *guest && heap.held() == 0 && heap.peak() <= MOST_HELD
}

// Of a guest of 16 MiB, sender and loader hold little.
#[test]
fn migrated_in_little_memory(rt: HostRuntime) {
    let table = table(rt.alloc(), &[("pc.ram", 4096)]).expect(&rt, "a table");
    let guest = vec![in rt.alloc(); 0xEE; 4096 * 4096].expect(&rt, "bytes");
    let mut onto = vec![in rt.alloc(); 0u8; guest.len()].expect(&rt, "bytes");
    let heap = TestHeap::new(rt.alloc());
    assert!(rt; is_migrated_in_little(&heap, &table, &guest, &mut onto));
}
