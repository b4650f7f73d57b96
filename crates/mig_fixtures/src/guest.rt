//! Tables of some blocks, memories of them, sets of their pages, and single pages. Pages have 4096
//! bytes, except in `table_of`.

use mig_mem::{Dirty, Memory, PAGE_SIZE_4K, Place, Table, is_page_size};
use std::alloc::{AllocError, Allocator};

/// Returns the place of a page.
pub fn at(block: usize, page: u64) -> Place {
    Place { block, page }
}

/// Returns a list of ids with page counts, as a table takes it.
pub fn list<A: Allocator + Copy>(
    alloc: A,
    entries: &[(&str, u64)],
) -> Result<Vec<(Vec<u8, A>, u64), A>, AllocError> {
    let mut list = Vec::new(alloc);
    for (id, pages) in entries {
        list.push((Vec::from_slice(alloc, id.as_bytes())?, *pages))?;
    }
    Ok(list)
}

/// Returns the table of such a list.
pub fn table<A: Allocator + Copy>(alloc: A, entries: &[(&str, u64)]) -> Option<Table<A>> {
    table_of(alloc, PAGE_SIZE_4K, entries)
}

/// Returns the table of such a list with pages of `page_size` bytes. None if no page has that size.
pub fn table_of<A: Allocator + Copy>(
    alloc: A,
    page_size: u64,
    entries: &[(&str, u64)],
) -> Option<Table<A>> {
    if !is_page_size(page_size) {
        return None;
    }
    let list = list(alloc, entries).ok()?;
    Table::new(alloc, page_size, list).ok()
}

/// Returns a memory of zeros of such a table.
pub fn zeroed<A: Allocator + Copy>(alloc: A, entries: &[(&str, u64)]) -> Option<Memory<A>> {
    let table = table(alloc, entries)?;
    Memory::zeroed(alloc, &table).ok()
}

/// Returns the set of some places of a table. None if the table lacks one.
pub fn places_of<A: Allocator + Copy, B: Allocator>(
    alloc: A,
    table: &Table<B>,
    places: &[Place],
) -> Option<Dirty<A>> {
    let mut dirty = Dirty::none(alloc, table).ok()?;
    for place in places {
        if !dirty.table().holds(*place) {
            return None;
        }
        dirty.mark(*place).ok()?;
    }
    Some(dirty)
}

/// Writes one byte. Returns false if the offset isn't in the block.
pub fn set<A: Allocator>(memory: &mut Memory<A>, block: usize, offset: u64, byte: u8) -> bool {
    let table = memory.table();
    if block >= table.len() || offset >= table.pages(block) * table.page_size() {
        return false;
    }
    memory.set(block, offset, byte);
    true
}

/// Returns whether each byte of a page is this one.
pub fn is_full<A: Allocator>(memory: &Memory<A>, place: Place, byte: u8) -> bool {
    memory.page(place).is_some_and(|page| page.len() == 4096 && page.iter().all(|b| *b == byte))
}

/// Returns whether the first byte of a page that isn't 0 is `byte`, at `offset`.
pub fn has_byte<A: Allocator>(memory: &Memory<A>, place: Place, offset: usize, byte: u8) -> bool {
    memory.page(place).is_some_and(|page| page.iter().position(|b| *b != 0) == Some(offset)
        && page.get(offset) == Some(&byte))
}
