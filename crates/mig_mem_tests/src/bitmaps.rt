//! Sets of pages from bitmaps: of two blocks whose last words are partial, with bits after the last
//! page, and the copy of such a set.

use mig_fixtures::{at, table};
use mig_mem::{Dirty, Table};
use std::alloc::Global;

// Bits 6 of the second word and 3 of the last one are of no page: the blocks have 70 pages and 3.
const FIRST: [u64; 2] = [1 << 63 | 1, 0b110_0001];

const SECOND: [u64; 1] = [0b1101];

// Returns the set of these bitmaps, if they fit the table.
fn set_of(alloc: Global, table: &Table, bitmaps: &[&[u64]]) -> Option<Dirty> {
    if !table.has_bitmaps(bitmaps) {
        return None;
    }
    Dirty::from_bitmaps(alloc, table, bitmaps).ok()
}

fn has_each_page(alloc: Global) -> Option<bool> {
    let table = table(alloc, &[("a", 70), ("b", 3)])?;
    let dirty = set_of(alloc, &table, &[&FIRST, &SECOND])?;
    let pages = dirty.copy_in(alloc).ok()?.pages().ok()?;
    let wanted = [
        at(0, 0),
        at(0, 63),
        at(0, 64),
        at(0, 69),
        at(1, 0),
        at(1, 2),
    ];
    Some(
        dirty.count() == 6
            && pages.as_slice() == wanted.as_slice()
            && dirty.page_after(0, 0, 3) == 65,
    )
}

fn refuses_others(alloc: Global) -> Option<bool> {
    let table = table(alloc, &[("a", 70), ("b", 3)])?;
    let short = table.has_bitmaps(&[&SECOND, &SECOND]);
    let fewer = table.has_bitmaps(&[&FIRST]);
    let longer = table.has_bitmaps(&[&FIRST, &FIRST]);
    Some(!short && !fewer && longer)
}

#[test]
fn pages_of_bitmaps(rt: HostRuntime) {
    assert!(rt; has_each_page(rt.alloc()) == Some(true));
}

#[test]
fn bitmaps_of_another_table(rt: HostRuntime) {
    assert!(rt; refuses_others(rt.alloc()) == Some(true));
}
