//! The pages of a round written into lent bytes by several threads, compared with pages written one
//! by one.

ghost use Rattle.std.specs.Prelude.{◌≡◌, ◌<◌, length, All};
ghost use Rattle.mig_mem.specs.Puts.{HasPageSize};

use mig_fixtures::{at, table};
use mig_mem::{GuestTarget, LentMemoryMut, RoundPage, Table};
use std::alloc::AllocGlobal;
use std::process::Abort;
use std::thread::Threads;

// A block whose pages four threads share, and a small one.
const BLOCKS: [(&str, u64); 2] = [("a", 4097), ("b", 5)];

// The bytes of each block.
const FIRST: usize = 4097 * 4096;

const SECOND: usize = 5 * 4096;

// The number of the round's pages: more than the blocks have, so that some are repeated.
const PAGES: u64 = 5000;

// Returns the page of the round by its number. One of four consecutive pages is zeros.
fn page<'a>(i: u64, ones: &'a [u8], twos: &'a [u8]) -> RoundPage<'a>
    requires { length ones.now ≡ length twos.now }
    ensures { HasPageSize (length ones.now) result }
{
    let place = if i % 8 == 7 {
        at(1, i % 5)
    } else {
        at(0, i % 4097 * 37 % 4097)
    };
    let content = match i / 3 % 4 {
        0 => None,
        1 => Some(ones),
        _ => Some(twos),
    };
    RoundPage { place, content }
}

// Returns a round of unordered pages of both blocks, and of pages that the table has no place for.
fn round<'a>(rt: &(impl AllocGlobal + Abort), ones: &'a [u8], twos: &'a [u8]) -> Vec<RoundPage<'a>>
    requires { length ones.now ≡ length twos.now }
    ensures { All (HasPageSize (length ones.now)) result.items }
{
    let mut pages = Vec::new(rt.alloc());
    for i in 0..PAGES {
        assert!(rt; pages.push(page(i, ones, twos)).is_ok());
    }
    let content = Some(ones);
    for place in [at(0, 4097), at(1, 5), at(2, 0)] {
        assert!(rt; pages.push(RoundPage { place, content }).is_ok());
    }
    pages
}

// Writes pages one by one, if the table has their places.
fn put_in_turn(table: &Table, blocks: &mut [&mut [u8]], pages: &[RoundPage<'_>]) -> Option<()> {
    let mut memory = LentMemoryMut::new(table, blocks).ok()?;
    for page in pages {
        if !memory.table().holds(page.place) {
            continue;
        }
        match page.content {
            Some(bytes) if memory.table().page_size() == bytes.len() as u64 => {
                memory.put_page(page.place, bytes);
            }
            Some(_) => return None,
            None => memory.put_zero_page(page.place),
        }
    }
    Some(())
}

// Writes pages by `threads` threads. Returns how many blocks are given back.
fn put_by_threads<R: Abort + Threads + Sync>(
    rt: &R,
    table: &Table,
    blocks: &mut [&mut [u8]],
    threads: u64,
    pages: &[RoundPage<'_>],
) -> usize
    requires threads { 0 < threads }
    requires sizes { All (HasPageSize table.now.page_size) pages.now }
{
    let mut memory = LentMemoryMut::new(table, blocks)
        .ok()
        .expect(rt, "a memory");
    memory.put_pages(rt, threads, pages);
    memory.into_blocks().len()
}

// Returns two values as an array.
fn both<T: Drop>(one: T, other: T) -> [T; 2] {
    [one, other]
}

// Returns `len` bytes of 9.
fn nines(rt: &(impl AllocGlobal + Abort), len: usize) -> Vec<u8> {
    vec![in rt.alloc(); 9u8; len].expect(rt, "bytes")
}

// Returns whether a round written by `threads` threads leaves these bytes of blocks of nines.
fn leaves<R: AllocGlobal + Abort + Threads + Sync>(
    rt: &R,
    table: &Table,
    threads: u64,
    pages: &[RoundPage<'_>],
    wanted: &[Vec<u8>; 2],
) -> bool
    requires threads { 0 < threads }
    requires sizes { All (HasPageSize table.now.page_size) pages.now }
{
    let [wanted_first, wanted_second] = wanted;
    let mut first = nines(rt, FIRST);
    let mut second = nines(rt, SECOND);
    let mut blocks = both(first.as_mut_slice(), second.as_mut_slice());
    let given_back = put_by_threads(rt, table, &mut blocks, threads, pages);
    given_back == 2
        && first.as_slice() == wanted_first.as_slice()
        && second.as_slice() == wanted_second.as_slice()
}

// Returns the bytes of both blocks after a round whose pages are written one by one.
fn wanted(rt: &(impl AllocGlobal + Abort), table: &Table, pages: &[RoundPage<'_>]) -> [Vec<u8>; 2] {
    let mut first = nines(rt, FIRST);
    let mut second = nines(rt, SECOND);
    let mut blocks = both(first.as_mut_slice(), second.as_mut_slice());
    assert!(rt; put_in_turn(table, &mut blocks, pages) == Some(()));
    [first, second]
}

#[test]
fn pages_that_threads_share(rt: HostRuntime) {
    let table = table(rt.alloc(), &BLOCKS).expect(&rt, "a table");
    assert!(rt; table.page_size() == 4096);
    let (ones, twos) = ([1; 4096], [2; 4096]);
    let pages = round(&rt, &ones, &twos);
    let wanted = wanted(&rt, &table, &pages);
    for threads in [1, 2, 4] {
        assert!(rt; leaves(&rt, &table, threads, &pages, &wanted));
    }
}
