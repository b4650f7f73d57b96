//! The pages of rounds written into a `Memory` by several threads, compared with pages written one
//! by one.

ghost use Rattle.std.specs.Prelude.{◌≡◌, ◌<◌, length, All};
ghost use Rattle.mig_mem.specs.Puts.{HasPageSize};

use mig_fixtures::{at, zeroed};
use mig_mem::{Memory, Place, RoundPage, first_difference};
use std::alloc::AllocGlobal;
use std::process::Abort;
use std::thread::Threads;

// A block of three regions, which threads share, and a small one.
const BLOCKS: [(&str, u64); 2] = [("a", 40_000), ("b", 5)];

// How many pages a round has: enough for four threads.
const PAGES: u64 = 4100;

// Returns the place of a page of a round by its number: of pages of the large block in no order,
// and of those of the small one, which come more than once.
fn place_of(i: u64) -> Place {
    if i % 8 == 7 {
        at(1, i % 5)
    } else {
        at(0, i % 40_000 * 37 % 40_000)
    }
}

// Returns a page of a round by its number. Of eight threes one after another, two have a content,
// others with each `turn`.
fn page<'a>(i: u64, turn: u64, ones: &'a [u8], twos: &'a [u8]) -> RoundPage<'a>
    requires { length ones.now ≡ length twos.now }
    ensures { HasPageSize (length ones.now) result }
{
    let content = match i.wrapping_add(turn) / 3 % 8 {
        0 => Some(ones),
        1 => Some(twos),
        _ => None,
    };
    RoundPage {
        place: place_of(i),
        content,
    }
}

// Returns a round of pages of both blocks, and of pages that the table has no place for.
fn round<'a>(
    rt: &(impl AllocGlobal + Abort),
    turn: u64,
    ones: &'a [u8],
    twos: &'a [u8],
) -> Vec<RoundPage<'a>>
    requires { length ones.now ≡ length twos.now }
    ensures { All (HasPageSize (length ones.now)) result.items }
{
    let mut pages = Vec::new(rt.alloc());
    for i in 0..PAGES {
        assert!(rt; pages.push(page(i, turn, ones, twos)).is_ok());
    }
    let content = Some(ones);
    for place in [at(0, 40_000), at(1, 5), at(2, 0)] {
        assert!(rt; pages.push(RoundPage { place, content }).is_ok());
    }
    pages
}

// Puts pages one by one, where the memory has their places.
fn put_in_turn(memory: &mut Memory, pages: &[RoundPage<'_>]) -> bool {
    for page in pages {
        if !memory.table().holds(page.place) {
            continue;
        }
        match page.content {
            Some(bytes) if memory.table().page_size() == bytes.len() as u64 => {
                memory.put_page(page.place, bytes);
            }
            Some(_) => return false,
            None => memory.put_zero_page(page.place),
        }
    }
    true
}

// Puts a round into a memory by `threads` threads and into another one page by page. Returns
// whether they are the same then.
fn are_same_after<R: Threads + Sync>(
    rt: &R,
    memory: &mut Memory,
    wanted: &mut Memory,
    threads: u64,
    pages: &[RoundPage<'_>],
) -> bool
    requires threads { 0 < threads }
    requires sizes { All (HasPageSize 4096) pages.now }
{
    if memory.table().page_size() != 4096 || !put_in_turn(wanted, pages) {
        return false;
    }
    memory.put_pages(rt, threads, pages);
    memory.table().same(wanted.table()) && first_difference(memory, wanted).is_none()
}

// Returns whether two rounds that `threads` threads put leave what they leave page by page. The
// second has contents at other places.
fn are_put<R: AllocGlobal + Abort + Threads + Sync>(
    rt: &R,
    threads: u64,
    first: &[RoundPage<'_>],
    second: &[RoundPage<'_>],
) -> bool
    requires threads { 0 < threads }
    requires first { All (HasPageSize 4096) first.now }
    requires second { All (HasPageSize 4096) second.now }
{
    let mut memory = zeroed(rt.alloc(), &BLOCKS).expect(rt, "a memory");
    let mut wanted = zeroed(rt.alloc(), &BLOCKS).expect(rt, "a memory");
    are_same_after(rt, &mut memory, &mut wanted, threads, first)
        && are_same_after(rt, &mut memory, &mut wanted, threads, second)
}

#[test]
fn regions_that_threads_share(rt: HostRuntime) {
    let (ones, twos) = ([1; 4096], [2; 4096]);
    let first = round(&rt, 0, &ones, &twos);
    let second = round(&rt, 3, &ones, &twos);
    for threads in [1, 2, 4] {
        assert!(rt; are_put(&rt, threads, &first, &second));
    }
}
