//! Writes the pages of a round into lent blocks by several threads. Each thread writes a part of a
//! block that no other writes.
//!
//! Each thread walks all pages of the round, in their order, and writes those that lie in its part.
//! So the pages need no sorting and no memory. If a page occurs twice, the last one counts.

ghost use Rattle.std.specs.Prelude.{ℕ, [], ◌∷◌, ◌≡◌, ◌/◌, ◌<◌, ◌≤◌, ◌^◌, length, map, All};
ghost use Rattle.mig_mem.specs.Lent.{mut_lent_bytes, bytes_of_block, lent_image, FitTable};
ghost use Rattle.mig_mem.specs.PageSize.{IsPageSize};
ghost use Rattle.mig_mem.specs.Puts.{round_page, HasPageSize, PutsAll};
ghost use Rattle.mig_mem.specs.RamTable.{RamTable};
ghost use Rattle.mig_mem.specs.Round.{with_round};

use crate::Place;
use crate::pages::clear_part;
use crate::parts::write_part;
use std::thread::Threads;
use std::{fmt, thread};

// The fewest pages that are worth a thread: starting one takes longer than writing fewer.
const FEWEST: u64 = 1024;

/// A page of a round, as `LentMemoryMut::put_pages` takes it.
#[derive(Clone, Copy)]
pub struct RoundPage<'a> {
    /// Where the page is written.
    pub place: Place,
    /// The bytes of the page, as many as the page size. `None` is a page of zeros.
    pub content: Option<&'a [u8]>,
}

impl<'a> fmt::Debug for RoundPage<'a> {
    fn fmt<W: fmt::Write>(&self, f: &mut fmt::Formatter<W>) -> fmt::Result {
        f.pad("RoundPage { .. }")
    }
}

/// Returns how many threads are worth their start for `pages` pages: at most `threads`.
pub(crate) fn useful_threads(pages: u64, threads: u64) -> u64
    requires { 0 < threads }
    ensures { 0 < result }
{
    (pages / FEWEST).max(1).min(threads)
}

// Returns how many pages of a block each thread writes, if the block has `pages` pages and the
// round `round`.
fn pages_each(pages: u64, round: u64, threads: u64) -> u64
    requires { 0 < threads }
    ensures { (0 < result) × (result ≤ 2 ^ 40) }
{
    let useful = useful_threads(pages.min(round), threads);
    pages.div_ceil(useful).max(1).min(1 << 40)
}

// Writes `page` if it lies in the part of `block` that begins at page `first`.
fn put_one(part: &mut [u8], size: u64, block: usize, first: u64, page: &RoundPage<'_>)
    requires size { IsPageSize size }
    requires len { HasPageSize size page.now }
    ensures { PutsAll size block first part.old part.new (page.now ∷ []) }
{
    let count = part.len() as u64 / size;
    let place = page.place;
    if place.block == block && first <= place.page && place.page - first < count {
        let i = place.page - first;
        match page.content {
            Some(bytes) => write_part(part, size, i, bytes),
            None => clear_part(part, size, i),
        }
    }
}

// Writes those of `pages` that lie in the part of `block` that begins at page `first`.
fn put_within(part: &mut [u8], size: u64, block: usize, first: u64, pages: &[RoundPage<'_>])
    requires size { IsPageSize size }
    requires sizes { All (HasPageSize size) pages.now }
    ensures { PutsAll size block first part.old part.new pages.now }
{
    for page in pages {
        put_one(part, size, block, first, page);
    }
}

// Writes those of the round's pages that lie in one block, whose bytes are `bytes`. A thread writes
// `count` pages of the block.
fn put_block<R: Threads + Sync>(
    rt: &R,
    bytes: &mut [u8],
    block: usize,
    size: u64,
    count: u64,
    pages: &[RoundPage<'_>],
)
    requires size { IsPageSize size }
    requires count { (0 < count) × (count ≤ 2 ^ 40) }
    requires sizes { All (HasPageSize size) pages.now }
    ensures { PutsAll size block 0 bytes.old bytes.new pages.now }
{
    let chunk = (count * size) as usize;
    thread::for_each_chunk_mut(
        rt,
        bytes,
        chunk,
        &|start: usize, part: &mut [u8]|
            requires size { IsPageSize size }
            requires sizes { All (HasPageSize size) pages.now }
            ensures { PutsAll size block (start / size) part.entry.now part.exit.now pages.entry.now }
        { put_within(part, size, block, start as u64 / size, pages) },
    );
}

/// Writes the pages of a round, one block after another, each by at most `threads` threads.
pub(crate) fn put_blocks<R: Threads + Sync>(
    rt: &R,
    blocks: &mut [&mut [u8]],
    size: u64,
    threads: u64,
    pages: &[RoundPage<'_>],
)
    requires size { IsPageSize size }
    requires threads { 0 < threads }
    requires sizes { All (HasPageSize size) pages.now }
    ensures len { length blocks.new ≡ length blocks.old }
    ensures puts { (k : ℕ) → k < length blocks.old
        → PutsAll size k 0 (bytes_of_block (mut_lent_bytes blocks.old) k) (bytes_of_block (mut_lent_bytes blocks.new) k) pages.now }
    ensures image { (table : RamTable) → FitTable table (mut_lent_bytes blocks.old) → table.page_size ≡ size
        → lent_image table (mut_lent_bytes blocks.new) ≡ with_round (lent_image table (mut_lent_bytes blocks.old)) (map (round_page size) pages.now) }
{
    let round = pages.len() as u64;
    for b in 0..blocks.len() {
        let count = pages_each(blocks[b].len() as u64 / size, round, threads);
        put_block(rt, blocks[b], b, size, count, pages);
    }
}
