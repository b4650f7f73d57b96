//! The pages of a block in regions, each of which has slots and bytes of its own. So several
//! threads can write the pages of one block. `Memory` keeps one such value for each block.

ghost use Rattle.std.specs.Prelude.{ℕ, ◌≡◌, ◌+◌, ◌*◌, ◌/◌, ◌^◌, ◌<◌, ◌≤◌, length, map, min, ◌%◌, replicate, slice_set, All, IfOk, IsTrue};
ghost use Rattle.std.specs.List.{range_with_len};
ghost use Rattle.mig_mem.specs.PageSize.{IsPageSize};
ghost use Rattle.mig_mem.specs.Image.{zero_page};
ghost use Rattle.mig_mem.specs.BlockPages.{page_at, with_content, cleared};
ghost use Rattle.mig_mem.specs.Buffers.{pages_of_block};
ghost use Rattle.mig_mem.specs.Regions.{zero_region};
ghost use Rattle.mig_mem.specs.Puts.{HasPageSize, PutsPages};

use crate::pages::Pages;
use crate::region_puts::put_regions;
use crate::{NoMemory, RoundPage};
use std::alloc::Allocator;
use std::marker::Model;
use std::thread::Threads;

// The fewest pages of a region, but for the last one of a block. Pages of 4 KiB have 64 MiB then,
// for which the C library asks the system, so that they aren't touched before they are written.
const FEWEST: u64 = 16384;

// The most regions of a block.
const MOST: u64 = 64;

/// The pages of a block. As with `Pages`, the room for all pages is there from the start, and isn't
/// touched before it is needed.
pub(crate) struct Regions<A: Allocator> {
    size: u64,
    count: u64,
    // how many pages a region has; the last one may have fewer
    per: u64,
    regions: Vec<Pages<A>, A>,
}

// Written out, so that a caller's proof passes a call where a value is dropped.
impl<A: Allocator> Drop for Regions<A> {
    fn drop(self) {
        let Regions {
            size: _,
            count: _,
            per: _,
            regions: _,
        } = self;
    }
}

impl<A: Allocator> Model for Regions<A> {
    ghost use Rattle.mig_mem.specs.BlockPages.{BlockPages};
    ghost use Rattle.mig_mem.specs.Regions.{in_regions, AreRegions};

    ghost Value = { BlockPages };

    ghost view = { λ b. in_regions b.per b.size b.count b.regions.items };

    ghost invariant = { λ b. AreRegions b.per b.size b.count b.regions.items };
}

// Returns how many pages each region of a block of `count` pages has.
fn region_len(count: u64) -> u64
    ensures some { 0 < result }
    ensures few { result ≤ count + 16384 }
{
    count.div_ceil(MOST).max(FEWEST)
}

// Creates the regions of a block of `count` pages of zeros.
fn zero_regions<A: Allocator + Copy>(
    alloc: A,
    size: u64,
    count: u64,
    per: u64,
) -> Result<Vec<Pages<A>, A>, NoMemory>
    requires size { IsPageSize size }
    requires room { count * size ≤ 2 ^ 40 }
    requires per { 0 < per }
    ensures { IfOk result (λ v. v.items ≡ map (zero_region per size count) (range_with_len 0 (count / per + min 1 (count % per)))) }
{
    let regions_needed = count.div_ceil(per);
    let mut regions = Vec::with_capacity(alloc, regions_needed as usize)?;
    for i in 0..regions_needed {
        let first = i * per;
        let pages = (count - first).min(per);
        regions.push(Pages::zeroed(alloc, size, pages)?)?;
    }
    Ok(regions)
}

impl<A: Allocator + Copy> Regions<A> {
    /// Creates pages of zeros, with room for all of them.
    pub(crate) fn zeroed(alloc: A, size: u64, count: u64) -> Result<Regions<A>, NoMemory>
        requires size { IsPageSize size }
        requires room { count * size ≤ 2 ^ 40 }
        ensures { IfOk result (λ b. b ≡ record { size = size; pages = replicate count (zero_page size) }) }
    {
        let per = region_len(count);
        let regions = zero_regions(alloc, size, count, per)?;
        Ok(Regions {
            size,
            count,
            per,
            regions,
        })
    }

    /// Copies the pages. The copy has room for all of them.
    pub(crate) fn try_copy(&self) -> Result<Regions<A>, NoMemory>
        ensures { IfOk result (λ b. b ≡ self.now) }
    {
        let alloc = *self.regions.allocator();
        let mut regions = Vec::with_capacity(alloc, self.regions.len())?;
        for region in &self.regions {
            regions.push(region.try_copy()?)?;
        }
        Ok(Regions {
            size: self.size,
            count: self.count,
            per: self.per,
            regions,
        })
    }
}

impl<A: Allocator> Regions<A> {
    /// Returns the content of a page.
    pub(crate) fn page(&self, i: u64) -> &[u8]
        requires { i < length self.now.pages }
        ensures { result.now ≡ page_at self.now i }
    {
        let at = (i / self.per) as usize;
        self.regions[at].page(i % self.per)
    }

    /// Returns whether a page was never written, and so is zeros.
    pub(crate) fn is_blank(&self, i: u64) -> bool
        requires { i < length self.now.pages }
        ensures { IsTrue result → page_at self.now i ≡ zero_page self.now.size }
    {
        let at = (i / self.per) as usize;
        self.regions[at].is_blank(i % self.per)
    }

    /// Writes a page. It allocates nothing.
    pub(crate) fn put(&mut self, i: u64, content: &[u8])
        requires page { i < length self.old.pages }
        requires size { length content.now ≡ self.old.size }
        ensures { self.new ≡ with_content self.old i content.now }
    {
        let at = (i / self.per) as usize;
        self.regions[at].put(i % self.per, content);
    }

    /// Makes a page zeros. It allocates nothing, and touches no page that was never written.
    pub(crate) fn put_zeros(&mut self, i: u64)
        requires { i < length self.old.pages }
        ensures { self.new ≡ with_content self.old i (zero_page self.old.size) }
    {
        let at = (i / self.per) as usize;
        self.regions[at].put_zeros(i % self.per);
    }

    /// Writes one byte of a page. It allocates nothing.
    pub(crate) fn set(&mut self, i: u64, offset: u64, byte: u8)
        requires page { i < length self.old.pages }
        requires offset { offset < self.old.size }
        ensures { self.new ≡ with_content self.old i (slice_set (page_at self.old i) offset byte) }
    {
        let at = (i / self.per) as usize;
        self.regions[at].set(i % self.per, offset, byte);
    }

    /// Sets all pages to zeros, as if none was ever written. It allocates nothing and touches no
    /// page.
    pub(crate) fn clear(&mut self)
        ensures { self.new ≡ cleared self.old }
    {
        for region in self.regions.iter_mut() {
            region.clear();
        }
    }
}

impl<A: Allocator + Send> Regions<A> {
    /// Writes the pages of a round that lie in this block, whose number is `block`, by at most
    /// `threads` threads. It allocates nothing.
    pub(crate) fn put_pages<R: Threads + Sync>(
        &mut self,
        rt: &R,
        block: usize,
        threads: u64,
        pages: &[RoundPage<'_>],
    )
        requires threads { 0 < threads }
        requires sizes { All (HasPageSize self.old.size) pages.now }
        ensures { PutsPages self.old.size block 0 self.old self.new pages.now }
    {
        put_regions(
            rt,
            &mut self.regions,
            self.per,
            self.size,
            block,
            threads,
            pages,
        );
    }
}

/// Writes the pages of a round that lie in the blocks, one block after another, each by at most
/// `threads` threads. It allocates nothing.
pub(crate) fn put_in_blocks<R: Threads + Sync, A: Allocator + Send>(
    rt: &R,
    blocks: &mut [Regions<A>],
    threads: u64,
    pages: &[RoundPage<'_>],
)
    requires threads { 0 < threads }
    requires sizes { All (λ block. All (HasPageSize block.size) pages.now) blocks.old }
    ensures { (k : ℕ) → k < length blocks.old
        → PutsPages (pages_of_block blocks.old k).size k 0 (pages_of_block blocks.old k) (pages_of_block blocks.new k) pages.now }
{
    for b in 0..blocks.len() {
        blocks[b].put_pages(rt, b, threads, pages);
    }
}
