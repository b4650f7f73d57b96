//! Writes the pages of a round into the regions of a block by several threads. Each thread has some
//! regions for itself, one after another.
//!
//! As in `putting`, each thread walks all pages of the round, in their order, and writes those that
//! lie in its regions.

ghost use Rattle.std.specs.Prelude.{ℕ, [], ◌∷◌, ◌≡◌, ◌≢◌, ◌+◌, ◌*◌, ◌<◌, ◌≤◌, ◌^◌, length, All, IfSome, IfNone};
ghost use Rattle.mig_mem.specs.Place.{place_at};
ghost use Rattle.mig_mem.specs.BlockPages.{with_content};
ghost use Rattle.mig_mem.specs.Regions.{IsRegion};
ghost use Rattle.mig_mem.specs.Puts.{bytes_given, HasPageSize, PutsRegions};

use crate::pages::Pages;
use crate::putting::useful_threads;
use crate::{Place, RoundPage};
use std::alloc::Allocator;
use std::thread;
use std::thread::Threads;

// Returns where a page of a block lies in `regions` regions of it, which have `per` pages each and
// begin at page `first`: the number of the region, and that of the page in it.
#[tactic(auto, using(crate::proofs::RegionPuts::region_is))]
fn region_at(
    place: Place,
    block: usize,
    first: u64,
    per: u64,
    regions: usize,
) -> Option<(usize, u64)>
    requires { 0 < per }
    ensures some { IfSome result (λ r. (r.0 < regions) × (r.1 < per) × (place.block ≡ block) × (place.page ≡ first + r.0 * per + r.1)) }
    ensures none { IfNone result ((n i : ℕ) → n < regions → i < per → place ≢ place_at block (first + n * per + i)) }
{
    if place.block != block || place.page < first {
        return None;
    }
    let page = place.page - first;
    if regions as u64 <= page / per {
        return None;
    }
    Some(((page / per) as usize, page % per))
}

// Writes a page of a round as page `i` of a region, if the region has so many.
fn put_one<A: Allocator>(region: &mut Pages<A>, size: u64, i: u64, page: &RoundPage<'_>)
    requires same { region.old.size ≡ size }
    requires len { HasPageSize size page.now }
    ensures { region.new ≡ with_content region.old i (bytes_given size page.now) }
{
    if i < region.len() {
        match page.content {
            Some(bytes) => region.put(i, bytes),
            None => region.put_zeros(i),
        }
    }
}

// Writes a page where it lies in some regions of a block, which begin at page `first` of it.
fn put_among<A: Allocator>(
    part: &mut [Pages<A>],
    per: u64,
    size: u64,
    block: usize,
    first: u64,
    page: &RoundPage<'_>,
)
    requires per { 0 < per }
    requires are { All (IsRegion per size) part.old }
    requires len { HasPageSize size page.now }
    ensures { PutsRegions size per block first part.old part.new (page.now ∷ []) }
{
    if let Some((n, i)) = region_at(page.place, block, first, per, part.len()) {
        put_one(&mut part[n], size, i, page);
    }
}

// Writes the pages that lie in some regions of a block, which begin at page `first` of it.
fn put_within<A: Allocator>(
    part: &mut [Pages<A>],
    per: u64,
    size: u64,
    block: usize,
    first: u64,
    pages: &[RoundPage<'_>],
)
    requires per { 0 < per }
    requires are { All (IsRegion per size) part.old }
    requires sizes { All (HasPageSize size) pages.now }
    ensures { PutsRegions size per block first part.old part.new pages.now }
{
    for page in pages {
        put_among(part, per, size, block, first, page);
    }
}

// Returns how many regions each thread has: of `regions` regions, for a round of `round` pages.
fn regions_each(regions: usize, round: u64, threads: u64) -> usize
    requires { 0 < threads }
    ensures { 0 < result }
{
    let useful = useful_threads(round, threads).min(regions as u64).max(1);
    regions.div_ceil(useful as usize).max(1)
}

/// Writes the pages that lie in the regions of a block, which have `per` pages of `size` bytes
/// each, by at most `threads` threads.
pub(crate) fn put_regions<R: Threads + Sync, A: Allocator + Send>(
    rt: &R,
    regions: &mut [Pages<A>],
    per: u64,
    size: u64,
    block: usize,
    threads: u64,
    pages: &[RoundPage<'_>],
)
    requires per { 0 < per }
    requires threads { 0 < threads }
    requires room { length regions.old * per ≤ 2 ^ 40 }
    requires are { All (IsRegion per size) regions.old }
    requires sizes { All (HasPageSize size) pages.now }
    ensures { PutsRegions size per block 0 regions.old regions.new pages.now }
{
    let count = regions_each(regions.len(), pages.len() as u64, threads);
    thread::for_each_chunk_mut(
        rt,
        regions,
        count,
        &|start: usize, part: &mut [Pages<A>]|
            requires room { start * per ≤ 2 ^ 40 }
            requires per { 0 < per }
            requires are { All (IsRegion per size) part.now }
            requires sizes { All (HasPageSize size) pages.now }
            ensures { PutsRegions size per block (start * per) part.entry.now part.exit.now pages.entry.now }
        { put_within(part, per, size, block, start as u64 * per, pages) },
    );
}
