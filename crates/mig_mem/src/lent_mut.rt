//! A guest's memory in bytes that another owns, lent for writing. Callers of `InPlaceLoader` and
//! `Target::over` load into one.

ghost use Rattle.std.specs.Prelude.{◌≡◌, ◌↔◌, ◌*◌, ◌<◌, length, map, All, IfOk, IfErr, IsOk, IsTrue};
ghost use Rattle.mig_mem.specs.Lent.{mut_lent_bytes, lent_image, FitTable};
ghost use Rattle.mig_mem.specs.Puts.{round_page, HasPageSize};
ghost use Rattle.mig_mem.specs.Round.{with_round};

use crate::pages::clear_part;
use crate::parts::write_part;
use crate::putting::put_blocks;
use crate::{GuestTarget, Place, RoundPage, Table, ThreadedTarget};
use std::alloc::{Allocator, Global};
use std::fmt;
use std::marker::Model;
use std::thread::Threads;

/// The memory of a guest in the caller's own bytes, so that a guest is loaded where it is to run:
/// one slice for each block, in the table's order, each with the block's pages one after another.
/// Nothing is copied or allocated.
///
/// The memory begins with what the bytes hold: they need not be zeros. While they are lent nobody
/// else reads or writes them: the guest doesn't run yet.
///
/// # Examples
///
/// The pages of a round are written into blocks, by up to `threads` threads:
///
/// <!-- quoted from crates/mig_mem_tests/src/threaded.rt -->
/// ```rust
/// let mut memory = LentMemoryMut::new(table, blocks)
///     .ok()
///     .expect(rt, "a memory");
/// memory.put_pages(rt, threads, pages);
/// ```
#[derive(Drop)]
pub struct LentMemoryMut<'a, 'b, A: Allocator = Global> {
    table: &'a Table<A>,
    blocks: &'a mut [&'b mut [u8]],
}

impl<'a, 'b, A: Allocator> Model for LentMemoryMut<'a, 'b, A> {
    ghost use Rattle.mig_mem.specs.Image.{Image};
    ghost use Rattle.mig_mem.specs.Lent.{mut_lent_bytes, lent_image, FitTable};

    ghost Value = { Image };

    ghost view = { λ m. lent_image m.table.now (mut_lent_bytes m.blocks.now) };

    ghost invariant = { λ m. FitTable m.table.now (mut_lent_bytes m.blocks.now) };
}

impl<'a, 'b, A: Allocator> fmt::Debug for LentMemoryMut<'a, 'b, A> {
    fn fmt<W: fmt::Write>(&self, f: &mut fmt::Formatter<W>) -> fmt::Result {
        f.pad("LentMemoryMut { .. }")
    }
}

// Returns whether there is a slice for each block, as long as its pages.
fn fit<A: Allocator>(table: &Table<A>, blocks: &[&mut [u8]]) -> bool
    ensures { IsTrue result ↔ FitTable table.now (mut_lent_bytes blocks.now) }
{
    if blocks.len() != table.len() {
        return false;
    }
    for i in 0..table.len() {
        if blocks[i].len() as u64 != table.pages(i) * table.page_size() {
            return false;
        }
    }
    true
}

impl<'a, 'b, A: Allocator> LentMemoryMut<'a, 'b, A> {
    /// Creates the memory of these bytes.
    ///
    /// # Errors
    ///
    /// The slices, as they were: they don't fit the table.
    pub fn new(
        table: &'a Table<A>,
        blocks: &'a mut [&'b mut [u8]],
    ) -> Result<LentMemoryMut<'a, 'b, A>, &'a mut [&'b mut [u8]]>
        ensures image { IfOk result (λ m. m ≡ lent_image table.now (mut_lent_bytes blocks.old)) }
        ensures fits { IsOk result ↔ FitTable table.now (mut_lent_bytes blocks.old) }
        ensures back { IfErr result (λ slices. slices.now ≡ blocks.old) }
    {
        if !fit(table, blocks) {
            return Err(blocks);
        }
        Ok(LentMemoryMut { table, blocks })
    }

    /// Writes the pages of a round by at most `threads` threads, including the caller's. All others
    /// have ended when the call returns.
    ///
    /// If a page occurs more than once, the last one counts. A page whose place is outside the
    /// table isn't written.
    ///
    /// The blocks are written one after another. A thread has about 1,024 pages of a block or more,
    /// and there are no more threads than the round has pages for. So a round or a block of fewer
    /// than 2,048 pages is written by the caller's thread alone. Each thread walks all pages of the
    /// round, once for each block.
    pub fn put_pages<R: Threads + Sync>(&mut self, rt: &R, threads: u64, pages: &[RoundPage<'_>])
        requires threads { 0 < threads }
        requires sizes { All (HasPageSize self.old.table.page_size) pages.now }
        ensures { self.new ≡ with_round self.old (map (round_page self.old.table.page_size) pages.now) }
    {
        // its page size is one of the two
        self.table.keeps_limits();
        let size = self.table.page_size();
        put_blocks(rt, self.blocks, size, threads, pages);
    }

    /// Returns slices whose bytes are the memory. They are the slices that `new` was passed, in
    /// their order. The contract doesn't say so.
    pub fn into_blocks(self) -> &'a mut [&'b mut [u8]]
        ensures image { self.entry ≡ lent_image self.entry.table (mut_lent_bytes result.now) }
        ensures fits { FitTable self.entry.table (mut_lent_bytes result.now) }
    {
        self.blocks
    }
}

impl<'a, 'b, A: Allocator> GuestTarget for LentMemoryMut<'a, 'b, A> {
    type Alloc = A;

    ghost image = { λ m. m };

    fn table(&self) -> &Table<A> {
        self.table
    }

    fn put_page(&mut self, place: Place, bytes: &[u8]) {
        let size = self.table.page_size();
        write_part(self.blocks[place.block], size, place.page, bytes);
    }

    fn put_zero_page(&mut self, place: Place) {
        // its page size is one of the two
        self.table.keeps_limits();
        let size = self.table.page_size();
        clear_part(self.blocks[place.block], size, place.page);
    }
}

impl<'a, 'b, A: Allocator> ThreadedTarget for LentMemoryMut<'a, 'b, A> {
    fn put_pages<R: Threads + Sync>(&mut self, rt: &R, threads: u64, pages: &[RoundPage<'_>]) {
        LentMemoryMut::put_pages(self, rt, threads, pages);
    }
}
